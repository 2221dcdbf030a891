//! The search, level by level.

ghost use Rattle.std.specs.Prelude.{◌≡◌, ◌*◌, ◌≤◌, ◌^◌, length, IsTrue, IfOk, All};
ghost use Rattle.aig_net.specs.Nets.{variables};
ghost use Rattle.cnf_frames.specs.Facts.{AllIn, IsSafe};
ghost use Rattle.ic3_search.specs.LatchClauses.{IsLatchFact};

use crate::asker::Budget;
use crate::clauses::clauses_of;
use crate::cone::Cone;
use crate::cubes::Cube;
use crate::engine::{Engine, LEVELS, Step};
use crate::numbers::Numbers;
use crate::obligations::Course;
use crate::paths::path_from;
use crate::question::Question;
use crate::reducing::reduced;
use crate::targets::{bad_states, seen_states};
use cnf_frames::{Inv, step_fits};
use hy_base::{List, M};
use live_safe::SafeNet;
use std::alloc::Global;

/// How many variables a net may have.
const MOST_VARIABLES: u32 = 8_388_608;

/// How many clauses a call of the solver may learn.
const CONFLICTS: u32 = 1_000;

/// What a search found.
#[derive(Drop)]
pub struct Found {
    /// The clauses, if any were found.
    pub clauses: Inv,
    /// How many steps the path to `bad` has that the search met, if it met one.
    pub path: Option<u32>,
}

/// What a search for one target comes to.
#[derive(Drop)]
enum Answer {
    /// Cubes from outside which no step leads into one or to the target.
    Cubes(Vec<Cube>),
    /// A path of so many steps.
    Path(u32),
    /// It was not decided.
    Open,
}

impl Engine {
    /// Excludes from the last level all states with a step to the target.
    fn exclude_target(&mut self, alloc: Global) -> M<Course> {
        let last = self.levels.saturating_sub(1);
        let target = self.target.copy(alloc)?;
        for _turn in 0..self.asker.left().calls as u64 + 1 {
            match self.step_into(alloc, last, target.as_slice())? {
                Step::None(_) => return Ok(Course::Excluded),
                Step::From(_) if last == 0 => return Ok(Course::Path(1)),
                Step::From(values) => {
                    let cube = self.before(alloc, &values, target.as_slice())?;
                    match self.exclude(alloc, cube)? {
                        Course::Excluded => {}
                        course => return Ok(course),
                    }
                }
                Step::Unknown => return Ok(Course::Open),
            }
        }
        Ok(Course::Open)
    }

    /// Adds levels until the states of one have all that steps from them lead to, none of them of the
    /// target: the cubes that it excludes.
    fn run(&mut self, alloc: Global) -> M<Answer> {
        for last in 0..LEVELS - 1 {
            self.levels = last + 1;
            match self.exclude_target(alloc)? {
                Course::Excluded => {}
                Course::Path(steps) => return Ok(Answer::Path(steps)),
                Course::Open => return Ok(Answer::Open),
            }
            self.levels = last + 2;
            if let Some(level) = self.push_levels(alloc)? {
                return Ok(Answer::Cubes(self.lemmas.above(alloc, level)?));
            }
        }
        Ok(Answer::Open)
    }
}

/// Whether queries about a step are within their limits.
pub(crate) fn fits(safe: &SafeNet, inv: &Inv) -> bool
    ensures { IsTrue result → 2 * variables safe.now.net ≤ 2 ^ 24 }
{
    safe.net.variables() <= MOST_VARIABLES && step_fits(safe, inv, 0).is_ok()
}

/// What a search comes to within a budget.
fn search(alloc: Global, question: &Question<'_>, budget: Budget) -> M<Answer>
    requires inside { AllIn (length question.now.safe.now.net.latches) question.now.facts.now }
    requires few { 2 * variables question.now.safe.now.net ≤ 2 ^ 24 }
{
    let facts = question.facts.as_slice();
    let cone = Cone::new(alloc, question.safe, facts, question.target)?;
    let numbers = Numbers::new(alloc, question.safe, &cone)?;
    let mut engine = Engine::new(alloc, question, &numbers, budget)?;
    match engine.run(alloc)? {
        Answer::Cubes(cubes) => {
            let left = engine.asker.left();
            Ok(Answer::Cubes(reduced(alloc, question, &numbers, cubes, left)?))
        }
        answer => Ok(answer),
    }
}

/// What a search comes to: first against the states where each until was seen since one was saved,
/// which have a much smaller cone, and where that meets a path that leads to no bad state, or is not
/// decided, against the bad ones.
fn search_twice(alloc: Global, safe: &SafeNet, facts: &Inv, budget: Budget) -> M<Answer>
    requires safe { IsSafe safe.now }
    requires inside { AllIn (length safe.now.net.latches) facts.now }
    requires few { 2 * variables safe.now.net ≤ 2 ^ 24 }
{
    let target = seen_states(alloc, safe)?;
    let question = Question {
        safe,
        facts,
        target: target.as_slice(),
    };
    match search(alloc, &question, budget)? {
        Answer::Cubes(cubes) => return Ok(Answer::Cubes(cubes)),
        Answer::Path(steps) => {
            if let Some(steps) = path_from(alloc, safe, steps, budget.conflicts)? {
                return Ok(Answer::Path(steps));
            }
        }
        Answer::Open => {}
    }
    let target = bad_states(alloc, safe)?;
    let question = Question {
        safe,
        facts,
        target: target.as_slice(),
    };
    search(alloc, &question, budget)
}

/// Clauses over the latches of a safe net, each ascending and true at the start. Where all facts
/// hold and are kept, each step keeps the clauses too, and no state with all of them has a step to a
/// bad one: so it is meant, and the caller asks. There is no clause where none were found, since a
/// path reaches `bad`, since the calls of the solver were used up, or since a query about one step
/// is past the limits of queries. Of a path to `bad` that the search met the length is given, and so
/// it is meant, too.
///
/// Each of two searches calls the solver `calls` times at most, and each call learns 1,000 clauses at
/// most. Between two calls it takes time linear in the literals of the clauses that are known, and
/// mostly less.
pub fn find_clauses(alloc: Global, safe: &SafeNet, inv: &Inv, calls: u32) -> M<Found>
    requires safe { IsSafe safe.now }
    requires inside { AllIn (length safe.now.net.latches) inv.now }
    ensures clauses { IfOk result (λ found.
        All (IsLatchFact (length safe.now.net.latches)) found.clauses) }
    ensures inside { IfOk result (λ found. AllIn (length safe.now.net.latches) found.clauses) }
{
    let mut found = Found {
        clauses: List::new(alloc),
        path: None,
    };
    if !fits(safe, inv) {
        return Ok(found);
    }
    let budget = Budget {
        calls,
        conflicts: CONFLICTS,
    };
    match search_twice(alloc, safe, inv, budget)? {
        Answer::Cubes(cubes) => {
            found.clauses = clauses_of(alloc, cubes.as_slice(), safe.net.latches().len())?;
        }
        Answer::Path(steps) => found.path = Some(steps),
        Answer::Open => {}
    }
    Ok(found)
}
