//! Latches that are equal, as far as steps keep it: the largest classes of latches such that from a
//! state where those of each class are equal each step leads to such a state (van Eijk, "Sequential
//! equivalence checking without state space traversal", DATE 1998). What is found are candidates.

ghost use Rattle.std.specs.Prelude.{◌*◌, ◌≤◌, ◌<◌, ◌^◌, length, IfOk};
ghost use Rattle.aig_net.specs.Nets.{variables};
ghost use Rattle.cnf_frames.specs.Facts.{AllIn, IsSafe};

use crate::asker::{Asker, Budget};
use crate::classes::Classes;
use crate::cone::Cone;
use crate::finding::fits;
use crate::lanes::Lanes;
use crate::layout::{Layout, push_cube};
use crate::numbers::{Numbers, Pair};
use crate::question::Question;
use crate::targets::{bad_states, seen_states};
use crate::variables::{first_and, first_latch};
use aig_net::Net;
use chain_check::Literal;
use cnf_frames::Inv;
use hy_base::{List, M};
use live_safe::SafeNet;
use sat_core::Reply;
use std::alloc::Global;

/// How often the solver may be called.
const CALLS: u32 = 1_000_000;

/// A variable, and the first of its class, if that is not the constant.
#[derive(Clone, Copy)]
struct Couple {
    own: Pair,
    first: Option<Pair>,
}

impl Couple {
    /// That the variable has this value, and the first of its class the other one.
    fn apart(&self, alloc: Global, value: bool) -> M<Vec<Literal>> {
        let mut literals = vec![in alloc; self.own.of(value); 1]?;
        if let Some(first) = self.first {
            literals.push(first.of(!value))?;
        }
        Ok(literals)
    }

    /// The clause that excludes this.
    fn together(&self, alloc: Global, value: bool) -> M<Vec<i32>> {
        let mut clause = vec![in alloc; self.own.of(!value).number(); 1]?;
        if let Some(first) = self.first {
            clause.push(first.of(value).number())?;
        }
        Ok(clause)
    }

    /// Whether the first of the class may have the other value: the constant is 0.
    fn may_be(&self, value: bool) -> bool {
        value || self.first.is_some()
    }
}

/// The couple of a variable with these literals and the first of its class, if that is another one.
fn couple_of(
    variable: usize,
    first: usize,
    own: Option<Pair>,
    other: Option<Pair>,
) -> Option<Couple> {
    if variable <= first {
        return None;
    }
    let own = own?;
    let first = match first {
        0 => None,
        _ => Some(other?),
    };
    Some(Couple { own, first })
}

/// For each variable of the constant, the inputs and the latches whether it is the constant, or a
/// latch that matters.
fn zeros(alloc: Global, net: &Net, cone: &Cone) -> M<Vec<bool>> {
    let first = first_latch(net);
    let mut zeros = Vec::new(alloc);
    for variable in 0..first_and(net) {
        let matters = cone.before.get(variable as usize) == Some(&true);
        zeros.push(variable == 0 || first <= variable && matters)?;
    }
    Ok(zeros)
}

/// How many are marked.
fn many_of(marks: &[bool]) -> usize {
    let mut many: usize = 0;
    for is_marked in marks {
        many = many.saturating_add(usize::from(*is_marked));
    }
    many
}

/// Classes on their way.
#[derive(Drop)]
struct Equating<'a> {
    numbers: Numbers,
    asker: Asker,
    classes: Classes,
    lanes: Lanes<'a>,
    /// How many variables the constant, the inputs and the latches have.
    many: usize,
}

impl Equating<'_> {
    /// Begins a session in which the latches of each class are equal before the step.
    fn assume(&mut self, alloc: Global) -> M<()> {
        self.asker.renew(alloc)?;
        for variable in 1..self.many {
            let first = self.classes.first(variable);
            let own = self.numbers.before(variable);
            if let Some(couple) = couple_of(variable, first, own, self.numbers.before(first)) {
                self.assume_couple(alloc, &couple)?;
            }
        }
        Ok(())
    }

    fn assume_couple(&mut self, alloc: Global, couple: &Couple) -> M<()> {
        for value in [false, true] {
            if couple.may_be(value) {
                let clause = couple.together(alloc, value)?;
                self.asker.add(alloc, clause.as_slice())?;
            }
        }
        Ok(())
    }

    /// Splits classes by walks from the step that was found.
    fn walk_from(&mut self, alloc: Global, values: &[bool]) -> M<()> {
        for variable in 1..self.many {
            if let Some(pair) = self.numbers.before(variable)
                && let Some(value) = values.get(pair.place())
            {
                self.lanes.put(variable, *value);
            }
        }
        self.lanes.walk(alloc, &mut self.classes)
    }

    /// Whether no step is found behind which the couple has these values.
    fn is_excluded(&mut self, alloc: Global, couple: &Couple, value: bool) -> M<bool> {
        if !couple.may_be(value) {
            return Ok(true);
        }
        let ends = couple.apart(alloc, value)?;
        match self.asker.ask(alloc, ends.as_slice())? {
            Reply::Core(_) => return Ok(true),
            Reply::Values(values) => self.walk_from(alloc, values.as_slice())?,
            Reply::Spent => {}
        }
        Ok(false)
    }

    /// Asks whether each step keeps that the variable is as the first of its class, and takes it out
    /// where that is not found.
    fn is_kept(&mut self, alloc: Global, variable: usize) -> M<bool> {
        let first = self.classes.first(variable);
        let own = self.numbers.after(variable);
        let Some(couple) = couple_of(variable, first, own, self.numbers.after(first)) else {
            return Ok(true);
        };
        if self.is_excluded(alloc, &couple, true)? && self.is_excluded(alloc, &couple, false)? {
            return Ok(true);
        }
        if self.classes.first(variable) == first {
            self.classes.leave(variable);
        }
        Ok(false)
    }

    /// Asks for each variable. Whether all classes are as they were.
    fn round(&mut self, alloc: Global) -> M<bool> {
        self.assume(alloc)?;
        let mut all = true;
        for variable in 1..self.many {
            all = self.is_kept(alloc, variable)? && all;
        }
        Ok(all)
    }

    /// Splits classes as long as steps do.
    fn run(&mut self, alloc: Global) -> M<()> {
        self.lanes.walk(alloc, &mut self.classes)?;
        for _round in 0..self.many {
            if self.round(alloc)? {
                return Ok(());
            }
        }
        Ok(())
    }

    /// Whether no step leads to the target from a state where the latches of each class are equal.
    fn excludes(&mut self, alloc: Global, layout: &Layout, target: &[u32]) -> M<bool> {
        let mut ends = Vec::new(alloc);
        push_cube(layout.next.as_slice(), target, &mut ends)?;
        match self.asker.ask(alloc, ends.as_slice())? {
            Reply::Core(_) => Ok(true),
            _ => Ok(false),
        }
    }
}

/// Facts about equal latches.
#[derive(Drop)]
struct Equal {
    facts: Inv,
    /// Whether a step may lead to the target where they hold, and yet half of the latches that matter
    /// have one.
    goes_on: bool,
}

/// The classes of the latches that matter to the target.
fn equal_latches(alloc: Global, question: &Question<'_>, conflicts: u32) -> M<Equal>
    requires inside { AllIn (length question.now.safe.now.net.latches) question.now.facts.now }
    requires few { 2 * variables question.now.safe.now.net ≤ 2 ^ 24 }
    requires conflicts { conflicts < 2 ^ 31 }
    ensures inside { IfOk result (λ equal.
        AllIn (length question.now.safe.now.net.latches) equal.facts) }
    ensures few { IfOk result (λ equal.
        length equal.facts ≤ length question.now.safe.now.net.latches) }
{
    let net = &question.safe.net;
    let cone = Cone::new(
        alloc,
        question.safe,
        question.facts.as_slice(),
        question.target,
    )?;
    let numbers = Numbers::new(alloc, question.safe, &cone)?;
    let are_zero = zeros(alloc, net, &cone)?;
    let budget = Budget {
        calls: CALLS,
        conflicts,
    };
    let layout = Layout::new(alloc, question, &numbers, 0)?;
    let mut equating = Equating {
        asker: Asker::new(alloc, question, &numbers, 0, budget)?,
        numbers,
        classes: Classes::new(alloc, are_zero.as_slice())?,
        lanes: Lanes::new(alloc, net, cone.before)?,
        many: are_zero.len(),
    };
    equating.run(alloc)?;
    let excluded = equating.excludes(alloc, &layout, question.target)?;
    let start = first_latch(net) as usize;
    let facts = equating
        .classes
        .facts(alloc, start, net.latches().len() as u32)?;
    let half = many_of(are_zero.as_slice()) / 2;
    Ok(Equal {
        goes_on: !excluded && half <= facts.len(),
        facts,
    })
}

/// For each latch of a class one fact: that it is 0, or that it is as the first latch of the class.
/// Where these hold, each step keeps them: so it is meant, and the caller asks. First come the
/// latches on which it depends whether each until is seen, and where these facts are many and do not
/// keep that from being so, all on which `bad` depends. There is none where a query about one step
/// is past the limits of queries, and a latch is alone where `conflicts` learned clauses leave open
/// whether it may differ.
///
/// Each call of the solver is about one latch. Rounds over all latches follow one another as long as
/// a latch leaves its class, and between two calls it takes time linear in the net.
pub fn classes_of(alloc: Global, safe: &SafeNet, conflicts: u32) -> M<Inv>
    requires safe { IsSafe safe.now }
    requires conflicts { conflicts < 2 ^ 31 }
    ensures inside { IfOk result (AllIn (length safe.now.net.latches)) }
    ensures few { IfOk result (λ facts. length facts ≤ length safe.now.net.latches) }
{
    let none = List::new(alloc);
    if !fits(safe, &none) {
        return Ok(none);
    }
    let target = seen_states(alloc, safe)?;
    let question = Question {
        safe,
        facts: &none,
        target: target.as_slice(),
    };
    let equal = equal_latches(alloc, &question, conflicts)?;
    if !equal.goes_on {
        return Ok(equal.facts);
    }
    let target = bad_states(alloc, safe)?;
    let question = Question {
        safe,
        facts: &none,
        target: target.as_slice(),
    };
    Ok(equal_latches(alloc, &question, conflicts)?.facts)
}
