//! Whether a clause follows by its chain from those before it.

ghost use Rattle.std.specs.Prelude.{◌≡◌, ◌<◌, ◌+◌, ◌++◌, ◌↔◌, [], map, neg_ℤ, IfOk, IsTrue, MatchOption};
ghost use Rattle.chain_check.specs.Clauses.{Clause, AreClauses, AreLiterals, IsApart};
ghost use Rattle.chain_check.specs.Chains.{IsNumbered, Refutes, Follows};

use crate::clauses::Clauses;
use crate::literal::Literal;
use crate::partial::{Open, Partial};
use hy_base::M;

/// The clause with this number, from 1, among the given and then the learned ones.
fn numbered<'a>(given: &'a Clauses, learned: &'a Clauses, number: u32) -> Option<&'a [Literal]>
    ensures { MatchOption result ((c : Clause) → ¬ IsNumbered (given.now ++ learned.now) number c)
        (λ c. IsNumbered (given.now ++ learned.now) number c.now) }
{
    let number = number as usize;
    if number == 0 {
        return None;
    }
    let place = number - 1;
    if place < given.len() {
        return Some(given.clause(place));
    }
    let place = place - given.len();
    if place < learned.len() {
        return Some(learned.clause(place));
    }
    None
}

/// Makes the opposites of the clause's literals true. False where it has a literal that is none, or
/// one together with its opposite.
fn oppose(partial: &mut Partial, clause: &[i32]) -> M<bool>
    requires { partial.old.literals ≡ [] }
    ensures variables { partial.new.variables ≡ partial.old.variables }
    ensures made { IfOk result (λ right. IsTrue right →
        (partial.new.literals ≡ map neg_ℤ clause.now) ×
        AreLiterals partial.new.variables clause.now × IsApart clause.now) }
    ensures refused { IfOk result (λ right. AreLiterals partial.new.variables clause.now →
        IsApart clause.now → IsTrue right) }
{
    let variables = partial.variables();
    for number in clause {
        let l = Literal::new(*number);
        if !l.is_of(variables) {
            return Ok(false);
        }
        if partial.is_true(l) {
            return Ok(false);
        }
        partial.make_true(l.opposite())?;
    }
    Ok(true)
}

/// Whether the chain refutes what is true, in time linear in the sizes of its clauses.
fn refutes(partial: &mut Partial, given: &Clauses, learned: &Clauses, chain: &[u32]) -> M<bool>
    requires { AreClauses partial.old.variables (given.now ++ learned.now) }
    ensures variables { partial.new.variables ≡ partial.old.variables }
    ensures exact { IfOk result (λ yes. IsTrue yes ↔
        Refutes (given.now ++ learned.now) partial.old.literals chain.now) }
{
    for (i, number) in chain.iter().enumerate() {
        let Some(clause) = numbered(given, learned, *number) else {
            return Ok(false);
        };
        match partial.openness(clause) {
            Open::Nothing => return Ok(i + 1 == chain.len()),
            Open::One(l) => partial.make_true(l)?,
            Open::More => return Ok(false),
        }
    }
    Ok(false)
}

/// Whether the clause follows by its chain, in time linear in it and in the sizes of the clauses of
/// the chain. What was made true for it stays so, also where memory ran out.
pub fn follows(
    partial: &mut Partial,
    given: &Clauses,
    learned: &Clauses,
    clause: &[i32],
    chain: &[u32],
) -> M<bool>
    requires none { partial.old.literals ≡ [] }
    requires right { AreClauses partial.old.variables (given.now ++ learned.now) }
    ensures variables { partial.new.variables ≡ partial.old.variables }
    ensures exact { IfOk result (λ yes. IsTrue yes ↔
        Follows partial.old.variables (given.now ++ learned.now) clause.now chain.now) }
{
    if !oppose(partial, clause)? {
        return Ok(false);
    }
    refutes(partial, given, learned, chain)
}
