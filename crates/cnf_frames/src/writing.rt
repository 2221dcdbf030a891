//! Clauses of few literals, added to a list.

ghost use Rattle.std.specs.Prelude.{◌≡◌, suc, ◌+◌, ◌-◌, ◌*◌, ◌<◌, ◌≤◌, ◌^◌, ◌∷◌, ◌++◌, [], neg_ℤ, unsigned_abs, length, OnOk};
ghost use Rattle.aig_net.specs.Nets.{Below, variables};
ghost use Rattle.chain_check.specs.Clauses.{AreLiterals, IsLiteral};
ghost use Rattle.cnf_frames.specs.Queries.{in_frame, latch_in, literal_in};
ghost use Rattle.chain_check.specs.FewClauses.{alone, and_clauses, differ_clauses, further, guarded, next_clauses, same_clauses};

use aig_net::Net;
use chain_check::{Cnf, Literal};
use hy_base::{M, Memory};

/// As many clauses as a list has room for.
pub const MOST_CLAUSES: usize = 2_147_483_647;

/// The number of a literal of the net in a frame.
pub fn number_of(net: &Net, frame: u32, literal: u32) -> Literal
    requires literal { Below (variables net.now) literal }
    requires room { suc frame * variables net.now < 2 ^ 31 }
    ensures number { result ≡ in_frame (variables net.now) frame literal }
    ensures right { IsLiteral (suc frame * variables net.now) result }
{
    let number = (frame * net.variables() + literal / 2 + 1) as i32;
    Literal::new(if literal % 2 == 0 { number } else { -number })
}

/// The number of a latch in a frame.
pub fn latch_number(net: &Net, frame: u32, latch: u32) -> Literal
    requires latch { latch < length net.now.latches }
    requires room { suc frame * variables net.now < 2 ^ 31 }
    ensures number { result ≡ latch_in net.now frame latch }
    ensures right { IsLiteral (suc frame * variables net.now) result }
{
    net.variables(); // what each net keeps
    number_of(net, frame, 2 * (1 + net.inputs() + latch))
}

/// The number of a literal of latches in a frame.
pub fn latch_literal_number(net: &Net, frame: u32, l: u32) -> Literal
    requires latch { Below (length net.now.latches) l }
    requires room { suc frame * variables net.now < 2 ^ 31 }
    ensures number { result ≡ literal_in net.now frame l }
    ensures right { IsLiteral (suc frame * variables net.now) result }
{
    net.variables(); // what each net keeps
    number_of(net, frame, 2 * (1 + net.inputs() + l / 2) + l % 2)
}

/// The number of a further variable, counted from 0.
pub fn further_number(d: u32) -> Literal
    requires { d < 2 ^ 31 - 1 }
    ensures number { result ≡ further d }
    ensures right { IsLiteral (suc d) result }
{
    Literal::new((d + 1) as i32)
}

/// The opposite literal.
pub fn opposite(l: Literal) -> Literal
    requires { unsigned_abs l < 2 ^ 31 }
    ensures number { result ≡ neg_ℤ l }
    ensures variable { unsigned_abs result ≡ unsigned_abs l }
{
    l.opposite()
}

/// Adds a clause last, in time linear in it. For more clauses than a list has room for there is no
/// memory either.
pub fn add(cnf: &mut Cnf, clause: &[i32]) -> M<()>
    requires { AreLiterals cnf.old.variables clause.now }
    ensures variables { cnf.new.variables ≡ cnf.old.variables }
    ensures added { OnOk result (cnf.new.clauses ≡ cnf.old.clauses ++ clause.now ∷ []) }
{
    if cnf.clauses.len() < MOST_CLAUSES {
        cnf.add_literals(clause)
    } else {
        Err(Memory)
    }
}

/// Adds that the literal is true.
pub fn add_alone(cnf: &mut Cnf, l: Literal) -> M<()>
    requires { IsLiteral cnf.old.variables l }
    ensures variables { cnf.new.variables ≡ cnf.old.variables }
    ensures added { OnOk result (cnf.new.clauses ≡ cnf.old.clauses ++ alone l) }
{
    add(cnf, &[l.number()])
}

/// Adds a clause of two literals.
fn add_two(cnf: &mut Cnf, l: Literal, m: Literal) -> M<()>
    requires l { IsLiteral cnf.old.variables l }
    requires m { IsLiteral cnf.old.variables m }
    ensures variables { cnf.new.variables ≡ cnf.old.variables }
    ensures added { OnOk result (cnf.new.clauses ≡ cnf.old.clauses ++ (l ∷ m ∷ []) ∷ []) }
{
    add(cnf, &[l.number(), m.number()])
}

/// Adds a clause of three literals.
fn add_three(cnf: &mut Cnf, l: Literal, m: Literal, n: Literal) -> M<()>
    requires l { IsLiteral cnf.old.variables l }
    requires m { IsLiteral cnf.old.variables m }
    requires n { IsLiteral cnf.old.variables n }
    ensures variables { cnf.new.variables ≡ cnf.old.variables }
    ensures added { OnOk result (cnf.new.clauses ≡ cnf.old.clauses ++ (l ∷ m ∷ n ∷ []) ∷ []) }
{
    add(cnf, &[l.number(), m.number(), n.number()])
}

/// Adds that `l` is the and of `a` and `b`.
pub fn add_and(cnf: &mut Cnf, l: Literal, a: Literal, b: Literal) -> M<()>
    requires l { IsLiteral cnf.old.variables l }
    requires a { IsLiteral cnf.old.variables a }
    requires b { IsLiteral cnf.old.variables b }
    ensures variables { cnf.new.variables ≡ cnf.old.variables }
    ensures added { OnOk result (cnf.new.clauses ≡ cnf.old.clauses ++ and_clauses l a b) }
{
    add_two(cnf, opposite(l), a)?;
    add_two(cnf, opposite(l), b)?;
    add_three(cnf, l, opposite(a), opposite(b))
}

/// Adds that the next value `y` is `n`.
#[tactic(auto, using(crate::proofs::Adding::two_added))]
pub fn add_next(cnf: &mut Cnf, y: Literal, n: Literal) -> M<()>
    requires y { IsLiteral cnf.old.variables y }
    requires n { IsLiteral cnf.old.variables n }
    ensures variables { cnf.new.variables ≡ cnf.old.variables }
    ensures added { OnOk result (cnf.new.clauses ≡ cnf.old.clauses ++ next_clauses y n) }
{
    add_two(cnf, opposite(y), n)?;
    add_two(cnf, y, opposite(n))
}

/// Adds that both literals are the same.
#[tactic(auto, using(crate::proofs::Adding::two_added))]
pub fn add_same(cnf: &mut Cnf, x: Literal, y: Literal) -> M<()>
    requires x { IsLiteral cnf.old.variables x }
    requires y { IsLiteral cnf.old.variables y }
    ensures variables { cnf.new.variables ≡ cnf.old.variables }
    ensures added { OnOk result (cnf.new.clauses ≡ cnf.old.clauses ++ same_clauses x y) }
{
    add_two(cnf, x, opposite(y))?;
    add_two(cnf, opposite(x), y)
}

/// Adds that the literals differ.
#[tactic(auto, using(crate::proofs::Adding::two_added))]
pub fn add_differ(cnf: &mut Cnf, x: Literal, y: Literal) -> M<()>
    requires x { IsLiteral cnf.old.variables x }
    requires y { IsLiteral cnf.old.variables y }
    ensures variables { cnf.new.variables ≡ cnf.old.variables }
    ensures added { OnOk result (cnf.new.clauses ≡ cnf.old.clauses ++ differ_clauses x y) }
{
    add_two(cnf, x, y)?;
    add_two(cnf, opposite(x), opposite(y))
}

/// Adds that the literal is true where `d` is.
pub fn add_alone_where(cnf: &mut Cnf, d: Literal, l: Literal) -> M<()>
    requires d { IsLiteral cnf.old.variables d }
    requires l { IsLiteral cnf.old.variables l }
    ensures variables { cnf.new.variables ≡ cnf.old.variables }
    ensures added { OnOk result (cnf.new.clauses ≡ cnf.old.clauses ++ guarded d (alone l)) }
{
    add_two(cnf, opposite(d), l)
}

/// Adds that both literals are the same where `d` is true.
pub fn add_same_where(cnf: &mut Cnf, d: Literal, x: Literal, y: Literal) -> M<()>
    requires d { IsLiteral cnf.old.variables d }
    requires x { IsLiteral cnf.old.variables x }
    requires y { IsLiteral cnf.old.variables y }
    ensures variables { cnf.new.variables ≡ cnf.old.variables }
    ensures added { OnOk result (cnf.new.clauses ≡ cnf.old.clauses ++ guarded d (same_clauses x y)) }
{
    add_three(cnf, opposite(d), x, opposite(y))?;
    add_three(cnf, opposite(d), opposite(x), y)
}

/// Adds that the literals differ where `d` is true.
pub fn add_differ_where(cnf: &mut Cnf, d: Literal, x: Literal, y: Literal) -> M<()>
    requires d { IsLiteral cnf.old.variables d }
    requires x { IsLiteral cnf.old.variables x }
    requires y { IsLiteral cnf.old.variables y }
    ensures variables { cnf.new.variables ≡ cnf.old.variables }
    ensures added { OnOk result (cnf.new.clauses ≡ cnf.old.clauses
        ++ guarded d (differ_clauses x y)) }
{
    add_three(cnf, opposite(d), x, y)?;
    add_three(cnf, opposite(d), opposite(x), opposite(y))
}
