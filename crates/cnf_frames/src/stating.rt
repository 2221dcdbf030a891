//! The clauses of facts, and of states that differ.

ghost use Rattle.std.specs.Prelude.{◌≡◌, suc, ◌+◌, ◌*◌, ◌<◌, ◌≤◌, [], ◌∷◌, ◌++◌, map, length, neg_ℤ, All, OnOk};
ghost use Rattle.aig_net.specs.Nets.{Below, variables};
ghost use Rattle.chain_check.specs.Clauses.{IsLiteral};
ghost use Rattle.cnf_frames.specs.Facts.{AllIn, IsIn};
ghost use Rattle.cnf_frames.specs.Queries.{apart_clauses, apart_from, fact_clauses, facts_clauses, failing_clauses, fails_clauses, latch_differs, literal_in, pair_start};
ghost use Rattle.chain_check.specs.FewClauses.{for_each, guarded, some_further};

use crate::facts::Fact;
use crate::writing::{
    add, add_alone, add_alone_where, add_differ, add_differ_where, add_same, add_same_where,
    further_number, latch_literal_number, latch_number, opposite,
};
use aig_net::Net;
use chain_check::{Cnf, Literal};
use hy_base::{List, M};
use std::alloc::Global;

/// Adds that some of the literals of latches is true in a frame.
fn add_any(alloc: Global, cnf: &mut Cnf, net: &Net, frame: u32, literals: &[u32]) -> M<()>
    requires room { suc frame * variables net.now ≤ cnf.old.variables }
    requires inside { All (Below (length net.now.latches)) literals.now }
    ensures variables { cnf.new.variables ≡ cnf.old.variables }
    ensures added { OnOk result (cnf.new.clauses ≡ cnf.old.clauses
        ++ map (literal_in net.now frame) literals.now ∷ []) }
{
    net.variables(); // what each net keeps
    let mut clause = List::new(alloc);
    for l in literals {
        clause.push(latch_literal_number(net, frame, *l).number())?;
    }
    add(cnf, clause.as_slice())
}

/// Adds that a fact holds in a frame.
fn add_fact(alloc: Global, cnf: &mut Cnf, net: &Net, frame: u32, fact: &Fact) -> M<()>
    requires room { suc frame * variables net.now ≤ cnf.old.variables }
    requires inside { IsIn (length net.now.latches) fact.now }
    ensures variables { cnf.new.variables ≡ cnf.old.variables }
    ensures added { OnOk result (cnf.new.clauses ≡ cnf.old.clauses
        ++ fact_clauses net.now frame fact.now) }
{
    match fact {
        Fact::Zero(a) => add_alone(cnf, opposite(latch_number(net, frame, *a))),
        Fact::One(a) => add_alone(cnf, latch_number(net, frame, *a)),
        Fact::Same(a, b) => {
            let x = latch_number(net, frame, *a);
            add_same(cnf, x, latch_number(net, frame, *b))
        }
        Fact::Differ(a, b) => {
            let x = latch_number(net, frame, *a);
            add_differ(cnf, x, latch_number(net, frame, *b))
        }
        Fact::AnyOf(literals) => add_any(alloc, cnf, net, frame, literals.as_slice()),
    }
}

/// Adds that all facts hold in a frame.
#[tactic(auto, using(crate::proofs::Adding::loops))]
pub fn add_facts(alloc: Global, cnf: &mut Cnf, net: &Net, frame: u32, facts: &[Fact]) -> M<()>
    requires room { suc frame * variables net.now ≤ cnf.old.variables }
    requires inside { AllIn (length net.now.latches) facts.now }
    ensures variables { cnf.new.variables ≡ cnf.old.variables }
    ensures added { OnOk result (cnf.new.clauses ≡ cnf.old.clauses
        ++ facts_clauses net.now frame facts.now) }
{
    for fact in facts {
        add_fact(alloc, cnf, net, frame, fact)?;
    }
    Ok(())
}

/// Adds that where `d` is true none of the literals of latches is true in frame 1.
fn add_none(cnf: &mut Cnf, net: &Net, d: Literal, literals: &[u32]) -> M<()>
    requires room { 2 * variables net.now ≤ cnf.old.variables }
    requires inside { All (Below (length net.now.latches)) literals.now }
    requires d { IsLiteral cnf.old.variables d }
    ensures variables { cnf.new.variables ≡ cnf.old.variables }
    ensures added { OnOk result (cnf.new.clauses ≡ cnf.old.clauses
        ++ guarded d (map (λ l. neg_ℤ (literal_in net.now 1 l) ∷ []) literals.now)) }
{
    for l in literals {
        let literal = latch_literal_number(net, 1, *l);
        add_alone_where(cnf, d, opposite(literal))?;
    }
    Ok(())
}

/// Adds that where `d` is true a fact fails in frame 1.
fn add_failing(cnf: &mut Cnf, net: &Net, d: Literal, fact: &Fact) -> M<()>
    requires room { 2 * variables net.now ≤ cnf.old.variables }
    requires inside { IsIn (length net.now.latches) fact.now }
    requires d { IsLiteral cnf.old.variables d }
    ensures variables { cnf.new.variables ≡ cnf.old.variables }
    ensures added { OnOk result (cnf.new.clauses ≡ cnf.old.clauses
        ++ guarded d (failing_clauses net.now 1 fact.now)) }
{
    match fact {
        Fact::Zero(a) => add_alone_where(cnf, d, latch_number(net, 1, *a)),
        Fact::One(a) => add_alone_where(cnf, d, opposite(latch_number(net, 1, *a))),
        Fact::Same(a, b) => {
            let x = latch_number(net, 1, *a);
            add_differ_where(cnf, d, x, latch_number(net, 1, *b))
        }
        Fact::Differ(a, b) => {
            let x = latch_number(net, 1, *a);
            add_same_where(cnf, d, x, latch_number(net, 1, *b))
        }
        Fact::AnyOf(literals) => add_none(cnf, net, d, literals.as_slice()),
    }
}

/// Adds that some of the facts fails in frame 1; a further variable says of each whether it does.
#[tactic(auto, using(crate::proofs::Adding::loops))]
pub fn add_failings(alloc: Global, cnf: &mut Cnf, net: &Net, group: &[Fact]) -> M<()>
    requires room { 2 * variables net.now + length group.now ≤ cnf.old.variables }
    requires inside { AllIn (length net.now.latches) group.now }
    ensures variables { cnf.new.variables ≡ cnf.old.variables }
    ensures added { OnOk result (cnf.new.clauses ≡ cnf.old.clauses
        ++ (for_each (fails_clauses net.now group.now) (length group.now)
        ++ some_further (2 * variables net.now) (length group.now))) }
{
    let first = 2 * net.variables();
    for (i, fact) in group.iter().enumerate() {
        let d = further_number(first + i as u32);
        add_failing(cnf, net, d, fact)?;
    }
    add_some(alloc, cnf, first, group.len() as u32)
}

/// Adds that one of `n` further variables from `d` on is true.
fn add_some(alloc: Global, cnf: &mut Cnf, d: u32, n: u32) -> M<()>
    requires { d + n ≤ cnf.old.variables }
    ensures variables { cnf.new.variables ≡ cnf.old.variables }
    ensures added { OnOk result (cnf.new.clauses ≡ cnf.old.clauses ++ some_further d n) }
{
    let mut clause = List::new(alloc);
    for i in 0..n {
        clause.push(further_number(d + i).number())?;
    }
    add(cnf, clause.as_slice())
}

/// Adds that a latch differs in two frames where further variable `d` is true.
fn add_latch_differs(cnf: &mut Cnf, net: &Net, j: u32, m: u32, d: u32, i: u32) -> M<()>
    requires first { suc j * variables net.now ≤ cnf.old.variables }
    requires second { suc m * variables net.now ≤ cnf.old.variables }
    requires room { d + length net.now.latches ≤ cnf.old.variables }
    requires few { i < length net.now.latches }
    ensures variables { cnf.new.variables ≡ cnf.old.variables }
    ensures added { OnOk result (cnf.new.clauses ≡ cnf.old.clauses
        ++ latch_differs net.now j m d i) }
{
    let x = latch_number(net, j, i);
    let y = latch_number(net, m, i);
    add_differ_where(cnf, further_number(d + i), x, y)
}

/// Adds that the states of two frames differ; further variables from `d` on say which latches do.
#[tactic(auto, using(crate::proofs::Adding::loops))]
fn add_apart(alloc: Global, cnf: &mut Cnf, net: &Net, j: u32, m: u32, d: u32) -> M<()>
    requires first { suc j * variables net.now ≤ cnf.old.variables }
    requires second { suc m * variables net.now ≤ cnf.old.variables }
    requires room { d + length net.now.latches ≤ cnf.old.variables }
    ensures variables { cnf.new.variables ≡ cnf.old.variables }
    ensures added { OnOk result (cnf.new.clauses ≡ cnf.old.clauses
        ++ apart_clauses net.now j m d) }
{
    net.variables(); // what each net keeps
    let latches = net.latches().len() as u32;
    for i in 0..latches {
        add_latch_differs(cnf, net, j, m, d, i)?;
    }
    add_some(alloc, cnf, d, latches)
}

/// Adds that the state of frame `i` differs from that of each later frame up to `k`; further
/// variables stand from `d` on.
#[tactic(auto, using(crate::proofs::Adding::loops))]
fn add_apart_from(alloc: Global, cnf: &mut Cnf, net: &Net, k: u32, i: u32, d: u32) -> M<()>
    requires before { i ≤ k }
    requires start { d ≡ pair_start net.now k i 0 }
    requires room { pair_start net.now k (suc i) 0 ≤ cnf.old.variables }
    ensures variables { cnf.new.variables ≡ cnf.old.variables }
    ensures added { OnOk result (cnf.new.clauses ≡ cnf.old.clauses ++ apart_from net.now k i) }
{
    net.variables(); // what each net keeps
    let latches = net.latches().len() as u32;
    for q in 0..k - i {
        add_apart(alloc, cnf, net, i, i + 1 + q, d + q * latches)?;
    }
    Ok(())
}

/// Adds that the states of the frames up to `k` differ from one another.
#[tactic(auto, using(crate::proofs::Adding::loops))]
pub fn add_all_apart(alloc: Global, cnf: &mut Cnf, net: &Net, k: u32) -> M<()>
    requires { pair_start net.now k (suc k) 0 ≤ cnf.old.variables }
    ensures variables { cnf.new.variables ≡ cnf.old.variables }
    ensures added { OnOk result (cnf.new.clauses ≡ cnf.old.clauses
        ++ for_each (apart_from net.now k) (suc k)) }
{
    let latches = net.latches().len() as u32;
    let mut d = (k + 2) * net.variables();
    for i in 0..k + 1 {
        add_apart_from(alloc, cnf, net, k, i, d)?;
        d += (k - i) * latches;
    }
    Ok(())
}
