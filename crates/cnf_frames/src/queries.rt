//! Queries about paths of a safe net: what is asked, and its clauses.

ghost use Rattle.std.specs.Prelude.{◌≡◌, suc, ◌*◌, ◌<◌, ◌≤◌, ◌++◌, length, IfOk, IfErr, OnOk};
ghost use Rattle.hy_base.specs.Limits.{most};
ghost use Rattle.aig_net.specs.Nets.{variables};
ghost use Rattle.cnf_frames.specs.declared.queries.FrameError.TheVariants.{Memory as OutOfMemory};
ghost use Rattle.cnf_frames.specs.Facts.{AllIn, IsSafe};
ghost use Rattle.cnf_frames.specs.Queries.{IsPast, IsQuery, IsRefusal, IsWithin, good_clauses, group_of, groups};
ghost use Rattle.chain_check.specs.FewClauses.{for_each};

use crate::counts::{
    admit, base_literals, base_variables, keep_literals, keep_variables, step_literals,
    step_variables, within_limits,
};
use crate::facts::{Fact, Inv};
use crate::frames::{add_frames, add_start};
use crate::stating::{add_all_apart, add_facts, add_failings};
use crate::writing::{add_alone, number_of, opposite};
use chain_check::Cnf;
use hy_base::{Limit, M, Memory};
use live_safe::SafeNet;
use std::alloc::Global;

/// What a query asks of a safe net.
#[derive(Drop)]
pub enum Asked {
    /// A path of `k` steps from the start whose last state is bad.
    Base { k: u32 },
    /// A path of `k` + 1 pairwise distinct good states that have all facts, and a step from the last
    /// to a bad state.
    Step { inv: Inv, k: u32 },
    /// A step from a state that has all facts to one where a fact of the group fails. Group g are
    /// the facts from place 64 * g on, at most 64 of them.
    Keep { inv: Inv, group: u32 },
}

/// The clauses of what is asked: all of them can be made true exactly where there is such a path.
#[derive(Drop)]
pub struct Query {
    pub cnf: Cnf,
    pub asked: Asked,
}

/// Why there is no query.
#[derive(Clone, Copy, Debug, PartialEq, Eq)]
pub enum FrameError {
    /// It has more variables, or more literals, than are taken.
    Limit(Limit),
    /// Memory ran out.
    Memory,
}

impl From<Memory> for FrameError {
    ghost from_gives = { λ _ e. e ≡ OutOfMemory };

    fn from(_e: Memory) -> FrameError {
        FrameError::Memory
    }
}

/// The query for a path of `k` steps from the start whose last state is bad.
///
/// `Limit` comes where it has more than 16,777,216 variables, or else more than 134,217,728
/// literals; these are counted before a clause is made. In time and memory linear in the literals.
pub fn base_query(alloc: Global, safe: &SafeNet, k: u32) -> Result<Query, FrameError>
    requires { IsSafe safe.now }
    ensures query { IfOk result (λ query. IsQuery safe.now (Asked.Base k) query) }
    ensures refused { IfErr result (λ e. IsRefusal safe.now (Asked.Base k) e) }
{
    let net = &safe.net;
    let variables = admit(base_variables(net, k), base_literals(net, k))?;
    let mut cnf = Cnf::new(alloc, variables)?;
    add_frames(&mut cnf, net, k)?;
    add_start(&mut cnf, net)?;
    add_alone(&mut cnf, number_of(net, k, safe.bad))?;
    Ok(Query {
        cnf,
        asked: Asked::Base { k },
    })
}

/// The query for a path of `k` + 1 pairwise distinct good states that have all facts of `inv`, and a
/// step from the last to a bad state.
///
/// `Limit` comes where it has more than 16,777,216 variables, or else more than 134,217,728
/// literals; these are counted before a clause is made. In time and memory linear in the literals,
/// of which there are some for each two of the states.
pub fn step_query(alloc: Global, safe: &SafeNet, inv: &Inv, k: u32) -> Result<Query, FrameError>
    requires safe { IsSafe safe.now }
    requires inside { AllIn (length safe.now.net.latches) inv.now }
    ensures query { IfOk result (λ query. IsQuery safe.now (Asked.Step inv.now k) query) }
    ensures refused { IfErr result (λ e. IsRefusal safe.now (Asked.Step inv.now k) e) }
{
    let net = &safe.net;
    let facts = inv.as_slice();
    let variables = admit(step_variables(net, k), step_literals(net, facts, k))?;
    let mut cnf = Cnf::new(alloc, variables)?;
    add_frames(&mut cnf, net, k + 1)?;
    add_goods(alloc, &mut cnf, safe, facts, k)?;
    add_alone(&mut cnf, number_of(net, k + 1, safe.bad))?;
    add_all_apart(alloc, &mut cnf, net, k)?;
    Ok(Query {
        cnf,
        asked: Asked::Step {
            inv: inv.copy(alloc)?,
            k,
        },
    })
}

/// Whether the step query is within its limits, or which one it passes, as `step_query` answers it,
/// but no clause is made. Takes no memory, and time linear in the facts.
pub fn step_fits(safe: &SafeNet, inv: &Inv, k: u32) -> Result<(), Limit>
    ensures within { OnOk result (IsWithin safe.now (Asked.Step inv.now k)) }
    ensures past { IfErr result (λ limit. IsPast safe.now (Asked.Step inv.now k) limit.kind
        × (limit.limit ≡ most limit.kind)) }
{
    let net = &safe.net;
    within_limits(
        step_variables(net, k),
        step_literals(net, inv.as_slice(), k),
    )
}

/// The query for a step from a state that has all facts of `inv` to one where a fact of the group
/// fails.
///
/// `Limit` comes where it has more than 16,777,216 variables, or else more than 134,217,728
/// literals; these are counted before a clause is made. In time and memory linear in the literals.
pub fn keep_query(alloc: Global, safe: &SafeNet, inv: &Inv, group: u32) -> Result<Query, FrameError>
    requires safe { IsSafe safe.now }
    requires inside { AllIn (length safe.now.net.latches) inv.now }
    requires group { group < groups inv.now }
    ensures query { IfOk result (λ query. IsQuery safe.now (Asked.Keep inv.now group) query) }
    ensures refused { IfErr result (λ e. IsRefusal safe.now (Asked.Keep inv.now group) e) }
{
    let net = &safe.net;
    let facts = inv.as_slice();
    let some = group_slice(facts, group);
    let variables = admit(keep_variables(net, some), keep_literals(net, facts, some))?;
    let mut cnf = Cnf::new(alloc, variables)?;
    add_frames(&mut cnf, net, 1)?;
    add_facts(alloc, &mut cnf, net, 0, facts)?;
    add_failings(alloc, &mut cnf, net, some)?;
    Ok(Query {
        cnf,
        asked: Asked::Keep {
            inv: inv.copy(alloc)?,
            group,
        },
    })
}

/// Adds that the states of the frames up to `k` are good and have all facts.
#[tactic(auto, using(crate::proofs::Adding::loops))]
fn add_goods(alloc: Global, cnf: &mut Cnf, safe: &SafeNet, facts: &[Fact], k: u32) -> M<()>
    requires safe { IsSafe safe.now }
    requires room { suc k * variables safe.now.net ≤ cnf.old.variables }
    requires inside { AllIn (length safe.now.net.latches) facts.now }
    ensures variables { cnf.new.variables ≡ cnf.old.variables }
    ensures added { OnOk result (cnf.new.clauses ≡ cnf.old.clauses
        ++ for_each (good_clauses safe.now facts.now) (suc k)) }
{
    for frame in 0..k + 1 {
        add_facts(alloc, cnf, &safe.net, frame, facts)?;
        let bad = number_of(&safe.net, frame, safe.bad);
        add_alone(cnf, opposite(bad))?;
    }
    Ok(())
}

/// The facts of a group.
pub fn group_slice(facts: &[Fact], group: u32) -> &[Fact]
    requires { group < groups facts.now }
    ensures { result.now ≡ group_of facts.now group }
{
    let rest = &facts[64 * group as usize..];
    if rest.len() < 64 { rest } else { &rest[..64] }
}
