//! Keep queries of the same facts, whose clauses of the frames and of all facts are made once.

ghost use Rattle.std.specs.Prelude.{◌<◌, length, IfOk, IfErr};
ghost use Rattle.cnf_frames.specs.Facts.{AllIn, IsSafe};
ghost use Rattle.cnf_frames.specs.Fronts.{IsKeepFront, IsKeepRest};
ghost use Rattle.cnf_frames.specs.Queries.{IsRefusal, groups};
ghost use Rattle.cnf_frames.specs.declared.queries.Asked.TheVariants.{Keep};

use crate::counts::{admit, front_literals, keep_variables, rest_literals};
use crate::facts::Inv;
use crate::frames::add_frames;
use crate::queries::{FrameError, group_slice};
use crate::stating::{add_facts, add_failings};
use crate::writing::MOST_CLAUSES;
use chain_check::Cnf;
use live_safe::SafeNet;
use std::alloc::Global;

/// What all keep queries of facts begin with.
#[derive(Drop)]
pub struct KeepFront {
    /// The clauses of the frames and of all facts, over the variables of the frames.
    pub cnf: Cnf,
    /// How many literals they have.
    pub literals: u64,
}

/// The clauses that all keep queries of the facts begin with, made once for all of them.
///
/// `Limit` comes as `keep_query` answers it of the first group. In time and memory linear in the
/// literals.
pub fn keep_front(alloc: Global, safe: &SafeNet, inv: &Inv) -> Result<KeepFront, FrameError>
    requires safe { IsSafe safe.now }
    requires inside { AllIn (length safe.now.net.latches) inv.now }
    requires some { 0 < groups inv.now }
    ensures front { IfOk result (IsKeepFront safe.now inv.now) }
    ensures refused { IfErr result (λ e. IsRefusal safe.now (Keep inv.now 0) e) }
{
    let net = &safe.net;
    let facts = inv.as_slice();
    let first = group_slice(facts, 0);
    let literals = front_literals(net, facts);
    admit(keep_variables(net, first), literals + rest_literals(first))?;
    let mut cnf = Cnf::new(alloc, 2 * net.variables())?;
    add_frames(&mut cnf, net, 1)?;
    add_facts(alloc, &mut cnf, net, 0, facts)?;
    Ok(KeepFront {
        cnf,
        literals: literals as u64,
    })
}

/// The other clauses of the keep query of a group, over the variables of the query: with those of
/// the front before them they are all that `keep_query` makes.
///
/// `Limit` comes as `keep_query` answers it. In time and memory linear in the literals of these
/// clauses alone, however many facts there are.
pub fn keep_rest(
    alloc: Global,
    safe: &SafeNet,
    inv: &Inv,
    front: &KeepFront,
    group: u32,
) -> Result<Cnf, FrameError>
    requires safe { IsSafe safe.now }
    requires inside { AllIn (length safe.now.net.latches) inv.now }
    requires front { IsKeepFront safe.now inv.now front.now }
    requires group { group < groups inv.now }
    ensures rest { IfOk result (IsKeepRest safe.now inv.now group front.now.cnf.clauses) }
    ensures refused { IfErr result (λ e. IsRefusal safe.now (Keep inv.now group) e) }
{
    let net = &safe.net;
    let some = group_slice(inv.as_slice(), group);
    let literals = front.literals as u128 + rest_literals(some);
    let variables = admit(keep_variables(net, some), literals)?;
    let mut cnf = Cnf::new(alloc, variables)?;
    add_failings(alloc, &mut cnf, net, some)?;
    let clauses = front.cnf.clauses.len() + cnf.clauses.len();
    if clauses > MOST_CLAUSES {
        return Err(FrameError::Memory);
    }
    Ok(cnf)
}
