//! The closure of a body, and its residuals.

ghost use Rattle.std.specs.Prelude.{◌≡◌, ◌≤◌, ◌<◌, ◌∷◌, [], slice_index, length, map, IfOk, IfErr, OnOk, IsTrue, true};
ghost use Rattle.hy_formula.specs.Trees.{tree_of, vars_below};
ghost use Rattle.hy_formula.specs.Atoms.{plain_atom};
ghost use Rattle.ltl_closure.specs.Bodies.{body_nodes, body_root};
ghost use Rattle.fin_monitor.specs.Limits.{IsClosureRefusal};
ghost use Rattle.fin_monitor.specs.Tables.{IsAutomaton, IsTableRefusal};

use crate::automaton::Automaton;
use crate::explore::explore;
use crate::lefts::Judge;
use crate::monitor_error::MonitorError;
use hy_base::Kind;
use hy_bits::each_width;
use hy_formula::{AtomList, Body};
use ltl_closure::{Closure, ClosureError};
use std::alloc::Global;

/// The residuals of the body of a closure.
pub fn automaton_of(
    alloc: Global,
    closure: &Closure,
    atoms: &AtomList,
    root: u32,
) -> Result<Automaton, MonitorError>
    requires few { length atoms.now ≤ 16 }
    requires root { root < length closure.now.nodes }
    ensures automaton { IfOk result (IsAutomaton closure.now.nodes root (map plain_atom atoms.now)) }
    ensures refused { IfErr result (IsTableRefusal closure.now.nodes root
        (map plain_atom atoms.now)) }
{
    let judge = Judge {
        closure,
        atoms: atoms.as_slice(),
    };
    each_width!(closure.len(), explore(alloc, &judge, root))
}

/// The number of the body in its closure.
pub fn root_of(closure: &Closure) -> u32
    requires { 0 < length closure.now.roots }
    ensures root { result ≡ slice_index closure.now.roots 0 }
    ensures within { result < length closure.now.nodes }
{
    *closure.roots().at(0)
}

/// The closure of a body.
pub fn closure_of(alloc: Global, body: &Body, vars: u8) -> Result<Closure, MonitorError>
    requires { IsTrue (vars_below vars (tree_of body.now)) }
    ensures nodes { IfOk result (λ c. c.nodes ≡ body_nodes (tree_of body.now) true) }
    ensures roots { IfOk result (λ c. c.roots ≡ body_root (tree_of body.now) true ∷ []) }
    ensures few { OnOk result (length (body_nodes (tree_of body.now) true) ≤ 1024) }
    ensures refused { IfErr result (IsClosureRefusal (tree_of body.now)) }
{
    match Closure::of_body(alloc, body, vars, true) {
        Ok(closure) => Ok(closure),
        Err(ClosureError::Limit) => Err(MonitorError::Limit(Kind::Closure)),
        Err(ClosureError::Memory) => Err(MonitorError::Memory),
    }
}
