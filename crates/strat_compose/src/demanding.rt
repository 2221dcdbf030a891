//! The driven formula: the existential copies keep their constraints and are fair, and the body
//! holds.

ghost use Rattle.std.specs.Prelude.{◌≡◌, ◌+◌, ◌≤◌, ◌<◌, length, map, IfOk};
ghost use Rattle.hy_formula.specs.Trees.{and, atom, finally, globally, tree_of};
ghost use Rattle.hy_formula.specs.Atoms.{atoms_of, plain_atom};
ghost use Rattle.strat_compose.specs.Driving.{name_count};
ghost use Rattle.strat_compose.specs.Formulas.{are_fair as are_fair_of, driven_body as driven_body_of, is_kept as is_kept_of, kept_part as kept_part_of};

use crate::atom_numbers::numbered;
use crate::gathering::gather;
use aig_net::Net;
use hy_base::M;
use hy_formula::{Atom, Body, conjoin};
use std::alloc::Global;

/// The driven formula's body, for a body with these atoms and `e` existential copies. In time
/// linear in the body, times its atoms.
pub fn driven_body(alloc: Global, net: &Net, e: u32, atoms: &[Atom], body: &Body) -> M<Body>
    requires few { name_count net.now e (map plain_atom atoms.now) ≤ 64 }
    requires existential { 0 < e }
    requires atoms { map plain_atom atoms.now ≡ atoms_of (tree_of body.now) }
    ensures { IfOk result (λ made. tree_of made ≡ driven_body_of net.now e (tree_of body.now)) }
{
    let first = atoms.len() as u8;
    let kept = kept_part(alloc, net, first)?;
    let owed = e as usize * net.fairs().len();
    let fair = are_fair(alloc, first + 1, owed as u8)?;
    let own = numbered(alloc, atoms, body)?;
    let rest = conjoin(alloc, fair, own)?;
    let demanded = conjoin(alloc, kept, rest)?;
    gather(alloc, &demanded)
}

/// The output of this number holds at each position, where the circuit has constraints.
fn kept_part(alloc: Global, net: &Net, name: u8) -> M<Body>
    requires { name < 64 }
    ensures { IfOk result (λ made. tree_of made ≡ kept_part_of net.now name) }
{
    if net.constraints().is_empty() {
        Ok(Body::True)
    } else {
        is_kept(alloc, name)
    }
}

/// The output of this number holds at each position.
fn is_kept(alloc: Global, name: u8) -> M<Body>
    requires { name < 64 }
    ensures { IfOk result (λ made. tree_of made ≡ is_kept_of name) }
{
    Ok(Body::Globally(Box::new(alloc, Body::Atom(Atom { name, var: 0 }))?))
}

/// Each of `n` outputs from this number on holds again and again.
fn are_fair(alloc: Global, name: u8, n: u8) -> M<Body>
    requires { name + n ≤ 64 }
    ensures { IfOk result (λ made. tree_of made ≡ are_fair_of name n) }
{
    if n == 0 {
        return Ok(Body::True);
    }
    let rest = are_fair(alloc, name + 1, n - 1)?;
    with_fair(alloc, name, rest)
}

/// The output of this number holds again and again, and the body holds.
fn with_fair(alloc: Global, name: u8, rest: Body) -> M<Body>
    requires { name < 64 }
    ensures { IfOk result (λ made. tree_of made
        ≡ and (globally (finally (atom name 0))) (tree_of rest)) }
{
    let again = Body::Finally(Box::new(alloc, Body::Atom(Atom { name, var: 0 }))?);
    let always = Body::Globally(Box::new(alloc, again)?);
    conjoin(alloc, always, rest)
}
