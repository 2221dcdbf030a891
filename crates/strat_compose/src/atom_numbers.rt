//! Bodies whose atoms go by their numbers.

ghost use Rattle.std.specs.Prelude.{◌≡◌, ◌≤◌, ◌<◌, length, map, IfOk};
ghost use Rattle.hy_formula.specs.Atoms.{is_atom, plain_atom};
ghost use Rattle.hy_formula.specs.Trees.{tree_of};
ghost use Rattle.strat_compose.specs.AtomNumbers.{number_in, numbered as numbered_by};

use hy_base::M;
use hy_formula::{Atom, Body};
use std::alloc::Global;

/// Whether both are the same name of the same variable.
fn is_same(known: Atom, a: Atom) -> bool
    ensures { result ≡ is_atom a.name a.var (plain_atom known) }
{
    known.name == a.name && known.var == a.var
}

/// The place of an atom, or past them all.
fn number_of(atoms: &[Atom], a: Atom) -> u8
    requires { length atoms.now < 64 }
    ensures number { result ≡ number_in (map plain_atom atoms.now) a.name a.var }
    ensures within { result ≤ length atoms.now }
{
    match atoms {
        [] => 0,
        [first, rest @ ..] => {
            if is_same(*first, a) {
                0
            } else {
                number_of(rest, a) + 1
            }
        }
    }
}

/// The body with each atom by its number, of variable 0. In time linear in the body, times the
/// atoms.
#[cycle(number)]
pub fn numbered(alloc: Global, atoms: &[Atom], body: &Body) -> M<Body>
    requires { length atoms.now < 64 }
    ensures { IfOk result (λ made. tree_of made
        ≡ numbered_by (map plain_atom atoms.now) (tree_of body.now)) }
{
    match body {
        Body::True => Ok(Body::True),
        Body::False => Ok(Body::False),
        Body::Atom(a) => Ok(Body::Atom(Atom {
            name: number_of(atoms, *a),
            var: 0,
        })),
        Body::Not(f) => Ok(Body::Not(numbered_boxed(alloc, atoms, f)?)),
        Body::Next(f) => Ok(Body::Next(numbered_boxed(alloc, atoms, f)?)),
        Body::Finally(f) => Ok(Body::Finally(numbered_boxed(alloc, atoms, f)?)),
        Body::Globally(f) => Ok(Body::Globally(numbered_boxed(alloc, atoms, f)?)),
        Body::And(f, g) => {
            let f = numbered_boxed(alloc, atoms, f)?;
            Ok(Body::And(f, numbered_boxed(alloc, atoms, g)?))
        }
        Body::Or(f, g) => {
            let f = numbered_boxed(alloc, atoms, f)?;
            Ok(Body::Or(f, numbered_boxed(alloc, atoms, g)?))
        }
        Body::Implies(f, g) => {
            let f = numbered_boxed(alloc, atoms, f)?;
            Ok(Body::Implies(f, numbered_boxed(alloc, atoms, g)?))
        }
        Body::Iff(f, g) => {
            let f = numbered_boxed(alloc, atoms, f)?;
            Ok(Body::Iff(f, numbered_boxed(alloc, atoms, g)?))
        }
        Body::Until(f, g) => {
            let f = numbered_boxed(alloc, atoms, f)?;
            Ok(Body::Until(f, numbered_boxed(alloc, atoms, g)?))
        }
        Body::Release(f, g) => {
            let f = numbered_boxed(alloc, atoms, f)?;
            Ok(Body::Release(f, numbered_boxed(alloc, atoms, g)?))
        }
        Body::Weak(f, g) => {
            let f = numbered_boxed(alloc, atoms, f)?;
            Ok(Body::Weak(f, numbered_boxed(alloc, atoms, g)?))
        }
    }
}

/// The same in a box.
#[cycle(number)]
fn numbered_boxed(alloc: Global, atoms: &[Atom], body: &Body) -> M<Box<Body>>
    requires { length atoms.now < 64 }
    ensures { IfOk result (λ made. tree_of made.value
        ≡ numbered_by (map plain_atom atoms.now) (tree_of body.now)) }
{
    Ok(Box::new(alloc, numbered(alloc, atoms, body)?)?)
}
