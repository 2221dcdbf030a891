//! The indexed atoms of a body, and what the code of a joint letter says of them.

ghost use Rattle.std.specs.Prelude.{◌≡◌, ◌≤◌, length, map, IfOk, IfErr};
ghost use Rattle.hy_formula.specs.Trees.{tree_of};
ghost use Rattle.hy_formula.specs.Atoms.{plain_atom, atoms_of};
ghost use Rattle.fin_monitor.specs.Codes.{letter_of};
ghost use Rattle.fin_monitor.specs.Lefts.{IsAtomMask};
ghost use Rattle.fin_monitor.specs.Limits.{IsAtomsRefusal};

use crate::monitor_error::MonitorError;
use hy_base::Kind;
use hy_formula::{Atom, AtomList, Body, atoms_of};
use std::alloc::Global;

/// The most indexed atoms of a monitor.
pub const MOST_ATOMS: usize = 16;

/// The different atoms of a body, in the order of their first occurrence. `Limit` comes exactly where
/// there are more than 16, and as soon as one more is met. In time linear in the body.
pub fn atoms_in(alloc: Global, body: &Body) -> Result<AtomList, MonitorError>
    ensures atoms { IfOk result (λ list. map plain_atom list ≡ atoms_of (tree_of body.now)) }
    ensures few { IfOk result (λ list. length list ≤ 16) }
    ensures refused { IfErr result (IsAtomsRefusal (tree_of body.now)) }
{
    match atoms_of(alloc, body, MOST_ATOMS)? {
        Some(atoms) => Ok(atoms),
        None => Err(MonitorError::Limit(Kind::Atoms)),
    }
}

/// Whether the joint letter of a code has the atom.
pub fn holds(atoms: &[Atom], a: Atom, code: u32) -> bool
    requires { length atoms.now ≤ 16 }
    ensures { result ≡ letter_of (map plain_atom atoms.now) code a.name a.var }
{
    for (i, known) in atoms.iter().enumerate() {
        if *known == a {
            return (code >> i) & 1 == 1;
        }
    }
    false
}

/// The bit of a code that says whether its letter has the atom; none where the atom is no one of the
/// list.
pub fn mask_of(atoms: &[Atom], a: Atom) -> u32
    requires { length atoms.now ≤ 16 }
    ensures { IsAtomMask (map plain_atom atoms.now) a.name a.var result }
{
    for (i, known) in atoms.iter().enumerate() {
        if *known == a {
            return 1 << i;
        }
    }
    0
}
