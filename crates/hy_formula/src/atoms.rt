//! The atoms of a body, and the names that stand in them.

ghost use Rattle.std.specs.Prelude.{◌≡◌, ◌<◌, ◌≤◌, ℕ, [], length, map, IfOk, IfSome, IfNone};
ghost use Rattle.std.specs.FinSet.{contains};
ghost use Rattle.std.specs.List.{list_any};
ghost use Rattle.hy_formula.specs.Trees.{tree_of, atom};
ghost use Rattle.hy_formula.specs.Atoms.{has_name, plain_atom, is_atom, atoms_of, AreAdded};

use crate::atom::Atom;
use crate::body::Body;
use hy_base::{List, M};
use hy_bits::LetterMask;
use std::alloc::Global;

/// Different atoms.
pub type AtomList = List<Atom>;

/// The numbers of the names in the atoms of a body, in time linear in it.
#[tactic(auto, using(crate::proofs::NameSets::no_name, crate::proofs::NameSets::one_name, crate::proofs::NameSets::either_name))]
pub fn names_of(body: &Body) -> LetterMask
    ensures { (k : ℕ) → contains result k ≡ has_name (tree_of body.now) k }
{
    match body {
        Body::True | Body::False => LetterMask::empty(),
        Body::Atom(a) => LetterMask::empty().with(usize::from(a.name)),
        Body::Not(f) => names_of(f),
        Body::Next(f) => names_of(f),
        Body::Finally(f) => names_of(f),
        Body::Globally(f) => names_of(f),
        Body::And(f, g) => names_of(f).union(&names_of(g)),
        Body::Or(f, g) => names_of(f).union(&names_of(g)),
        Body::Implies(f, g) => names_of(f).union(&names_of(g)),
        Body::Iff(f, g) => names_of(f).union(&names_of(g)),
        Body::Until(f, g) => names_of(f).union(&names_of(g)),
        Body::Release(f, g) => names_of(f).union(&names_of(g)),
        Body::Weak(f, g) => names_of(f).union(&names_of(g)),
    }
}

/// The different atoms of a body, in the order of their first occurrence, or `None` exactly where
/// there are more than `most`, as soon as one more is met. In time of the size of the body times the
/// atoms that are found.
pub fn atoms_of(alloc: Global, body: &Body, most: usize) -> M<Option<AtomList>>
    ensures atoms { IfOk result (λ found. IfSome found (λ list. map plain_atom list ≡ atoms_of (tree_of body.now))) }
    ensures few { IfOk result (λ found. IfSome found (λ list. length list ≤ most)) }
    ensures many { IfOk result (λ found. IfNone found (most < length (atoms_of (tree_of body.now)))) }
{
    let mut atoms = List::new(alloc);
    if add_atoms(body, most, &mut atoms)? {
        Ok(Some(atoms))
    } else {
        Ok(None)
    }
}

/// Adds the atoms of a body that are new, or says that there are more than `most` then.
fn add_atoms(body: &Body, most: usize, atoms: &mut AtomList) -> M<bool>
    requires { length atoms.old ≤ most }
    ensures atoms { IfOk result (AreAdded most (tree_of body.now) (map plain_atom atoms.old) (map plain_atom atoms.new)) }
    ensures few { length atoms.new ≤ most }
{
    match body {
        Body::True | Body::False => Ok(true),
        Body::Atom(a) => add_atom(*a, most, atoms),
        Body::Not(f) | Body::Next(f) | Body::Finally(f) | Body::Globally(f) => {
            add_atoms(f, most, atoms)
        }
        Body::And(f, g)
        | Body::Or(f, g)
        | Body::Implies(f, g)
        | Body::Iff(f, g)
        | Body::Until(f, g)
        | Body::Release(f, g)
        | Body::Weak(f, g) => {
            if !add_atoms(f, most, atoms)? {
                return Ok(false);
            }
            add_atoms(g, most, atoms)
        }
    }
}

/// Adds an atom that is new, or says that there are more than `most` then.
fn add_atom(a: Atom, most: usize, atoms: &mut AtomList) -> M<bool>
    requires { length atoms.old ≤ most }
    ensures atoms { IfOk result (AreAdded most (atom a.name a.var) (map plain_atom atoms.old) (map plain_atom atoms.new)) }
    ensures few { length atoms.new ≤ most }
{
    if has_atom(atoms.as_slice(), a) {
        return Ok(true);
    }
    if atoms.len() == most {
        return Ok(false);
    }
    atoms.push(a)?;
    Ok(true)
}

/// Whether the atom is one of the list.
fn has_atom(atoms: &[Atom], a: Atom) -> bool
    ensures { result ≡ list_any (is_atom a.name a.var) (map plain_atom atoms.now) }
{
    for known in atoms {
        if *known == a {
            return true;
        }
    }
    false
}
