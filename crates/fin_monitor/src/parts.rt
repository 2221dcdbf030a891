//! The names of the atoms of each variable, and what they say of letters: so the part of a code that
//! one letter gives is found without a look at the atoms of other variables.

ghost use Rattle.std.specs.Prelude.{◌≡◌, ◌≤◌, ◌<◌, ◌+◌, ◌*◌, ◌^◌, ◌&&◌, ◌++◌, cond, nat_eq, length, map, IfOk, OnOk};
ghost use Rattle.std.specs.FinSet.{contains};
ghost use Rattle.hy_formula.specs.Quantifiers.{Each};
ghost use Rattle.hy_bits.specs.Letter.{Letter as NameSet};
ghost use Rattle.hy_formula.specs.Atoms.{plain_atom};
ghost use Rattle.fin_monitor.specs.Parts.{bits_of, bits_below, AreNamesOf, AreLowParts, ArePartsOf, AreParts};

use crate::letters::bits_in;
use crate::name_bit::NameBit;
use crate::variable_parts::{LOW_NAMES, NameBits, VariableParts};
use hy_base::{List, M, NumList};
use hy_bits::LetterMask;
use hy_formula::Atom;
use std::alloc::Global;

/// For each variable below `vars` the parts that its letters give.
pub fn parts_by_variable(alloc: Global, atoms: &[Atom], vars: u8) -> M<List<VariableParts>>
    requires { length atoms.now ≤ 16 }
    ensures { IfOk result (λ made. AreParts made (map plain_atom atoms.now) vars) }
{
    let mut made = List::new(alloc);
    for v in 0..vars {
        made.push(parts_of(alloc, atoms, v)?)?;
    }
    Ok(made)
}

/// The parts that the letters of a variable give.
fn parts_of(alloc: Global, atoms: &[Atom], var: u8) -> M<VariableParts>
    requires { length atoms.now ≤ 16 }
    ensures { IfOk result (λ made. ArePartsOf made (map plain_atom atoms.now) var) }
{
    let names = names_of(alloc, atoms, var)?;
    let low = low_parts(alloc, names.as_slice())?;
    let high = high_names(alloc, names.as_slice())?;
    Ok(VariableParts { low, high })
}

/// For each set of names below `LOW_NAMES`, by number, the sum of their bits.
fn low_parts(alloc: Global, names: &[NameBit]) -> M<NumList>
    requires { (letter : NameSet) → bits_of names.now letter < 65536 }
    ensures { IfOk result (λ made. AreLowParts made names.now 8) }
{
    let mut parts = List::new(alloc);
    parts.push(0)?;
    for k in 0..LOW_NAMES {
        let bits = bits_in(names, LetterMask::empty().with(k as usize));
        push_with(&mut parts, bits)?;
    }
    Ok(parts)
}

/// Each of the parts once more, with these bits besides.
fn push_with(parts: &mut NumList, bits: u32) -> M<()>
    requires { Each (λ part. part + bits < 2 ^ 32) parts.old }
    ensures { OnOk result (parts.new ≡ parts.old ++ map (λ part. part + bits) parts.old) }
{
    for i in 0..parts.len() {
        let part = *parts.at(i);
        parts.push(part + bits)?;
    }
    Ok(())
}

/// The names from `LOW_NAMES` on.
fn high_names(alloc: Global, names: &[NameBit]) -> M<NameBits>
    ensures { IfOk result (λ made. (letter : NameSet)
        → bits_below 8 names.now letter + bits_of made letter ≡ bits_of names.now letter) }
{
    let mut high = List::new(alloc);
    for n in names {
        if n.name >= LOW_NAMES {
            high.push(*n)?;
        }
    }
    Ok(high)
}

/// The names of the atoms of a variable.
fn names_of(alloc: Global, atoms: &[Atom], var: u8) -> M<NameBits>
    requires { length atoms.now ≤ 16 }
    ensures { IfOk result (λ made. AreNamesOf made (map plain_atom atoms.now) var) }
{
    let mut names = List::new(alloc);
    for (i, a) in atoms.iter().enumerate() {
        add_name(&mut names, *a, i, var)?;
    }
    Ok(names)
}

/// Adds the name of an atom with bit `i`, if the atom is one of the variable.
fn add_name(names: &mut NameBits, a: Atom, i: usize, var: u8) -> M<()>
    requires { i < 16 }
    ensures { OnOk result ((letter : NameSet) → bits_of names.new letter
        ≡ bits_of names.old letter + cond (nat_eq a.var var && contains letter a.name) (2 ^ i) 0) }
{
    if a.var != var {
        return Ok(());
    }
    names.push(NameBit {
        name: a.name,
        place: i as u8,
    })?;
    Ok(())
}
