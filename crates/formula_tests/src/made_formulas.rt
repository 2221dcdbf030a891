//! Bodies and formulas that are made of others, as they are printed: calls that no program makes.

ghost use Rattle.std.specs.Prelude.{◌≤◌, length, IsTrue};
ghost use Rattle.hy_formula.specs.Trees.{tree_of, vars_below};

use hy_base::Text;
use hy_formula::{
    Atom, Body, Formula, NameTable, Prefix, Quant, atoms_of, conjoin, copy_formulas, negate, rename,
};
use hy_read::{print_formula, read_formula};
use std::alloc::Global;
use std::test::Fail;

/// The copy of a formula, as it is printed.
fn printed_copy(alloc: Global, formula: Formula, names: &NameTable) -> Result<Vec<u8>, Fail> {
    let mut printed = Vec::new(alloc);
    for copy in copy_formulas(alloc, &[formula])?.as_slice() {
        printed.extend_from_slice(print_formula(alloc, copy, names)?.as_slice())?;
    }
    Ok(printed)
}

/// The negation of the formula of a text, copied, as it is printed.
fn negated(alloc: Global, text: &[u8]) -> Result<Vec<u8>, Fail>
    requires { length text.now ≤ 100 }
{
    let mut names = NameTable::new(alloc)?;
    let formula = read_formula(alloc, text, 8, &mut names)?;
    printed_copy(alloc, negate(alloc, formula)?, &names)
}

#[test]
fn negates_copies_and_prints(rt: HostRuntime) -> Result<(), Fail> {
    let alloc = rt.alloc();
    let text = b"exists p. forall q. a_p & !a_q -> X(\"a b\"_q U true)";
    let wanted = b"forall x1. exists x2. !((a_x1 & !a_x2) -> X (\"a b\"_x2 U true))";
    assert!(rt; negated(alloc, text)?.as_slice() == wanted.as_slice());
    let text = b"forall p. a_p <-> b_p | false <-> F G c_d_p R b_p W X_p";
    let wanted = b"exists x1. !(a_x1 <-> ((b_x1 | false) <-> (F G c_d_x1 R (b_x1 W X_x1))))";
    assert!(rt; negated(alloc, text)?.as_slice() == wanted.as_slice());
    let text = b"exists p. forall q. a_p & !a_q";
    let wanted = b"forall x1. exists x2. !(a_x1 & !a_x2)";
    assert!(rt; negated(alloc, text)?.as_slice() == wanted.as_slice());
    Ok(())
}

/// A body of one variable, as it is printed behind its quantifier.
fn printed_body(alloc: Global, body: Body) -> Result<Text, Fail>
    requires { IsTrue (vars_below 1 (tree_of body)) }
{
    let mut names = NameTable::new(alloc)?;
    names.add(alloc, b"a")?;
    let prefix = Prefix::new(alloc, &[Quant::Exists])?;
    Ok(print_formula(alloc, &Formula { prefix, body }, &names)?)
}

/// `a_p & !a_q`, with one variable in place of both.
fn joined(alloc: Global) -> Result<Text, Fail> {
    let second = Box::new(alloc, Body::Atom(Atom { name: 0, var: 1 }))?;
    let both = conjoin(
        alloc,
        Body::Atom(Atom { name: 0, var: 0 }),
        Body::Not(second),
    )?;
    printed_body(alloc, rename(alloc, &both, &[0, 0])?)
}

#[test]
fn prints_what_is_made(rt: HostRuntime) -> Result<(), Fail> {
    let alloc = rt.alloc();
    let wanted = b"exists x1. (a_x1 & !a_x1)";
    assert!(rt; joined(alloc)?.as_slice() == wanted.as_slice());
    let wanted = b"exists x1. (true & false)";
    let both = printed_body(alloc, conjoin(alloc, Body::True, Body::False)?)?;
    assert!(rt; both.as_slice() == wanted.as_slice());
    Ok(())
}

/// How many atoms there are in the body of a text of two variables and in that body with its
/// variables exchanged.
fn atoms_with_turned(alloc: Global, text: &[u8]) -> Result<Option<usize>, Fail>
    requires { length text.now ≤ 100 }
{
    let formula = read_formula(alloc, text, 8, &mut NameTable::new(alloc)?)?;
    if formula.prefix.len() != 2 {
        return Err("other quantifiers")?;
    }
    let turned = rename(alloc, &formula.body, &[1, 0])?;
    let both = conjoin(alloc, formula.body, turned)?;
    Ok(atoms_of(alloc, &both, 4)?.map(|atoms| atoms.len()))
}

#[test]
fn renames_and_conjoins(rt: HostRuntime) -> Result<(), Fail> {
    let text =
        b"exists p. exists q. (!a_p | X b_q) & F true <-> (G a_p U b_q) R false -> a_p W b_q";
    assert!(rt; atoms_with_turned(rt.alloc(), text)? == Some(4));
    Ok(())
}
