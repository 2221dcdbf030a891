//! The names of a body, and lists of numbers in which none stands twice.

ghost use Rattle.std.specs.Prelude.{◌≡◌, ◌<◌, ◌≤◌, All, IfOk, OnOk, length, nat_eq};
ghost use Rattle.std.specs.List.{list_any};
ghost use Rattle.hy_formula.specs.Trees.{tree_of};
ghost use Rattle.bound_search.specs.Names.{name_place, names_of, with_name, with_names};
ghost use Rattle.bound_search.specs.Shapes.{body_shape};
ghost use Rattle.bound_search.specs.Sheets.{with_all};

use crate::parts::{Parts, parts_of};
use hy_base::{List, M, NumList};
use hy_formula::Body;
use std::alloc::Global;

/// The names of a body, each once, in the order in which they are met. In time linear in the body
/// times the names.
pub fn names_of(alloc: Global, body: &Body) -> M<NumList>
    ensures names { IfOk result (λ names. names ≡ names_of (tree_of body.now)) }
    ensures few { IfOk result (All (λ name. name < 64)) }
{
    let mut names = List::new(alloc);
    add_names(&mut names, body)?;
    Ok(names)
}

/// Whether the name is there.
fn has(names: &NumList, name: u32) -> bool
    ensures { result ≡ list_any (nat_eq name) names.now }
{
    names.as_slice().iter().any(|x| name == *x)
}

/// Adds the name where it is new.
fn add_name(names: &mut NumList, name: u32) -> M<()>
    ensures names { OnOk result (names.new ≡ with_name name names.old) }
    ensures few { All (λ x. x < 64) names.old → name < 64 →
        OnOk result (All (λ x. x < 64) names.new) }
{
    if !has(names, name) {
        names.push(name)?;
    }
    Ok(())
}

/// Adds the names of the body that are new.
fn add_names(names: &mut NumList, body: &Body) -> M<()>
    requires { All (λ x. x < 64) names.old }
    ensures names { OnOk result (names.new ≡ with_names (body_shape body.now) names.old) }
    ensures few { OnOk result (All (λ x. x < 64) names.new) }
{
    match parts_of(body) {
        Parts::Constant(_) => Ok(()),
        Parts::Atom(a) => add_name(names, a.name as u32),
        Parts::One(_, f) => add_names(names, f),
        Parts::Two(_, f, g) => {
            add_names(names, f)?;
            add_names(names, g)
        }
    }
}

/// The place of a name in the list.
pub fn place_of(name: u32, names: &NumList) -> usize
    ensures place { result ≡ name_place name names.now }
    ensures within { result ≤ length names.now }
{
    let mut place = 0;
    for x in names.as_slice() {
        if name == *x {
            return place;
        }
        place += 1;
    }
    place
}

/// The variables of two parts, each once. In time of the product of the lists.
pub fn with_all(alloc: Global, left: &NumList, right: &NumList) -> M<NumList>
    ensures { IfOk result (λ all. all ≡ with_all left.now right.now) }
{
    let mut all = left.copy(alloc)?;
    for v in right.as_slice() {
        add_name(&mut all, *v)?;
    }
    Ok(all)
}
