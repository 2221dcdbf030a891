//! Lists of lassos in which none stands twice.

ghost use Rattle.std.specs.Prelude.{◌≡◌, ◌↔◌, ◌∷◌, ◌++◌, [], IfOk, IsTrue, OnOk};
ghost use Rattle.std.specs.List.{Contains};
ghost use Rattle.bound_search.specs.Searches.{AddsOnce, HasEachOnce};

use hy_base::{List, M, Remake};
use hy_lasso::{Lasso, LassoList};
use std::alloc::Global;

/// Each lasso of a list once, at its first place. In time of the square of the list.
pub fn each_once(alloc: Global, list: &LassoList) -> M<LassoList>
    ensures { IfOk result (HasEachOnce list.now) }
{
    let mut made = List::new(alloc);
    for lasso in list.as_slice() {
        add_once(alloc, &mut made, lasso)?;
    }
    Ok(made)
}

/// Adds the lasso where it is new.
fn add_once(alloc: Global, list: &mut LassoList, lasso: &Lasso) -> M<()>
    ensures { OnOk result (AddsOnce list.old list.new lasso.now) }
{
    if has(list, lasso) {
        return Ok(());
    }
    list.push(lasso.remake(alloc)?)
}

/// Whether the lasso is there.
fn has(list: &LassoList, lasso: &Lasso) -> bool
    ensures { IsTrue result ↔ Contains list.now lasso.now }
{
    for known in list.as_slice() {
        if *known == *lasso {
            return true;
        }
    }
    false
}
