//! All branches of a set, which no program asks for.

ghost use Rattle.std.specs.Prelude.{◌≤◌, length};

use ea_reduce::reduce;
use hy_formula::NameTable;
use hy_read::read_formula;
use ltl_closure::Closure;
use ltl_tableau::{branches, root_set};
use rank_proofs::plan_closure;
use std::alloc::Global;
use std::test::Fail;

/// The closure of the plan of a formula.
fn closure_of(alloc: Global, text: &[u8]) -> Result<Closure, Fail>
    requires { length text.now ≤ 100 }
{
    let formula = read_formula(alloc, text, 8, &mut NameTable::new(alloc)?)?;
    Ok(plan_closure(alloc, &reduce(alloc, &formula)?)?)
}

/// How many branches the roots of that closure have.
fn root_branches(alloc: Global, text: &[u8]) -> Result<usize, Fail>
    requires { length text.now ≤ 100 }
{
    let closure = closure_of(alloc, text)?;
    if closure.len() > 64 {
        return Err("too many members")?;
    }
    Ok(branches(alloc, &closure, &root_set::<1>(&closure))?.len())
}

#[test]
fn branches_of_the_roots(rt: HostRuntime) -> Result<(), Fail> {
    let text = b"exists p. (a_p U b_p) & G !b_p";
    assert!(rt; root_branches(rt.alloc(), text)? == 1);
    Ok(())
}
