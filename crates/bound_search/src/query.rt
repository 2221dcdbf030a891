//! The query that asks whether a list within a bound satisfies a formula.

ghost use Rattle.std.specs.Prelude.{◌≡◌, ◌<◌, ◌^◌, length, IfErr, IfOk, OnOk};
ghost use Rattle.hy_formula.specs.Trees.{tree_of};
ghost use Rattle.chain_check.specs.Clauses.{AreClauses};
ghost use Rattle.chain_check.specs.FewClauses.{literals_in};
ghost use Rattle.bound_search.specs.Bounds.{IsBound};
ghost use Rattle.bound_search.specs.Queries.{clauses_of, variables_of};
ghost use Rattle.bound_search.specs.Sizes.{IsRefusal, IsTaken};

use crate::asked::Asked;
use crate::bound::Bound;
use crate::bound_error::BoundError;
use crate::counting::{Counter, admit, capped, chosen_gates, member_literals, own_variables};
use crate::cycles::add_members;
use crate::gates::{Gates, add_alone};
use crate::layout::first_gate;
use crate::names::names_of;
use crate::rows::sure;
use chain_check::{Clauses, Cnf};
use hy_base::{List, M, Memory};
use hy_formula::Formula;
use std::alloc::Global;

/// As many clauses, and as many variables, as a list of clauses has room for.
const MOST: usize = 2_147_483_647;

/// The query: clauses that can be made true exactly where a list within the bound satisfies the
/// formula.
///
/// `Limit` comes where it has more than 16,777,216 variables, or else more than 134,217,728
/// literals; these are counted before a clause is made. In time and memory linear in the literals.
pub fn bound_query(alloc: Global, f: &Formula, bound: Bound) -> Result<Cnf, BoundError>
    requires { IsBound bound }
    ensures clauses { IfOk result
        (λ cnf. cnf.clauses ≡ clauses_of bound f.now.prefix (tree_of f.now.body)) }
    ensures variables { IfOk result
        (λ cnf. cnf.variables ≡ variables_of bound f.now.prefix (tree_of f.now.body)) }
    ensures within { OnOk result
        (IsTaken (variables_of bound f.now.prefix (tree_of f.now.body))
        (literals_in (clauses_of bound f.now.prefix (tree_of f.now.body)))) }
    ensures refused { IfErr result
        (λ e. IsRefusal bound f.now.prefix (tree_of f.now.body) e) }
{
    admit_query(alloc, f, bound)?;
    Ok(make_query(alloc, f, bound)?)
}

/// Refuses a query that is too large.
fn admit_query(alloc: Global, f: &Formula, bound: Bound) -> Result<(), BoundError>
    requires { IsBound bound }
    ensures within { OnOk result
        (IsTaken (variables_of bound f.now.prefix (tree_of f.now.body))
        (literals_in (clauses_of bound f.now.prefix (tree_of f.now.body)))) }
    ensures refused { IfErr result
        (λ e. IsRefusal bound f.now.prefix (tree_of f.now.body) e) }
{
    let names = names_of(alloc, &f.body)?;
    let counter = Counter {
        traces: bound.traces as u64,
        places: bound.places() as u64,
        round: bound.round() as u64,
    };
    let parts = counter.count_first(alloc, &f.body)?.gates;
    let choices = chosen_gates(bound.traces as u64, 0, f.prefix.len());
    let gates = capped(parts + choices) as u128;
    let variables = own_variables(&names, bound) + gates;
    let members = bound.traces as u128 * member_literals(&names, bound);
    admit(variables, 2 + members + 7 * gates)
}

/// The clauses of the query. For more variables or clauses than a list of clauses has room for
/// there is no memory either.
fn make_query(alloc: Global, f: &Formula, bound: Bound) -> M<Cnf>
    requires { IsBound bound }
    ensures clauses { IfOk result
        (λ cnf. cnf.clauses ≡ clauses_of bound f.now.prefix (tree_of f.now.body)) }
    ensures variables { IfOk result
        (λ cnf. cnf.variables ≡ variables_of bound f.now.prefix (tree_of f.now.body)) }
{
    let gates = make_gates(alloc, f, bound)?;
    if gates.next as usize > MOST || gates.clauses.len() > MOST {
        return Err(Memory);
    }
    Ok(Cnf {
        variables: gates.next,
        clauses: gates.clauses,
    })
}

/// The clauses of the query, and how many variables they are over.
fn make_gates(alloc: Global, f: &Formula, bound: Bound) -> M<Gates>
    requires { IsBound bound }
    ensures clauses { IfOk result
        (λ made. made.clauses ≡ clauses_of bound f.now.prefix (tree_of f.now.body)) }
    ensures variables { IfOk result
        (λ made. made.next ≡ variables_of bound f.now.prefix (tree_of f.now.body)) }
    ensures right { IfOk result (λ made. AreClauses made.next made.clauses) }
{
    let names = names_of(alloc, &f.body)?;
    let mut clauses = Clauses::new(alloc);
    add_alone(&mut clauses, sure())?;
    add_members(alloc, &mut clauses, &names, bound)?;
    let next = first_gate(&names, bound)?;
    let mut gates = Gates { clauses, next };
    let asked = Asked {
        formula: f,
        names: &names,
        bound,
    };
    let sheet = gates.first_sheet(alloc, &asked, &f.body)?;
    let root = gates.chosen(alloc, &asked, &sheet, &mut List::new(alloc))?;
    add_alone(&mut gates.clauses, root)?;
    Ok(gates)
}
