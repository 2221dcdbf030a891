//! The search for a list within a bound.

ghost use Rattle.std.specs.Prelude.{◌≡◌, ◌<◌, ◌^◌, IfErr, IfOk, OnOk};
ghost use Rattle.hy_base.specs.Rows.{row};
ghost use Rattle.hy_formula.specs.Trees.{tree_of};
ghost use Rattle.chain_check.specs.Clauses.{SatisfiesAll};
ghost use Rattle.chain_check.specs.FewClauses.{literals_in};
ghost use Rattle.bound_search.specs.Bounds.{IsBound};
ghost use Rattle.bound_search.specs.Queries.{clauses_of, variables_of};
ghost use Rattle.bound_search.specs.Searches.{Answers, IsFound};
ghost use Rattle.bound_search.specs.Sizes.{IsRefusal, IsTaken};

use crate::bound::Bound;
use crate::bound_error::BoundError;
use crate::distinct::each_once;
use crate::names::names_of;
use crate::query::bound_query;
use crate::spelling::Spelling;
use chain_check::Log;
use hy_base::M;
use hy_formula::Formula;
use hy_lasso::LassoList;
use sat_core::{Assignment, Outcome, solve_owned};
use std::alloc::Global;

/// What a search within a bound found.
#[derive(Drop)]
pub enum BoundAnswer {
    /// A list within the bound that satisfies the formula.
    Found(LassoList),
    /// There is none. The log's last clause is empty.
    NoneWithin(Log),
    /// As many new clauses as were allowed.
    Spent(Log),
}

/// Searches for a list within the bound that satisfies the formula, learning at most `conflicts`
/// clauses that are not empty. Logs are for the clauses of `bound_query`.
///
/// # Errors
///
/// `Limit` as in `bound_query`, before a clause is made.
pub fn search_bound(
    alloc: Global,
    f: &Formula,
    bound: &Bound,
    conflicts: u32,
) -> Result<BoundAnswer, BoundError>
    requires bound { IsBound bound.now }
    requires few { conflicts < 2 ^ 31 }
    ensures answer { IfOk result (Answers bound.now f.now.prefix (tree_of f.now.body) conflicts) }
    ensures within { OnOk result
        (IsTaken (variables_of bound.now f.now.prefix (tree_of f.now.body))
        (literals_in (clauses_of bound.now f.now.prefix (tree_of f.now.body)))) }
    ensures refused { IfErr result
        (λ e. IsRefusal bound.now f.now.prefix (tree_of f.now.body) e) }
{
    let cnf = bound_query(alloc, f, *bound)?;
    match solve_owned(alloc, cnf, conflicts)? {
        Outcome::Satisfied(values) => {
            let list = read_list(alloc, f, *bound, &values)?;
            Ok(BoundAnswer::Found(list))
        }
        Outcome::Refuted(log) => Ok(BoundAnswer::NoneWithin(log)),
        Outcome::Spent(log) => Ok(BoundAnswer::Spent(log)),
    }
}

/// The list that an answer of the query spells, each lasso once. In time of the letters of all
/// members times the square of the names.
fn read_list(alloc: Global, f: &Formula, bound: Bound, values: &Assignment) -> M<LassoList>
    requires bound { IsBound bound }
    requires met { SatisfiesAll values.now (clauses_of bound f.now.prefix (tree_of f.now.body)) }
    ensures { IfOk result (IsFound bound f.now.prefix (tree_of f.now.body)) }
{
    let names = names_of(alloc, &f.body)?;
    let spelling = Spelling {
        names: &names,
        bound,
        values,
    };
    let members = spelling.members(alloc)?;
    each_once(alloc, &members)
}
