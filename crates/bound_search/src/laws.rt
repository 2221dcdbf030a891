//! What answers and refutations of the query say of the lists within a bound.

ghost use Rattle.std.specs.Prelude.{◌≡◌, ◌≤◌, Bool, IsTrue, List, length};
ghost use Rattle.hy_bits.specs.Letter.{Letter};
ghost use Rattle.hy_formula.specs.Lassos.{Lasso};
ghost use Rattle.hy_formula.specs.Trees.{Tree, vars_below};
ghost use Rattle.hy_formula.specs.declared.prefix.Quant.{Quant};
ghost use Rattle.chain_check.specs.declared.logs.Learned.{Learned};
ghost use Rattle.chain_check.specs.Clauses.{AreClauses, SatisfiesAll};
ghost use Rattle.chain_check.specs.Logs.{IsRefutation};
ghost use Rattle.chain_check.specs.FewClauses.{literals_in};
ghost use Rattle.bound_search.specs.declared.bound.Bound.{Bound};
ghost use Rattle.bound_search.specs.Bounds.{IsBound, IsWithin};
ghost use Rattle.bound_search.specs.Queries.{clauses_of, variables_of};
ghost use Rattle.bound_search.specs.Sizes.{most_of_query, query_literals, query_variables};

/// What makes all clauses of the query true is a list within the bound that satisfies the formula,
/// and each such list is made by some assignment.
pub fn queries_are_lists()
    ensures list { (bound : Bound) (prefix : List Quant) (body : Tree) (values : List Bool) →
        IsBound bound → IsTrue (vars_below (length prefix) body) →
        SatisfiesAll values (clauses_of bound prefix body) →
        (list : List (Lasso Letter)) × IsWithin bound prefix body list }
    ensures assignment { (bound : Bound) (prefix : List Quant) (body : Tree)
        (list : List (Lasso Letter)) → IsBound bound →
        IsTrue (vars_below (length prefix) body) → IsWithin bound prefix body list →
        (values : List Bool) × (length values ≡ variables_of bound prefix body)
        × SatisfiesAll values (clauses_of bound prefix body) }
    ensures literals { (bound : Bound) (prefix : List Quant) (body : Tree) → IsBound bound →
        IsTrue (vars_below (length prefix) body) →
        AreClauses (variables_of bound prefix body) (clauses_of bound prefix body) }
{}

/// No list is within the bound where a log refutes the query.
pub fn refuted_queries()
    ensures { (bound : Bound) (prefix : List Quant) (body : Tree) (log : List Learned) →
        IsBound bound → IsTrue (vars_below (length prefix) body) →
        IsRefutation (variables_of bound prefix body) (clauses_of bound prefix body) log →
        (list : List (Lasso Letter)) → ¬ IsWithin bound prefix body list }
{}

/// How many variables and literals the query has, and that it never has more than a bound by the
/// sizes of the formula and of the bound.
pub fn queries_are_small()
    ensures variables { (bound : Bound) (prefix : List Quant) (body : Tree) → IsBound bound →
        IsTrue (vars_below (length prefix) body) →
        (variables_of bound prefix body ≡ query_variables bound prefix body)
        × (variables_of bound prefix body ≤ most_of_query bound prefix body) }
    ensures literals { (bound : Bound) (prefix : List Quant) (body : Tree) → IsBound bound →
        IsTrue (vars_below (length prefix) body) →
        (literals_in (clauses_of bound prefix body) ≡ query_literals bound prefix body)
        × (literals_in (clauses_of bound prefix body) ≤ most_of_query bound prefix body) }
{}
