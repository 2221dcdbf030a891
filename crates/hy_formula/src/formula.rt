ghost use Rattle.std.specs.Prelude.{◌≡◌, IfOk, IsTrue, length, map};
ghost use Rattle.hy_formula.specs.Trees.{tree_of, vars_below, not};
ghost use Rattle.hy_formula.specs.Quantifiers.{turned};
ghost use Rattle.hy_formula.specs.Classes.{class_of};

use crate::body::Body;
use crate::classes::Class;
use crate::prefix::Prefix;
use hy_base::M;
use std::alloc::Global;

/// A HyperLTL formula. Each variable of the body is the place of a quantifier of the prefix.
#[derive(Drop)]
pub struct Formula {
    pub prefix: Prefix,
    pub body: Body,
    pub ghost bound: { IsTrue (vars_below (length prefix) (tree_of body)) },
}

/// Which quantifiers the formula has.
pub fn class(f: &Formula) -> Class
    ensures { result ≡ class_of f.now.prefix }
{
    Class::of(f.prefix.as_slice())
}

/// The negation: each quantifier turned, and the body negated. In constant time but for the prefix.
pub fn negate(alloc: Global, f: Formula) -> M<Formula>
    ensures prefix { IfOk result (λ g. g.prefix ≡ map turned f.prefix) }
    ensures body { IfOk result (λ g. tree_of g.body ≡ not (tree_of f.body)) }
{
    Ok(Formula {
        prefix: f.prefix.turned(alloc)?,
        body: Body::Not(Box::new(alloc, f.body)?),
    })
}
