ghost use Rattle.std.specs.Prelude.{◌≡◌, IfOk, IsTrue, length, slice_index_or};
ghost use Rattle.hy_formula.specs.Trees.{tree_of, vars_below, and};
ghost use Rattle.hy_formula.specs.Renamed.{renamed};

use crate::atom::Atom;
use hy_base::M;
use std::alloc::Global;

/// A formula of linear temporal logic without quantifiers.
#[derive(Drop)]
pub enum Body {
    True,
    False,
    Atom(Atom),
    Not(Box<Body>),
    Next(Box<Body>),
    Finally(Box<Body>),
    Globally(Box<Body>),
    And(Box<Body>, Box<Body>),
    Or(Box<Body>, Box<Body>),
    Implies(Box<Body>, Box<Body>),
    Iff(Box<Body>, Box<Body>),
    Until(Box<Body>, Box<Body>),
    Release(Box<Body>, Box<Body>),
    Weak(Box<Body>, Box<Body>),
}

impl Body {
    /// An equal body, in time linear in its size.
    #[cycle(copy)]
    pub fn copy(&self, alloc: Global) -> M<Body>
        ensures { IfOk result (λ made. tree_of made ≡ tree_of self.now) }
    {
        Ok(match self {
            Body::True => Body::True,
            Body::False => Body::False,
            Body::Atom(a) => Body::Atom(*a),
            Body::Not(f) => Body::Not(f.boxed(alloc)?),
            Body::Next(f) => Body::Next(f.boxed(alloc)?),
            Body::Finally(f) => Body::Finally(f.boxed(alloc)?),
            Body::Globally(f) => Body::Globally(f.boxed(alloc)?),
            Body::And(f, g) => Body::And(f.boxed(alloc)?, g.boxed(alloc)?),
            Body::Or(f, g) => Body::Or(f.boxed(alloc)?, g.boxed(alloc)?),
            Body::Implies(f, g) => Body::Implies(f.boxed(alloc)?, g.boxed(alloc)?),
            Body::Iff(f, g) => Body::Iff(f.boxed(alloc)?, g.boxed(alloc)?),
            Body::Until(f, g) => Body::Until(f.boxed(alloc)?, g.boxed(alloc)?),
            Body::Release(f, g) => Body::Release(f.boxed(alloc)?, g.boxed(alloc)?),
            Body::Weak(f, g) => Body::Weak(f.boxed(alloc)?, g.boxed(alloc)?),
        })
    }

    /// An equal body in a box.
    #[cycle(copy)]
    fn boxed(&self, alloc: Global) -> M<Box<Body>>
        ensures { IfOk result (λ made. tree_of made.value ≡ tree_of self.now) }
    {
        Ok(Box::new(alloc, self.copy(alloc)?)?)
    }
}

/// The body with variable `map[v]` for each variable v, in time linear in its size.
#[cycle(rename)]
pub fn rename(alloc: Global, body: &Body, map: &[u8]) -> M<Body>
    requires { IsTrue (vars_below (length map.now) (tree_of body.now)) }
    ensures { IfOk result (λ made. tree_of made ≡ renamed (λ v. slice_index_or map.now v 0) (tree_of body.now)) }
{
    match body {
        Body::True => Ok(Body::True),
        Body::False => Ok(Body::False),
        Body::Atom(a) => Ok(Body::Atom(Atom {
            name: a.name,
            var: map[a.var as usize],
        })),
        Body::Not(f) => Ok(Body::Not(rename_boxed(alloc, f, map)?)),
        Body::Next(f) => Ok(Body::Next(rename_boxed(alloc, f, map)?)),
        Body::Finally(f) => Ok(Body::Finally(rename_boxed(alloc, f, map)?)),
        Body::Globally(f) => Ok(Body::Globally(rename_boxed(alloc, f, map)?)),
        Body::And(f, g) => {
            let f = rename_boxed(alloc, f, map)?;
            Ok(Body::And(f, rename_boxed(alloc, g, map)?))
        }
        Body::Or(f, g) => {
            let f = rename_boxed(alloc, f, map)?;
            Ok(Body::Or(f, rename_boxed(alloc, g, map)?))
        }
        Body::Implies(f, g) => {
            let f = rename_boxed(alloc, f, map)?;
            Ok(Body::Implies(f, rename_boxed(alloc, g, map)?))
        }
        Body::Iff(f, g) => {
            let f = rename_boxed(alloc, f, map)?;
            Ok(Body::Iff(f, rename_boxed(alloc, g, map)?))
        }
        Body::Until(f, g) => {
            let f = rename_boxed(alloc, f, map)?;
            Ok(Body::Until(f, rename_boxed(alloc, g, map)?))
        }
        Body::Release(f, g) => {
            let f = rename_boxed(alloc, f, map)?;
            Ok(Body::Release(f, rename_boxed(alloc, g, map)?))
        }
        Body::Weak(f, g) => {
            let f = rename_boxed(alloc, f, map)?;
            Ok(Body::Weak(f, rename_boxed(alloc, g, map)?))
        }
    }
}

/// The renamed body in a box.
#[cycle(rename)]
fn rename_boxed(alloc: Global, body: &Body, map: &[u8]) -> M<Box<Body>>
    requires { IsTrue (vars_below (length map.now) (tree_of body.now)) }
    ensures { IfOk result (λ made. tree_of made.value ≡ renamed (λ v. slice_index_or map.now v 0) (tree_of body.now)) }
{
    Ok(Box::new(alloc, rename(alloc, body, map)?)?)
}

/// The conjunction.
pub fn conjoin(alloc: Global, a: Body, b: Body) -> M<Body>
    ensures { IfOk result (λ made. tree_of made ≡ and (tree_of a) (tree_of b)) }
{
    let a = Box::new(alloc, a)?;
    let b = Box::new(alloc, b)?;
    Ok(Body::And(a, b))
}
