//! Gates made one after the other, with the clauses that say what they are.

ghost use Rattle.std.specs.Prelude.{◌≡◌, ◌∷◌, ◌++◌, [], IfOk, OnOk};
ghost use Rattle.chain_check.specs.FewClauses.{alone, and_clauses};
ghost use Rattle.bound_search.specs.Drawings.{alike, both, either};
ghost use Rattle.bound_search.specs.Rows.{until_here};

use crate::wire::Wire;
use chain_check::Clauses;
use hy_base::{M, Memory};

/// As many variables as literals have room for.
const MOST_VARIABLES: u32 = 2_147_483_646;

/// The clauses so far, and the variable of the next gate, counted from 0.
#[derive(Drop)]
pub struct Gates {
    pub clauses: Clauses,
    pub next: u32,
}

/// Adds that the literal is true.
pub fn add_alone(clauses: &mut Clauses, l: Wire) -> M<()>
    ensures { OnOk result (clauses.new ≡ clauses.old ++ alone l) }
{
    clauses.add(&[l.number()])
}

/// Adds a clause of two literals.
pub fn add_two(clauses: &mut Clauses, l: Wire, m: Wire) -> M<()>
    ensures { OnOk result (clauses.new ≡ clauses.old ++ (l ∷ m ∷ []) ∷ []) }
{
    clauses.add(&[l.number(), m.number()])
}

/// Adds a clause of three literals.
pub fn add_three(clauses: &mut Clauses, l: Wire, m: Wire, n: Wire) -> M<()>
    ensures { OnOk result (clauses.new ≡ clauses.old ++ (l ∷ m ∷ n ∷ []) ∷ []) }
{
    clauses.add(&[l.number(), m.number(), n.number()])
}

/// Adds that `l` is the and of `a` and `b`.
fn add_and(clauses: &mut Clauses, l: Wire, a: Wire, b: Wire) -> M<()>
    ensures { OnOk result (clauses.new ≡ clauses.old ++ and_clauses l a b) }
{
    add_two(clauses, l.opposite(), a)?;
    add_two(clauses, l.opposite(), b)?;
    add_three(clauses, l, a.opposite(), b.opposite())
}

impl Gates {
    ghost use Rattle.bound_search.specs.Making.{Draws};

    /// A gate, that both hold. For more variables than literals have room for there is no memory
    /// either.
    pub fn both(&mut self, l: Wire, m: Wire) -> M<Wire>
        ensures { IfOk result (λ x. Draws (both l m) self.old self.new x) }
    {
        if self.next >= MOST_VARIABLES {
            return Err(Memory);
        }
        let own = Wire::further(self.next);
        add_and(&mut self.clauses, own, l, m)?;
        self.next += 1;
        Ok(own)
    }

    /// That either holds.
    pub fn either(&mut self, l: Wire, m: Wire) -> M<Wire>
        ensures { IfOk result (λ x. Draws (either l m) self.old self.new x) }
    {
        let none = self.both(l.opposite(), m.opposite())?;
        Ok(none.opposite())
    }

    /// That both hold or neither does.
    pub fn alike(&mut self, l: Wire, m: Wire) -> M<Wire>
        ensures { IfOk result (λ x. Draws (alike l m) self.old self.new x) }
    {
        let all = self.both(l, m)?;
        let none = self.both(l.opposite(), m.opposite())?;
        self.either(all, none)
    }

    /// That `right` holds, or `left` does and what is said later.
    pub fn until_here(&mut self, left: Wire, right: Wire, later: Wire) -> M<Wire>
        ensures { IfOk result (λ x. Draws (until_here left right later) self.old self.new x) }
    {
        let held = self.both(left, later)?;
        self.either(right, held)
    }
}
