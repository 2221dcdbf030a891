ghost use Rattle.std.specs.Prelude.{◌≡◌, ◌≤◌, ◌*◌, length, replicate};
ghost use Rattle.ltl_tableau.specs.Branches.{postpones};

use hy_base::List;
use ltl_closure::{Closure, Node, Obl};
use std::marker::Model;

/// Members of a closure that are to hold now, and members that are to hold at the next position.
#[derive(Clone, Copy, Debug, PartialEq, Eq, Hash)]
pub struct Branch<const W: usize> {
    pub now: Obl<W>,
    pub next: Obl<W>,
}

impl<const W: usize> Model for Branch<W> {
    ghost use Rattle.ltl_tableau.specs.Branches.{Branch, branch_code};

    ghost Value = { Branch };

    ghost coded = { branch_code };

    ghost view = { λ b. record { now = b.now; later = b.next } };

    ghost inverse = { λ b. record { now = b.now; next = b.later } };
}

/// Branches.
pub type BranchList<const W: usize> = List<Branch<W>>;

/// Whether the branch postpones the until: that is the number of an until that is to hold now, and
/// its second operand is not.
pub fn postpones<const W: usize>(c: &Closure, b: &Branch<W>, until: u16) -> bool
    requires width { W ≤ 16 }
    requires members { length c.now.nodes ≤ 64 * W }
    ensures { result ≡ postpones c.now.nodes b.entry.now until }
{
    if usize::from(until) >= c.len() {
        return false;
    }
    match c.node(until) {
        Node::Until(_, h) => b.now.has(usize::from(until)) && !b.now.has(usize::from(h)),
        _ => false,
    }
}
