//! Items of a net that stand in each copy, and lists of these.

ghost use Rattle.std.specs.Prelude.{◌≡◌, ◌++◌, All, OnOk};
ghost use Rattle.aig_net.specs.Copies.{copied};
ghost use Rattle.strat_compose.specs.Groups.{HasRoom};

use crate::group::Group;
use aig_net::{And, Net, Reset};
use hy_base::{List, M};

/// An item of a net that stands in each copy.
pub trait Placed: Sized {
    ghost use Rattle.std.specs.Prelude.{◌≡◌, ℕ, ◌<◌};
    ghost use Rattle.aig_net.specs.declared.parts.NetParts.{NetParts};
    ghost use Rattle.strat_compose.specs.declared.group.Group.{Group};

    /// The item in copy c.
    ghost in_copy: { NetParts → Group → ℕ → Self → Self };

    /// The item speaks of the net's variables alone.
    ghost is_own: { NetParts → Self → Type 0 };

    /// The item in copy `c`.
    fn copy_of(&self, group: &Group, net: &Net, c: u32) -> Self
        requires room { HasRoom net.now group.now }
        requires copy { c < group.now.copies }
        requires own { is_own net.now self.now }
        ensures { result ≡ in_copy net.now group.now c self.now };
}

/// A literal.
impl Placed for u32 {
    ghost use Rattle.aig_net.specs.Nets.{Below, variables};
    ghost use Rattle.strat_compose.specs.Groups.{literal_in};

    ghost in_copy = { literal_in };

    ghost is_own = { λ net l. Below (variables net) l };

    fn copy_of(&self, group: &Group, net: &Net, c: u32) -> u32 {
        group.literal(net, c, *self)
    }
}

/// The larger literal stands first.
impl Placed for And {
    ghost use Rattle.strat_compose.specs.Groups.{AndBelow, and_in};

    ghost in_copy = { and_in };

    ghost is_own = { AndBelow };

    fn copy_of(&self, group: &Group, net: &Net, c: u32) -> And {
        let a = group.literal(net, c, self.left);
        let b = group.literal(net, c, self.right);
        And {
            left: if a < b { b } else { a },
            right: if a < b { a } else { b },
        }
    }
}

impl Placed for Reset {
    ghost in_copy = { λ net group c reset. reset };

    ghost is_own = { λ net reset. Unit {0} };

    fn copy_of(&self, _group: &Group, _net: &Net, _c: u32) -> Reset {
        *self
    }
}

/// Adds each item in all copies, in time linear in the copies.
#[tactic(auto, using(aig_net::proofs::Copying::one_copy))]
pub fn add_copies<T: Placed + Drop>(
    group: &Group,
    net: &Net,
    items: &[T],
    made: &mut List<T>,
) -> M<()>
    requires room { HasRoom net.now group.now }
    requires own { All (T.is_own net.now) items.now }
    ensures { OnOk result (made.new
        ≡ made.old ++ copied group.now.copies (T.in_copy net.now group.now) items.now) }
{
    for item in items {
        for c in 0..group.copies {
            made.push(item.copy_of(group, net, c))?;
        }
    }
    Ok(())
}
