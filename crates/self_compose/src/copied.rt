//! What stands in each copy for an item of a net, and lists of these.

ghost use Rattle.std.specs.Prelude.{◌≡◌, ℕ, ◌<◌, List as Sequence, length, slice_index_or, All, IfOk};
ghost use Rattle.aig_net.specs.Copies.{copied};

use aig_net::{And, Reset};
use hy_base::{List, M, Text};
use std::alloc::Global;

/// An item of a net that stands in each of its copies.
pub trait Copied: Sized {
    ghost use Rattle.std.specs.Prelude.{◌≡◌, ℕ, ◌<◌};

    /// The item in copy c of n.
    ghost in_copy: { ℕ → ℕ → Self → Self };

    /// Where n copies have room for it.
    ghost has_room: { ℕ → Self → Type 0 };

    /// The item in copy `c` of `n`.
    fn copy_of(&self, alloc: Global, n: u32, c: u32) -> Self
        requires few { c < n }
        requires room { has_room n self.now }
        ensures { result ≡ in_copy n c self.now };
}

/// A literal.
impl Copied for u32 {
    ghost use Rattle.std.specs.Prelude.{◌+◌, ◌*◌, ◌/◌, ◌<◌, ◌^◌};
    ghost use Rattle.self_compose.specs.Copies.{copy_literal};

    ghost in_copy = { copy_literal };

    ghost has_room = { λ n l. l / 2 * n < 2 ^ 31 };

    fn copy_of(&self, _alloc: Global, n: u32, c: u32) -> u32 {
        let variable = *self / 2;
        if variable == 0 {
            *self
        } else {
            2 * ((variable - 1) * n + c + 1) + *self % 2
        }
    }
}

impl Copied for And {
    ghost use Rattle.std.specs.Prelude.{◌+◌, ◌*◌, ◌/◌, ◌<◌, ◌^◌};
    ghost use Rattle.self_compose.specs.Copies.{copy_and};

    ghost in_copy = { copy_and };

    ghost has_room = { λ n a. (a.left / 2 * n < 2 ^ 31) × (a.right / 2 * n < 2 ^ 31) };

    fn copy_of(&self, alloc: Global, n: u32, c: u32) -> And {
        And {
            left: self.left.copy_of(alloc, n, c),
            right: self.right.copy_of(alloc, n, c),
        }
    }
}

impl Copied for Reset {
    ghost use Rattle.self_compose.specs.Copies.{copy_reset};

    ghost in_copy = { copy_reset };

    ghost has_room = { λ n reset. Unit {0} };

    fn copy_of(&self, _alloc: Global, _n: u32, _c: u32) -> Reset {
        *self
    }
}

/// A name, which the copies leave out.
impl Copied for Text {
    ghost use Rattle.self_compose.specs.Copies.{copy_name};

    ghost in_copy = { copy_name };

    ghost has_room = { λ n name. Unit {0} };

    fn copy_of(&self, alloc: Global, _n: u32, _c: u32) -> Text {
        List::new(alloc)
    }
}

/// The copies of each item, in time linear in them.
#[tactic(auto, using(aig_net::proofs::Copying::one_copy))]
pub fn copies<T: Copied + Drop>(alloc: Global, items: &[T], n: u32) -> M<List<T>>
    requires { All (T.has_room n) items.now }
    ensures { IfOk result (λ made. made ≡ copied n (T.in_copy n) items.now) }
{
    let mut made = List::new(alloc);
    for item in items {
        for c in 0..n {
            made.push(item.copy_of(alloc, n, c))?;
        }
    }
    Ok(made)
}
