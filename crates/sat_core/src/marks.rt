//! Marks on places, all of which go away at once.

ghost use Rattle.std.specs.Prelude.{◌≡◌, ◌<◌, ◌≤◌, [], false, true, length, slice_index_or, slice_set, OnOk};
ghost use Rattle.sat_core.specs.Marks.{AreNone};

use hy_base::M;
use std::alloc::Global;
use std::marker::Model;

/// Marks on places. A place is marked where it has the stamp of today.
#[derive(Drop)]
pub struct Marks {
    stamps: Vec<u32>,
    today: u32,
}

impl Model for Marks {
    ghost use Rattle.std.specs.Prelude.{◌≤◌, ◌<◌, Bool, List, map, nat_eq, All};

    ghost Value = { List Bool };

    ghost view = { λ m. map (λ s. nat_eq s m.today) m.stamps.items };

    ghost invariant = { λ m. (0 < m.today) × All (λ s. s ≤ m.today) m.stamps.items };
}

impl Marks {
    /// No places.
    pub fn new(alloc: Global) -> Marks
        ensures { result ≡ [] }
    {
        Marks {
            stamps: Vec::new(alloc),
            today: 1,
        }
    }

    /// Whether the place is marked.
    pub fn is_marked(&self, place: usize) -> bool
        requires { place < length self.now }
        ensures { result ≡ slice_index_or self.now place false }
    {
        self.stamps[place] == self.today
    }

    /// Marks the place.
    pub fn mark(&mut self, place: usize)
        requires { place < length self.old }
        ensures { self.new ≡ slice_set self.old place true }
    {
        self.stamps[place] = self.today;
    }

    /// Takes all marks away, and makes room for at least `count` places; mostly in constant time.
    pub fn clear(&mut self, count: usize) -> M<()>
        ensures room { OnOk result (count ≤ length self.new) }
        ensures none { OnOk result (AreNone self.new) }
    {
        self.forget();
        self.grow(count)
    }

    /// Takes all marks away.
    fn forget(&mut self)
        ensures { AreNone self.new }
    {
        if self.today == u32::MAX {
            self.stamps.clear();
            self.today = 1;
            return;
        }
        self.today += 1;
    }

    /// Makes room for at least `count` places.
    fn grow(&mut self, count: usize) -> M<()>
        ensures room { OnOk result (count ≤ length self.new) }
        ensures none { OnOk result (AreNone self.old → AreNone self.new) }
    {
        for _place in self.stamps.len()..count {
            self.stamps.push(0)?;
        }
        Ok(())
    }
}
