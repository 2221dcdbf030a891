//! Numbered calls of which some are to fail, for the shelf and the sink in memory.

ghost use Rattle.std.specs.Prelude.{◌≡◌, ◌≢◌, ◌≤◌, ◌+◌, ◌↔◌, false, Contains, IsTrue};
ghost use Rattle.hy_base.specs.Counts.{Rose, last_count};
ghost use Rattle.hy_base.specs.Calls.{NoneFailsAfter};

use crate::list::NumList;

/// A count of calls, and the numbers of those that are to fail, counted from 1.
#[derive(Drop)]
pub struct Calls {
    made: u64,
    fail: NumList,
}

impl Calls {
    /// No call yet.
    pub fn new(fail: NumList) -> Calls
        ensures none { result.made ≡ 0 }
        ensures numbers { result.fail ≡ fail }
    {
        Calls { made: 0, fail }
    }

    /// Counts one more call, and says whether it is to fail, in time linear in the numbers. A count
    /// at its last value stands still, and no call fails then.
    #[tactic(auto, unfolding(crate::specs::Calls::NoneFailsAfter))]
    pub fn next_fails(&mut self) -> bool
        ensures numbers { self.new.fail ≡ self.old.fail }
        ensures counted { self.old.made ≢ last_count → self.new.made ≡ self.old.made + 1 }
        ensures stands { self.old.made ≡ last_count → self.new.made ≡ last_count }
        ensures chosen { self.old.made ≢ last_count → (IsTrue result ↔ Contains self.old.fail self.new.made) }
        ensures fails { IsTrue result → Contains self.old.fail self.new.made }
        ensures sound { NoneFailsAfter self.old.made self.old.fail → result ≡ false }
        ensures keeps { NoneFailsAfter self.old.made self.old.fail → NoneFailsAfter self.new.made self.new.fail }
    {
        match self.made.checked_add(1) {
            None => false,
            Some(number) => {
                self.made = number;
                self.is_chosen(number)
            }
        }
    }

    /// Whether the call with this number is to fail.
    fn is_chosen(&self, number: u64) -> bool
        ensures { IsTrue result ↔ Contains self.now.fail number }
    {
        self.fail.as_slice().iter().any(|n| u64::from(*n) == number)
    }
}

/// One more fault than `count`, as far as a `u64` counts.
pub fn one_more(count: u64) -> u64
    ensures risen { Rose count result }
    ensures fallen { count ≤ result }
{
    count.saturating_add(1)
}
