//! The monitor of a run.

ghost use Rattle.std.specs.Prelude.{◌≡◌, ◌<◌, ◌^◌, length};
ghost use Rattle.rv_core.specs.Held.{AreWithin, AreWithin-prop};
ghost use Rattle.rv_core.specs.Keeping.{AreBelow, AreBelow-prop};

use crate::kept::Kept;
use crate::saved::SavedList;
use crate::sessions::Sessions;
use crate::watch::Watch;
use hy_base::List;
use hy_finite::Lengths;

/// A monitor of universal formulas over the traces of a run, which arrive whole or letter by letter
/// in sessions.
#[derive(Drop)]
pub struct Rv {
    pub(crate) rule: Lengths,
    pub(crate) drop_dominated: bool,
    pub(crate) watches: List<Watch>,
    pub(crate) traces: u32,
    pub(crate) kept: Kept,
    pub(crate) sessions: Sessions,
    pub(crate) saves: SavedList,
    pub(crate) clean: bool,
    ghost below: { AreBelow (length watches) traces kept } by { AreBelow-prop (length watches) traces kept },
    ghost within: { AreWithin (length watches) saves } by { AreWithin-prop (length watches) saves },
    ghost countable: { length watches < 2 ^ 32 },
}

impl Rv {
    ghost use Rattle.rv_core.specs.Held.{specs_of, kept_count};
    ghost use Rattle.rv_core.specs.Seen.{held};

    /// How many traces have arrived.
    pub fn traces(&self) -> u32
        ensures { result ≡ (held self.now).arrived }
    {
        self.traces
    }

    /// How many specs are watched.
    pub fn specs(&self) -> u32
        ensures { result ≡ length (specs_of (held self.now)) }
    {
        self.watches.len() as u32
    }

    /// How many traces are kept for a spec, by its number. Where dominated ones are dropped these
    /// are the leaders, and it takes time linear in them, times the logarithm of their number. Else
    /// each trace that has arrived counts, also one that another stands for, in constant time.
    pub fn kept(&self, spec: u32) -> u32
        requires { spec < length (specs_of (held self.now)) }
        ensures { result ≡ kept_count (held self.now) spec }
    {
        if !self.drop_dominated {
            return self.traces;
        }
        let version = self.kept.at(spec as usize);
        version.numbers_ascend();
        let traces = self.traces;
        let mut count = 0;
        let mut from = 0;
        while let Some((number, _)) = version.next(from) {
            prove!(number < traces);
            count += 1;
            from = number + 1;
        }
        count
    }

    /// How many sessions are open.
    pub fn live(&self) -> u32
        ensures { result ≡ length (held self.now).sessions }
    {
        self.sessions.len()
    }

    /// Whether no violation was found.
    pub fn is_clean(&self) -> bool
        ensures { result ≡ (held self.now).clean }
    {
        self.clean
    }
}
