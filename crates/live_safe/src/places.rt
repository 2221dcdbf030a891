//! Where the variables of a safe net stand.

ghost use Rattle.std.specs.Prelude.{◌≡◌, ◌+◌, ◌^◌, ◌<◌, ◌≤◌};
ghost use Rattle.aig_net.specs.Nets.{IsNet};
ghost use Rattle.live_safe.specs.Safe.{is_free as free_reset, is_set as set_reset, safe_first};
ghost use Rattle.live_safe.specs.Places.{HasRoom, begun_of, copy_of, first_of, free_input_of, latch_of, places_of, saved_of, seen_of, take_of};

use aig_net::{Net, Reset};

/// How much a net has, and with that where the variables of its safe net stand: after the inputs
/// the latches `saved`, a `seen` for each fairness literal, the net's latches, their copies, and
/// `begun`, where some latch starts otherwise than false.
#[derive(Clone, Copy)]
pub struct Places {
    pub inputs: u32,
    pub latches: u32,
    pub fairs: u32,
    /// How many inputs the safe net has.
    pub safe_inputs: u32,
    pub has_begun: bool,
}

/// Whether a latch with this reset is uninitialised.
pub fn is_free(reset: Reset) -> bool
    ensures { result ≡ free_reset reset }
{
    reset == Reset::Free
}

/// Whether a latch with this reset may start otherwise than false.
fn is_set(reset: Reset) -> bool
    ensures { result ≡ set_reset reset }
{
    reset != Reset::Zero
}

impl Places {
    /// The places of a net, in time linear in its latches.
    pub fn of(net: &Net) -> Places
        requires net { IsNet net.now }
        requires room { safe_first net.now ≤ 2 ^ 31 }
        ensures { result ≡ places_of net.now }
    {
        let mut free = 0;
        let mut has_begun = false;
        let resets = net.resets().as_slice();
        for reset in resets {
            free += u32::from(is_free(*reset));
            has_begun |= is_set(*reset);
        }
        Places {
            inputs: net.inputs(),
            latches: net.latches().len() as u32,
            fairs: net.fairs().len() as u32,
            safe_inputs: net.inputs() + 1 + free,
            has_begun,
        }
    }

    /// The variable of the first and.
    pub fn first(&self) -> u32
        requires { HasRoom self.now }
        ensures { result ≡ first_of self.now }
    {
        2 + self.safe_inputs + self.fairs + 2 * self.latches + u32::from(self.has_begun)
    }

    /// The input that asks for the latches to be saved.
    pub fn take(&self) -> u32
        requires room { HasRoom self.now }
        requires inputs { self.now.inputs < self.now.safe_inputs }
        ensures { result ≡ take_of self.now }
    {
        2 * (self.inputs + 1)
    }

    /// The input that gives the value of the `k`th uninitialised latch at the start.
    pub fn free_input(&self, k: u32) -> u32
        requires room { HasRoom self.now }
        requires inputs { self.now.inputs + k < self.now.safe_inputs }
        ensures { result ≡ free_input_of self.now k }
    {
        2 * (self.inputs + k + 2)
    }

    /// Whether the latches are saved.
    pub fn saved(&self) -> u32
        requires { HasRoom self.now }
        ensures { result ≡ saved_of self.now }
    {
        2 * (self.safe_inputs + 1)
    }

    /// Whether fairness literal `j` was true since the latches were saved.
    pub fn seen(&self, j: u32) -> u32
        requires room { HasRoom self.now }
        requires few { j < self.now.fairs }
        ensures { result ≡ seen_of self.now j }
    {
        2 * (self.safe_inputs + j + 2)
    }

    /// Latch `j` of the net.
    pub fn latch(&self, j: u32) -> u32
        requires room { HasRoom self.now }
        requires few { j < self.now.latches }
        ensures { result ≡ latch_of self.now j }
    {
        2 * (self.safe_inputs + self.fairs + j + 2)
    }

    /// The copy of latch `j`.
    pub fn copy(&self, j: u32) -> u32
        requires room { HasRoom self.now }
        requires few { j < self.now.latches }
        ensures { result ≡ copy_of self.now j }
    {
        2 * (self.safe_inputs + self.fairs + self.latches + j + 2)
    }

    /// Whether a step was made.
    pub fn begun(&self) -> u32
        requires { HasRoom self.now }
        ensures { result ≡ begun_of self.now }
    {
        2 * (self.safe_inputs + self.fairs + 2 * self.latches + 2)
    }
}
