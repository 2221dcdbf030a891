//! A sink in memory, of which chosen calls fail.

ghost use Rattle.std.specs.Prelude.{◌≡◌, ◌≢◌, ◌≤◌, ◌<◌, ◌+◌, ◌++◌, ◌⊎◌, ⊤, [], length, min, take, Contains, IsErr, IfOk, OnOk, OnErr};
ghost use Rattle.hy_base.specs.Counts.{Rose, last_count};
ghost use Rattle.hy_base.specs.Fakes.{Fills};
ghost use Rattle.hy_base.specs.Talks.{took, not_taken};

use crate::calls::{Calls, one_more};
use crate::list::NumList;
use crate::memory::M;
use crate::sink::{Sink, SinkFailed};
use std::alloc::Global;
use std::marker::Model;

/// A buffer that takes up to a number of bytes, and so many at one call. It tells all that a sink
/// may tell.
///
/// Calls are counted from 1, and those whose numbers are in a list fail, as does one that finds the
/// buffer full. A call with an empty piece does not fail.
#[derive(Drop)]
pub struct MemSink {
    bytes: Vec<u8>,
    room: usize,
    most: usize,
    calls: Calls,
    faults: u64,
}

impl Model for MemSink {
    ghost use Rattle.std.specs.Prelude.{◌≤◌, ◌+◌, vec_len, vec_capacity};
    ghost use Rattle.hy_base.specs.Fakes.{Buffer};

    ghost Value = { Buffer };

    ghost view = { λ s. record {
      given = s.bytes.items;
      room = s.room;
      most = s.most;
      made = s.calls.made;
      fail = s.calls.fail;
      faults = s.faults;
    } };

    ghost invariant = { λ s. (vec_len s.bytes + s.room ≤ vec_capacity s.bytes) × (1 ≤ s.most) };
}

impl MemSink {
    /// An empty buffer that takes up to `room` bytes, `most` of them at one call. The calls with the
    /// numbers `fail` are to fail.
    pub fn new(alloc: Global, room: u32, most: u32, fail: NumList) -> M<MemSink>
        requires { 1 ≤ most }
        ensures { IfOk result (λ sink. sink ≡ record { given = []; room = room; most = most; made = 0; fail = fail; faults = 0 }) }
    {
        let room = room as usize;
        Ok(MemSink {
            bytes: Vec::with_capacity(alloc, room)?,
            room,
            most: most as usize,
            calls: Calls::new(fail),
            faults: 0,
        })
    }

    /// What the sink was given.
    pub fn bytes(&self) -> &[u8]
        ensures { result.now ≡ self.now.given }
    {
        self.bytes.as_slice()
    }

    /// How many bytes of a piece of this length one call takes.
    fn share_of(&self, length: usize) -> usize
        ensures { result ≡ min length (min self.now.most self.now.room) }
    {
        length.min(self.most.min(self.room))
    }
}

impl Sink for MemSink {
    ghost tells = { λ s. ⊤ };

    ghost given = { λ s. s.given };

    ghost faults = { λ s. s.faults };

    ghost called = { λ s put t. Fills s put t };

    fn put(&mut self, piece: &[u8]) -> Result<usize, SinkFailed>
        ensures faults { self.old.faults ≤ self.new.faults }
        ensures counted { OnErr result (Rose self.old.faults self.new.faults) }
        ensures kept { OnOk result (self.new.faults ≡ self.old.faults) }
        ensures within { IfOk result (λ k. k ≤ length piece.now) }
        ensures some { IfOk result (λ k. 0 < length piece.now → 0 < k) }
        ensures empty { length piece.now ≡ 0 → result ≡ Ok 0 }
        ensures given { IfOk result (λ k. self.new.given ≡ self.old.given ++ take k piece.now) }
        ensures refused { OnErr result (self.new.given ≡ self.old.given) }
        ensures called { IfOk result (λ k. Fills self.old (took (take k piece.now)) self.new) }
        ensures not_taken { OnErr result (Fills self.old not_taken self.new) }

        ensures made { self.old.made ≢ last_count → self.new.made ≡ self.old.made + 1 }
        ensures chosen { self.old.made ≢ last_count → 0 < length piece.now → Contains self.old.fail self.new.made → IsErr result }
        ensures fails { OnErr result ((self.old.room ≡ 0) ⊎ Contains self.old.fail self.new.made) }
        ensures most { IfOk result (λ k. k ≡ min (length piece.now) (min self.old.most self.old.room)) }
        ensures room { IfOk result (λ k. self.old.room ≡ k + self.new.room) }
        ensures keeps { OnErr result (self.new.room ≡ self.old.room) }
        ensures stays { (self.new.most ≡ self.old.most) × (self.new.fail ≡ self.old.fail) }
    {
        let fails = self.calls.next_fails();
        if piece.is_empty() {
            return Ok(0);
        }
        let count = self.share_of(piece.len());
        if fails || count == 0 {
            self.faults = one_more(self.faults);
            return Err(SinkFailed);
        }
        self.bytes.extend_from_slice(&piece[..count]).unwrap();
        self.room -= count;
        Ok(count)
    }
}
