//! Devices in memory, of which each call is known beforehand.

ghost use Rattle.std.specs.Prelude.{◌≡◌, ◌<◌, [], IfOk};

use crate::calls::Calls;
use crate::feed::Feed;
use crate::traits::{Piece, Sink, Source, Taken};
use ring_math::OutOfMemory;
use std::alloc::Global;
use std::marker::Model;

/// A source of bytes in memory, of which chosen calls fail. A call that fails gives nothing.
#[derive(Drop)]
pub struct MemorySource {
    feed: Feed,
    calls: Calls,
}

impl Model for MemorySource {
    ghost use Rattle.outside.specs.MemorySource.{SourceInMemory};

    ghost Value = { SourceInMemory };

    ghost view = { λ s. record { feed = s.feed; calls = s.calls } };
}

impl MemorySource {
    /// A source of these bytes. A call moves at most `per_call` of them, and the calls with a number in `fails`, counted
    /// from 1, fail.
    pub fn new(
        alloc: Global,
        bytes: &[u8],
        per_call: usize,
        fails: &[u64],
    ) -> Result<MemorySource, OutOfMemory>
        requires { 0 < per_call }
        ensures feed { IfOk result (λ s. s.feed ≡ record { left = bytes.now; per_call = per_call }) }
        ensures calls { IfOk result (λ s. s.calls ≡ record { fails = fails.now; made = 0; faults = 0 }) }
    {
        let feed = Feed::new(alloc, bytes, per_call)?;
        let calls = Calls::new(alloc, fails)?;
        Ok(MemorySource { feed, calls })
    }

    /// The bytes that are left.
    pub fn left(&self) -> &[u8]
        ensures { result.now ≡ self.now.feed.left }
    {
        self.feed.left()
    }
}

impl Source for MemorySource {
    ghost use Rattle.std.specs.Prelude.{Some};
    ghost use Rattle.outside.specs.MemorySource.{Gives};

    ghost left = { λ s. Some s.feed.left };

    ghost faults = { λ s. s.calls.faults };

    ghost gives = { Gives };

    fn read_some(&mut self, buf: &mut [u8]) -> Piece {
        let failed = self.calls.is_next_to_fail();
        self.calls.record(failed);
        if failed {
            return Piece::Failed;
        }
        self.feed.give(buf)
    }
}

/// A sink in memory, of which chosen calls fail. A call also fails where the room is used.
#[derive(Drop)]
pub struct MemorySink {
    taken: Vec<u8>,
    room: usize,
    per_call: usize,
    calls: Calls,
}

impl Model for MemorySink {
    ghost use Rattle.std.specs.Prelude.{vec_capacity, vec_len, ◌+◌, ◌≤◌, ◌<◌};
    ghost use Rattle.outside.specs.MemorySink.{SinkInMemory};

    ghost Value = { SinkInMemory };

    ghost view = { λ s. record { taken = s.taken.items; room = s.room; per_call = s.per_call; calls = s.calls } };

    ghost invariant = { λ s. (vec_len s.taken + s.room ≤ vec_capacity s.taken) × (0 < s.per_call) };
}

impl MemorySink {
    /// A sink with room for so many bytes, for which memory is taken here. A call moves at most `per_call` bytes, and the
    /// calls with a number in `fails`, counted from 1, fail.
    pub fn new(
        alloc: Global,
        room: usize,
        per_call: usize,
        fails: &[u64],
    ) -> Result<MemorySink, OutOfMemory>
        requires { 0 < per_call }
        ensures { IfOk result (λ s. s ≡ record {
          taken = [];
          room = room;
          per_call = per_call;
          calls = record { fails = fails.now; made = 0; faults = 0 };
        }) }
    {
        let taken = Vec::with_capacity(alloc, room)?;
        let calls = Calls::new(alloc, fails)?;
        Ok(MemorySink {
            taken,
            room,
            per_call,
            calls,
        })
    }

    /// The bytes that were taken.
    pub fn taken(&self) -> &[u8]
        ensures { result.now ≡ self.now.taken }
    {
        &self.taken
    }
}

impl Sink for MemorySink {
    ghost use Rattle.std.specs.Prelude.{Some};
    ghost use Rattle.outside.specs.MemorySink.{Takes};

    ghost taken = { λ s. Some s.taken };

    ghost faults = { λ s. s.calls.faults };

    ghost takes = { Takes };

    fn put(&mut self, bytes: &[u8]) -> Taken {
        let failed = self.room == 0 || self.calls.is_next_to_fail();
        self.calls.record(failed);
        if failed {
            return Taken::Failed;
        }
        let count = bytes.len().min(self.per_call.min(self.room));
        let appended = self.taken.extend_from_slice(&bytes[..count]).is_ok();
        prove!(appended);
        self.room -= count;
        Taken::Took(count)
    }
}
