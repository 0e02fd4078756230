//! Devices that never fail.

ghost use Rattle.std.specs.Prelude.{◌≡◌, ◌<◌, IfOk};

use crate::feed::Feed;
use crate::traits::{Piece, Sink, Source, Taken};
use ring_math::OutOfMemory;
use std::alloc::Global;
use std::marker::Model;

/// A source of bytes in memory that never fails.
#[derive(Drop)]
pub struct SteadySource {
    feed: Feed,
}

impl Model for SteadySource {
    ghost use Rattle.outside.specs.Feed.{Feed as Seen};

    ghost Value = { Seen };

    ghost view = { λ s. s.feed };
}

impl SteadySource {
    /// A source of these bytes. A call moves at most `per_call` of them.
    pub fn new(alloc: Global, bytes: &[u8], per_call: usize) -> Result<SteadySource, OutOfMemory>
        requires { 0 < per_call }
        ensures { IfOk result (λ s. s ≡ record { left = bytes.now; per_call = per_call }) }
    {
        let feed = Feed::new(alloc, bytes, per_call)?;
        Ok(SteadySource { feed })
    }
}

impl Source for SteadySource {
    ghost use Rattle.std.specs.Prelude.{Some};
    ghost use Rattle.outside.specs.Feed.{Gives};

    ghost left = { λ s. Some s.left };

    ghost faults = { λ _. 0 };

    ghost gives = { Gives };

    fn read_some(&mut self, buf: &mut [u8]) -> Piece {
        self.feed.give(buf)
    }
}

/// A sink that never fails, keeps nothing and tells nothing of what it took.
#[derive(Clone, Copy, Debug)]
pub struct SteadySink {
    per_call: usize,
}

impl Model for SteadySink {
    ghost use Rattle.std.specs.Prelude.{ℕ, ◌<◌};

    ghost Value = { ℕ };

    ghost view = { λ s. s.per_call };

    ghost invariant = { λ s. 0 < s.per_call };

    ghost inverse = { λ n. record { per_call = n } };
}

impl SteadySink {
    /// A sink that takes at most `per_call` bytes a call.
    pub fn new(per_call: usize) -> SteadySink
        requires { 0 < per_call }
        ensures { result ≡ per_call }
    {
        SteadySink { per_call }
    }
}

impl Sink for SteadySink {
    ghost use Rattle.std.specs.Prelude.{None, length, min, ◌≡◌};
    ghost use Rattle.outside.specs.declared.traits.Taken.TheVariants.{Took};

    ghost taken = { λ _. None };

    ghost faults = { λ _. 0 };

    ghost takes = { λ per_call bytes answer after. (answer ≡ Took (min (length bytes) per_call)) × (after ≡ per_call) };

    fn put(&mut self, bytes: &[u8]) -> Taken {
        Taken::Took(bytes.len().min(self.per_call))
    }
}
