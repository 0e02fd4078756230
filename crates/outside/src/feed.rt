//! Bytes in memory that are given out piece by piece.

ghost use Rattle.std.specs.Prelude.{◌≡◌, ◌<◌, ◌++◌, IfOk, length, take};
ghost use Rattle.outside.specs.Source.{FitsIn};

use crate::traits::Piece;
use ring_math::OutOfMemory;
use std::alloc::Global;
use std::marker::Model;

/// Bytes in memory, of which a call gives at most `per_call`.
#[derive(Drop)]
pub(crate) struct Feed {
    bytes: Vec<u8>,
    given: usize,
    per_call: usize,
}

impl Model for Feed {
    ghost use Rattle.std.specs.Prelude.{drop, ◌≤◌, ◌<◌, vec_len};
    ghost use Rattle.outside.specs.Feed.{Feed as Seen};

    ghost Value = { Seen };

    ghost view = { λ f. record { left = drop f.given f.bytes.items; per_call = f.per_call } };

    ghost invariant = { λ f. (f.given ≤ vec_len f.bytes) × (0 < f.per_call) };
}

impl Feed {
    ghost use Rattle.outside.specs.Feed.{after_piece, next_piece, size_of};

    pub(crate) fn new(alloc: Global, bytes: &[u8], per_call: usize) -> Result<Feed, OutOfMemory>
        requires { 0 < per_call }
        ensures { IfOk result (λ f. f ≡ record { left = bytes.now; per_call = per_call }) }
    {
        let bytes = bytes.to_vec(alloc)?;
        Ok(Feed {
            bytes,
            given: 0,
            per_call,
        })
    }

    /// The bytes that are left.
    pub(crate) fn left(&self) -> &[u8]
        ensures { result.now ≡ self.now.left }
    {
        &self.bytes.as_slice()[self.given..]
    }

    /// Gives the next bytes, as many as the buffer and the limit allow.
    pub(crate) fn give(&mut self, buf: &mut [u8]) -> Piece
        requires { 0 < length buf.old }
        ensures piece { result ≡ next_piece self.old (length buf.old) }
        ensures size { FitsIn result (length buf.old) }
        ensures after { self.new ≡ after_piece self.old result }
        ensures bytes { self.old.left ≡ take (size_of result) buf.new ++ self.new.left }
    {
        let left = self.bytes.len() - self.given;
        if left == 0 {
            return Piece::End;
        }
        let count = buf.len().min(self.per_call.min(left));
        buf[..count].copy_from_slice(&self.bytes.as_slice()[self.given..self.given + count]);
        self.given += count;
        Piece::Got(count)
    }
}
