//! What a program reads from and writes to.

ghost use Rattle.std.specs.Prelude.{ℕ, List, Option, length, ◌≡◌, ◌<◌, ◌≤◌};
ghost use Rattle.outside.specs.Rose.{Rose};
ghost use Rattle.outside.specs.Sink.{Appends, IsPartOf};
ghost use Rattle.outside.specs.Source.{FitsIn, Leaves};
ghost use Rattle.outside.specs.Told.{Told};
ghost use Rattle.outside.specs.declared.traits.Piece.{Piece};
ghost use Rattle.outside.specs.declared.traits.Taken.{Taken};

/// What one call of a source gave.
#[derive(Clone, Copy, Debug, PartialEq, Eq)]
pub enum Piece {
    /// So many bytes, at least one. They stand first in the buffer.
    Got(usize),
    /// Nothing is left.
    End,
    /// The call failed.
    Failed,
}

/// What one call of a sink took.
#[derive(Clone, Copy, Debug, PartialEq, Eq)]
pub enum Taken {
    /// So many of the bytes that were offered, at least one, from the front.
    Took(usize),
    /// The call failed, and nothing was taken.
    Failed,
}

/// Where bytes come from.
pub trait Source {
    /// The bytes that are left. A source that tells nothing of them has None.
    ghost left: { Self → Option (List ℕ) };

    /// The count of faults.
    ghost faults: { Self → ℕ };

    /// What a call may do: the source before it, the room in the buffer, the answer, and the source after it.
    ghost gives: { Self → ℕ → Piece → Self → Type 0 };

    /// Puts the next bytes at the front of `buf`, and says how many. What stands behind them in `buf` is not said.
    /// After `Failed` nothing is said of which bytes are left. No memory.
    fn read_some(&mut self, buf: &mut [u8]) -> Piece
        requires { 0 < length buf.old }
        ensures size { FitsIn result (length buf.old) }
        ensures bytes { Told (left self.old) (left self.new) (λ before after. Leaves before result buf.new after) }
        ensures step { gives self.old (length buf.old) result self.new }
        ensures count { faults self.old ≤ faults self.new }
        ensures fault { result ≡ Piece.Failed → Rose (faults self.old) (faults self.new) };
}

/// Where bytes go to.
pub trait Sink {
    /// The bytes that were taken so far. A sink that tells nothing of them has None.
    ghost taken: { Self → Option (List ℕ) };

    /// The count of faults.
    ghost faults: { Self → ℕ };

    /// What a call may do: the sink before it, the bytes that are offered, the answer, and the sink after it.
    ghost takes: { Self → List ℕ → Taken → Self → Type 0 };

    /// Takes bytes from the front of `bytes`, and says how many. No memory.
    fn put(&mut self, bytes: &[u8]) -> Taken
        requires { 0 < length bytes.now }
        ensures size { IsPartOf result bytes.now }
        ensures bytes { Told (taken self.old) (taken self.new) (λ before after. Appends before result bytes.now after) }
        ensures step { takes self.old bytes.now result self.new }
        ensures count { faults self.old ≤ faults self.new }
        ensures fault { result ≡ Taken.Failed → Rose (faults self.old) (faults self.new) };
}
