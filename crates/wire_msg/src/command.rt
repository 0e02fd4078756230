//! What a node is told to do.

ghost use Rattle.std.specs.Prelude.{◌≡◌, ◌<◌, ◌≤◌, ◌⊎◌, IfOk, MatchOption};

use crate::limits::MOST_COPIES;
use ring_math::{Bytes, FileId, Id, OutOfMemory};
use std::alloc::Global;
use std::marker::Model;

/// How many copies an insert asks for, 1 to [`MOST_COPIES`].
#[derive(Clone, Copy, PartialEq, Eq, Debug)]
pub struct Copies(u8);

impl Model for Copies {
    ghost use Rattle.std.specs.Prelude.{ℕ, ◌≤◌};
    ghost use Rattle.wire_msg.specs.declared.limits.TheConstants.{MOST_COPIES};

    ghost Value = { ℕ };

    ghost view = { λ a. a.0 };

    ghost invariant = { λ a. (1 ≤ a.0) × (a.0 ≤ MOST_COPIES) };

    ghost inverse = { λ n. record { 0 = n } };
}

impl Copies {
    /// A number of copies, None exactly where it is not 1 to [`MOST_COPIES`].
    pub fn new(n: u8) -> Option<Copies>
        ensures { MatchOption result ((n < 1) ⊎ (MOST_COPIES < n)) (λ copies. (copies ≡ n) × (1 ≤ n) × (n ≤ MOST_COPIES)) }
    {
        if n >= 1 && n <= MOST_COPIES {
            Some(Copies(n))
        } else {
            None
        }
    }

    pub fn get(self) -> u8
        ensures value { result ≡ self }
        ensures range { (1 ≤ self) × (self ≤ MOST_COPIES) }
    {
        self.0
    }
}

/// A command to a node.
#[derive(Drop)]
pub enum Command {
    /// Join the overlay by way of a node.
    Join {
        via: Id,
    },
    /// Find the node closest to a key.
    Lookup {
        key: Id,
    },
    /// Keep a file on so many nodes.
    Insert {
        file: FileId,
        copies: Copies,
        bytes: Bytes,
    },
    /// Bring the bytes of a file.
    Fetch {
        file: FileId,
    },
    /// Stop the join that is under way.
    GiveUp,
    /// Take a file away for good.
    Reclaim {
        file: FileId,
    },
}

impl Command {
    /// The same command, which shares the bytes that this one names.
    pub fn copy(&self, alloc: Global) -> Result<Command, OutOfMemory>
        ensures { IfOk result (λ command. command ≡ self.now) }
    {
        Ok(match self {
            Command::Join { via } => Command::Join { via: *via },
            Command::Lookup { key } => Command::Lookup { key: *key },
            Command::Insert {
                file,
                copies,
                bytes,
            } => Command::Insert {
                file: *file,
                copies: *copies,
                bytes: bytes.copy(alloc)?,
            },
            Command::Fetch { file } => Command::Fetch { file: *file },
            Command::GiveUp => Command::GiveUp,
            Command::Reclaim { file } => Command::Reclaim { file: *file },
        })
    }
}
