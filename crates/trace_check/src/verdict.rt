//! What the check of a record answers.

ghost use Rattle.std.specs.Prelude.{◌≡◌};
ghost use Rattle.trace_check.specs.Words.{part_word};

/// What the check of a record answers.
#[derive(Clone, Copy, Debug, PartialEq, Eq)]
pub enum Verdict {
    /// The record is legal, and so many nodes are ready after its last entry.
    Legal { ready: u64 },
    /// The entry with this number, from 1, is the first that may not stand where it stands; this part of it is the first that
    /// is wrong.
    Wrong { entry: u64, part: Part },
}

/// A part of an entry.
#[derive(Clone, Copy, Debug, PartialEq, Eq)]
pub enum Part {
    /// The node is not one of the record's, the message was not sent before, or the command's number is not new.
    Event,
    /// The messages are not those that the step sends.
    Sent,
    /// The notes are not those that the step makes.
    Notes,
}

impl Part {
    /// The word for a part: `event`, `sent` or `notes`.
    pub fn word(self) -> &'static [u8]
        ensures { result.now ≡ part_word self }
    {
        match self {
            Part::Event => b"event",
            Part::Sent => b"sent",
            Part::Notes => b"notes",
        }
    }
}
