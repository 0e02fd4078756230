//! What a node notes of a step.

ghost use Rattle.std.specs.Prelude.{◌≡◌, IfOk};

use crate::reply::{Answer, Reply};
use ring_math::{Bytes, FileId, Id, OutOfMemory};
use std::alloc::Global;

const _: () = prove!(size_of::<Note>() == 96);

#[derive(Drop)]
pub enum Note {
    /// The root accepted these bytes for the file.
    Accepted {
        file: FileId,
        bytes: Bytes,
    },
    /// A lookup reached the node that covers its key (Pastry's `deliver`).
    Delivered {
        origin: Id,
        number: u64,
        key: Id,
        hops: u16,
    },
    /// A command of the origin was replied.
    Answered {
        origin: Id,
        number: u64,
        reply: Reply,
    },
    /// A command of the node itself is over.
    Closed {
        number: u64,
        answer: Answer,
    },
    /// The root turned the file into a tombstone.
    Reclaimed {
        file: FileId,
    },
}

impl Note {
    /// The same note, which shares the lists that this one names.
    pub fn copy(&self, alloc: Global) -> Result<Note, OutOfMemory>
        ensures { IfOk result (λ note. note ≡ self.now) }
    {
        Ok(match self {
            Note::Accepted { file, bytes } => Note::Accepted {
                file: *file,
                bytes: bytes.copy(alloc)?,
            },
            Note::Delivered {
                origin,
                number,
                key,
                hops,
            } => Note::Delivered {
                origin: *origin,
                number: *number,
                key: *key,
                hops: *hops,
            },
            Note::Answered {
                origin,
                number,
                reply,
            } => Note::Answered {
                origin: *origin,
                number: *number,
                reply: reply.copy(alloc)?,
            },
            Note::Closed { number, answer } => Note::Closed {
                number: *number,
                answer: answer.copy(alloc)?,
            },
            Note::Reclaimed { file } => Note::Reclaimed { file: *file },
        })
    }
}
