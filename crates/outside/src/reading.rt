//! Reading a source up to a limit.

ghost use Rattle.std.specs.Prelude.{◌≡◌, ◌≤◌, Err, IfOk, drop, length, take, vec_len};
ghost use Rattle.outside.specs.Reading.{outcome_of, Reads};
ghost use Rattle.outside.specs.Rose.{Rose};
ghost use Rattle.outside.specs.Told.{Told};

use crate::traits::{Piece, Source};
use std::alloc::{AllocError, Global};

/// Why a source was not read.
#[derive(Clone, Copy, Debug, PartialEq, Eq)]
pub enum ReadFault {
    /// A call of the source failed.
    Read,
    /// Memory was refused.
    OutOfMemory,
}

impl From<AllocError> for ReadFault {
    ghost use Rattle.outside.specs.declared.reading.ReadFault.TheVariants.{OutOfMemory};

    ghost from_gives = { λ _ fault. fault ≡ OutOfMemory };

    fn from(_error: AllocError) -> ReadFault {
        ReadFault::OutOfMemory
    }
}

/// The most bytes that are asked for in one call.
const BUFFER: usize = 65536;

/// Reads a source to its end, or up to `most` bytes where it has more. It asks for no byte beyond them, so what is left
/// stays in the source.
pub fn read_to_limit<S: Source>(
    alloc: Global,
    source: &mut S,
    most: usize,
) -> Result<Vec<u8>, ReadFault>
    ensures bytes { Told (S.left source.old) (S.left source.new) (λ before after.
        IfOk result (λ read. (read.items ≡ take most before) × (after ≡ drop most before))) }
    ensures calls { Reads S.gives most source.old 0 (outcome_of vec_len result) source.new }
    ensures limit { IfOk result (λ read. length read.items ≤ most) }
    ensures count { S.faults source.old ≤ S.faults source.new }
    ensures fault { result ≡ Err ReadFault.Read → Rose (S.faults source.old) (S.faults source.new) }
{
    let mut read = Vec::new(alloc);
    let mut buf = [0; BUFFER];
    while read.len() < most {
        let room = BUFFER.min(most - read.len());
        match source.read_some(&mut buf[..room]) {
            Piece::Got(count) => read.extend_from_slice(&buf[..count])?,
            Piece::End => return Ok(read),
            Piece::Failed => return Err(ReadFault::Read),
        }
    }
    Ok(read)
}
