//! The check of a whole frame, which takes no memory.

ghost use Rattle.std.specs.Prelude.{◌≤◌, length, IfOk};
ghost use Rattle.wire_codec.specs.Reading.{Reads, framing};

use crate::fault::FrameFault;
use crate::field::{id_at, number_at};
use crate::header::header;
use crate::kind::Kind;
use crate::walk::walk_message;

/// The kind of the frame, or the first refusal that applies.
pub(crate) fn check(bytes: &[u8]) -> Result<Kind, FrameFault>
    ensures value { Reads (λ kind. kind) result (framing bytes.now) }
    ensures within { IfOk result (λ kind. 6 ≤ length bytes.now) }
{
    let kind = header(bytes)?;
    let (_sender, place) = id_at(bytes, 6)?;
    let (_receiver, place) = id_at(bytes, place)?;
    let (_stamp, place) = number_at(bytes, place)?;
    walk_message(bytes, kind, place)?;
    Ok(kind)
}
