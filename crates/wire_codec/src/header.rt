//! The front of a frame.

ghost use Rattle.std.specs.Prelude.{◌≤◌, length, IfOk};
ghost use Rattle.wire_codec.specs.Reading.{Reads, header_of};

use crate::fault::FrameFault;
use crate::field::chunk_at;
use crate::kind::{Kind, Version};

/// The kind, where the stated length is that of all that follows.
pub(crate) fn header(bytes: &[u8]) -> Result<Kind, FrameFault>
    ensures value { Reads (λ kind. kind) result (header_of bytes.now) }
    ensures within { IfOk result (λ kind. 6 ≤ length bytes.now) }
{
    if bytes.len() < 6 {
        return Err(FrameFault::Short { need: 6 });
    }
    let version = Version::from_byte(bytes[0])?;
    let kind = Kind::from_byte(version, bytes[1])?;
    let stated = u32::from_be_bytes(*chunk_at(bytes, 2)?);
    let found = bytes.len() - 6;
    if stated as usize != found {
        return Err(FrameFault::Length { stated, found });
    }
    Ok(kind)
}
