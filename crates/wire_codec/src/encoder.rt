//! Messages as frames.

ghost use Rattle.std.specs.Prelude.{◌≡◌, ◌++◌, ◌∷◌, IfOk, OnOk};
ghost use Rattle.std.specs.Int.{w32, to_be_bytes};
ghost use Rattle.wire_msg.specs.Words.{plain_envelope};
ghost use Rattle.wire_codec.specs.Spelling.{Spells};

use crate::kind::Kind;
use crate::put::put_addresses;
use crate::put_message::put_message;
use crate::size::message_size;
use ring_math::OutOfMemory;
use std::alloc::Global;
use wire_msg::{Envelope, Frame};

/// The bytes of version, kind and length.
const HEADER: usize = 6;
/// The bytes of sender, receiver and stamp.
const ADDRESSES: usize = 40;

fn put_header(out: &mut Vec<u8>, version: u8, number: u8, size: u32) -> Result<(), OutOfMemory>
    ensures { OnOk result (out.new.items ≡ out.old.items ++ (version ∷ number ∷ to_be_bytes w32 size)) }
{
    let [first, second, third, fourth] = size.to_be_bytes();
    out.extend_from_slice(&[version, number, first, second, third, fourth])?;
    Ok(())
}

/// The one frame of the envelope.
pub fn encode(alloc: Global, envelope: &Envelope) -> Result<Frame, OutOfMemory>
    ensures { IfOk result (λ frame. Spells frame (plain_envelope envelope.now)) }
{
    let mut out = Vec::new(alloc);
    encode_into(&mut out, envelope)?;
    Ok(Frame::from(out))
}

/// The one frame of the envelope, in the place of what the buffer had. A buffer that is used again is large enough at last, and
/// then no memory is taken. After `OutOfMemory` nothing is known of what it has.
pub fn encode_into(out: &mut Vec<u8>, envelope: &Envelope) -> Result<(), OutOfMemory>
    ensures { OnOk result (Spells out.new.items (plain_envelope envelope.now)) }
{
    // Kind and size are found together, before room is made, so that one branch on the message does for both.
    let size = ADDRESSES + message_size(&envelope.message);
    let kind = Kind::of_message(&envelope.message);
    let version = kind.version().number();
    let number = kind.number();
    out.clear();
    out.reserve(HEADER + size)?;
    put_header(out, version, number, size as u32)?;
    put_addresses(out, envelope.sender, envelope.receiver, envelope.stamp)?;
    put_message(out, &envelope.message)?;
    Ok(())
}
