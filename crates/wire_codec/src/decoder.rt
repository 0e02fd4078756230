//! Frames as messages.

ghost use Rattle.std.specs.Prelude.{◌≡◌, ◌↔◌, ◌≤◌, None, IsTrue, IfOk, MatchResult, length};
ghost use Rattle.wire_msg.specs.Words.{plain_envelope, Envelope as PlainEnvelope};
ghost use Rattle.wire_codec.specs.declared.fault.FrameFault.TheVariants as fault;
ghost use Rattle.wire_codec.specs.Spelling.{Spells, contents_of};
ghost use Rattle.wire_codec.specs.Reading.{refusal, IsDue};
ghost use Rattle.wire_codec.specs.Values.{Gives, envelope_at};

use crate::check::check;
use crate::fault::FrameFault;
use crate::field::{id_at, number_at};
use crate::kind::Kind;
use crate::message::message_at;
use std::alloc::Global;
use wire_msg::Envelope;

/// The envelope of a frame of this kind.
fn envelope_at(alloc: Global, bytes: &[u8], kind: Kind) -> Result<Envelope, FrameFault>
    requires { 6 ≤ length bytes.now }
    ensures { Gives (λ e. contents_of (plain_envelope e)) result (envelope_at bytes.now kind) }
{
    let (sender, place) = id_at(bytes, 6)?;
    let (receiver, place) = id_at(bytes, place)?;
    let (stamp, place) = number_at(bytes, place)?;
    match message_at(alloc, bytes, kind, place) {
        Ok(message) => Ok(Envelope {
            sender,
            receiver,
            stamp,
            message,
        }),
        Err(fault) => Err(fault),
    }
}

/// The envelope of a frame. The frame is checked whole before memory is taken.
pub fn decode(alloc: Global, bytes: &[u8]) -> Result<Envelope, FrameFault>
    // What is read is spelled so.
    ensures read { IfOk result (λ envelope. Spells bytes.now (plain_envelope envelope)) }
    // What spells an envelope is read as it, unless memory is refused.
    ensures spelled { (e : PlainEnvelope) → Spells bytes.now e → MatchResult result (λ envelope. plain_envelope envelope ≡ e) (λ f. f ≡ fault.OutOfMemory) }
    // Each fault is the first refusal that applies, and want of memory comes only where none does.
    ensures refused { MatchResult result (λ envelope. refusal bytes.now ≡ None) (λ f. IsDue f (refusal bytes.now)) }
{
    match check(bytes) {
        Ok(kind) => envelope_at(alloc, bytes, kind),
        Err(fault) => Err(fault),
    }
}

/// Whether the bytes are a frame. It takes no memory.
pub fn is_frame(bytes: &[u8]) -> bool
    ensures spelled { IsTrue result ↔ ((e : PlainEnvelope) × Spells bytes.now e) }
    ensures refused { IsTrue result ↔ (refusal bytes.now ≡ None) }
{
    check(bytes).is_ok()
}
