//! The frames of what a step sends.

ghost use Rattle.std.specs.Prelude.{◌≡◌, ◌++◌, IfOk, map, vec_len, ◌+◌, ◌≤◌, All};
ghost use Rattle.std.specs.VecDeque.{deque_len, deque_capacity};
ghost use Rattle.overlay_rules.specs.Record.{enveloped};
ghost use Rattle.wire_msg.specs.Words.{plain_envelope};
ghost use Rattle.node_cell.specs.Cell.{frame_of};
ghost use Rattle.node_cell.specs.Kept.{HasFrame};

use overlay_rules::send_all;
use ring_math::{Id, OutOfMemory};
use std::alloc::Global;
use std::collections::VecDeque;
use wire_codec::encode;
use wire_msg::{Envelope, Envelopes, Frame, Sends};

/// A frame, and whom it is for.
#[derive(Drop)]
pub struct Addressed {
    pub receiver: Id,
    pub frame: Frame,
}

/// What a step sends: its messages in envelopes, and the frame of each of these.
#[derive(Drop)]
pub(crate) struct Dispatch {
    pub(crate) sent: Envelopes,
    pub(crate) frames: Vec<Addressed>,
}

/// Each message in an envelope from this sender, with this stamp, and the frames of these.
pub(crate) fn dispatch_of(
    alloc: Global,
    stamp: u64,
    sender: Id,
    sends: Sends,
) -> Result<Dispatch, OutOfMemory>
    ensures sent { IfOk result (λ d. d.sent ≡ map (enveloped stamp sender) sends) }
    ensures frames { IfOk result (λ d. d.frames.items ≡ map frame_of (map (enveloped stamp sender) sends)) }
    ensures spelled { IfOk result (λ d. All HasFrame (map (enveloped stamp sender) sends)) }
{
    let sent = envelopes_of(alloc, stamp, sender, sends)?;
    let frames = frames_of(alloc, sent.as_slice())?;
    Ok(Dispatch { sent, frames })
}

/// Each message in an envelope from this sender, with this stamp. The messages are moved, and not copied.
fn envelopes_of(
    alloc: Global,
    stamp: u64,
    sender: Id,
    sends: Sends,
) -> Result<Envelopes, OutOfMemory>
    ensures { IfOk result (λ envelopes. envelopes ≡ map (enveloped stamp sender) sends) }
{
    let messages = sends.into_items();
    // A history keeps them, so there is room for them alone.
    let mut envelopes = Vec::with_capacity(alloc, messages.len())?;
    send_all(&mut envelopes, stamp, sender, messages);
    Ok(Envelopes::of(envelopes))
}

/// The frame of each envelope, in this order.
fn frames_of(alloc: Global, envelopes: &[Envelope]) -> Result<Vec<Addressed>, OutOfMemory>
    ensures frames { IfOk result (λ frames. frames.items ≡ map frame_of (map plain_envelope envelopes.now)) }
    ensures spelled { IfOk result (λ frames. All HasFrame (map plain_envelope envelopes.now)) }
{
    let mut frames = Vec::with_capacity(alloc, envelopes.len())?;
    for envelope in envelopes {
        frames.push(frame_of(alloc, envelope)?)?;
    }
    Ok(frames)
}

fn frame_of(alloc: Global, envelope: &Envelope) -> Result<Addressed, OutOfMemory>
    ensures frame { IfOk result (λ made. made ≡ frame_of (plain_envelope envelope.now)) }
    ensures spelled { IfOk result (λ made. HasFrame (plain_envelope envelope.now)) }
{
    let frame = encode(alloc, envelope)?;
    Ok(Addressed {
        receiver: envelope.receiver,
        frame,
    })
}

/// Adds the frames at the end, into room that was taken.
pub(crate) fn append(unsent: &mut VecDeque<Addressed>, frames: Vec<Addressed>)
    requires { deque_len unsent.old + vec_len frames ≤ deque_capacity unsent.old }
    ensures { unsent.new.items ≡ unsent.old.items ++ frames.items }
{
    for frame in frames {
        let _ = unsent.push_back(frame);
    }
}
