//! What an entry sent and noted, compared with what its step sends and notes.

ghost use Rattle.std.specs.Prelude.{◌≡◌, map};
ghost use Rattle.std.specs.Bool.{Decides};
ghost use Rattle.wire_msg.specs.Words.{plain_envelope, plain_sent};
ghost use Rattle.overlay_rules.specs.Record.{enveloped, unstamped};

use ring_math::Id;
use wire_compare::{same_message, same_note};
use wire_msg::{Envelope, Note, Outgoing};

/// Whether the envelopes are these messages, sent by this node, whatever their stamps.
pub(crate) fn are_sent(envelopes: &[Envelope], sender: Id, sends: &[Outgoing]) -> bool
    ensures { Decides result (map unstamped (map plain_envelope envelopes.now) ≡ map (enveloped 0 sender) (map plain_sent sends.now)) }
{
    if envelopes.len() != sends.len() {
        return false;
    }
    for place in 0..envelopes.len() {
        if !is_sent(&envelopes[place], sender, &sends[place]) {
            return false;
        }
    }
    true
}

fn is_sent(envelope: &Envelope, sender: Id, sent: &Outgoing) -> bool
    ensures { Decides result (unstamped (plain_envelope envelope.now) ≡ enveloped 0 sender (plain_sent sent.now)) }
{
    envelope.sender == sender
        && envelope.receiver == sent.receiver
        && same_message(&envelope.message, &sent.message)
}

/// Whether the notes are the same, in the same order.
pub(crate) fn are_noted(one: &[Note], other: &[Note]) -> bool
    ensures { Decides result (one.now ≡ other.now) }
{
    if one.len() != other.len() {
        return false;
    }
    for place in 0..one.len() {
        if !same_note(&one[place], &other[place]) {
            return false;
        }
    }
    true
}
