//! The beginning of a record.

ghost use Rattle.std.specs.Prelude.{◌≡◌, ◌<◌, ◌≤◌, Some, length, map, slice_get, take};
ghost use Rattle.wire_msg.specs.Words.{plain_envelope};
ghost use Rattle.overlay_rules.specs.Record.{sent_in};
ghost use Rattle.overlay_rules.specs.Seen.{entry_seen};

use overlay_rules::{Entries, EntryRef, EventRef};
use std::marker::Model;
use wire_msg::Envelope;

/// The first entries of a record, and what they sent. It is seen as these entries.
#[derive(Drop)]
pub(crate) struct Front<'a> {
    entries: &'a Entries,
    len: usize,
    sent: &'a [Envelope],
}

impl<'a> Model for Front<'a> {
    ghost use Rattle.std.specs.Prelude.{◌≡◌, ◌≤◌, List, length, map, take};
    ghost use Rattle.wire_msg.specs.Words.{plain_envelope};
    ghost use Rattle.overlay_rules.specs.declared.entry.Entry.{Entry};
    ghost use Rattle.overlay_rules.specs.Record.{sent_in};

    ghost Value = { List Entry };

    ghost view = { λ a. take a.len a.entries.now };

    ghost invariant = { λ a. (a.len ≤ length a.entries.now) × (map plain_envelope a.sent.now ≡ sent_in (take a.len a.entries.now)) };
}

impl<'a> Front<'a> {
    /// The first so many entries.
    pub(crate) fn of(entries: &'a Entries, len: usize) -> Front<'a>
        requires { len ≤ length entries.now }
        ensures { result ≡ take len entries.now }
    {
        Front {
            entries,
            len,
            sent: sent_by(entries, len),
        }
    }

    /// How many there are.
    pub(crate) fn len(&self) -> usize
        ensures { result ≡ length self.now }
    {
        self.len
    }

    /// The entry at a place.
    pub(crate) fn at(&self, place: usize) -> EntryRef<'_>
        requires { place < length self.now }
        ensures { slice_get self.now place ≡ Some (entry_seen result) }
    {
        self.entries.at(place)
    }

    /// All that they sent, in order.
    pub(crate) fn sent(&self) -> &[Envelope]
        ensures { map plain_envelope result.now ≡ sent_in self.now }
    {
        self.sent
    }
}

/// What the first so many entries sent.
fn sent_by(entries: &Entries, len: usize) -> &[Envelope]
    requires { len ≤ length entries.now }
    ensures { map plain_envelope result.now ≡ sent_in (take len entries.now) }
{
    let sent = entries.sent();
    let mut count = 0;
    for place in 0..len {
        let entry = entries.at(place);
        // Named, since the prover has to see what type a command is.
        if let EventRef::Command {
            command: _command,
            ..
        } = entry.event
        {}
        count += entry.messages.len();
    }
    &sent[..count]
}
