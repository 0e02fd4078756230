//! The entry of a trace that is being read.

ghost use Rattle.std.specs.Prelude.{◌≡◌, ◌++◌, ◌∷◌, [], OnOk};
ghost use Rattle.trace_text.specs.Fronts.{begun, may_send, with_note, with_sent};
ghost use Rattle.wire_msg.specs.Words.{plain_envelope};

use overlay_rules::{CompactEvent, Entries, Event};
use ring_math::OutOfMemory;
use std::alloc::Global;
use std::marker::Model;
use std::mem;
use wire_msg::{Envelope, Note};

/// The last entry that was read, which may go on. Its lists keep their room for the entry behind it, so that few entries need
/// memory of their own.
#[derive(Drop)]
pub(crate) struct LastEntry {
    event: Event,
    messages: Vec<Envelope>,
    notes: Vec<Note>,
}

impl Model for LastEntry {
    ghost use Rattle.std.specs.Prelude.{map};
    ghost use Rattle.overlay_rules.specs.declared.entry.Entry.{Entry};
    ghost use Rattle.wire_msg.specs.Words.{plain_envelope};

    ghost Value = { Entry };

    ghost view = { λ e. record { event = e.event; messages = map plain_envelope e.messages.items; notes = e.notes.items } };
}

impl LastEntry {
    /// An entry of which only the event was read. It takes no memory.
    pub(crate) fn begun(alloc: Global, event: Event) -> LastEntry
        ensures { result ≡ begun event }
    {
        LastEntry {
            event,
            messages: Vec::new(alloc),
            notes: Vec::new(alloc),
        }
    }

    /// Whether it may send, since it noted nothing so far.
    pub(crate) fn may_send(&self) -> bool
        ensures { result ≡ may_send self.now }
    {
        self.notes.is_empty()
    }

    /// One message more.
    pub(crate) fn send(&mut self, envelope: Envelope) -> Result<(), OutOfMemory>
        ensures { OnOk result (self.new ≡ with_sent self.old (plain_envelope envelope)) }
    {
        self.messages.push(envelope)?;
        Ok(())
    }

    /// One note more.
    pub(crate) fn note(&mut self, note: Note) -> Result<(), OutOfMemory>
        ensures { OnOk result (self.new ≡ with_note self.old note) }
    {
        self.notes.push(note)?;
        Ok(())
    }

    /// The entry is whole and stands behind these, and another begins with this event.
    pub(crate) fn give_way(&mut self, whole: &mut Entries, event: Event) -> Result<(), OutOfMemory>
        ensures whole { OnOk result (whole.new ≡ whole.old ++ self.old ∷ []) }
        ensures begun { OnOk result (self.new ≡ begun event) }
    {
        let before = mem::replace(&mut self.event, event);
        let before = CompactEvent::of(before, *self.messages.allocator())?;
        whole.append(before, &mut self.messages, &mut self.notes)
    }

    /// The entry is whole and stands behind these.
    pub(crate) fn end(self, whole: &mut Entries) -> Result<(), OutOfMemory>
        ensures { OnOk result (whole.new ≡ whole.old ++ self ∷ []) }
    {
        let LastEntry {
            event,
            mut messages,
            mut notes,
        } = self;
        let event = CompactEvent::of(event, *messages.allocator())?;
        whole.append(event, &mut messages, &mut notes)
    }
}
