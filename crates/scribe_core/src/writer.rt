//! A group record that is being written.

ghost use Rattle.std.specs.Prelude.{◌≡◌, ◌++◌, ◌∷◌, [], OnOk};
ghost use Rattle.scribe_core.specs.Entry.{nothing_written};
ghost use Rattle.scribe_core.specs.Record.{sent_in};

use crate::entry::GroupEvent;
use crate::flat::{CompactEntry, CompactEvent, Lists, add};
use crate::group_record::GroupRecord;
use crate::message::GroupSent;
use crate::note::GroupNote;
use ring_math::OutOfMemory;
use std::alloc::Global;
use std::marker::Model;

/// A group record that is being written: its entries, and what the next one sends and notes so far.
#[derive(Drop)]
pub struct GroupWriter {
    lists: Lists,
}

impl Model for GroupWriter {
    ghost use Rattle.scribe_core.specs.Entry.{Written};
    ghost use Rattle.scribe_core.specs.Flat.{AreInOrder, written};

    ghost Value = { Written };

    ghost view = { λ a. written a.lists };

    ghost invariant = { λ a. AreInOrder a.lists };
}

impl GroupWriter {
    /// Nothing has happened. It takes no memory.
    pub fn new(alloc: Global) -> GroupWriter
        ensures { result ≡ nothing_written }
    {
        GroupWriter {
            lists: Lists {
                entries: Vec::new(alloc),
                sent: Vec::new(alloc),
                notes: Vec::new(alloc),
            },
        }
    }

    /// The next entry sends one message more.
    pub fn send(&mut self, message: GroupSent) -> Result<(), OutOfMemory>
        ensures entries { self.new.entries ≡ self.old.entries }
        ensures messages { OnOk result (self.new.messages ≡ self.old.messages ++ message ∷ []) }
        ensures notes { self.new.notes ≡ self.old.notes }
    {
        add(&mut self.lists.sent, message)?;
        Ok(())
    }

    /// The next entry has one note more.
    pub fn note(&mut self, note: GroupNote) -> Result<(), OutOfMemory>
        ensures entries { self.new.entries ≡ self.old.entries }
        ensures messages { self.new.messages ≡ self.old.messages }
        ensures notes { OnOk result (self.new.notes ≡ self.old.notes ++ note ∷ []) }
    {
        add(&mut self.lists.notes, note)?;
        Ok(())
    }

    /// The next entry is complete: it is of this event.
    pub fn close(&mut self, event: GroupEvent) -> Result<(), OutOfMemory>
        ensures entries { OnOk result (self.new.entries ≡
            self.old.entries ++ record { event = event; messages = self.old.messages; notes = self.old.notes } ∷ []) }
        ensures messages { OnOk result (self.new.messages ≡ []) }
        ensures notes { OnOk result (self.new.notes ≡ []) }
    {
        let event = CompactEvent::of(event, *self.lists.sent.allocator())?;
        let entry = CompactEntry {
            event,
            sent_end: self.lists.sent.len(),
            noted_end: self.lists.notes.len(),
        };
        add(&mut self.lists.entries, entry)?;
        Ok(())
    }

    /// All that was sent, in order: message n stands at n. What the next entry sends so far is the last.
    pub fn sent(&self) -> &[GroupSent]
        ensures { result.now ≡ sent_in self.now.entries ++ self.now.messages }
    {
        &self.lists.sent
    }

    /// The record, where the next entry has not begun.
    pub fn finish(self) -> GroupRecord
        requires messages { self.messages ≡ [] }
        requires notes { self.notes ≡ [] }
        ensures { result ≡ self.entries }
    {
        GroupRecord { lists: self.lists }
    }
}
