//! The record of all that happened in groups.

ghost use Rattle.std.specs.Prelude.{◌≡◌, ◌<◌, Some, length, slice_get, take};
ghost use Rattle.scribe_core.specs.Record.{notes_in, sent_in};
ghost use Rattle.scribe_core.specs.Seen.{entry_seen};

use crate::entry::GroupEntryRef;
use crate::flat::Lists;
use crate::message::GroupSent;
use crate::note::GroupNote;
use std::marker::Model;

/// Entries, in the order in which they happened.
#[derive(Drop)]
pub struct GroupRecord {
    pub(crate) lists: Lists,
}

impl Model for GroupRecord {
    ghost use Rattle.std.specs.Prelude.{List};
    ghost use Rattle.scribe_core.specs.Entry.{GroupEntry};
    ghost use Rattle.scribe_core.specs.Flat.{AreClosed, cut};

    ghost Value = { List GroupEntry };

    ghost view = { λ a. cut a.lists };

    ghost invariant = { λ a. AreClosed a.lists };
}

impl GroupRecord {
    /// How many entries there are.
    pub fn len(&self) -> usize
        ensures { result ≡ length self.now }
    {
        self.lists.entries.len()
    }

    /// The entry at a place.
    pub fn at(&self, place: usize) -> GroupEntryRef<'_>
        requires { place < length self.now }
        ensures { slice_get self.now place ≡ Some (entry_seen result) }
    {
        self.lists.at(place)
    }

    /// All that was sent, in order: message n stands at n.
    pub fn sent(&self) -> &[GroupSent]
        ensures { result.now ≡ sent_in self.now }
    {
        &self.lists.sent
    }

    /// All that was sent before the entry at a place, in order.
    pub fn sent_before(&self, place: usize) -> &[GroupSent]
        requires { place < length self.now }
        ensures { result.now ≡ sent_in (take place self.now) }
    {
        let starts = self.lists.starts(place);
        &self.lists.sent[..starts.sent]
    }

    /// All that was noted, in order.
    pub fn notes(&self) -> &[GroupNote]
        ensures { result.now ≡ notes_in self.now }
    {
        &self.lists.notes
    }
}
