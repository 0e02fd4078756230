//! How a group record keeps its entries: in three lists, so that no entry has memory of its own.

ghost use Rattle.std.specs.Prelude.{◌≡◌, ◌<◌, ◌≤◌, ◌++◌, ◌∷◌, [], Some, length, slice_get, slice_range, IfOk, OnErr, OnOk};
ghost use Rattle.scribe_core.specs.Flat.{AreInOrder, cut, event_kept, noted_ends, sent_ends, start_of};
ghost use Rattle.scribe_core.specs.Seen.{entry_seen, event_seen};

use crate::entry::{GroupEntryRef, GroupEvent, GroupEventRef};
use crate::message::GroupSent;
use crate::note::GroupNote;
use ring_math::{OutOfMemory, reserve_ahead};
use std::alloc::Global;

/// An event in little room. Most events deliver a message; the others are boxed, so that they do not cost each entry their size.
#[derive(Drop)]
pub(crate) enum CompactEvent {
    Deliver { message: u64 },
    Boxed(Box<GroupEvent>),
}

impl CompactEvent {
    /// The same event. It is refused for lack of memory where it is to be boxed and no box can be had.
    pub(crate) fn of(event: GroupEvent, alloc: Global) -> Result<CompactEvent, OutOfMemory>
        ensures { IfOk result (λ kept. event_kept kept ≡ event) }
    {
        match event {
            GroupEvent::Deliver { message } => Ok(CompactEvent::Deliver { message }),
            other => Ok(CompactEvent::Boxed(Box::new(alloc, other)?)),
        }
    }

    fn seen(&self) -> GroupEventRef<'_>
        ensures { event_seen result ≡ event_kept self.now }
    {
        match self {
            CompactEvent::Deliver { message } => GroupEventRef::Deliver { message: *message },
            CompactEvent::Boxed(event) => event.seen(),
        }
    }
}

/// An entry's event, and where what it sent and noted ends among all that was sent and noted.
#[derive(Drop)]
pub(crate) struct CompactEntry {
    pub(crate) event: CompactEvent,
    pub(crate) sent_end: usize,
    pub(crate) noted_end: usize,
}

/// Where what an entry sent and noted begins.
#[derive(Clone, Copy)]
pub(crate) struct Starts {
    pub(crate) sent: usize,
    pub(crate) noted: usize,
}

/// The entries of a record, and all that they sent and noted. What lies behind the last entry is the next one's.
#[derive(Drop)]
pub(crate) struct Lists {
    pub(crate) entries: Vec<CompactEntry>,
    pub(crate) sent: Vec<GroupSent>,
    pub(crate) notes: Vec<GroupNote>,
}

impl Lists {
    /// The entry at a place.
    pub(crate) fn at(&self, place: usize) -> GroupEntryRef<'_>
        requires within { place < length self.now.entries.items }
        requires order { AreInOrder self.now }
        ensures { slice_get (cut self.now) place ≡ Some (entry_seen result) }
    {
        let entry = &self.entries[place];
        let starts = self.starts(place);
        GroupEntryRef {
            event: entry.event.seen(),
            messages: between(&self.sent, starts.sent, entry.sent_end),
            notes: between(&self.notes, starts.noted, entry.noted_end),
        }
    }

    /// Where what an entry sent and noted begins: at the ends of the entry before it. The next entry is one, too.
    pub(crate) fn starts(&self, place: usize) -> Starts
        requires { place ≤ length self.now.entries.items }
        ensures sent { result.sent ≡ start_of 0 (sent_ends self.now.entries.items) place }
        ensures noted { result.noted ≡ start_of 0 (noted_ends self.now.entries.items) place }
    {
        match place.checked_sub(1) {
            Some(before) => {
                let before = &self.entries[before];
                Starts {
                    sent: before.sent_end,
                    noted: before.noted_end,
                }
            }
            None => Starts { sent: 0, noted: 0 },
        }
    }
}

/// The part of a list between two places.
fn between<T>(items: &[T], start: usize, end: usize) -> &[T]
    requires order { start ≤ end }
    requires within { end ≤ length items.now }
    ensures { result.now ≡ slice_range items.now start end }
{
    &items[start..end]
}

/// Adds an item at the end of a list, which goes on growing.
pub(crate) fn add<T: Drop>(list: &mut Vec<T>, item: T) -> Result<(), OutOfMemory>
    ensures added { OnOk result (list.new.items ≡ list.old.items ++ item ∷ []) }
    ensures kept { OnErr result (list.new.items ≡ list.old.items) }
{
    reserve_ahead(list, 1)?;
    list.push(item)?;
    Ok(())
}
