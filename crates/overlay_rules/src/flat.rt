//! How a record keeps its entries: in three lists, so that no entry has memory of its own.

ghost use Rattle.std.specs.Prelude.{◌≡◌, ◌<◌, ◌≤◌, ◌+◌, ◌++◌, ◌∷◌, [], Some, length, map, slice_get, vec_len, vec_capacity, slice_range, IfOk, OnOk};
ghost use Rattle.wire_msg.specs.Words.{plain_envelope, plain_sent};
ghost use Rattle.overlay_rules.specs.Record.{IsSaidBy, enveloped};
ghost use Rattle.overlay_rules.specs.Flat.{CutsWell, HasRoom, SameLists, cut, event_kept, noted_start, sent_start};
ghost use Rattle.overlay_rules.specs.Seen.{entry_seen, event_seen};

use crate::entry::{EntryRef, Event, EventRef};
use ring_math::{Id, OutOfMemory, reserve_ahead};
use std::alloc::Global;
use wire_msg::{Envelope, Note, Outgoing};

/// An event in little room. Most events deliver a message; the others are boxed, so that they do not cost each entry their size,
/// nor each call that passes one on.
#[derive(Drop)]
pub enum CompactEvent {
    Deliver { message: u64 },
    Boxed(Box<Event>),
}

impl CompactEvent {
    /// The same event. It is refused for lack of memory where it is to be boxed and no box can be had.
    pub fn of(event: Event, alloc: Global) -> Result<CompactEvent, OutOfMemory>
        ensures { IfOk result (λ kept. event_kept kept ≡ event) }
    {
        match event {
            Event::Deliver { message } => Ok(CompactEvent::Deliver { message }),
            other => Ok(CompactEvent::Boxed(Box::new(alloc, other)?)),
        }
    }

    /// The event, as a record shows it.
    #[inline(always)]
    pub fn seen(&self) -> EventRef<'_>
        ensures { event_seen result ≡ event_kept self.now }
    {
        match self {
            CompactEvent::Deliver { message } => EventRef::Deliver { message: *message },
            CompactEvent::Boxed(event) => event.seen(),
        }
    }

    /// What the event's command says, it can say: a law, which does nothing.
    pub fn said_law(&self)
        ensures { IsSaidBy (event_kept self.now) }
    {
        if let CompactEvent::Boxed(event) = self {
            event.said_law();
        }
    }
}

/// An entry's event, and where what it sent and noted ends among all that was sent and noted.
#[derive(Drop)]
pub(crate) struct CompactEntry {
    pub(crate) event: CompactEvent,
    pub(crate) sent_end: usize,
    pub(crate) noted_end: usize,
}

/// Where what an entry sent and noted begins.
#[derive(Clone, Copy)]
struct Starts {
    sent: usize,
    noted: usize,
}

/// The entries of a record, and all that they sent and noted.
#[derive(Drop)]
pub(crate) struct Lists {
    pub(crate) entries: Vec<CompactEntry>,
    pub(crate) sent: Vec<Envelope>,
    pub(crate) notes: Vec<Note>,
}

impl Lists {
    /// Room for one more entry, with so many messages and notes.
    pub(crate) fn reserve(&mut self, sent: usize, noted: usize) -> Result<(), OutOfMemory>
        ensures same { SameLists self.old self.new }
        ensures room { OnOk result (HasRoom self.new sent noted) }
    {
        reserve_ahead(&mut self.entries, 1)?;
        reserve_ahead(&mut self.sent, sent)?;
        reserve_ahead(&mut self.notes, noted)?;
        Ok(())
    }

    /// One entry more: it has what lies behind the last ends. There is room for it.
    pub(crate) fn close(&mut self, event: CompactEvent)
        requires { vec_len self.old.entries < vec_capacity self.old.entries }
        ensures entries { self.new.entries.items
            ≡ self.old.entries.items ++ record { event = event; sent_end = length self.new.sent.items; noted_end = length self.new.notes.items } ∷ [] }
        ensures sent { self.new.sent.items ≡ self.old.sent.items }
        ensures notes { self.new.notes.items ≡ self.old.notes.items }
    {
        self.entries.push_reserved(CompactEntry {
            event,
            sent_end: self.sent.len(),
            noted_end: self.notes.len(),
        });
    }

    /// The entry at a place. It is inlined, since most who read a record look at one part of each entry alone.
    #[inline(always)]
    pub(crate) fn at(&self, place: usize) -> EntryRef<'_>
        requires within { place < length self.now.entries.items }
        requires well { CutsWell self.now }
        ensures { slice_get (cut self.now) place ≡ Some (entry_seen result) }
    {
        let entry = &self.entries[place];
        let starts = self.starts(place);
        EntryRef {
            event: entry.event.seen(),
            messages: between(&self.sent, starts.sent, entry.sent_end),
            notes: between(&self.notes, starts.noted, entry.noted_end),
        }
    }

    /// Where what an entry sent and noted begins: at the ends of the entry before it.
    #[inline(always)]
    fn starts(&self, place: usize) -> Starts
        requires { place < length self.now.entries.items }
        ensures sent { result.sent ≡ sent_start 0 self.now.entries.items place }
        ensures noted { result.noted ≡ noted_start 0 self.now.entries.items place }
    {
        match place.checked_sub(1) {
            Some(before) => {
                let before = &self.entries[before];
                Starts {
                    sent: before.sent_end,
                    noted: before.noted_end,
                }
            }
            None => Starts { sent: 0, noted: 0 },
        }
    }
}

/// The part of a list between two places.
#[inline(always)]
fn between<T>(items: &[T], start: usize, end: usize) -> &[T]
    requires order { start ≤ end }
    requires within { end ≤ length items.now }
    ensures { result.now ≡ slice_range items.now start end }
{
    &items[start..end]
}

/// Adds each message, in an envelope from this sender, with this stamp, to a list that has room for them. The messages are moved,
/// and not copied. They are taken from the end of their list, which is turned round for that: so each is read where it lies, and
/// goes by one place on its way.
pub fn send_all(sent: &mut Vec<Envelope>, stamp: u64, sender: Id, mut messages: Vec<Outgoing>)
    requires { vec_len sent.old + vec_len messages ≤ vec_capacity sent.old }
    ensures items { map plain_envelope sent.new.items ≡ map plain_envelope sent.old.items ++ map (enveloped stamp sender) (map plain_sent messages.items) }
{
    messages.reverse();
    while let Some(outgoing) = messages.pop() {
        sent.push_reserved(Envelope {
            sender,
            receiver: outgoing.receiver,
            stamp,
            message: outgoing.message,
        });
    }
}

/// Moves items, for which there is room, to the end of another list.
pub(crate) fn move_all<T: Drop>(to: &mut Vec<T>, from: &mut Vec<T>)
    requires { vec_len to.old + vec_len from.old ≤ vec_capacity to.old }
    ensures items { to.new.items ≡ to.old.items ++ from.old.items }
    ensures empty { from.new.items ≡ [] }
{
    let _ = to.append(from);
}
