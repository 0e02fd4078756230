//! Histories of all nodes together.

ghost use Rattle.std.specs.Prelude.{◌≡◌, ◌<◌, ◌+◌, ◌++◌, ◌∷◌, [], All, IfOk, OnOk, OnErr, Some, length, map, slice_get};
ghost use Rattle.wire_msg.specs.Words.{plain_envelope};
ghost use Rattle.overlay_rules.specs.Record.{IsSaidBy, enveloped, sent_in};
ghost use Rattle.overlay_rules.specs.Flat.{event_kept};
ghost use Rattle.overlay_rules.specs.Seen.{entry_seen, event_seen};
ghost use Rattle.overlay_rules.specs.Table.{notes_in};

use crate::flat::{CompactEvent, Lists, move_all, send_all};
use crate::laws::command_law;
use ring_math::{Id, OutOfMemory};
use std::alloc::Global;
use std::marker::Model;
use wire_msg::{Command, Envelope, Envelopes, Note, Notes, Sends};

/// What happened.
#[derive(Drop)]
pub enum Event {
    /// A node was given a command.
    Command {
        node: Id,
        number: u64,
        command: Command,
    },
    /// A message, counted from 0 over all that were sent, came to its receiver.
    Deliver {
        message: u64,
    },
    /// Bytes that are no frame came to a node.
    Noise {
        node: Id,
    },
}

/// An event, with what its node's step sent and noted.
#[derive(Drop)]
pub struct Entry {
    pub event: Event,
    pub messages: Envelopes,
    pub notes: Notes,
}

impl Event {
    pub(crate) fn seen(&self) -> EventRef<'_>
        ensures { event_seen result ≡ self.now }
    {
        match self {
            Event::Command {
                node,
                number,
                command,
            } => EventRef::Command {
                node: *node,
                number: *number,
                command,
            },
            Event::Deliver { message } => EventRef::Deliver { message: *message },
            Event::Noise { node } => EventRef::Noise { node: *node },
        }
    }

    /// What the event's command says, it can say: a law, which does nothing.
    pub fn said_law(&self)
        ensures { IsSaidBy self.now }
    {
        if let Event::Command { command, .. } = self {
            command_law(command);
        }
    }
}

/// An event of a record, as it is read there.
#[derive(Clone, Copy)]
pub enum EventRef<'a> {
    Command {
        node: Id,
        number: u64,
        command: &'a Command,
    },
    Deliver {
        message: u64,
    },
    Noise {
        node: Id,
    },
}

/// An entry of a record, as it is read there.
#[derive(Clone, Copy)]
pub struct EntryRef<'a> {
    pub event: EventRef<'a>,
    pub messages: &'a [Envelope],
    pub notes: &'a [Note],
}

/// Entries in the order in which they happened.
#[derive(Drop)]
pub struct Entries {
    lists: Lists,
}

impl Model for Entries {
    ghost use Rattle.std.specs.Prelude.{List};
    ghost use Rattle.overlay_rules.specs.declared.entry.Entry.{Entry};
    ghost use Rattle.overlay_rules.specs.Flat.{CutsWell, cut};

    ghost Value = { List Entry };

    ghost view = { λ a. cut a.lists };

    ghost invariant = { λ a. CutsWell a.lists };
}

impl Entries {
    pub fn new(alloc: Global) -> Entries
        ensures { result ≡ [] }
    {
        Entries {
            lists: Lists {
                entries: Vec::new(alloc),
                sent: Vec::new(alloc),
                notes: Vec::new(alloc),
            },
        }
    }

    /// No entry yet, and room for so many, and for so many messages that they send. If there come to be more, or there is
    /// something to note, room is made as they are added.
    pub fn with_room(alloc: Global, count: usize, messages: usize) -> Result<Entries, OutOfMemory>
        ensures { IfOk result (λ none. none ≡ []) }
    {
        let mut none = Entries::new(alloc);
        none.lists.entries.reserve_exact(count)?;
        none.lists.sent.reserve_exact(messages)?;
        Ok(none)
    }

    /// How many there are.
    pub fn len(&self) -> usize
        ensures { result ≡ length self.now }
    {
        self.lists.entries.len()
    }

    /// The stamp of the next entry's messages: its number, counted from 1.
    pub fn next_stamp(&self) -> u64
        ensures { result ≡ length self.now + 1 }
    {
        self.lists.entries.len() as u64 + 1
    }

    /// The entry at a place.
    #[inline(always)]
    pub fn at(&self, place: usize) -> EntryRef<'_>
        requires { place < length self.now }
        ensures { slice_get self.now place ≡ Some (entry_seen result) }
    {
        self.lists.at(place)
    }

    /// All that was sent, in order: message n stands at n.
    pub fn sent(&self) -> &[Envelope]
        ensures { map plain_envelope result.now ≡ sent_in self.now }
    {
        &self.lists.sent
    }

    /// All that was noted, in order.
    pub fn notes(&self) -> &[Note]
        ensures { result.now ≡ notes_in self.now }
    {
        &self.lists.notes
    }

    /// What the commands of a history say, they can say: a law, which does nothing.
    pub fn said_law(&self)
        ensures { All (λ e. IsSaidBy e.event) self.now }
    {
        let _lists = &self.lists;
    }

    /// One more entry: an event at a node, with what it sends, each message in an envelope with this stamp, and notes.
    /// After `OutOfMemory` there is none more.
    pub fn add(
        &mut self,
        event: CompactEvent,
        stamp: u64,
        sender: Id,
        sends: Sends,
        notes: Notes,
    ) -> Result<(), OutOfMemory>
        ensures ok { OnOk result (self.new ≡ self.old ++ record { event = event_kept event; messages = map (enveloped stamp sender) sends; notes = notes } ∷ []) }
        ensures err { OnErr result (self.new ≡ self.old) }
    {
        event.said_law();
        let messages = sends.into_items();
        let mut notes = notes.into_items();
        self.lists.reserve(messages.len(), notes.len())?;
        send_all(&mut self.lists.sent, stamp, sender, messages);
        move_all(&mut self.lists.notes, &mut notes);
        self.lists.close(event);
        Ok(())
    }

    /// One more entry, as it is. After `OutOfMemory` there is none more.
    pub fn push(&mut self, item: Entry) -> Result<(), OutOfMemory>
        ensures ok { OnOk result (self.new ≡ self.old ++ item ∷ []) }
        ensures err { OnErr result (self.new ≡ self.old) }
    {
        let Entry {
            event,
            messages,
            notes,
        } = item;
        let mut messages = messages.into_items();
        let mut notes = notes.into_items();
        let event = CompactEvent::of(event, *messages.allocator())?;
        self.append(event, &mut messages, &mut notes)
    }

    /// One more entry: an event, with all messages and notes of these lists, which are empty afterwards and keep their room: so
    /// who adds many entries needs no memory for the lists of each. After `OutOfMemory` there is none more.
    pub fn append(
        &mut self,
        event: CompactEvent,
        messages: &mut Vec<Envelope>,
        notes: &mut Vec<Note>,
    ) -> Result<(), OutOfMemory>
        ensures ok { OnOk result (self.new ≡ self.old ++ record { event = event_kept event; messages = map plain_envelope messages.old.items; notes = notes.old.items } ∷ []) }
        ensures err { OnErr result (self.new ≡ self.old) }
        ensures messages { OnOk result (messages.new.items ≡ []) }
        ensures notes { OnOk result (notes.new.items ≡ []) }
    {
        event.said_law();
        self.lists.reserve(messages.len(), notes.len())?;
        move_all(&mut self.lists.sent, messages);
        move_all(&mut self.lists.notes, notes);
        self.lists.close(event);
        Ok(())
    }
}

/// A history, and how many deliveries of a schedule named no message.
#[derive(Drop)]
pub struct Record {
    pub entries: Entries,
    pub skipped: u64,
}
