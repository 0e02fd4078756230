//! Lists of messages and notes, in the order written.

ghost use Rattle.std.specs.Prelude.{◌≡◌, ◌++◌, ◌∷◌, [], map, IfOk, OnOk, OnErr};
ghost use Rattle.wire_msg.specs.Words.{plain_sent, plain_envelope};

use crate::message::{Envelope, Outgoing};
use crate::note::Note;
use ring_math::OutOfMemory;
use std::alloc::Global;
use std::marker::Model;

/// What a step sends.
#[derive(Drop)]
pub struct Sends {
    items: Vec<Outgoing>,
}

impl Model for Sends {
    ghost use Rattle.std.specs.Prelude.{List, map};
    ghost use Rattle.wire_msg.specs.Words.{Sent, plain_sent};

    ghost Value = { List Sent };

    ghost view = { λ a. map plain_sent a.items.items };
}

impl Sends {
    pub fn new(alloc: Global) -> Sends
        ensures { result ≡ [] }
    {
        Sends {
            items: Vec::new(alloc),
        }
    }

    /// One message alone, in room for it. It is inlined, so that the message is made where it stays: a processor waits for what was
    /// just written in small parts, if it is to be read in larger ones.
    #[inline(always)]
    pub fn one(alloc: Global, item: Outgoing) -> Result<Sends, OutOfMemory>
        ensures { IfOk result (λ sends. sends ≡ plain_sent item ∷ []) }
    {
        let mut items = Vec::with_capacity(alloc, 1)?;
        items.push_reserved(item);
        Ok(Sends { items })
    }

    pub fn as_slice(&self) -> &[Outgoing]
        ensures { map plain_sent result.now ≡ self.now }
    {
        &self.items
    }

    /// Makes room for so many more, and for no others.
    pub fn reserve(&mut self, more: usize) -> Result<(), OutOfMemory>
        ensures { self.new ≡ self.old }
    {
        self.items.reserve_exact(more)?;
        Ok(())
    }

    /// One message more. It is inlined for the same reason.
    #[inline(always)]
    pub fn push(&mut self, item: Outgoing) -> Result<(), OutOfMemory>
        ensures ok { OnOk result (self.new ≡ self.old ++ plain_sent item ∷ []) }
        ensures err { OnErr result (self.new ≡ self.old) }
    {
        // Most steps that send anything send one message.
        if self.items.is_empty() {
            self.items.reserve_exact(1)?;
        }
        self.items.push(item)?;
        Ok(())
    }

    /// The messages themselves, which need not be copied then.
    pub fn into_items(self) -> Vec<Outgoing>
        ensures { map plain_sent result.items ≡ self }
    {
        self.items
    }
}

/// What a step notes.
#[derive(Drop)]
pub struct Notes {
    items: Vec<Note>,
}

impl Model for Notes {
    ghost use Rattle.std.specs.Prelude.{List};
    ghost use Rattle.wire_msg.specs.declared.note.Note.{Note};

    ghost Value = { List Note };

    ghost view = { λ a. a.items.items };
}

impl Notes {
    pub fn new(alloc: Global) -> Notes
        ensures { result ≡ [] }
    {
        Notes {
            items: Vec::new(alloc),
        }
    }

    pub fn as_slice(&self) -> &[Note]
        ensures { result.now ≡ self.now }
    {
        &self.items
    }

    /// One note more. It is inlined, as messages are.
    #[inline(always)]
    pub fn push(&mut self, item: Note) -> Result<(), OutOfMemory>
        ensures ok { OnOk result (self.new ≡ self.old ++ item ∷ []) }
        ensures err { OnErr result (self.new ≡ self.old) }
    {
        // Most steps note one thing or two, and a history keeps their notes: so at first there is room for two.
        if self.items.is_empty() {
            self.items.reserve_exact(2)?;
        }
        self.items.push(item)?;
        Ok(())
    }

    /// The notes themselves, which need not be copied then.
    pub fn into_items(self) -> Vec<Note>
        ensures { result.items ≡ self }
    {
        self.items
    }
}

/// What an entry of a record sent.
#[derive(Drop)]
pub struct Envelopes {
    items: Vec<Envelope>,
}

impl Model for Envelopes {
    ghost use Rattle.std.specs.Prelude.{List, map};
    ghost use Rattle.wire_msg.specs.Words.{Envelope, plain_envelope};

    ghost Value = { List Envelope };

    ghost view = { λ a. map plain_envelope a.items.items };
}

impl Envelopes {
    pub fn new(alloc: Global) -> Envelopes
        ensures { result ≡ [] }
    {
        Envelopes {
            items: Vec::new(alloc),
        }
    }

    /// These, in this order. It takes no memory.
    pub fn of(items: Vec<Envelope>) -> Envelopes
        ensures { result ≡ map plain_envelope items.items }
    {
        Envelopes { items }
    }

    pub fn as_slice(&self) -> &[Envelope]
        ensures { map plain_envelope result.now ≡ self.now }
    {
        &self.items
    }

    pub fn push(&mut self, item: Envelope) -> Result<(), OutOfMemory>
        ensures ok { OnOk result (self.new ≡ self.old ++ plain_envelope item ∷ []) }
        ensures err { OnErr result (self.new ≡ self.old) }
    {
        self.items.push(item)?;
        Ok(())
    }

    /// The envelopes themselves, which need not be copied then.
    pub fn into_items(self) -> Vec<Envelope>
        ensures { map plain_envelope result.items ≡ self }
    {
        self.items
    }
}
