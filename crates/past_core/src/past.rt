//! The inserts that wait.

ghost use Rattle.std.specs.Prelude.{◌≡◌, ◌<◌, ◌≤◌, ◌+◌, [], not, filter, map, length, position, IfOk, OnOk, OnErr, slice_get};
ghost use Rattle.overlay_rules.specs.Roots.{is_of, with_ask};
ghost use Rattle.overlay_rules.specs.Replicas.{awaits};
ghost use Rattle.overlay_rules.specs.Gatekeeper.{is_left_to};
ghost use Rattle.past_core.specs.Waits.{ask_of, taken_out, heard_at};

use crate::asks::Asks;
use crate::pending::{copy_of, is_awaiting, is_for, is_left, is_of_file, push_within};
use coverage::Reach;
use overlay_rules::Pending;
use ring_math::{FileId, Id, Ids, OutOfMemory};
use std::alloc::Global;
use std::marker::Model;

/// Inserts at their root that wait for replicas, in the order in which they were added.
#[derive(Drop)]
pub struct Past {
    asks: Vec<Pending>,
}

impl Model for Past {
    ghost use Rattle.std.specs.Prelude.{vec_capacity};
    ghost use Rattle.past_core.specs.Waits.{Waits};

    ghost Value = { Waits };

    ghost view = { λ a. record { asks = a.asks.items; room = vec_capacity a.asks } };
}

impl Past {
    /// No insert waits. It takes no memory yet.
    pub fn new(alloc: Global) -> Past
        ensures { result.asks ≡ [] }
    {
        Past {
            asks: Vec::new(alloc),
        }
    }

    /// The inserts that wait, in the order in which they were added.
    pub fn as_slice(&self) -> &[Pending]
        ensures { result.now ≡ self.now.asks }
    {
        &self.asks
    }

    /// Takes room for so many more.
    pub fn reserve(&mut self, count: usize) -> Result<(), OutOfMemory>
        ensures asks { self.new.asks ≡ self.old.asks }
        ensures ok { OnOk result (length self.old.asks + count ≤ self.new.room) }
    {
        self.asks.reserve(count)?;
        Ok(())
    }

    /// The place of the insert that an acknowledgement is for, from 0. None exactly where no insert of this command and
    /// file awaits the sender.
    pub fn ack_place(&self, from: Id, origin: Id, number: u64, file: &FileId) -> Option<usize>
        ensures { result ≡ position (awaits from origin number file.now) self.now.asks }
    {
        self.asks
            .iter()
            .position(|ask| is_awaiting(ask, from, origin, number, file))
    }

    /// The commands whose inserts are of this file, in order.
    pub fn ended_by(&self, alloc: Global, file: &FileId) -> Result<Asks, OutOfMemory>
        ensures { IfOk result (λ asks. asks ≡ map ask_of (filter (is_of file.now) self.now.asks)) }
    {
        let mut asks = Asks::new(alloc);
        for ask in self.asks.as_slice() {
            if is_of_file(ask, file) {
                asks.push((ask.origin, ask.number))?;
            }
        }
        Ok(asks)
    }

    /// The commands whose inserts have their key in the gap of the joiner, in order. Memory can be refused only where there
    /// is one.
    pub fn in_gap(&self, alloc: Global, reach: &Reach, joiner: Id) -> Result<Asks, OutOfMemory>
        ensures asks { IfOk result (λ asks. asks ≡ map ask_of (filter (is_left_to reach.now joiner) self.now.asks)) }
        ensures refused { OnErr result (filter (is_left_to reach.now joiner) self.now.asks ≡ [] → ⊥) }
    {
        let mut asks = Asks::new(alloc);
        for ask in self.asks.as_slice() {
            if is_left(ask, reach, joiner) {
                asks.push((ask.origin, ask.number))?;
            }
        }
        Ok(asks)
    }

    /// Adds an insert at the end, and takes away what waited for the same command. It takes no memory: the room was
    /// taken before.
    pub fn add(&mut self, ask: Pending)
        requires { length self.old.asks < self.old.room }
        ensures { self.new.asks ≡ with_ask self.old.asks ask }
    {
        let origin = ask.origin;
        let number = ask.number;
        self.asks.retain(|other| !is_for(other, origin, number));
        push_within(&mut self.asks, ask);
    }

    /// Takes the insert at a place away and hands it out; None, with nothing changed, where there is none. It takes no
    /// memory.
    pub fn take_out(&mut self, place: usize) -> Option<Pending>
        ensures asks { self.new.asks ≡ taken_out self.old.asks place }
        ensures value { result ≡ slice_get self.old.asks place }
    {
        if place < self.asks.len() {
            Some(self.asks.remove(place))
        } else {
            None
        }
    }

    /// The insert at a place awaits only these now; nothing changes where there is none. It takes no memory.
    pub fn hear(&mut self, place: usize, awaited: Ids)
        ensures { self.new.asks ≡ heard_at self.old.asks place awaited }
    {
        if place < self.asks.len() {
            let ask = &mut self.asks[place];
            ask.awaited = awaited;
        }
    }

    /// Takes away what is in the gap of the joiner. It takes no memory.
    pub fn leave(&mut self, reach: &Reach, joiner: Id)
        ensures { self.new.asks ≡ filter (λ p. not (is_left_to reach.now joiner p)) self.old.asks }
    {
        self.asks.retain(|ask| !is_left(ask, reach, joiner));
    }

    /// Takes away what is of this file. It takes no memory.
    pub fn end(&mut self, file: &FileId)
        ensures { self.new.asks ≡ filter (λ p. not (is_of file.now p)) self.old.asks }
    {
        self.asks.retain(|ask| !is_of_file(ask, file));
    }

    /// Takes away the inserts whose key is in the gap of the joiner, and answers their commands, in order. After
    /// `OutOfMemory`, which comes only where there is such an insert, the same wait as before.
    pub fn leave_gap(
        &mut self,
        alloc: Global,
        reach: &Reach,
        joiner: Id,
    ) -> Result<Asks, OutOfMemory>
        ensures ended { IfOk result (λ asks. asks ≡ map ask_of (filter (is_left_to reach.now joiner) self.old.asks)) }
        ensures kept { OnOk result (self.new.asks ≡ filter (λ p. not (is_left_to reach.now joiner p)) self.old.asks) }
        ensures refused { OnErr result (filter (is_left_to reach.now joiner) self.old.asks ≡ [] → ⊥) }
        ensures as_before { OnErr result (self.new.asks ≡ self.old.asks) }
    {
        let asks = self.in_gap(alloc, reach, joiner)?;
        self.leave(reach, joiner);
        Ok(asks)
    }

    /// The same inserts, which share their lists with these.
    pub fn copy(&self, alloc: Global) -> Result<Past, OutOfMemory>
        ensures { IfOk result (λ copy. copy.asks ≡ self.now.asks) }
    {
        let mut asks = Vec::with_capacity(alloc, self.asks.len())?;
        for ask in self.asks.as_slice() {
            asks.push(copy_of(alloc, ask)?)?;
        }
        Ok(Past { asks })
    }
}
