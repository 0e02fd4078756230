//! Which messages of a record were delivered.

ghost use Rattle.std.specs.Prelude.{◌≡◌, ◌<◌, ◌≤◌, ◌+◌, ◌++◌, ◌∷◌, [], ℕ, List, OnOk, length, replicate, slice_index_or};
ghost use Rattle.std.specs.Prelude.{true, false, vec_capacity, vec_len};
ghost use Rattle.overlay_rules.specs.declared.entry.Entry.{Entry as PlainEntry};
ghost use Rattle.overlay_rules.specs.Flat.{event_kept};
ghost use Rattle.world_model.specs.Index.{HasRoom, IsBelow, ListsMessages, delivered_by, marked, oldest_of};

use overlay_rules::{CompactEvent, EventRef};
use ring_math::{OutOfMemory, reserve_ahead};
use std::alloc::Global;

/// The messages that were sent, in order: message n is the n-th, from 0.
#[derive(Drop)]
pub(crate) struct Messages {
    /// Whether each was delivered.
    pub(crate) delivered: Vec<bool>,
    /// The first that was not delivered, or their number. It only moves on.
    pub(crate) oldest: usize,
}

impl Messages {
    /// No message. It takes no memory.
    pub(crate) fn new(alloc: Global) -> Messages
        ensures { ListsMessages result [] }
    {
        Messages {
            delivered: Vec::new(alloc),
            oldest: 0,
        }
    }

    /// How many there are.
    pub(crate) fn len(&self) -> usize
        ensures { result ≡ vec_len self.now.delivered }
    {
        self.delivered.len()
    }

    /// The first that was not delivered.
    pub(crate) fn oldest(&self) -> Option<usize>
        ensures { result ≡ oldest_of self.now }
    {
        if self.oldest < self.delivered.len() {
            Some(self.oldest)
        } else {
            None
        }
    }

    /// Room for so many more.
    pub(crate) fn reserve(&mut self, count: usize) -> Result<(), OutOfMemory>
        ensures kept { (es : List PlainEntry) → ListsMessages self.old es → ListsMessages self.new es }
        ensures room { OnOk result (HasRoom self.new count) }
    {
        reserve_ahead(&mut self.delivered, count)?;
        Ok(())
    }

    /// The messages with so many of one more entry, which delivered one at most. It takes no memory: room was made for them.
    pub(crate) fn add(&mut self, delivered: Option<u64>, count: usize)
        requires room { HasRoom self.old count }
        requires below { IsBelow (vec_len self.old.delivered) delivered }
        ensures { (es : List PlainEntry) (e : PlainEntry) → ListsMessages self.old es → delivered ≡ delivered_by e.event → count ≡ length e.messages →
            ListsMessages self.new (es ++ e ∷ []) }
    {
        mark(&mut self.delivered, delivered);
        add_marks(&mut self.delivered, count);
        self.oldest = first_unmarked(&self.delivered, self.oldest);
    }
}

/// The message that an event delivers.
pub(crate) fn delivered_message(event: &CompactEvent) -> Option<u64>
    ensures { result ≡ delivered_by (event_kept event.now) }
{
    match event.seen() {
        EventRef::Deliver { message } => Some(message),
        EventRef::Command { .. } | EventRef::Noise { .. } => None,
    }
}

/// Marks a message that is delivered.
fn mark(marks: &mut Vec<bool>, message: Option<u64>)
    requires { IsBelow (vec_len marks.old) message }
    ensures items { marks.new.items ≡ marked message marks.old.items }
    ensures room { vec_capacity marks.new ≡ vec_capacity marks.old }
{
    if let Some(message) = message {
        marks[message as usize] = true;
    }
}

/// Adds marks of messages that are not delivered.
fn add_marks(marks: &mut Vec<bool>, count: usize)
    requires { vec_len marks.old + count ≤ vec_capacity marks.old }
    ensures { marks.new.items ≡ marks.old.items ++ replicate count false }
{
    let _ = marks.resize(marks.len() + count, false);
}

/// The first place from here on that is not marked, or the end.
fn first_unmarked(marks: &[bool], from: usize) -> usize
    ensures within { result ≤ length marks.now }
    ensures before { (m : ℕ) → from ≤ m → m < result → slice_index_or marks.now m false ≡ true }
    ensures here { slice_index_or marks.now result false ≡ false }
{
    for place in from..marks.len() {
        if !marks[place] {
            return place;
        }
    }
    marks.len()
}
