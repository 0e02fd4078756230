//! Which messages of a record were delivered.

ghost use Rattle.std.specs.Prelude.{◌≡◌, ◌<◌, ◌≤◌, ◌++◌, ◌∷◌, [], ℕ, List, true, false, OnOk, length, slice_index_or, vec_len};
ghost use Rattle.scribe_core.specs.Entry.{GroupEntry as PlainEntry};
ghost use Rattle.scribe_core.specs.Record.{sent_in};
ghost use Rattle.world_model.specs.Index.{IsBelow, marked};
ghost use Rattle.group_play.specs.Messages.{ListsMessages, delivered_by, oldest_of};

use ring_math::OutOfMemory;
use std::alloc::Global;

/// The messages that were sent, in order: message n is the n-th, from 0.
#[derive(Drop)]
pub(crate) struct Messages {
    /// Whether each was delivered.
    pub(crate) delivered: Vec<bool>,
    /// The first that was not delivered, or their number. It only moves on.
    pub(crate) oldest: usize,
}

impl Messages {
    /// No message. It takes no memory.
    pub(crate) fn new(alloc: Global) -> Messages
        ensures { ListsMessages result [] }
    {
        Messages {
            delivered: Vec::new(alloc),
            oldest: 0,
        }
    }

    /// How many there are.
    pub(crate) fn len(&self) -> usize
        ensures { result ≡ vec_len self.now.delivered }
    {
        self.delivered.len()
    }

    /// The first that was not delivered.
    pub(crate) fn oldest(&self) -> Option<usize>
        ensures { result ≡ oldest_of self.now }
    {
        if self.oldest < self.delivered.len() {
            Some(self.oldest)
        } else {
            None
        }
    }

    /// The messages with those of one more entry, which delivered one, if any. Now there are so many.
    pub(crate) fn add(&mut self, delivered: Option<u64>, count: usize) -> Result<(), OutOfMemory>
        requires { IsBelow (vec_len self.old.delivered) delivered }
        ensures { (es : List PlainEntry) (e : PlainEntry) → ListsMessages self.old es → delivered ≡ delivered_by e.event →
            count ≡ length (sent_in (es ++ e ∷ [])) → OnOk result (ListsMessages self.new (es ++ e ∷ [])) }
    {
        mark(&mut self.delivered, delivered);
        self.delivered.resize(count, false)?;
        self.oldest = first_unmarked(&self.delivered, self.oldest);
        Ok(())
    }
}

/// Marks a message that is delivered.
fn mark(marks: &mut Vec<bool>, message: Option<u64>)
    requires { IsBelow (vec_len marks.old) message }
    ensures { marks.new.items ≡ marked message marks.old.items }
{
    if let Some(message) = message {
        marks[message as usize] = true;
    }
}

/// The first place from here on that is not marked, or the end.
fn first_unmarked(marks: &[bool], from: usize) -> usize
    ensures within { result ≤ length marks.now }
    ensures before { (m : ℕ) → from ≤ m → m < result → slice_index_or marks.now m false ≡ true }
    ensures here { slice_index_or marks.now result false ≡ false }
{
    for place in from..marks.len() {
        if !marks[place] {
            return place;
        }
    }
    marks.len()
}
