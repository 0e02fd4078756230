//! Entries in an arena and the order of their files, with room that can be taken beforehand.
//!
//! An entry stays where it came in, and a place of two bytes for each gives the order: so what moves when an entry
//! comes in between is short. The heads of the files stand apart, so a search seldom looks at the entries themselves.

ghost use Rattle.std.specs.Prelude.{◌≡◌, ◌<◌, ◌≤◌, ◌+◌, ◌++◌, ◌∷◌, [], length, vec_len, vec_capacity, IfOk, OnOk, OnErr, slice_index_or, slice_set};
ghost use Rattle.std.specs.List.{insert};
ghost use Rattle.ring_math.specs.declared.limits.TheConstants.{MOST_ENTRIES};
ghost use Rattle.ring_math.specs.Bytewise.{is_before};
ghost use Rattle.file_store.specs.Spread.{blank};

use crate::order::{comes_before, head_of};
use ring_math::{Bytes, FileId, Held, OutOfMemory};
use std::alloc::Global;
use std::marker::Model;

/// At most [`MOST_ENTRIES`](ring_math::MOST_ENTRIES) entries.
#[derive(Drop)]
pub(crate) struct Arena {
    /// In the order in which they came in.
    entries: Vec<Held>,
    /// The first two bytes of the file of each entry.
    heads: Vec<u16>,
    /// In the order of the files, where each entry stands among those that came in.
    places: Vec<u16>,
}

impl Model for Arena {
    ghost use Rattle.std.specs.Prelude.{min, vec_capacity};
    ghost use Rattle.file_store.specs.Store.{Store};
    ghost use Rattle.file_store.specs.Spread.{spread, Kept};

    ghost Value = { Store };

    ghost view = { λ a. record {
      files = spread a.entries.items a.places.items;
      room = min (vec_capacity a.entries) (min (vec_capacity a.heads) (vec_capacity a.places));
    } };

    ghost invariant = { λ a. Kept a.entries.items a.heads.items a.places.items };
}

impl Arena {
    pub(crate) fn new(alloc: Global) -> Arena
        ensures { result.files ≡ [] }
    {
        Arena {
            entries: Vec::new(alloc),
            heads: Vec::new(alloc),
            places: Vec::new(alloc),
        }
    }

    pub(crate) fn len(&self) -> usize
        ensures value { result ≡ length self.now.files }
        ensures limit { length self.now.files ≤ MOST_ENTRIES }
        ensures within { length self.now.files ≤ self.now.room }
    {
        self.places.len()
    }

    pub(crate) fn at(&self, place: usize) -> &Held
        requires { place < length self.now.files }
        ensures { result.now ≡ slice_index_or self.now.files place result.now }
    {
        &self.entries[self.places[place] as usize]
    }

    /// Whether the entry's file comes before this one.
    pub(crate) fn comes_before(&self, place: usize, file: &FileId) -> bool
        requires { place < length self.now.files }
        ensures { (d : Held) → result ≡ is_before (slice_index_or self.now.files place d).file file.now }
    {
        let entry = self.places[place] as usize;
        let (found, sought) = (self.heads[entry], head_of(file));
        if found != sought {
            return found < sought;
        }
        comes_before(&self.entries[entry].file, file)
    }

    /// Takes room for so many more entries. What stands stays.
    pub(crate) fn reserve(&mut self, count: usize) -> Result<(), OutOfMemory>
        ensures files { self.new.files ≡ self.old.files }
        ensures ok { OnOk result (length self.old.files + count ≤ self.new.room) }
        ensures err { OnErr result (self.old.room < length self.old.files + count) }
        ensures room { self.old.room ≤ self.new.room }
    {
        self.entries.reserve(count)?;
        self.heads.reserve(count)?;
        self.places.reserve(count)?;
        Ok(())
    }

    /// Puts an entry in at a place, into room that was taken.
    pub(crate) fn insert(&mut self, place: usize, held: Held)
        requires within { place ≤ length self.old.files }
        requires room { length self.old.files < self.old.room }
        requires limit { length self.old.files < MOST_ENTRIES }
        ensures files { self.new.files ≡ insert self.old.files place held }
        ensures room { self.old.room ≤ self.new.room }
    {
        let entry = self.entries.len() as u16;
        let head = head_of(&held.file);
        add_entry(&mut self.entries, held);
        add_head(&mut self.heads, head);
        add_place(&mut self.places, place, entry);
    }

    /// What stands for the file at this place is now this.
    pub(crate) fn replace(&mut self, place: usize, slot: Option<Bytes>)
        requires { place < length self.old.files }
        ensures files { self.new.files ≡ slice_set self.old.files place (record (slice_index_or self.old.files place blank) { slot = slot }) }
        ensures room { self.new.room ≡ self.old.room }
    {
        let entry = self.places[place] as usize;
        change_slot(&mut self.entries, entry, slot);
    }

    /// The same entries, which share their bytes with these.
    pub(crate) fn copy(&self, alloc: Global) -> Result<Arena, OutOfMemory>
        ensures { IfOk result (λ copy. copy.files ≡ self.now.files) }
    {
        let mut copy = Arena::new(alloc);
        copy.reserve(self.len())?;
        for place in 0..self.len() {
            let held = self.at(place);
            let slot = copy_of(alloc, &held.slot)?;
            copy.insert(
                place,
                Held {
                    file: held.file,
                    slot,
                },
            );
        }
        Ok(copy)
    }
}

fn add_entry(entries: &mut Vec<Held>, held: Held)
    requires { vec_len entries.old < vec_capacity entries.old }
    ensures items { entries.new.items ≡ entries.old.items ++ held ∷ [] }
    ensures room { vec_capacity entries.old ≤ vec_capacity entries.new }
{
    let _ = entries.push(held);
}

fn add_head(heads: &mut Vec<u16>, head: u16)
    requires { vec_len heads.old < vec_capacity heads.old }
    ensures items { heads.new.items ≡ heads.old.items ++ head ∷ [] }
    ensures room { vec_capacity heads.old ≤ vec_capacity heads.new }
{
    let _ = heads.push(head);
}

fn add_place(places: &mut Vec<u16>, at: usize, place: u16)
    requires within { at ≤ vec_len places.old }
    requires room { vec_len places.old < vec_capacity places.old }
    ensures items { places.new.items ≡ insert places.old.items at place }
    ensures room { vec_capacity places.old ≤ vec_capacity places.new }
{
    let _ = places.insert(at, place);
}

fn change_slot(entries: &mut Vec<Held>, entry: usize, slot: Option<Bytes>)
    requires { entry < vec_len entries.old }
    ensures items { entries.new.items ≡ slice_set entries.old.items entry (record (slice_index_or entries.old.items entry blank) { slot = slot }) }
    ensures room { vec_capacity entries.new ≡ vec_capacity entries.old }
{
    let held = &mut entries[entry];
    held.slot = slot;
}

/// The same bytes, shared, or again a tombstone.
fn copy_of(alloc: Global, slot: &Option<Bytes>) -> Result<Option<Bytes>, OutOfMemory>
    ensures { IfOk result (λ copy. copy ≡ slot.now) }
{
    match slot {
        Some(bytes) => Ok(Some(bytes.copy(alloc)?)),
        None => Ok(None),
    }
}
