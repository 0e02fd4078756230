//! The prefix table of a node: of all that it learnt, for each row l and column d the first that shares exactly l
//! leading digits with the node and has digit d there (Pastry's routing table, Rowstron and Druschel 2001).
#![tactic(auto)]

ghost use Rattle.std.specs.Prelude.{◌≡◌, ◌≢◌, ◌<◌, ◌≤◌, ◌+◌, ◌-◌, ◌*◌, ◌↔◌, ◌++◌, List, [], length, replicate, vec_capacity};
ghost use Rattle.std.specs.Prelude.{is_none, IsTrue, MatchOption, IfOk, Some, Contains};
ghost use Rattle.std.specs.Bool.{OnTrue, OnFalse};
ghost use Rattle.ring_math.specs.Names.{Id};
ghost use Rattle.ring_math.specs.Members.{IsClosest};
ghost use Rattle.ring_math.specs.Nearer.{improves};
ghost use Rattle.ring_math.specs.Ring.{dist_of, is_nearer};
ghost use Rattle.ring_math.specs.Sides.{learn as learn_of, is_some_at};
ghost use Rattle.route_table.specs.declared.Standing.TheVariants as Standing;
ghost use Rattle.route_table.specs.Entries.{StandsFor, Improves, entry_in, is_held, is_new, standing_of, with_entry};
ghost use Rattle.route_table.specs.Filled.{entry_at as entry_at_of, entries_at};

use ring_math::{DIGIT_VALUES, DIGITS, Id, OutOfMemory, cw, digit, dist, shared};
use std::alloc::Global;
use std::marker::Model;

/// How many entries there are: a row for each digit, and a column for each of its values.
const ENTRIES: usize = DIGITS as usize * DIGIT_VALUES as usize;

/// How an identifier stands to a table.
#[derive(Clone, Copy, Debug, PartialEq, Eq)]
pub enum Standing {
    /// It is an entry.
    Entry,
    /// The entry to which it belongs is empty.
    Free,
    /// The entry to which it belongs is another, or it is the node itself, which belongs to none.
    Elsewhere,
}

/// A row for each digit, with an entry for each value that it can have: an identifier or empty.
#[derive(Drop)]
pub struct RouteTable {
    me: Id,
    /// The entries up to the last that is filled; the room for all of them is there. Where nothing belongs stands the node
    /// itself, which is never learnt.
    ids: Vec<Id>,
}

impl Model for RouteTable {
    ghost use Rattle.std.specs.Prelude.{◌≤◌, ◌*◌, length, vec_capacity};
    ghost use Rattle.ring_math.specs.declared.limits.TheConstants.{DIGITS, DIGIT_VALUES};
    ghost use Rattle.route_table.specs.Entries.{Table};
    ghost use Rattle.route_table.specs.Filled.{all_entries};

    ghost Value = { Table };

    ghost view = { λ a. record { me = a.me; entries = all_entries a.me a.ids.items } };

    ghost invariant = { λ a. (length a.ids.items ≤ DIGITS * DIGIT_VALUES) × (DIGITS * DIGIT_VALUES ≤ vec_capacity a.ids) };
}

/// The place of an entry among the rows.
fn place_of(row: u8, col: u8) -> usize
    requires row { row < DIGITS }
    requires col { col < DIGIT_VALUES }
    ensures value { result ≡ DIGIT_VALUES * row + col }
    ensures within { result < ENTRIES }
{
    DIGIT_VALUES as usize * row as usize + col as usize
}

/// What stands at a place of the table: the identifier there, and nothing where it is the node itself.
fn entry_at(me: Id, id: Id) -> Option<Id>
    ensures { result ≡ entry_at_of me id }
{
    if id == me { None } else { Some(id) }
}

/// Whether this identifier stands there.
fn is_there(there: Option<Id>, id: Id) -> bool
    ensures { result ≡ is_some_at id there }
{
    match there {
        Some(other) => other == id,
        None => false,
    }
}

/// Adds an identifier as often as a list needs it to have so many. The room is there, so it takes no memory. A table is asked
/// far more often than it grows, so this stays out of what asks it.
#[inline(never)]
fn lengthen(ids: &mut Vec<Id>, count: usize, id: Id)
    requires { count ≤ vec_capacity ids.old }
    ensures items { ids.new.items ≡ ids.old.items ++ replicate (count - length ids.old.items) id }
    ensures room { vec_capacity ids.old ≤ vec_capacity ids.new }
{
    if ids.len() < count {
        let _ = ids.resize(count, id);
    }
}

/// Whether an identifier is nearer to the key than another, whose distance from the key is known.
#[tactic(auto, unfolding(ring_math::specs::Ring::is_nearer))]
fn nearer_than(id: Id, other: Id, from_other: u128, key: Id) -> bool
    requires { from_other ≡ dist_of other key }
    ensures { result ≡ is_nearer id other key }
{
    let from_id = dist(id, key);
    // Most are farther, which the first comparison tells.
    from_id <= from_other && (from_id < from_other || cw(id, key) < cw(other, key))
}

/// Whether an identifier shares at least `least` digits with the key and is nearer to it than another, whose distance
/// from the key is known.
fn improves_on(id: Id, key: Id, least: u8, other: Id, from_other: u128) -> bool
    requires { from_other ≡ dist_of other key }
    ensures { result ≡ improves key least other id }
{
    nearer_than(id, other, from_other, key) && least <= shared(id, key)
}

impl RouteTable {
    /// The table of a node that knows nobody. It takes all the memory that the table ever has.
    pub fn new(alloc: Global, me: Id) -> Result<RouteTable, OutOfMemory>
        ensures me { IfOk result (λ table. table.me ≡ me) }
        ensures stands { IfOk result (λ table. StandsFor table []) }
    {
        let ids = Vec::with_capacity(alloc, ENTRIES)?;
        Ok(RouteTable { me, ids })
    }

    /// The node whose table it is.
    pub fn me(&self) -> Id
        ensures { result ≡ self.now.me }
    {
        self.me
    }

    /// The same table in memory of its own.
    pub fn copy(&self, alloc: Global) -> Result<RouteTable, OutOfMemory>
        ensures { IfOk result (λ copy. copy ≡ self.now) }
    {
        let mut ids = Vec::with_capacity(alloc, ENTRIES)?;
        ids.extend_from_slice(&self.ids)?;
        Ok(RouteTable { me: self.me, ids })
    }

    /// The entry of a row and a column. None exactly where nothing that was learnt belongs there.
    pub fn entry(&self, row: u8, col: u8) -> Option<Id>
        requires row { row < DIGITS }
        requires col { col < DIGIT_VALUES }
        ensures { result ≡ entry_in self.now row col }
    {
        match self.ids.get(place_of(row, col)) {
            Some(id) => entry_at(self.me, *id),
            None => None,
        }
    }

    /// Whether an identifier is an entry. One that is was learnt before.
    pub fn holds(&self, id: Id) -> bool
        ensures held { result ≡ is_held self.now id }
        ensures learnt { IsTrue result → (known : List Id) → StandsFor self.now known → learn_of self.now.me known id ≡ known }
    {
        let me = self.me();
        if id == me {
            return false;
        }
        let row = shared(me, id);
        is_there(self.entry(row, digit(id, row)), id)
    }

    /// How an identifier stands to the table. One that is an entry was learnt before, and only one whose entry is empty changes the
    /// table when it is learnt.
    pub fn standing(&self, id: Id) -> Standing
        ensures standing { result ≡ standing_of self.now id }
        ensures learnt { result ≡ Standing.Entry → (known : List Id) → StandsFor self.now known → learn_of self.now.me known id ≡ known }
        ensures same { result ≢ Standing.Free → (known : List Id) → StandsFor self.now known → StandsFor self.now (learn_of self.now.me known id) }
    {
        let me = self.me();
        if id == me {
            return Standing::Elsewhere;
        }
        let row = shared(me, id);
        let there = self.entry(row, digit(id, row));
        if is_there(there, id) {
            Standing::Entry
        } else if there.is_some() {
            Standing::Elsewhere
        } else {
            Standing::Free
        }
    }

    /// What stands at the places up to the last that is filled.
    fn filled(&self) -> &[Id]
        ensures { (z : Id) → Contains self.now.entries (Some z) ↔ Contains (entries_at self.now.me result.now) (Some z) }
    {
        self.ids.as_slice()
    }

    /// Fills an entry where it is empty, and answers whether it was.
    fn fill(&mut self, row: u8, col: u8, id: Id) -> bool
        requires row { row < DIGITS }
        requires col { col < DIGIT_VALUES }
        requires other { id ≢ self.old.me }
        ensures answer { result ≡ is_none (entry_in self.old row col) }
        ensures filled { OnTrue result (self.new ≡ with_entry self.old row col id) }
        ensures same { OnFalse result (self.new ≡ self.old) }
    {
        if self.entry(row, col).is_some() {
            return false;
        }
        let place = place_of(row, col);
        lengthen(&mut self.ids, place + 1, self.me);
        self.ids[place] = id;
        true
    }

    /// Fills the entry to which an identifier belongs, where it is empty, and answers whether it did. The node itself
    /// is never learnt.
    pub fn learn(&mut self, id: Id) -> bool
        ensures me { self.new.me ≡ self.old.me }
        ensures stands { (known : List Id) → StandsFor self.old known → StandsFor self.new (learn_of self.old.me known id) }
        ensures answer { result ≡ is_new self.old id }
    {
        let node = self.me();
        if id == node {
            return false;
        }
        let row = shared(node, id);
        self.fill(row, digit(id, row), id)
    }

    /// Of the entries that share at least `least` digits with the key and are nearer to it than `than`, the nearest.
    /// None exactly where there is none.
    pub fn best(&self, key: Id, least: u8, than: Id) -> Option<Id>
        ensures { let better = λ (z : Id). Improves self.now.entries key least than z in
            MatchOption result ((z : Id) → better z → ⊥) (λ y. IsClosest better key y) }
    {
        // What is nearer than the nearest so far is nearer than `than`, so one comparison does for both.
        let mut nearest = than;
        let mut distance = dist(than, key);
        let me = self.me();
        for id in self.filled() {
            if improves_on(*id, key, least, nearest, distance) && *id != me {
                nearest = *id;
                distance = dist(nearest, key);
            }
        }
        if nearest == than { None } else { Some(nearest) }
    }
}

#[cfg(test)]
mod tests;
