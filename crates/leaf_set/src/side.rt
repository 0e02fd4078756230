//! One side of a leaf set: the nearest [`LEAVES_PER_SIDE`] identifiers, going one way round the circle.

ghost use Rattle.std.specs.Prelude.{◌≡◌, ◌<◌, ◌≤◌, ◌+◌, ◌-◌, ◌^◌, ◌++◌, All, ◌∷◌, not, filter, [], ℕ, List, length, take, nat_le, nat_lt, false, slice_get, IsTrue};
ghost use Rattle.std.specs.Prelude.{MatchOption, Contains};
ghost use Rattle.std.specs.Bool.{OnFalse};
ghost use Rattle.std.specs.List.{position_or_len};
ghost use Rattle.ring_math.specs.Direction.{far, reaches as reaches_of};
ghost use Rattle.ring_math.specs.Members.{IsClosest};
ghost use Rattle.ring_math.specs.Sides.{placed, is_in};
ghost use Rattle.leaf_set.specs.Leaves.{Improves};
ghost use Rattle.leaf_set.specs.Beside.{IsBefore, IsFrom};
ghost use Rattle.leaf_set.specs.Rising.{Rises, back};
ghost use Rattle.leaf_set.specs.Room.{put_in as put_in_of};

use ring_math::{
    Direction, Id, IdsBuilder, LEAVES_PER_SIDE, MOST_MEMBERS, distance, improves, nearer_of,
};
use std::marker::Model;

/// The place before this one among so many round the circle, where a place past the last is before the first.
fn place_before(place: usize, count: usize) -> usize
    requires { (0 < count) × (place ≤ count) }
    ensures { IsBefore result place count }
{
    if place == 0 { count - 1 } else { place - 1 }
}

/// The place itself, and the first where it is past the last.
fn place_from(place: usize, count: usize) -> usize
    requires { (0 < count) × (place ≤ count) }
    ensures { IsFrom result place count }
{
    if place == count { 0 } else { place }
}

/// Moves the identifiers from a place on up by one, which drops the last, and fills the place.
fn put_in(ids: &mut [Id; LEAVES_PER_SIDE], place: usize, id: Id)
    requires { place < LEAVES_PER_SIDE }
    ensures size { length ids.old ≡ LEAVES_PER_SIDE }
    ensures value { ids.new ≡ put_in_of ids.old place id (LEAVES_PER_SIDE - 1 - place) }
{
    ids.copy_within(place..LEAVES_PER_SIDE - 1, place + 1);
    ids[place] = id;
}

/// At most [`LEAVES_PER_SIDE`] identifiers, the nearest first.
#[derive(Drop)]
pub(crate) struct Side {
    ids: [Id; LEAVES_PER_SIDE],
    len: usize,
}

impl Model for Side {
    ghost use Rattle.std.specs.Prelude.{ℕ, List, take, ◌≤◌};
    ghost use Rattle.ring_math.specs.declared.limits.TheConstants.{LEAVES_PER_SIDE};

    ghost Value = { List ℕ };

    ghost view = { λ a. take a.len a.ids };

    ghost invariant = { λ a. a.len ≤ LEAVES_PER_SIDE };
}

impl Side {
    /// No identifier yet.
    pub(crate) fn new() -> Side
        ensures { result ≡ [] }
    {
        Side {
            ids: [Id(0); LEAVES_PER_SIDE],
            len: 0,
        }
    }

    pub(crate) fn copy(&self) -> Side
        ensures { result ≡ self.now }
    {
        Side {
            ids: self.ids,
            len: self.len,
        }
    }

    /// The identifiers, the nearest first.
    pub(crate) fn as_slice(&self) -> &[Id]
        ensures value { result.now ≡ self.now }
        ensures limit { length self.now ≤ LEAVES_PER_SIDE }
    {
        &self.ids[..self.len]
    }

    /// The n-th nearest, from 0.
    pub(crate) fn get(&self, n: usize) -> Option<Id>
        ensures { result ≡ slice_get self.now n }
    {
        self.as_slice().get(n).copied()
    }

    /// Whether it is there, for whom the side reaches. All are compared, whatever the first are: a processor can't foresee where a
    /// search ends, and to guess wrong costs it more than to compare all.
    pub(crate) fn has(&self, id: Id) -> bool
        ensures { result ≡ is_in self.now id }
    {
        let mut is_there = false;
        for other in self.as_slice() {
            is_there |= *other == id;
        }
        is_there
    }

    /// Whether it is there.
    pub(crate) fn holds(&self, me: Id, direction: Direction, id: Id) -> bool
        requires { Rises (far me direction) self.now }
        ensures { result ≡ is_in self.now id }
    {
        self.holds_within(self.reach(me, direction), me, direction, id)
    }

    /// Whether it is there, where it is known how far the side reaches. Nobody is whom it doesn't reach, so it is not sought there.
    fn holds_within(&self, reach: u128, me: Id, direction: Direction, id: Id) -> bool
        requires rises { Rises (far me direction) self.now }
        requires limit { length self.now ≤ LEAVES_PER_SIDE }
        requires reach { (key : ℕ) → far me direction key < 2 ^ 128 → nat_le (far me direction key) reach ≡ reaches_of me direction self.now key }
        ensures { result ≡ is_in self.now id }
    {
        distance(me, direction, id) <= reach && self.has(id)
    }

    /// How far the side reaches: as far as the last, and everywhere where there are fewer than [`LEAVES_PER_SIDE`].
    fn reach(&self, me: Id, direction: Direction) -> u128
        ensures limit { length self.now ≤ LEAVES_PER_SIDE }
        ensures reach { (key : ℕ) → far me direction key < 2 ^ 128 → nat_le (far me direction key) result ≡ reaches_of me direction self.now key }
    {
        match self.as_slice().get(LEAVES_PER_SIDE - 1) {
            Some(last) => distance(me, direction, *last),
            None => u128::MAX,
        }
    }

    /// Whether there are fewer than [`LEAVES_PER_SIDE`], or the key is no farther than the last.
    pub(crate) fn reaches(&self, me: Id, direction: Direction, key: Id) -> bool
        ensures limit { length self.now ≤ LEAVES_PER_SIDE }
        ensures reaches { result ≡ reaches_of me direction self.now key }
    {
        distance(me, direction, key) <= self.reach(me, direction)
    }

    /// The one nearest to the key: one of the two between which the key lies.
    pub(crate) fn nearest(&self, me: Id, direction: Direction, key: Id) -> Option<Id>
        requires rises { Rises (far me direction) self.now }
        requires in_ring { All (λ z. z < 2 ^ 128) self.now }
        ensures { MatchOption result (self.now ≡ []) (λ y. IsClosest (Contains self.now) key y) }
    {
        let ids = self.as_slice();
        if ids.is_empty() {
            return None;
        }
        let place = self.place_of(me, direction, key);
        let before = ids[place_before(place, ids.len())];
        let from = ids[place_from(place, ids.len())];
        nearer_of(Some(before), Some(from), key)
    }

    /// Of those that share at least so many digits with the key and are nearer to it than another, the nearest.
    pub(crate) fn best(&self, key: Id, least: u8, than: Id) -> Option<Id>
        ensures { let better = λ (z : ℕ). Improves self.now key least than z in
            MatchOption result ((z : ℕ) → better z → ⊥) (λ y. IsClosest better key y) }
    {
        let mut best = None;
        for id in self.as_slice() {
            if improves(*id, key, least, than) {
                best = nearer_of(best, Some(*id), key);
            }
        }
        best
    }

    /// Appends the identifiers, the nearest first.
    pub(crate) fn copy_to(&self, out: &mut IdsBuilder)
        requires room { length out.old ≤ 1 }
        requires in_ring { All (λ z. z < 2 ^ 128) self.now }
        ensures limit { length self.now ≤ LEAVES_PER_SIDE }
        ensures copied { out.new ≡ out.old ++ self.now }
    {
        out.extend(self.as_slice());
    }

    /// How many of these are not in another side, which goes that way.
    pub(crate) fn count_besides(&self, other: &Side, me: Id, direction: Direction) -> usize
        requires { Rises (far me direction) other.now }
        ensures limit { result ≤ LEAVES_PER_SIDE }
        ensures value { result ≡ length (filter (λ y. not (is_in other.now y)) self.now) }
    {
        let mut count = 0;
        for id in self.as_slice() {
            if !other.holds(me, direction, *id) {
                count += 1;
            }
        }
        count
    }

    /// Whether each of these, which go the other way round, is farther that way round than so far: the first and the last are, and
    /// all others lie between these two.
    fn is_beyond(&self, reach: u128, me: Id, direction: Direction) -> bool
        requires rises { Rises (back me direction) self.now }
        requires in_ring { All (λ z. z < 2 ^ 128) self.now }
        ensures { IsTrue result → All (λ y. reach < far me direction y) self.now }
    {
        let ids = self.as_slice();
        if ids.is_empty() {
            return true;
        }
        let (first, last) = (ids[0], ids[ids.len() - 1]);
        distance(me, direction, first) > reach && distance(me, direction, last) > reach
    }

    /// Appends those that are not in another side, which goes that way, the nearest first.
    pub(crate) fn copy_besides(
        &self,
        other: &Side,
        me: Id,
        direction: Direction,
        out: &mut IdsBuilder,
    )
        requires room { length out.old ≤ LEAVES_PER_SIDE + 1 }
        requires rises { Rises (far me direction) other.now }
        requires back { Rises (back me direction) self.now }
        requires in_ring { All (λ z. z < 2 ^ 128) self.now }
        ensures { out.new ≡ out.old ++ filter (λ y. not (is_in other.now y)) self.now }
    {
        let reach = other.reach(me, direction);
        // No identifier is on both sides in most rings.
        if self.is_beyond(reach, me, direction) {
            out.extend(self.as_slice());
            return;
        }
        for id in self.as_slice() {
            if !other.holds_within(reach, me, direction, *id) {
                out.append(*id);
            }
        }
    }

    /// The place of the first that is farther than this one, or how many there are. So many are not farther, and all are compared, as
    /// `has` compares them.
    fn place_of(&self, me: Id, direction: Direction, id: Id) -> usize
        requires { Rises (far me direction) self.now }
        ensures within { result ≤ length self.now }
        ensures limit { length self.now ≤ LEAVES_PER_SIDE }
        ensures first { result ≡ position_or_len (λ y. nat_lt (far me direction id) (far me direction y)) self.now }
    {
        let from_me = distance(me, direction, id);
        let mut count = 0;
        for other in self.as_slice() {
            if distance(me, direction, *other) <= from_me {
                count += 1;
            }
        }
        count
    }

    /// Puts an identifier in its place, behind those as far as it, where it is among the first
    /// [`LEAVES_PER_SIDE`]. It answers whether it is; if not, nothing has changed.
    pub(crate) fn place(&mut self, me: Id, direction: Direction, id: Id) -> bool
        requires { Rises (far me direction) self.old }
        ensures placed { self.new ≡ take LEAVES_PER_SIDE (placed (far me direction) id self.old) }
        ensures answer { is_in self.old id ≡ false → result ≡ is_in self.new id }
        ensures same { OnFalse result (self.new ≡ self.old) }
    {
        // Who is new belongs on one side only in most rings.
        if !self.reaches(me, direction, id) {
            return false;
        }
        let place = self.place_of(me, direction, id);
        if place == LEAVES_PER_SIDE {
            return false;
        }
        put_in(&mut self.ids, place, id);
        self.len = LEAVES_PER_SIDE.min(self.len + 1);
        true
    }
}
