//! The leaf set of a node: of all that it learnt, the nearest clockwise and the nearest counterclockwise,
//! [`LEAVES_PER_SIDE`](ring_math::LEAVES_PER_SIDE) of each (Pastry, Rowstron and Druschel 2001).
#![tactic(auto)]

ghost use Rattle.std.specs.Prelude.{◌≡◌, ◌≤◌, ◌&&◌, ◌||◌, ◌++◌, not, false, [], IsTrue, List, Contains, MatchOption, length, slice_get};
ghost use Rattle.std.specs.Bool.{OnFalse};
ghost use Rattle.ring_math.specs.Names.{Id};
ghost use Rattle.ring_math.specs.Members.{IsClosest};
ghost use Rattle.ring_math.specs.Sides.{learn as learn_of};
ghost use Rattle.leaf_set.specs.Leaves.{StandsFor, Improves, in_order, holds};
ghost use Rattle.leaf_set.specs.Range.{is_in_range, lacks};

mod side;

use ring_math::{Direction, Id, IdsBuilder, nearer_of};
use side::Side;
use std::marker::Model;

/// Two arrays of identifiers by distance, seen from a node that is in neither.
#[derive(Drop)]
pub struct LeafSet {
    me: Id,
    right: Side,
    left: Side,
}

impl Model for LeafSet {
    ghost use Rattle.std.specs.Prelude.{◌<◌, ◌^◌, All};
    ghost use Rattle.leaf_set.specs.Leaves.{Leaves};
    ghost use Rattle.leaf_set.specs.Rising.{Rises};
    ghost use Rattle.ring_math.specs.Direction.{far};
    ghost use Rattle.ring_math.specs.declared.direction.Direction.TheVariants.{Clockwise, Counterclockwise};

    ghost Value = { Leaves };

    ghost view = { λ a. record { me = a.me; right = a.right; left = a.left } };

    ghost invariant = { λ a. Rises (far a.me Clockwise) a.right × Rises (far a.me Counterclockwise) a.left
        × All (λ z. z < 2 ^ 128) a.right × All (λ z. z < 2 ^ 128) a.left };
}

impl LeafSet {
    /// The leaf set of a node that knows nobody.
    pub fn new(me: Id) -> LeafSet
        ensures me { result.me ≡ me }
        ensures stands { StandsFor result [] }
    {
        LeafSet {
            me,
            right: Side::new(),
            left: Side::new(),
        }
    }

    /// The node whose leaf set it is.
    pub fn me(&self) -> Id
        ensures { result ≡ self.now.me }
    {
        self.me
    }

    /// The same leaf set.
    pub fn copy(&self) -> LeafSet
        ensures { result ≡ self.now }
    {
        LeafSet {
            me: self.me,
            right: self.right.copy(),
            left: self.left.copy(),
        }
    }

    /// Whether an identifier stands on a side. One that does was learnt before.
    pub fn holds(&self, id: Id) -> bool
        ensures held { result ≡ holds self.now id }
        ensures learnt { IsTrue result → (known : List Id) → StandsFor self.now known → learn_of self.now.me known id ≡ known }
    {
        self.right.holds(self.me, Direction::Clockwise, id)
            || self.left.holds(self.me, Direction::Counterclockwise, id)
    }

    /// Whether an identifier that stands on no side would stand on one if it were learnt. Where it would not, the leaf set stays as
    /// it is, which is said by the lemma `stands-known`.
    pub fn lacks(&self, id: Id) -> bool
        ensures { result ≡ lacks self.now id }
    {
        // Whom neither side reaches changes neither, and a side has nobody whom it doesn't reach: most of a large ring, so that is
        // asked before the sides are searched.
        let by_right = self.right.reaches(self.me, Direction::Clockwise, id);
        let by_left = self.left.reaches(self.me, Direction::Counterclockwise, id);
        id != self.me
            && (by_right || by_left)
            && !(by_right && self.right.has(id))
            && !(by_left && self.left.has(id))
    }

    /// The nearest clockwise, the nearest first.
    pub fn on_right(&self) -> &[Id]
        ensures { result.now ≡ self.now.right }
    {
        self.right.as_slice()
    }

    /// The nearest counterclockwise, the nearest first.
    pub fn on_left(&self) -> &[Id]
        ensures { result.now ≡ self.now.left }
    {
        self.left.as_slice()
    }

    /// Takes an identifier in on each side where it is among the nearest. It answers whether the identifier was
    /// on neither side and now is on one; else nothing has changed. The node itself is never learnt.
    pub fn learn(&mut self, id: Id) -> bool
        ensures me { self.new.me ≡ self.old.me }
        ensures stands { (known : List Id) → StandsFor self.old known → StandsFor self.new (learn_of self.old.me known id) }
        ensures answer { result ≡ not (holds self.old id) && holds self.new id }
        ensures same { OnFalse result (self.new ≡ self.old) }
    {
        if !self.lacks(id) {
            return false;
        }
        let on_right = self.right.place(self.me, Direction::Clockwise, id);
        let on_left = self.left.place(self.me, Direction::Counterclockwise, id);
        on_right || on_left
    }

    /// The n-th nearest clockwise of all that was learnt, from 0.
    pub fn right(&self, n: usize) -> Option<Id>
        ensures { result ≡ slice_get self.now.right n }
    {
        self.right.get(n)
    }

    /// The n-th nearest counterclockwise of all that was learnt, from 0.
    pub fn left(&self, n: usize) -> Option<Id>
        ensures { result ≡ slice_get self.now.left n }
    {
        self.left.get(n)
    }

    /// Whether a side has fewer than it can hold, or the key is no farther clockwise than the farthest on the right, or no
    /// farther counterclockwise than the farthest on the left.
    pub fn in_range(&self, key: Id) -> bool
        ensures { result ≡ is_in_range self.now key }
    {
        self.right.reaches(self.me, Direction::Clockwise, key)
            || self.left.reaches(self.me, Direction::Counterclockwise, key)
    }

    /// The leaf that no leaf is nearer to the key than. None exactly where there is no leaf.
    pub fn nearest(&self, key: Id) -> Option<Id>
        ensures { let leaves = in_order self.now in
            MatchOption result (leaves ≡ []) (λ y. IsClosest (Contains leaves) key y) }
    {
        let on_right = self.right.nearest(self.me, Direction::Clockwise, key);
        let on_left = self.left.nearest(self.me, Direction::Counterclockwise, key);
        nearer_of(on_right, on_left, key)
    }

    /// Of the leaves that share at least `least` digits with the key and are nearer to it than `than`, the nearest.
    /// None exactly where there is none.
    pub fn best(&self, key: Id, least: u8, than: Id) -> Option<Id>
        ensures { let better = λ (z : Id). Improves (in_order self.now) key least than z in
            MatchOption result ((z : Id) → better z → ⊥) (λ y. IsClosest better key y) }
    {
        nearer_of(
            self.right.best(key, least, than),
            self.left.best(key, least, than),
            key,
        )
    }

    /// How many different leaves there are.
    pub fn count(&self) -> usize
        ensures { result ≡ length (in_order self.now) }
    {
        let besides = self
            .left
            .count_besides(&self.right, self.me, Direction::Clockwise);
        self.right.as_slice().len() + besides
    }

    /// Appends the leaves in leaf order: the right side, nearest first, then those of the left side, nearest first,
    /// that were not yet said.
    pub fn copy_to(&self, out: &mut IdsBuilder)
        requires { length out.old ≤ 1 }
        ensures { out.new ≡ out.old ++ in_order self.now }
    {
        self.right.copy_to(out);
        self.left
            .copy_besides(&self.right, self.me, Direction::Clockwise, out);
    }
}

#[cfg(test)]
mod tests;
