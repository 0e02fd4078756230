//! What a node shows. No call of this file takes memory but those that list identifiers.

ghost use Rattle.std.specs.Prelude.{◌≡◌, IfOk, IfSome, List, ℕ, option_copied, Some, None};
ghost use Rattle.ring_math.specs.Files.{slot_of};
ghost use Rattle.ring_math.specs.Sides.{leaves, learn_all, first_or, left_side, right_side};
ghost use Rattle.file_store.specs.Answers.{bytes_in};
ghost use Rattle.leaf_set.specs.Leaves.{StandsFor};
ghost use Rattle.overlay_rules.specs.State.{State, is_ready, reach as reach_in};
ghost use Rattle.overlay_rules.specs.Routed.{way_by, way_of, members};
ghost use Rattle.node_parts.specs.declared.change.Wait.{Wait};
ghost use Rattle.node_parts.specs.Change.{waited};
ghost use Rattle.node_parts.specs.Seen.{seen, Shows, Stands};
ghost use Rattle.node_parts.specs.Views.{reach_of, hop_of};

use crate::lease::joiner_of;
use crate::node::Node;
use coverage::{Hop, Reach};
use leaf_set::LeafSet;
use lookup_core::next_hop;
use overlay_rules::Way;
use ring_math::{FileId, Id, Ids, IdsBuilder, OutOfMemory};
use std::alloc::Global;

fn way_by(hop: Hop) -> Way
    ensures { result ≡ way_by hop }
{
    match hop {
        Hop::Here => Way::Here,
        Hop::Gap(joiner) => Way::Gap { joiner },
        Hop::To(node) => Way::To { node },
    }
}

impl Node {
    /// Whether it has joined.
    pub fn is_ready(&self) -> bool
        ensures { (s : State) → Stands self.now s → result ≡ is_ready s.phase }
    {
        self.seat.is_ready()
    }

    /// What coverage would depend on with these links.
    pub fn reach_with(&self, left: Id, right: Id) -> Reach
        ensures me { result.me ≡ self.now.me }
        ensures reach { (known : List ℕ) → result ≡ reach_in (seen self.now known) left right }
    {
        Reach {
            me: self.me,
            left,
            right,
            left_joiner: joiner_of(&self.left_gate),
            right_joiner: joiner_of(&self.right_gate),
        }
    }

    /// What coverage depends on, None exactly where the node is not ready.
    pub fn reach(&self) -> Option<Reach>
        ensures me { IfSome result (λ reach. reach.me ≡ self.now.me) }
        ensures reach { (s : State) → Stands self.now s → result ≡ reach_of s }
    {
        match self.seat.links() {
            Some(links) => Some(self.reach_with(links.0, links.1)),
            None => None,
        }
    }

    /// Where the node sends what is for a key, None exactly where it is not ready.
    pub fn next_hop(&self, key: Id) -> Option<Hop>
        ensures { (s : State) → Stands self.now s → result ≡ hop_of s key }
    {
        match self.reach() {
            Some(reach) => Some(next_hop(&reach, &self.known, key)),
            None => None,
        }
    }

    /// Where a key leads from here, whatever waits.
    pub fn way(&self, key: Id) -> Way
        ensures { (known : List ℕ) (waiting : Wait) → Shows self.now known → result ≡ way_of (waited waiting (seen self.now known)) key }
    {
        match self.next_hop(key) {
            Some(hop) => way_by(hop),
            None => Way::NotReady,
        }
    }

    /// The bytes of a file, and None exactly where no bytes are held.
    pub fn holds(&self, file: &FileId) -> Option<&[u8]>
        ensures { (s : State) → Stands self.now s → option_copied result ≡ bytes_in (slot_of s.files file.now) }
    {
        self.store.get(file)
    }

    /// The leaf set once these are learnt, in order.
    pub fn leafs_after(&self, ids: &[Id]) -> LeafSet
        ensures me { result.me ≡ self.now.me }
        ensures stands { (known : List ℕ) → Shows self.now known → StandsFor result (learn_all self.now.me known ids.now) }
    {
        learnt(self.known.leafs(), ids)
    }

    /// The leaves in leaf order.
    pub fn leaves(&self, alloc: Global) -> Result<Ids, OutOfMemory>
        ensures { (known : List ℕ) → Shows self.now known → IfOk result (λ ids. ids ≡ leaves self.now.me known) }
    {
        leaves_of(alloc, self.known.leafs())
    }

    /// The node and then its leaves in leaf order. The only error is that memory for the list was refused.
    pub fn members(&self, alloc: Global) -> Result<Ids, OutOfMemory>
        ensures { (known : List ℕ) → Shows self.now known → IfOk result (λ ids. ids ≡ members (seen self.now known)) }
    {
        self.known.members(alloc)
    }

    /// Lists these, unless they are: who asks for them before a leaf changes shares that list. The only error is that memory for it
    /// was refused, and then none is listed.
    pub fn list_members(&mut self, alloc: Global) -> Result<(), OutOfMemory>
        ensures { self.new ≡ self.old }
    {
        self.known.list_members(alloc)
    }
}

/// The leaf set once these are learnt, in order.
fn learnt(leafs: &LeafSet, ids: &[Id]) -> LeafSet
    ensures me { result.me ≡ leafs.now.me }
    ensures stands { (known : List ℕ) → StandsFor leafs.now known → StandsFor result (learn_all leafs.now.me known ids.now) }
{
    let mut leafs = leafs.copy();
    for id in ids {
        let _is_new = leafs.learn(*id);
    }
    leafs
}

/// The leaves of a leaf set in leaf order, in a list that takes no memory.
fn leaves_in(leafs: &LeafSet) -> IdsBuilder
    ensures { (known : List ℕ) → StandsFor leafs.now known → result ≡ leaves leafs.now.me known }
{
    let mut ids = IdsBuilder::new();
    leafs.copy_to(&mut ids);
    ids
}

/// The leaves of a leaf set in leaf order.
pub fn leaves_of(alloc: Global, leafs: &LeafSet) -> Result<Ids, OutOfMemory>
    ensures { (known : List ℕ) → StandsFor leafs.now known → IfOk result (λ ids. ids ≡ leaves leafs.now.me known) }
{
    leaves_in(leafs).finish(alloc)
}

/// The first on the left; the node itself where it knows nobody.
pub fn first_left(leafs: &LeafSet) -> Id
    ensures { (known : List ℕ) → StandsFor leafs.now known → result ≡ first_or leafs.now.me (left_side leafs.now.me known) }
{
    match leafs.left(0) {
        Some(id) => id,
        None => leafs.me(),
    }
}

/// The first on the right; the node itself where it knows nobody.
pub fn first_right(leafs: &LeafSet) -> Id
    ensures { (known : List ℕ) → StandsFor leafs.now known → result ≡ first_or leafs.now.me (right_side leafs.now.me known) }
{
    match leafs.right(0) {
        Some(id) => id,
        None => leafs.me(),
    }
}
