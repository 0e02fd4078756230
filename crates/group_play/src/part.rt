//! What a node keeps of its part in a group, and how its place in the tree changes.

ghost use Rattle.std.specs.Prelude.{◌≡◌, ◌++◌, ◌∷◌, [], List, IfOk, OnOk, true, false, not};
ghost use Rattle.ring_math.specs.Names.{Number};
ghost use Rattle.ring_math.specs.Sides.{is_in};
ghost use Rattle.scribe_core.specs.Parts.{no_part};
ghost use Rattle.scribe_core.specs.Tree.{attach, trim, with_child, without_child};
ghost use Rattle.group_play.specs.Said.{grafts, prunes};
ghost use Rattle.group_play.specs.Shown.{HasSeen, Stands, is_loose, parent_of, part_of};

use overlay_rules::Way;
use ring_math::{Id, OutOfMemory};
use std::alloc::Global;
use std::collections::BTreeSet;

/// Where a node stands in the tree of a group.
#[derive(Clone, Copy)]
pub(crate) enum Place {
    /// In no tree.
    Loose,
    /// At the top.
    Root,
    /// Under a parent.
    Under { parent: Id },
    /// At the top of a tree that has no way to the key.
    Orphan,
}

/// What a node keeps of its part in a group.
#[derive(Drop)]
pub(crate) struct Part {
    pub(crate) place: Place,
    /// In the order in which they asked.
    pub(crate) children: Vec<Id>,
    pub(crate) is_member: bool,
    /// The numbers of the publications that came.
    pub(crate) seen: BTreeSet<u64>,
}

impl Part {
    /// A node's part at first. It takes no memory.
    pub(crate) fn new(alloc: Global) -> Part
        ensures { Stands result no_part }
    {
        Part {
            place: Place::Loose,
            children: Vec::new(alloc),
            is_member: false,
            seen: BTreeSet::new(alloc),
        }
    }

    /// A loose node takes its place where the key leads this way. The answer is the parent that it asks.
    pub(crate) fn attach(&mut self, way: Way) -> Option<Id>
        ensures part { (seen : List Number) → part_of self.new seen ≡ (attach way (part_of self.old seen)).part }
        ensures asks { (seen : List Number) → (attach way (part_of self.old seen)).sends ≡ grafts result }
        ensures seen { self.new.seen ≡ self.old.seen }
    {
        if !self.is_loose() {
            return None;
        }
        match way {
            Way::NotReady => None,
            Way::Here => {
                self.place = Place::Root;
                None
            }
            Way::Gap { .. } => {
                self.place = Place::Orphan;
                None
            }
            Way::To { node } => {
                self.place = Place::Under { parent: node };
                Some(node)
            }
        }
    }

    /// A node that is no member and has no child leaves its parent, if it has one. The answer is the parent that it leaves.
    pub(crate) fn trim(&mut self) -> Option<Id>
        ensures part { (seen : List Number) → part_of self.new seen ≡ (trim (part_of self.old seen)).part }
        ensures leaves { (seen : List Number) → (trim (part_of self.old seen)).sends ≡ prunes result }
        ensures seen { self.new.seen ≡ self.old.seen }
    {
        if self.is_member || !self.children.is_empty() {
            return None;
        }
        let parent = self.parent();
        if parent.is_some() {
            self.place = Place::Loose;
        }
        parent
    }

    /// The parent, if the node has one.
    fn parent(&self) -> Option<Id>
        ensures { result ≡ parent_of self.now.place }
    {
        match &self.place {
            Place::Under { parent } => Some(*parent),
            Place::Loose | Place::Root | Place::Orphan => None,
        }
    }

    /// Whether the node is in no tree.
    pub(crate) fn is_loose(&self) -> bool
        ensures { result ≡ is_loose self.now.place }
    {
        match self.place {
            Place::Loose => true,
            Place::Root | Place::Under { .. } | Place::Orphan => false,
        }
    }
}

/// A child more, unless it is one.
pub(crate) fn add_child(children: &mut Vec<Id>, child: Id) -> Result<(), OutOfMemory>
    ensures { OnOk result (children.new.items ≡ with_child children.old.items child) }
{
    if !is_among(children, child) {
        children.push(child)?;
    }
    Ok(())
}

fn is_among(children: &[Id], child: Id) -> bool
    ensures { result ≡ is_in children.now child }
{
    children.iter().any(|other| *other == child)
}

/// A child less.
pub(crate) fn remove_child(children: &mut Vec<Id>, child: Id)
    ensures { children.new.items ≡ without_child children.old.items child }
{
    children.retain(|other| *other != child);
}

/// Notes that a publication was seen. The answer is whether it is new.
pub(crate) fn see(seen: &mut BTreeSet<u64>, number: u64) -> Result<bool, OutOfMemory>
    ensures answer { IfOk result (λ is_new. (numbers : List Number) → HasSeen seen.old numbers → is_new ≡ not (is_in numbers number)) }
    ensures new { OnOk result ((numbers : List Number) → HasSeen seen.old numbers → HasSeen seen.new (numbers ++ number ∷ [])) }
    ensures old { OnOk result ((numbers : List Number) → HasSeen seen.old numbers → is_in numbers number ≡ true → HasSeen seen.new numbers) }
{
    let is_new = seen.insert(number)?;
    Ok(is_new)
}
