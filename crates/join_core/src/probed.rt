//! Who was probed.

ghost use Rattle.std.specs.Prelude.{◌≡◌, IfOk, map};
ghost use Rattle.std.specs.List.{list_all, list_any};
ghost use Rattle.ring_math.specs.Sides.{also_of};
ghost use Rattle.overlay_rules.specs.Joining.{unanswered, is_unanswered, was_probed, answered_by};
ghost use Rattle.join_core.specs.Probes.{new_of, probed_with, are_answered, is_awaited_besides};

use ring_math::{Id, Ids, IdsBuilder, OutOfMemory};
use std::alloc::Global;
use std::marker::Model;

/// Who was probed, in that order, and whether it has answered.
#[derive(Drop)]
pub struct Probed {
    items: Vec<(Id, bool)>,
}

impl Model for Probed {
    ghost use Rattle.std.specs.Prelude.{ℕ, Bool, List};

    ghost Value = { List (ℕ × Bool) };

    ghost view = { λ a. a.items.items };
}

impl Probed {
    /// Each of these, and no answer yet.
    #[tactic(auto, using(crate::proofs::Listed::map_more))]
    pub fn unanswered(alloc: Global, ids: &[Id]) -> Result<Probed, OutOfMemory>
        ensures { IfOk result (λ probed. probed ≡ map unanswered ids.now) }
    {
        let mut items = Vec::with_capacity(alloc, ids.len())?;
        for id in ids {
            items.push((*id, false))?;
        }
        Ok(Probed { items })
    }

    /// Who was probed, in that order, and whether it has answered.
    pub fn as_slice(&self) -> &[(Id, bool)]
        ensures { result.now ≡ self.now }
    {
        &self.items
    }

    /// The same in memory of its own.
    pub fn copy(&self, alloc: Global) -> Result<Probed, OutOfMemory>
        ensures { IfOk result (λ copy. copy ≡ self.now) }
    {
        let items = self.items.as_slice().to_vec(alloc)?;
        Ok(Probed { items })
    }

    /// Whether this node was probed and has not answered.
    pub fn awaits(&self, sender: Id) -> bool
        ensures { result ≡ list_any (is_unanswered sender) self.now }
    {
        self.items.iter().any(|probe| !probe.1 && probe.0 == sender)
    }

    /// Whether this node was probed.
    pub fn contains(&self, id: Id) -> bool
        ensures { result ≡ was_probed self.now id }
    {
        self.items.iter().any(|probe| probe.0 == id)
    }

    /// Whether this node was probed. It is looked for at a place first: leaves that stay were probed in leaf order, so each
    /// stands at its own place there, unless others came between.
    fn contains_by(&self, place: usize, id: Id) -> bool
        ensures { result ≡ was_probed self.now id }
    {
        match self.items.get(place) {
            Some(probe) if probe.0 == id => true,
            _ => self.contains(id),
        }
    }

    /// Whether each has answered.
    pub fn all_answered(&self) -> bool
        ensures { result ≡ are_answered self.now }
    {
        self.items.iter().all(|probe| probe.1)
    }

    /// Whether each leaf was probed, with these sides of the leaf set.
    pub fn contains_leaves(&self, right: &[Id], left: &[Id]) -> bool
        ensures { result ≡ list_all (was_probed self.now) (also_of right.now left.now) }
    {
        self.contains_all(0, right) && self.contains_all(right.len(), left)
    }

    /// Whether each of these was probed. They are looked for from a place on first.
    fn contains_all(&self, from: usize, leafs: &[Id]) -> bool
        ensures { result ≡ list_all (was_probed self.now) leafs.now }
    {
        for place in 0..leafs.len() {
            let leaf = leafs[place];
            if !self.contains_by(from.saturating_add(place), leaf) {
                return false;
            }
        }
        true
    }

    /// Whether another than this node has not answered.
    pub fn awaits_besides(&self, sender: Id) -> bool
        ensures { result ≡ list_any (is_awaited_besides sender) self.now }
    {
        self.items.iter().any(|probe| !probe.1 && probe.0 != sender)
    }

    /// This node has answered. It takes no memory.
    pub fn hear(&mut self, sender: Id)
        ensures { self.new ≡ map (answered_by sender) self.old }
    {
        for place in 0..self.items.len() {
            let is_senders = self.items[place].0 == sender;
            self.items[place].1 |= is_senders;
        }
    }

    /// Those of the leaves that were not probed, in their order.
    pub fn not_probed(&self, alloc: Global, leafs: &Ids) -> Result<Ids, OutOfMemory>
        ensures { IfOk result (λ more. more ≡ new_of self.now leafs.now) }
    {
        let leafs = leafs.as_slice();
        let mut more = IdsBuilder::new();
        for (place, leaf) in leafs.iter().enumerate() {
            if !self.contains_by(place, *leaf) {
                more.push(*leaf);
            }
        }
        more.finish(alloc)
    }

    /// The same with the sender's answer, and with these probed too.
    #[tactic(auto, using(crate::proofs::Listed::map_more))]
    pub fn answered(&self, alloc: Global, sender: Id, more: &[Id]) -> Result<Probed, OutOfMemory>
        ensures { IfOk result (λ probed. probed ≡ probed_with self.now sender more.now) }
    {
        let probes = self.as_slice();
        let mut items = Vec::with_capacity(alloc, probes.len() + more.len())?;
        for probe in probes {
            items.push(with_answer(probe, sender))?;
        }
        for id in more {
            items.push((*id, false))?;
        }
        Ok(Probed { items })
    }
}

/// This probe, answered where it is the sender's.
fn with_answer(probe: &(Id, bool), sender: Id) -> (Id, bool)
    ensures { result ≡ answered_by sender probe.now }
{
    if probe.0 == sender {
        (sender, true)
    } else {
        *probe
    }
}
