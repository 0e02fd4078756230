//! How a node begins, and its copy.

ghost use Rattle.std.specs.Prelude.{◌≡◌, IfOk, true, false, []};
ghost use Rattle.overlay_rules.specs.State.{State, start};
ghost use Rattle.node_parts.specs.Seen.{Stands};
ghost use Rattle.node_parts.specs.Sound.{PhaseIsSound};

use crate::lease::Lease;
use crate::node::Node;
use crate::seat::Seat;
use file_store::FileStore;
use lookup_core::Knowledge;
use past_core::Past;
use ring_math::{Id, OutOfMemory};
use std::alloc::Global;

impl Node {
    /// The founder of a ring: ready, alone, with itself as both links.
    pub fn founder(alloc: Global, me: Id) -> Result<Node, OutOfMemory>
        ensures me { IfOk result (λ node. node.me ≡ me) }
        ensures stands { IfOk result (λ node. Stands node (start me true)) }
    {
        Node::begun(alloc, me, Seat::founder(me))
    }

    /// A node that is to join, with its first attempt.
    pub fn fresh(alloc: Global, me: Id) -> Result<Node, OutOfMemory>
        ensures me { IfOk result (λ node. node.me ≡ me) }
        ensures stands { IfOk result (λ node. Stands node (start me false)) }
    {
        Node::begun(alloc, me, Seat::fresh(me))
    }

    /// A node that knows nobody and keeps nothing, with this seat.
    fn begun(alloc: Global, me: Id, seat: Seat) -> Result<Node, OutOfMemory>
        requires { PhaseIsSound me [] seat }
        ensures me { IfOk result (λ node. node.me ≡ me) }
        ensures stands { IfOk result (λ node. Stands node (record (start me false) { phase = seat })) }
    {
        let known = Knowledge::new(alloc, me)?;
        Ok(Node {
            me,
            seat,
            left_gate: None,
            right_gate: None,
            known,
            store: FileStore::new(alloc),
            past: Past::new(alloc),
            waiting: Vec::new(alloc),
        })
    }

    /// The node whose identifier it is.
    pub fn id(&self) -> Id
        ensures { result ≡ self.now.me }
    {
        self.me
    }

    /// The same node in memory of its own.
    pub fn copy(&self, alloc: Global) -> Result<Node, OutOfMemory>
        ensures { IfOk result (λ copy. (s : State) → Stands self.now s → Stands copy s) }
    {
        let waiting = self.waiting.as_slice().to_vec(alloc)?;
        let known = self.known.copy(alloc)?;
        let past = self.past.copy(alloc)?;
        let store = self.store.copy(alloc)?;
        let (left_gate, right_gate) = both_of(alloc, &self.left_gate, &self.right_gate)?;
        let seat = self.seat.copy(alloc)?;
        Ok(Node {
            me: self.me,
            seat,
            left_gate,
            right_gate,
            known,
            store,
            past,
            waiting,
        })
    }
}

fn both_of(
    alloc: Global,
    left: &Option<Lease>,
    right: &Option<Lease>,
) -> Result<(Option<Lease>, Option<Lease>), OutOfMemory>
    ensures { IfOk result (λ copies. (copies.0 ≡ left.now) × (copies.1 ≡ right.now)) }
{
    let left = copy_of(alloc, left)?;
    let right = copy_of(alloc, right)?;
    Ok((left, right))
}

fn copy_of(alloc: Global, lease: &Option<Lease>) -> Result<Option<Lease>, OutOfMemory>
    ensures { IfOk result (λ copy. copy ≡ lease.now) }
{
    match lease {
        Some(lease) => Ok(Some(lease.copy(alloc)?)),
        None => Ok(None),
    }
}
