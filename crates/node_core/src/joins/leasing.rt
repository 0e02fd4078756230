//! A request for a lease, at the node that a joiner is to stand beside.

ghost use Rattle.std.specs.Prelude.{◌≡◌, ◌==◌, if◌then◌else◌, IfOk, List, ℕ, [], None};
ghost use Rattle.overlay_rules.specs.Outcome.{becomes};
ghost use Rattle.overlay_rules.specs.Gates.{verdict};
ghost use Rattle.overlay_rules.specs.Gatekeeper.{links_of as links_of_state, on_lease_request as on_lease_request_of, lease_by, deny as deny_of, cleared};
ghost use Rattle.overlay_rules.specs.Gatekeeper.{granted as granted_of, lists_of};
ghost use Rattle.node_parts.specs.Seen.{seen};
ghost use Rattle.node_parts.specs.Plans.{Plans};

use crate::joins::gates::{clearing, links_of};
use crate::joins::granting::{granted, open};
use gate_core::{Gate, Links, Verdict};
use node_parts::{Change, Lease, Node, Prepared};
use replica_handover::Pledge;
use ring_math::{FileIds, Id, OutOfMemory};
use std::alloc::Global;
use wire_msg::{Message, Notes, Why};

/// A LeaseRequest, by the gate that it asks for.
#[inline(never)]
pub(crate) fn on_lease_request(
    node: &Node,
    alloc: Global,
    gate: &Gate,
) -> Result<Prepared, OutOfMemory>
    ensures { (known : List ℕ) → IfOk result (λ p. Plans (seen node.now known) p
        (on_lease_request_of (seen node.now known) gate.now)) }
{
    match node.seat.links() {
        Some(links) => weighed(node, alloc, &links_of(node, links.0, links.1), gate),
        None => {
            let denial = Message::Deny {
                attempt: gate.attempt,
                why: Why::NotReady,
            };
            Prepared::sending(alloc, Change::nothing(), gate.joiner, denial)
        }
    }
}

/// What a ready node with these links says to the gate.
fn weighed(node: &Node, alloc: Global, links: &Links, gate: &Gate) -> Result<Prepared, OutOfMemory>
    requires { links.now ≡ links_of_state (seen node.now []) links.now.left links.now.right }
    ensures { (known : List ℕ) → IfOk result (λ p. Plans (seen node.now known) p
        (lease_by (seen node.now known) links.now.left links.now.right gate.now (verdict links.now node.now.me gate.now))) }
{
    let mut after = *links;
    match after.ask_for(node.me, gate) {
        Verdict::Again => again(node, alloc, gate),
        Verdict::Busy { joiner } => denied(node, alloc, gate, Why::Busy { joiner }),
        Verdict::Moved { left, right } => denied(node, alloc, gate, Why::Moved { left, right }),
        Verdict::Grant => open(node, alloc, &after.reach(node.me), gate),
    }
}

/// The request is denied, and the joiner's gates of older attempts are taken away.
fn denied(node: &Node, alloc: Global, gate: &Gate, why: Why) -> Result<Prepared, OutOfMemory>
    ensures { (known : List ℕ) → IfOk result (λ p. Plans (seen node.now known) p
        (deny_of (cleared (seen node.now known) gate.now.joiner gate.now.attempt) gate.now.joiner gate.now.attempt why)) }
{
    let change = clearing(node, alloc, gate.joiner, gate.attempt)?;
    let denial = Message::Deny {
        attempt: gate.attempt,
        why,
    };
    Prepared::sending(alloc, change, gate.joiner, denial)
}

/// The lease is granted again, with the lists that it was given with.
fn again(node: &Node, alloc: Global, gate: &Gate) -> Result<Prepared, OutOfMemory>
    ensures { (known : List ℕ) → IfOk result (λ p. Plans (seen node.now known) p
        (becomes (seen node.now known) (granted_of gate.now.joiner gate.now.attempt
        (lists_of (if node.now.me == gate.now.left then node.now.right_gate else node.now.left_gate)) node.now.store.files) [])) }
{
    if node.me == gate.left {
        granted_again(node, alloc, gate, &node.right_gate)
    } else {
        granted_again(node, alloc, gate, &node.left_gate)
    }
}

/// The Grant with the lists of this lease.
fn granted_again(
    node: &Node,
    alloc: Global,
    gate: &Gate,
    lease: &Option<Lease>,
) -> Result<Prepared, OutOfMemory>
    ensures { (known : List ℕ) → IfOk result (λ p. Plans (seen node.now known) p
        (becomes (seen node.now known) (granted_of gate.now.joiner gate.now.attempt (lists_of lease.now) node.now.store.files) [])) }
{
    let lists = lists_held(alloc, lease)?;
    let messages = granted(alloc, &node.store, gate.joiner, gate.attempt, &lists)?;
    Ok(Prepared {
        messages,
        notes: Notes::new(alloc),
        change: Change::nothing(),
    })
}

/// A copy of the lists of a lease; none where there is no lease.
fn lists_held(alloc: Global, lease: &Option<Lease>) -> Result<Pledge, OutOfMemory>
    ensures { IfOk result (λ lists. lists ≡ lists_of lease.now) }
{
    match lease {
        Some(lease) => lease.lists.copy(alloc),
        None => {
            let manifest = FileIds::copy_of(alloc, &[])?;
            let tombs = FileIds::copy_of(alloc, &[])?;
            Ok(Pledge::new(manifest, tombs))
        }
    }
}
