//! What becomes of a gate: it is released, confirmed, or taken away for a newer attempt.

ghost use Rattle.std.specs.Prelude.{◌≡◌, IfOk, List, ℕ, []};
ghost use Rattle.overlay_rules.specs.State.{Ready, attempt_of};
ghost use Rattle.overlay_rules.specs.Gates.{is_of, is_older};
ghost use Rattle.overlay_rules.specs.Gatekeeper.{unless_lease, links_of as links_of_state, on_release as on_release_of, on_confirm as on_confirm_of, cleared};
ghost use Rattle.node_parts.specs.Change.{gate_after, changed};
ghost use Rattle.node_parts.specs.Seen.{seen};
ghost use Rattle.node_parts.specs.Plans.{Plans};

use gate_core::Links;
use node_parts::{
    Change, GateChange, Learn, Lease, Node, Parts, PastChange, Prepared, SeatChange, StoreChange,
    Wait, bare,
};
use ring_math::{Id, OutOfMemory};
use std::alloc::Global;

/// Takes the gate away where it is this joiner's with this attempt.
fn without(lease: &Option<Lease>, joiner: Id, attempt: u32) -> GateChange
    ensures { gate_after result lease.now ≡ unless_lease (is_of joiner attempt) lease.now }
{
    match lease {
        Some(held) if held.gate.joiner == joiner && held.gate.attempt == attempt => {
            GateChange::Clear
        }
        _ => GateChange::Keep,
    }
}

/// Takes the gate away where it is this joiner's with an older attempt.
pub(crate) fn without_older(lease: &Option<Lease>, joiner: Id, attempt: u32) -> GateChange
    ensures { gate_after result lease.now ≡ unless_lease (is_older joiner attempt) lease.now }
{
    match lease {
        Some(held) if held.gate.joiner == joiner && held.gate.attempt < attempt => {
            GateChange::Clear
        }
        _ => GateChange::Keep,
    }
}

/// The links and gates, without the lists.
pub(crate) fn links_of(node: &Node, left: Id, right: Id) -> Links
    ensures { (known : List ℕ) → result ≡ links_of_state (seen node.now known) left right }
{
    Links {
        left,
        right,
        left_gate: bare(&node.left_gate),
        right_gate: bare(&node.right_gate),
    }
}

/// The joiner's gates of older attempts are taken away.
pub(crate) fn clearing(
    node: &Node,
    alloc: Global,
    joiner: Id,
    attempt: u32,
) -> Result<Change, OutOfMemory>
    ensures { (known : List ℕ) → IfOk result (λ change. changed change (seen node.now known) ≡ cleared (seen node.now known) joiner attempt) }
{
    Change::gates(
        alloc,
        without_older(&node.left_gate, joiner, attempt),
        without_older(&node.right_gate, joiner, attempt),
    )
}

/// A Release: each gate that is the sender's with this attempt is taken away.
#[inline(never)]
pub(crate) fn on_release(
    node: &Node,
    alloc: Global,
    from: Id,
    attempt: u32,
) -> Result<Prepared, OutOfMemory>
    ensures { (known : List ℕ) → IfOk result (λ p. Plans (seen node.now known) p (on_release_of (seen node.now known) from attempt)) }
{
    let change = Change::gates(
        alloc,
        without(&node.left_gate, from, attempt),
        without(&node.right_gate, from, attempt),
    )?;
    Ok(Prepared::quiet(alloc, change))
}

/// A Confirm: the sender becomes the link of each side whose gate is its with this attempt.
#[inline(never)]
pub(crate) fn on_confirm(
    node: &Node,
    alloc: Global,
    from: Id,
    attempt: u32,
) -> Result<Prepared, OutOfMemory>
    ensures { (known : List ℕ) → IfOk result (λ p. Plans (seen node.now known) p (on_confirm_of (seen node.now known) from attempt)) }
{
    match node.seat.links() {
        Some(links) => confirmed(
            node,
            alloc,
            &links_of(node, links.0, links.1),
            from,
            attempt,
        ),
        None => Ok(Prepared::quiet(alloc, Change::nothing())),
    }
}

/// The same with the links of a ready node.
fn confirmed(
    node: &Node,
    alloc: Global,
    links: &Links,
    from: Id,
    attempt: u32,
) -> Result<Prepared, OutOfMemory>
    requires ready { node.now.seat ≡ Ready (attempt_of node.now.seat) links.now.left links.now.right }
    requires links { links.now ≡ links_of_state (seen node.now []) links.now.left links.now.right }
    ensures { (known : List ℕ) → IfOk result (λ p. Plans (seen node.now known) p (on_confirm_of (seen node.now known) from attempt)) }
{
    let mut after = *links;
    if !after.confirm(node.me, from, attempt) {
        return Ok(Prepared::quiet(alloc, Change::nothing()));
    }
    let seat = SeatChange::Ready {
        attempt: node.seat.joiner().attempt(),
        left: after.left,
        right: after.right,
    };
    let parts = Parts {
        seat,
        left_gate: without(&node.left_gate, from, attempt),
        right_gate: without(&node.right_gate, from, attempt),
        learn: Learn::One(from),
        store: StoreChange::Keep,
        past: PastChange::Keep,
    };
    let change = Change::of(alloc, parts, Wait::Keep)?;
    Ok(Prepared::quiet(alloc, change))
}
