//! A joiner learns who its neighbours are: the answer to its request, probes, and the answers to them.

ghost use Rattle.std.specs.Prelude.{◌≡◌, IfOk, List, ℕ, true};
ghost use Rattle.ring_math.specs.Sides.{leaves};
ghost use Rattle.wire_msg.specs.Words.{LeaseRequest};
ghost use Rattle.join_core.specs.Joining.{joiner_of};
ghost use Rattle.join_core.specs.Probes.{goes_on_with};
ghost use Rattle.overlay_rules.specs.State.{State};
ghost use Rattle.overlay_rules.specs.Outcome.{to_both};
ghost use Rattle.overlay_rules.specs.Joining.{on_join_reply as on_join_reply_of, on_probe_reply as on_probe_reply_of};
ghost use Rattle.overlay_rules.specs.Gatekeeper.{on_probe as on_probe_of};
ghost use Rattle.node_parts.specs.Seen.{seen, Shows};
ghost use Rattle.node_parts.specs.Change.{changed};
ghost use Rattle.node_parts.specs.Plans.{Plans, Prepares};
ghost use Rattle.node_core.specs.Asked.{gone_on as gone_on_of, probes_sent, leases_asked};

use crate::sends::sent_to_each;
use join_core::{Joiner, ProbeStep};
use lookup_core::News;
use node_parts::{Change, Learn, Node, Prepared, first_left, first_right, leaves_of, sent_to_both};
use ring_math::{Id, Ids, OutOfMemory};
use std::alloc::Global;
use wire_msg::{Message, Notes, Sends};

/// A Probe: a ready node tells of itself and its leaves.
#[inline(never)]
pub(crate) fn on_probe(
    node: &Node,
    alloc: Global,
    from: Id,
    attempt: u32,
) -> Result<Prepared, OutOfMemory>
    ensures { (known : List ℕ) → Shows node.now known → IfOk result (λ p. Plans (seen node.now known) p (on_probe_of (seen node.now known) from attempt)) }
{
    if !node.seat.is_ready() {
        return Ok(Prepared::quiet(alloc, Change::nothing()));
    }
    let members = node.members(alloc)?;
    Prepared::sending(
        alloc,
        Change::nothing(),
        from,
        Message::ProbeReply { attempt, members },
    )
}

/// A JoinReply. One that comes again changes nothing, so that is seen before anything is learnt from it.
#[inline(never)]
pub(crate) fn on_join_reply(
    node: &Node,
    alloc: Global,
    attempt: u32,
    members: &Ids,
) -> Result<Prepared, OutOfMemory>
    ensures { (known : List ℕ) → Shows node.now known →
        IfOk result (λ p. Plans (seen node.now known) p (on_join_reply_of (seen node.now known) attempt members.now)) }
{
    if !node.seat.joiner().is_asking(attempt) {
        return Ok(Prepared::quiet(alloc, Change::nothing()));
    }
    welcomed(node, alloc, attempt, members)
}

/// Each leaf is probed, once the members were learnt.
#[inline(never)]
fn welcomed(
    node: &Node,
    alloc: Global,
    attempt: u32,
    members: &Ids,
) -> Result<Prepared, OutOfMemory>
    ensures { (known : List ℕ) → Shows node.now known →
        IfOk result (λ p. Plans (seen node.now known) p (on_join_reply_of (seen node.now known) attempt members.now)) }
{
    let leafs = node.leafs_after(members.as_slice());
    let leaves = leaves_of(alloc, &leafs)?;
    let mut joiner = node.seat.joiner().copy(alloc)?;
    let answer = joiner.on_reply(alloc, attempt, &leaves)?;
    match answer {
        Some(probes) => probing(alloc, joiner, members, probes.as_slice()),
        None => Ok(Prepared::quiet(alloc, Change::nothing())),
    }
}

/// The joiner goes on to this, these members are learnt, and these are probed.
fn probing(
    alloc: Global,
    joiner: Joiner,
    members: &Ids,
    probes: &[Id],
) -> Result<Prepared, OutOfMemory>
    ensures { (s : State) → IfOk result (λ p. Plans s p (probes_sent s joiner members.now probes.now)) }
{
    let probe = Message::Probe {
        attempt: joiner.attempt(),
    };
    let messages = sent_to_each(alloc, probes, probe)?;
    let change = gone_on(alloc, joiner, members)?;
    Ok(Prepared {
        messages,
        notes: Notes::new(alloc),
        change,
    })
}

/// The joiner goes on to this, and these members are learnt.
fn gone_on(alloc: Global, joiner: Joiner, members: &Ids) -> Result<Change, OutOfMemory>
    ensures { (s : State) → IfOk result (λ change. changed change s ≡ gone_on_of s joiner members.now) }
{
    let learnt = members.copy(alloc)?;
    Change::joins(alloc, joiner, Learn::All(learnt))
}

/// A ProbeReply. Most come to a node that waits for none, so that is seen before anything is learnt from it. Of those that are awaited
/// most tell of nobody whom the node has a place for, and are not the last.
#[inline(never)]
pub(crate) fn on_probe_reply(
    node: &Node,
    alloc: Global,
    from: Id,
    attempt: u32,
    members: &Ids,
) -> Result<Prepared, OutOfMemory>
    ensures { (known : List ℕ) → Shows node.now known →
        IfOk result (λ p. Prepares (seen node.now known) p (on_probe_reply_of (seen node.now known) from attempt members.now)) }
{
    if !node.seat.joiner().awaits(from, attempt) {
        return Ok(Prepared::quiet(alloc, Change::nothing()));
    }
    match node.known.news(members.as_slice()) {
        News::Nothing if goes_on(node, from) => {
            Ok(Prepared::quiet(alloc, Change::answered(from)))
        }
        News::Entry if goes_on(node, from) => {
            let learnt = members.copy(alloc)?;
            Ok(Prepared::quiet(alloc, Change::hears(from, learnt)))
        }
        _ => heard(node, alloc, from, attempt, members),
    }
}

/// Whether the join only goes on once this node has answered and has told of no new leaf: each leaf was probed, and another has not
/// answered.
fn goes_on(node: &Node, from: Id) -> bool
    ensures { result ≡ true → (known : List ℕ) → Shows node.now known →
        goes_on_with (joiner_of node.now.seat) from (leaves node.now.me known) ≡ true }
{
    let leafs = node.known.leafs();
    node.seat
        .joiner()
        .goes_on_with(from, leafs.on_right(), leafs.on_left())
}

/// The members are learnt, and new leaves are probed; once each has answered, both neighbours are asked for their leases.
#[inline(never)]
fn heard(
    node: &Node,
    alloc: Global,
    from: Id,
    attempt: u32,
    members: &Ids,
) -> Result<Prepared, OutOfMemory>
    ensures { (known : List ℕ) → Shows node.now known →
        IfOk result (λ p. Plans (seen node.now known) p (on_probe_reply_of (seen node.now known) from attempt members.now)) }
{
    let leafs = node.leafs_after(members.as_slice());
    let leaves = leaves_of(alloc, &leafs)?;
    let left = first_left(&leafs);
    let right = first_right(&leafs);
    let mut joiner = node.seat.joiner().copy(alloc)?;
    let answer = joiner.on_probe_reply(alloc, from, attempt, &leaves, left, right)?;
    match answer {
        ProbeStep::Probe { more } => probing(alloc, joiner, members, more.as_slice()),
        ProbeStep::Lease {
            attempt,
            left,
            right,
        } => leasing(alloc, joiner, members, attempt, left, right),
        ProbeStep::Dropped => Ok(Prepared::quiet(alloc, Change::nothing())),
    }
}

/// The joiner goes on to this, these members are learnt, and these two are asked for their leases.
fn leasing(
    alloc: Global,
    joiner: Joiner,
    members: &Ids,
    attempt: u32,
    left: Id,
    right: Id,
) -> Result<Prepared, OutOfMemory>
    ensures { (s : State) → IfOk result (λ p. Plans s p (leases_asked s joiner members.now attempt left right)) }
{
    let messages = lease_requests(alloc, attempt, left, right)?;
    let change = gone_on(alloc, joiner, members)?;
    Ok(Prepared {
        messages,
        notes: Notes::new(alloc),
        change,
    })
}

/// These two are asked for their leases.
fn lease_requests(alloc: Global, attempt: u32, left: Id, right: Id) -> Result<Sends, OutOfMemory>
    ensures { IfOk result (λ messages. messages ≡ to_both left right (LeaseRequest attempt left right)) }
{
    let request = Message::LeaseRequest {
        attempt,
        left,
        right,
    };
    let messages = sent_to_both(alloc, left, right, &request);
    drop(request);
    messages
}
