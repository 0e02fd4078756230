//! A join begins: the command, the request on its way, and its answer at the node that covers the joiner.

ghost use Rattle.std.specs.Prelude.{IfOk, List, ℕ, [], ◌∷◌};
ghost use Rattle.overlay_rules.specs.Joining.{on_join as on_join_of, stopped as stopped_of};
ghost use Rattle.overlay_rules.specs.Routed.{on_join_request as on_join_request_of, join_request_by, members};
ghost use Rattle.overlay_rules.specs.Outcome.{becomes, sent};
ghost use Rattle.overlay_rules.specs.declared.request.Way.TheVariants as way;
ghost use Rattle.wire_msg.specs.Words.{JoinReply, JoinRefuse};
ghost use Rattle.overlay_rules.specs.State.{State};
ghost use Rattle.node_parts.specs.Seen.{seen, Shows};
ghost use Rattle.node_parts.specs.Plans.{Plans};

use join_core::Begin;
use node_parts::{Change, Learn, Node, Prepared, one_more};
use overlay_rules::Way;
use ring_math::{Id, OutOfMemory};
use std::alloc::Global;
use wire_msg::{Answer, Message, Own, Sends, Why};

/// A Join command.
#[inline(never)]
pub(crate) fn on_join(
    node: &Node,
    alloc: Global,
    number: u64,
    via: Id,
) -> Result<Prepared, OutOfMemory>
    ensures { (known : List ℕ) → IfOk result (λ p. Plans (seen node.now known) p (on_join_of (seen node.now known) number via)) }
{
    let mut joiner = node.seat.joiner().copy(alloc)?;
    match joiner.begin(number) {
        Begin::Started { attempt } => {
            let change = Change::joins(alloc, joiner, Learn::Nothing)?;
            let request = Message::JoinRequest {
                joiner: node.me,
                attempt,
                hops: 0,
            };
            Prepared::sending(alloc, change, via, request)
        }
        Begin::Already => stopped(node, alloc, number, Own::Already),
        Begin::Spent => stopped(node, alloc, number, Own::Spent),
    }
}

/// The command is stopped by the node itself.
fn stopped(node: &Node, alloc: Global, number: u64, own: Own) -> Result<Prepared, OutOfMemory>
    ensures { (known : List ℕ) → IfOk result (λ p. Plans (seen node.now known) p (stopped_of (seen node.now known) number own)) }
{
    let answer = Answer::Stopped { node: node.me, own };
    Prepared::closing(alloc, Change::nothing(), Sends::new(alloc), number, answer)
}

/// A JoinRequest, which is routed by the joiner's identifier. In the joiner's own gap it is answered too.
#[inline(never)]
pub(crate) fn on_join_request(
    node: &Node,
    alloc: Global,
    joiner: Id,
    attempt: u32,
    hops: u16,
) -> Result<Prepared, OutOfMemory>
    ensures { (known : List ℕ) → Shows node.now known →
        IfOk result (λ p. Plans (seen node.now known) p (on_join_request_of (seen node.now known) joiner attempt hops)) }
{
    match node.way(joiner) {
        Way::NotReady => refused(alloc, joiner, attempt, Why::NotReady),
        Way::Here => welcomed(node, alloc, joiner, attempt),
        Way::Gap { joiner: other } => kept_back(node, alloc, joiner, attempt, other),
        Way::To { node: next } => {
            let request = Message::JoinRequest {
                joiner,
                attempt,
                hops: one_more(hops),
            };
            Prepared::sending(alloc, Change::nothing(), next, request)
        }
    }
}

/// The joiner's identifier is in the gap of this one: its own gap is as good as covered.
fn kept_back(
    node: &Node,
    alloc: Global,
    joiner: Id,
    attempt: u32,
    other: Id,
) -> Result<Prepared, OutOfMemory>
    ensures { (known : List ℕ) → Shows node.now known → IfOk result (λ p. Plans (seen node.now known) p
        (join_request_by (seen node.now known) joiner attempt 0 (way.Gap other))) }
{
    if other == joiner {
        welcomed(node, alloc, joiner, attempt)
    } else {
        refused(alloc, joiner, attempt, Why::Busy { joiner: other })
    }
}

/// The joiner is told of the node and its leaves.
fn welcomed(node: &Node, alloc: Global, joiner: Id, attempt: u32) -> Result<Prepared, OutOfMemory>
    ensures { (known : List ℕ) → Shows node.now known → IfOk result (λ p. Plans (seen node.now known) p
        (becomes (seen node.now known) (sent joiner (JoinReply attempt (members (seen node.now known))) ∷ []) [])) }
{
    let members = node.members(alloc)?;
    Prepared::sending(
        alloc,
        Change::nothing(),
        joiner,
        Message::JoinReply { attempt, members },
    )
}

fn refused(alloc: Global, joiner: Id, attempt: u32, why: Why) -> Result<Prepared, OutOfMemory>
    ensures { (s : State) → IfOk result (λ p. Plans s p (becomes s (sent joiner (JoinRefuse attempt why) ∷ []) [])) }
{
    Prepared::sending(
        alloc,
        Change::nothing(),
        joiner,
        Message::JoinRefuse { attempt, why },
    )
}
