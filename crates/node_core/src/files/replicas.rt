//! Replicas and their acknowledgements.

ghost use Rattle.std.specs.Prelude.{◌≡◌, ◌<◌, ◌≤◌, ◌∷◌, ℕ, List, IfOk, MatchOption, length, slice_get};
ghost use Rattle.overlay_rules.specs.Replicas.{acknowledged as acknowledged_of, on_replicate as on_replicate_of, on_replica_ack as on_replica_ack_of};
ghost use Rattle.overlay_rules.specs.State.{State};
ghost use Rattle.node_parts.specs.Change.{changed};
ghost use Rattle.node_parts.specs.Plans.{Plans};
ghost use Rattle.node_parts.specs.Seen.{seen, Shows};
ghost use Rattle.past_core.specs.Acks.{stored_at};
ghost use Rattle.node_parts.specs.declared.change.Wait.TheVariants as waiting;
ghost use Rattle.node_core.specs.Rows.{IsRow};

use file_store::Put;
use node_parts::{Change, Node, PastChange, Prepared, StoreChange, Wait};
use overlay_rules::Asked;
use past_core::Ack;
use ring_math::{Bytes, FileId, Id, Ids, IdsBuilder, MOST_MEMBERS, OutOfMemory};
use std::alloc::Global;
use wire_msg::{Message, Reply};

/// The root that sent a replica is told that it is held.
fn acknowledged(
    alloc: Global,
    change: Change,
    root: Id,
    origin: Id,
    number: u64,
    file: &FileId,
) -> Result<Prepared, OutOfMemory>
    ensures { (s t : State) → changed change s ≡ t → IfOk result (λ p. Plans s p (acknowledged_of t root origin number file.now)) }
{
    let ack = Message::ReplicaAck {
        origin,
        number,
        file: *file,
    };
    Prepared::sending(alloc, change, root, ack)
}

/// The row of a replica from a root.
#[inline(never)]
pub(crate) fn on_replicate(
    node: &Node,
    alloc: Global,
    from: Id,
    origin: Id,
    number: u64,
    file: &FileId,
    bytes: &Bytes,
) -> Result<Prepared, OutOfMemory>
    ensures { IsRow node.now waiting.Keep (λ s. on_replicate_of s from origin number file.now bytes.now) result }
{
    match node.store.would_put(file, bytes) {
        Put::New => {
            let store = StoreChange::Set {
                file: *file,
                slot: Some(bytes.copy(alloc)?),
            };
            let change = Change::files(alloc, store, PastChange::Keep, Wait::Keep)?;
            acknowledged(alloc, change, from, origin, number, file)
        }
        Put::Same => acknowledged(alloc, Change::nothing(), from, origin, number, file),
        _ => Ok(Prepared::quiet(alloc, Change::nothing())),
    }
}

/// The node, and then those of its replicas; None exactly where these are so many that no answer has room for the node too.
fn holders_of(alloc: Global, me: Id, targets: &Ids) -> Result<Option<Ids>, OutOfMemory>
    ensures { IfOk result (λ holders. MatchOption holders (MOST_MEMBERS ≤ length targets.now) (λ all. all ≡ me ∷ targets.now)) }
{
    if targets.as_slice().len() >= MOST_MEMBERS {
        return Ok(None);
    }
    let mut holders = IdsBuilder::new();
    holders.push(me);
    for target in targets.as_slice() {
        holders.push(*target);
    }
    Ok(Some(holders.finish(alloc)?))
}

/// The insert at this place is over: each replica is held.
fn stored(
    node: &Node,
    alloc: Global,
    place: usize,
    origin: Id,
    number: u64,
) -> Result<Prepared, OutOfMemory>
    requires { place < length node.now.past.asks }
    ensures { (known : List ℕ) → Shows node.now known → IfOk result (λ p. Plans (seen node.now known) p
        (stored_at (seen node.now known) origin number place (slice_get node.now.past.asks place))) }
{
    let holders = holders_of(alloc, node.me, &node.past.as_slice()[place].targets)?;
    match holders {
        Some(all) => {
            let past = PastChange::TakeOut { place };
            let change = Change::files(alloc, StoreChange::Keep, past, Wait::Keep)?;
            Prepared::replied(
                alloc,
                change,
                Asked::Insert,
                origin,
                number,
                Reply::Stored { holders: all },
            )
        }
        // No insert has so many targets, so this does not come.
        None => Ok(Prepared::quiet(alloc, Change::nothing())),
    }
}

/// The row of an acknowledgement.
#[inline(never)]
pub(crate) fn on_replica_ack(
    node: &Node,
    alloc: Global,
    from: Id,
    origin: Id,
    number: u64,
    file: &FileId,
) -> Result<Prepared, OutOfMemory>
    ensures { IsRow node.now waiting.Keep (λ s. on_replica_ack_of s from origin number file.now) result }
{
    let ack = node.past.what_ack(alloc, from, origin, number, file)?;
    match ack {
        Ack::Unknown => Ok(Prepared::quiet(alloc, Change::nothing())),
        Ack::Heard { place, awaited } => {
            let past = PastChange::Hear { place, awaited };
            let change = Change::files(alloc, StoreChange::Keep, past, Wait::Keep)?;
            Ok(Prepared::quiet(alloc, change))
        }
        Ack::Last { place } => stored(node, alloc, place, origin, number),
    }
}
