//! Grants, and the ready test: a join is done once the lists of both neighbours came, and all that they name.

ghost use Rattle.std.specs.Prelude.{◌≡◌, ◌++◌, IfOk, List, ℕ, true, ◌&&◌, ◌||◌, ◌==◌, if◌then◌else◌, Some, None, is_none, option_copied};
ghost use Rattle.ring_math.specs.declared.file.Held.{Held};
ghost use Rattle.ring_math.specs.Files.{with_slot, has_room, buried_all};
ghost use Rattle.ring_math.specs.Sides.{leaves};
ghost use Rattle.wire_msg.specs.Words.{Announce, Confirm};
ghost use Rattle.overlay_rules.specs.State.{State, Leasing};
ghost use Rattle.overlay_rules.specs.Joining.{on_grant as on_grant_of, kept_first};
ghost use Rattle.overlay_rules.specs.Outcome.{nothing, to_both, to_each};
ghost use Rattle.overlay_rules.specs.ReadyTest.{readied as readied_of, ready_test as ready_test_of};
ghost use Rattle.overlay_rules.specs.Replicas.{holding};
ghost use Rattle.overlay_rules.specs.Step.{on_announce as on_announce_of};
ghost use Rattle.join_core.specs.Outcomes.{noted_in};
ghost use Rattle.replica_handover.specs.Taken.{is_done, is_complete};
ghost use Rattle.node_parts.specs.Seats.{left_lists, right_lists, taken_of};
ghost use Rattle.node_parts.specs.Seen.{seen, Shows};
ghost use Rattle.node_parts.specs.Plans.{Plans};
ghost use Rattle.node_core.specs.Pledged.{files_set, noted_at};

use file_store::{Buried, FileStore};
use join_core::{Finished, GrantStep, Joiner};
use node_parts::{Change, Node, Prepared, SeatChange, StoreChange, send_to_each, sent_to_both};
use replica_handover::{Pledge, Taking};
use ring_math::{Bytes, FileId, FileIds, Id, OutOfMemory};
use std::alloc::Global;
use wire_msg::{Answer, Message, Sends};

/// An Announce: the sender is learnt.
pub(crate) fn on_announce(alloc: Global, from: Id) -> Prepared
    ensures { (s : State) → Plans s result (on_announce_of s from) }
{
    Prepared::quiet(alloc, Change::learns(from))
}

/// The join is done: both leases are confirmed, and the leaves are told. These files change with it.
fn readied(
    node: &Node,
    alloc: Global,
    store: StoreChange,
    attempt: u32,
    number: u64,
    left: Id,
    right: Id,
) -> Result<Prepared, OutOfMemory>
    ensures { (known : List ℕ) → Shows node.now known → IfOk result (λ p. Plans (seen node.now known) p
        (readied_of (files_set store (seen node.now known)) attempt number left right)) }
{
    let messages = said_of_join(node, alloc, attempt, left, right)?;
    let seat = SeatChange::Ready {
        attempt,
        left,
        right,
    };
    let change = Change::seats_and_files(alloc, seat, store)?;
    let answer = Answer::Joined { left, right };
    Prepared::closing(alloc, change, messages, number, answer)
}

/// Both leases are confirmed, and the leaves are told.
fn said_of_join(
    node: &Node,
    alloc: Global,
    attempt: u32,
    left: Id,
    right: Id,
) -> Result<Sends, OutOfMemory>
    ensures { (known : List ℕ) → Shows node.now known → IfOk result (λ messages. messages ≡
        to_both left right (Confirm attempt) ++ to_each (leaves node.now.me known) Announce) }
{
    let leaves = node.leaves(alloc)?;
    let mut messages = confirmed(alloc, attempt, left, right)?;
    send_to_each(alloc, &mut messages, leaves.as_slice(), &Message::Announce)?;
    Ok(messages)
}

/// Both leases are confirmed.
fn confirmed(alloc: Global, attempt: u32, left: Id, right: Id) -> Result<Sends, OutOfMemory>
    ensures { IfOk result (λ messages. messages ≡ to_both left right (Confirm attempt)) }
{
    let confirm = Message::Confirm { attempt };
    let messages = sent_to_both(alloc, left, right, &confirm);
    drop(confirm);
    messages
}

/// Whether a side has handed over, and the store will have all of it once this file is put.
fn is_done_with(store: &FileStore, file: &FileId, side: Option<&Pledge>) -> bool
    ensures { (bytes : List ℕ) → result ≡ is_done (with_slot store.now.files file.now (Some bytes)) (option_copied side.entry) }
{
    match side {
        Some(lists) => store.has_lists_with(
            file,
            lists.manifest().as_slice(),
            lists.tombs().as_slice(),
        ),
        None => false,
    }
}

/// Whether both sides have handed over, and the store will have all of it once this file is put.
fn is_complete_with(node: &Node, file: &FileId) -> bool
    ensures { (bytes : List ℕ) → result ≡ is_complete (with_slot node.now.store.files file.now (Some bytes)) (taken_of node.now.seat) }
{
    is_done_with(&node.store, file, node.seat.taking().left())
        && is_done_with(&node.store, file, node.seat.taking().right())
}

/// The ready test once this file is put, which goes in.
pub(crate) fn ready_with_file(
    node: &Node,
    alloc: Global,
    file: &FileId,
    bytes: &Bytes,
) -> Result<Prepared, OutOfMemory>
    requires { has_room node.now.store.files ≡ true }
    ensures { (known : List ℕ) → Shows node.now known → IfOk result (λ p. Plans (seen node.now known) p
        (ready_test_of (holding (seen node.now known) file.now bytes.now))) }
{
    let store = StoreChange::Set {
        file: *file,
        slot: Some(bytes.copy(alloc)?),
    };
    if !is_complete_with(node, file) {
        return keeping_file(alloc, store);
    }
    match node.seat.joiner() {
        Joiner::Leasing {
            attempt,
            number,
            left,
            right,
            ..
        } => readied(node, alloc, store, attempt.get(), *number, *left, *right),
        _ => keeping_file(alloc, store),
    }
}

/// The files change, and the join goes on as it is.
fn keeping_file(alloc: Global, store: StoreChange) -> Result<Prepared, OutOfMemory>
    ensures { (s : State) → IfOk result (λ p. Plans s p (nothing (files_set store s))) }
{
    let change = Change::seats_and_files(alloc, SeatChange::Keep, store)?;
    Ok(Prepared::quiet(alloc, change))
}

/// A Grant.
#[inline(never)]
pub(crate) fn on_grant(
    node: &Node,
    alloc: Global,
    from: Id,
    attempt: u32,
    manifest: &FileIds,
    tombs: &FileIds,
) -> Result<Prepared, OutOfMemory>
    ensures { (known : List ℕ) → Shows node.now known → IfOk result (λ p. Plans (seen node.now known) p
        (on_grant_of (seen node.now known) from attempt (record { manifest = manifest.now; tombs = tombs.now }))) }
{
    let mut joiner = node.seat.joiner().copy(alloc)?;
    match joiner.on_grant(from, attempt) {
        GrantStep::Older => Prepared::sending(
            alloc,
            Change::nothing(),
            from,
            Message::Release { attempt },
        ),
        GrantStep::Settled => Prepared::sending(
            alloc,
            Change::nothing(),
            from,
            Message::Confirm { attempt },
        ),
        GrantStep::Noted => {
            let manifest = manifest.copy(alloc)?;
            let tombs = tombs.copy(alloc)?;
            noted(node, alloc, from, &Pledge::new(manifest, tombs))
        }
        GrantStep::Dropped => Ok(Prepared::quiet(alloc, Change::nothing())),
    }
}

/// A lease that is asked for is granted with these lists.
fn noted(node: &Node, alloc: Global, from: Id, lists: &Pledge) -> Result<Prepared, OutOfMemory>
    ensures { (known : List ℕ) → Shows node.now known → IfOk result (λ p. Plans (seen node.now known) p
        (noted_in (seen node.now known) from lists.now node.now.seat)) }
{
    match node.seat.joiner() {
        Joiner::Leasing {
            attempt,
            number,
            left,
            right,
            ..
        } => {
            let join = Finished {
                attempt: attempt.get(),
                number: *number,
                left: *left,
                right: *right,
            };
            keeping(node, alloc, from, &join, lists)
        }
        _ => Ok(Prepared::quiet(alloc, Change::nothing())),
    }
}

/// Whether the sender is a side of which nothing was kept yet.
fn is_new(node: &Node, from: Id, join: &Finished) -> bool
    ensures { result ≡ ((from == join.now.left && is_none (left_lists node.now.seat)) || (from == join.now.right && is_none (right_lists node.now.seat))) }
{
    from == join.left && node.seat.taking().left().is_none()
        || from == join.right && node.seat.taking().right().is_none()
}

/// Whether a side has handed over, these lists first where it is the sender's, and the store will have all of it.
fn is_done_buried(buried: &Buried, side: Option<&Pledge>, is_side: bool, lists: &Pledge) -> bool
    ensures { result ≡ is_done buried.now (kept_first is_side (option_copied side.entry) lists.now) }
{
    match side {
        Some(kept) => buried.has_lists(kept.manifest().as_slice(), kept.tombs().as_slice()),
        None if is_side => {
            buried.has_lists(lists.manifest().as_slice(), lists.tombs().as_slice())
        }
        None => false,
    }
}

/// Whether both sides have handed over with these lists, and the store will have all of it once the tombs are buried.
fn is_complete_buried(node: &Node, from: Id, join: &Finished, lists: &Pledge) -> bool
    ensures { let files : List Held = buried_all node.now.store.files lists.now.tombs in result ≡
        (is_done files (kept_first (from == join.now.left) (left_lists node.now.seat) lists.now)
        && is_done files (kept_first (from == join.now.right) (right_lists node.now.seat) lists.now)) }
{
    let buried = Buried::new(&node.store, lists.tombs().as_slice());
    let taking = node.seat.taking();
    is_done_buried(&buried, taking.left(), from == join.left, lists)
        && is_done_buried(&buried, taking.right(), from == join.right, lists)
}

/// The lists are kept on each side that the sender is and that has none, and the tombs are buried; then the ready test.
fn keeping(
    node: &Node,
    alloc: Global,
    from: Id,
    join: &Finished,
    lists: &Pledge,
) -> Result<Prepared, OutOfMemory>
    requires { node.now.seat ≡ Leasing join.now.attempt join.now.number join.now.left join.now.right (left_lists node.now.seat) (right_lists node.now.seat) }
    ensures { (known : List ℕ) → Shows node.now known → IfOk result (λ p. Plans (seen node.now known) p
        (noted_at (seen node.now known) from lists.now join.now (left_lists node.now.seat) (right_lists node.now.seat))) }
{
    if !is_new(node, from, join) {
        return Ok(Prepared::quiet(alloc, Change::nothing()));
    }
    let store = StoreChange::Bury(lists.tombs().copy(alloc)?);
    if is_complete_buried(node, from, join, lists) {
        return readied(
            node,
            alloc,
            store,
            join.attempt,
            join.number,
            join.left,
            join.right,
        );
    }
    let left = given(alloc, from == join.left, lists)?;
    let right = given(alloc, from == join.right, lists)?;
    let change = Change::granted(alloc, Taking::of(left, right), store)?;
    Ok(Prepared::quiet(alloc, change))
}

/// A copy of the lists, where it is wanted.
fn given(alloc: Global, wanted: bool, lists: &Pledge) -> Result<Option<Pledge>, OutOfMemory>
    ensures { IfOk result (λ given. given ≡ (if wanted then Some lists.now else None)) }
{
    if wanted {
        Ok(Some(lists.copy(alloc)?))
    } else {
        Ok(None)
    }
}
