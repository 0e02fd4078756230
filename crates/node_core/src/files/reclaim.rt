//! Reclaims.

ghost use Rattle.std.specs.Prelude.{◌≡◌, true, IfOk};
ghost use Rattle.ring_math.specs.Files.{slot_of, has_entry};
ghost use Rattle.overlay_rules.specs.State.{State};
ghost use Rattle.overlay_rules.specs.Roots.{on_reclaim as on_reclaim_of, reclaimed};
ghost use Rattle.past_core.specs.Reclaims.{reclaim_reply, reclaim_note, after_reclaim};
ghost use Rattle.node_parts.specs.Change.{changed, waited};
ghost use Rattle.node_core.specs.Rows.{IsRow};

use crate::files::ended::reply_each;
use crate::request::{Request, Served, routed};
use node_parts::{Change, Node, PastChange, Prepared, StoreChange, Wait, one_more};
use overlay_rules::Asked;
use past_core::ReclaimWhat;
use ring_math::{FileId, Id, OutOfMemory, key_of};
use std::alloc::Global;
use wire_msg::{Message, Note, Notes, Reply, Sends};

/// What is replied to a reclaim.
fn reply_of(me: Id, what: ReclaimWhat) -> Reply
    ensures { result ≡ reclaim_reply me what }
{
    match what {
        ReclaimWhat::NotFound => Reply::NotFound { node: me },
        ReclaimWhat::Already | ReclaimWhat::Reclaimed => Reply::Reclaimed { node: me },
    }
}

/// What is noted of a reclaim.
fn notes_of(alloc: Global, what: ReclaimWhat, file: &FileId) -> Result<Notes, OutOfMemory>
    ensures { IfOk result (λ notes. notes ≡ reclaim_note file.now what) }
{
    let mut notes = Notes::new(alloc);
    if let ReclaimWhat::Reclaimed = what {
        notes.push(Note::Reclaimed { file: *file })?;
    }
    Ok(notes)
}

/// What the reclaim changes. Bytes are turned into a tombstone only where the file has an entry.
fn change_of(
    alloc: Global,
    what: ReclaimWhat,
    file: &FileId,
    wait: Wait,
) -> Result<Change, OutOfMemory>
    ensures { (s : State) → (what ≡ ReclaimWhat.Reclaimed → has_entry s.files file.now ≡ true) →
        IfOk result (λ change. changed change s ≡ after_reclaim (waited wait s) file.now what) }
{
    match what {
        ReclaimWhat::NotFound | ReclaimWhat::Already => Ok(Change::waits(wait)),
        ReclaimWhat::Reclaimed => {
            let store = StoreChange::Set {
                file: *file,
                slot: None,
            };
            Change::files(alloc, store, PastChange::End { file: *file }, wait)
        }
    }
}

/// The node is the root of the file: what waits for it is replied first, and then the reclaim.
fn reclaim_here(
    node: &Node,
    alloc: Global,
    request: &Request,
    file: &FileId,
) -> Result<Prepared, OutOfMemory>
    ensures { IsRow node.now request.now.wait (λ s. reclaimed s request.now.origin request.now.number file.now (slot_of s.files file.now)) result }
{
    let step = node.past.what_reclaim(alloc, &node.store, file)?;
    let mut messages = Sends::new(alloc);
    let mut notes = notes_of(alloc, step.what, file)?;
    reply_each(
        alloc,
        &step.ended,
        &Reply::Gone { node: node.me },
        &mut messages,
        &mut notes,
    )?;
    let change = change_of(alloc, step.what, file, request.wait)?;
    let first = Prepared {
        messages,
        notes,
        change,
    };
    first.and_replied(
        alloc,
        Asked::Reclaim,
        request.origin,
        request.number,
        reply_of(node.me, step.what),
    )
}

/// The row of a reclaim.
#[inline(never)]
pub(crate) fn on_reclaim(
    node: &Node,
    alloc: Global,
    request: &Request,
    hops: u16,
    file: &FileId,
) -> Result<Prepared, OutOfMemory>
    ensures { IsRow node.now request.now.wait (λ s. on_reclaim_of s request.now.origin request.now.number hops file.now) result }
{
    match routed(node, key_of(file)) {
        Served::Here => reclaim_here(node, alloc, request, file),
        Served::On { node: next } => {
            let message = Message::Reclaim {
                origin: request.origin,
                number: request.number,
                hops: one_more(hops),
                file: *file,
            };
            request.passed_on(alloc, next, message)
        }
        Served::Refused { reply } => request.replied(alloc, Asked::Reclaim, reply),
    }
}
