//! Inserts.

ghost use Rattle.std.specs.Prelude.{◌≡◌, [], true, IfOk, IfErr, List};
ghost use Rattle.ring_math.specs.declared.file.Held.{Held};
ghost use Rattle.ring_math.specs.Files.{slot_of};
ghost use Rattle.wire_msg.specs.Words.{Replicate};
ghost use Rattle.file_store.specs.Answers.{put_of};
ghost use Rattle.overlay_rules.specs.State.{State};
ghost use Rattle.overlay_rules.specs.Outcome.{becomes, before, to_each};
ghost use Rattle.overlay_rules.specs.Roots.{on_insert as on_insert_of, inserted, with_ask};
ghost use Rattle.past_core.specs.Inserts.{said, accepted_note, files_where, pending_of, with_added};
ghost use Rattle.node_parts.specs.Change.{waited, files_after, pending_after};
ghost use Rattle.node_parts.specs.Plans.{Plans};
ghost use Rattle.node_core.specs.Rows.{IsRow};
ghost use Rattle.node_core.specs.Replies.{IsReply};

use crate::request::{Request, Served, routed};
use crate::sends::sent_to_each;
use file_store::Put;
use node_parts::{Change, Node, PastChange, Prepared, StoreChange, one_more};
use overlay_rules::{Asked, Pending};
use past_core::{InsertWhat, what_insert};
use ring_math::{Bytes, FileId, Id, Ids, OutOfMemory, key_of};
use std::alloc::Global;
use wire_msg::{Copies, Message, Note, Notes, Reply, Sends};

/// What an insert makes of the files, and what is noted of that.
#[derive(Drop)]
struct Kept {
    store: StoreChange,
    notes: Notes,
}

/// What an accepted file makes of the files.
fn store_where(
    alloc: Global,
    accepted: bool,
    file: &FileId,
    bytes: &Bytes,
) -> Result<StoreChange, OutOfMemory>
    ensures { (files : List Held) → (accepted ≡ true → put_of files file.now bytes.now ≡ Put.New) →
        IfOk result (λ store. files_after store files ≡ files_where accepted files file.now bytes.now) }
{
    if !accepted {
        return Ok(StoreChange::Keep);
    }
    let bytes = bytes.copy(alloc)?;
    Ok(StoreChange::Set {
        file: *file,
        slot: Some(bytes),
    })
}

/// What is noted of an accepted file.
fn notes_where(
    alloc: Global,
    accepted: bool,
    file: &FileId,
    bytes: &Bytes,
) -> Result<Notes, OutOfMemory>
    ensures { IfOk result (λ notes. notes ≡ accepted_note accepted file.now bytes.now) }
{
    let mut notes = Notes::new(alloc);
    if accepted {
        let bytes = bytes.copy(alloc)?;
        notes.push(Note::Accepted { file: *file, bytes })?;
    }
    Ok(notes)
}

/// Replicas are asked for, and the insert waits for them.
fn replicating(
    alloc: Global,
    kept: Kept,
    request: &Request,
    file: &FileId,
    bytes: &Bytes,
    targets: Ids,
) -> Result<Prepared, OutOfMemory>
    ensures { (s : State) → IfOk result (λ p. Plans s p (before [] kept.notes (becomes
        (record (waited request.now.wait s) {
          files = files_after kept.store s.files;
          pending = with_ask s.pending
              (record { origin = request.now.origin; number = request.now.number; file = file.now; targets = targets; awaited = targets });
        })
        (to_each targets (Replicate request.now.origin request.now.number file.now bytes.now)) []))) }
{
    let Kept { store, notes } = kept;
    let messages = replicas_asked(alloc, request, file, bytes, targets.as_slice())?;
    let past = awaiting(alloc, request, file, targets)?;
    let change = Change::files(alloc, store, past, request.wait)?;
    Ok(Prepared {
        messages,
        notes,
        change,
    })
}

/// Each of these is asked to hold the file.
fn replicas_asked(
    alloc: Global,
    request: &Request,
    file: &FileId,
    bytes: &Bytes,
    targets: &[Id],
) -> Result<Sends, OutOfMemory>
    ensures { IfOk result (λ messages. messages ≡ to_each targets.now (Replicate request.now.origin request.now.number file.now bytes.now)) }
{
    let message = Message::Replicate {
        origin: request.origin,
        number: request.number,
        file: *file,
        bytes: bytes.copy(alloc)?,
    };
    sent_to_each(alloc, targets, message)
}

/// The insert waits for these.
fn awaiting(
    alloc: Global,
    request: &Request,
    file: &FileId,
    targets: Ids,
) -> Result<PastChange, OutOfMemory>
    ensures { (asks : List Pending) → IfOk result (λ past. pending_after past asks ≡ with_ask asks
        (record { origin = request.now.origin; number = request.now.number; file = file.now; targets = targets; awaited = targets })) }
{
    let awaited = targets.copy(alloc)?;
    let pending = Pending {
        origin: request.origin,
        number: request.number,
        file: *file,
        targets,
        awaited,
    };
    Ok(PastChange::Add(Box::new(alloc, pending)?))
}

/// The reply, where it is known at once.
fn reply_of(me: Id, what: InsertWhat) -> Result<Reply, Ids>
    ensures reply { IfOk result (λ reply. IsReply me what reply) }
    ensures targets { IfErr result (λ targets. what ≡ InsertWhat.Replicate targets) }
{
    Ok(match what {
        InsertWhat::Gone => Reply::Gone { node: me },
        InsertWhat::Collision => Reply::Collision { node: me },
        InsertWhat::TooFew { known } => Reply::TooFew { node: me, known },
        InsertWhat::Full => Reply::Full { node: me },
        InsertWhat::Stored { holders } => Reply::Stored { holders },
        InsertWhat::Replicate { targets } => return Err(targets),
    })
}

/// The node is the root of the file: the insert is replied, or replicas are asked for.
fn insert_here(
    node: &Node,
    alloc: Global,
    request: &Request,
    file: &FileId,
    copies: Copies,
    bytes: &Bytes,
) -> Result<Prepared, OutOfMemory>
    ensures { IsRow node.now request.now.wait
        (λ s. inserted s request.now.origin request.now.number file.now copies bytes.now (slot_of s.files file.now)) result }
{
    let step = what_insert(alloc, &node.store, node.known.leafs(), file, copies, bytes)?;
    let store = store_where(alloc, step.accepted, file, bytes)?;
    let notes = notes_where(alloc, step.accepted, file, bytes)?;
    answered(
        node.me,
        alloc,
        Kept { store, notes },
        request,
        file,
        bytes,
        step.what,
    )
}

/// What was found is said, after what is noted.
fn answered(
    me: Id,
    alloc: Global,
    kept: Kept,
    request: &Request,
    file: &FileId,
    bytes: &Bytes,
    what: InsertWhat,
) -> Result<Prepared, OutOfMemory>
    ensures { (s : State) → s.me ≡ me → IfOk result (λ p. Plans s p (before [] kept.notes (said
        (record (waited request.now.wait s) {
          files = files_after kept.store s.files;
          pending = with_added s.pending (pending_of request.now.origin request.now.number file.now what);
        })
        request.now.origin request.now.number file.now bytes.now what))) }
{
    match reply_of(me, what) {
        Ok(reply) => {
            let Kept { store, notes } = kept;
            let first = Prepared {
                messages: Sends::new(alloc),
                notes,
                change: Change::files(alloc, store, PastChange::Keep, request.wait)?,
            };
            first.and_replied(alloc, Asked::Insert, request.origin, request.number, reply)
        }
        Err(targets) => replicating(alloc, kept, request, file, bytes, targets),
    }
}

/// The row of an insert.
#[inline(never)]
pub(crate) fn on_insert(
    node: &Node,
    alloc: Global,
    request: &Request,
    hops: u16,
    file: &FileId,
    copies: Copies,
    bytes: &Bytes,
) -> Result<Prepared, OutOfMemory>
    ensures { IsRow node.now request.now.wait (λ s. on_insert_of s request.now.origin request.now.number hops file.now copies bytes.now) result }
{
    match routed(node, key_of(file)) {
        Served::Here => insert_here(node, alloc, request, file, copies, bytes),
        Served::On { node: next } => {
            let message = Message::Insert {
                origin: request.origin,
                number: request.number,
                hops: one_more(hops),
                file: *file,
                copies,
                bytes: bytes.copy(alloc)?,
            };
            request.passed_on(alloc, next, message)
        }
        Served::Refused { reply } => request.replied(alloc, Asked::Insert, reply),
    }
}
