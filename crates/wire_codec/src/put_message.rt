//! Writing the fields of a message at the end of the bytes.

ghost use Rattle.std.specs.Prelude.{◌∷◌, [], OnOk};
ghost use Rattle.wire_msg.specs.Words.{plain, Lookup, Insert, Fetch, JoinRequest, JoinReply, LeaseRequest, Grant, Deny, Handover, Replicate, ReplicaAck};
ghost use Rattle.wire_codec.specs.Fields.{Field};
ghost use Rattle.wire_codec.specs.Kinds.{fields_of, fields_of_why, fields_of_reply, fields_of_tombs};
ghost use Rattle.wire_codec.specs.Writing.{Writes};

use crate::put::{
    put_asked, put_attempt, put_bytes, put_copies, put_file, put_files, put_hops, put_id, put_ids,
    put_number, put_tag,
};
use ring_math::{Bytes, FileId, FileIds, Id, Ids, OutOfMemory};
use wire_msg::{Copies, Message, Reply, Why};

#[tactic(auto, using(crate::proofs::Written::writes_then))]
pub(crate) fn put_why(out: &mut Vec<u8>, why: &Why) -> Result<(), OutOfMemory>
    ensures { OnOk result (Writes out.old.items out.new.items (fields_of_why why.now)) }
{
    match why {
        Why::Busy { joiner } => {
            put_tag(out, 1)?;
            put_id(out, *joiner)?;
        }
        Why::Moved { left, right } => {
            put_tag(out, 2)?;
            put_id(out, *left)?;
            put_id(out, *right)?;
        }
        Why::NotReady => put_tag(out, 3)?,
    }
    Ok(())
}

/// A reply of this tag that names one node.
fn put_tagged(out: &mut Vec<u8>, tag: u8, node: Id) -> Result<(), OutOfMemory>
    ensures { OnOk result (Writes out.old.items out.new.items (Field.Tag tag ∷ (Field.Id node ∷ []))) }
{
    put_tag(out, tag)?;
    put_id(out, node)?;
    Ok(())
}

/// A reply of this tag that names a node and a number below 2^16.
fn put_counted(out: &mut Vec<u8>, tag: u8, node: Id, count: u16) -> Result<(), OutOfMemory>
    ensures { OnOk result (Writes out.old.items out.new.items (Field.Tag tag ∷ (Field.Id node ∷ (Field.Hops count ∷ [])))) }
{
    put_tag(out, tag)?;
    put_id(out, node)?;
    put_hops(out, count)?;
    Ok(())
}

#[tactic(auto, using(crate::proofs::Written::writes_then))]
fn put_stored(out: &mut Vec<u8>, holders: &Ids) -> Result<(), OutOfMemory>
    ensures { OnOk result (Writes out.old.items out.new.items (Field.Tag 2 ∷ (Field.Ids holders.now ∷ []))) }
{
    put_tag(out, 2)?;
    put_ids(out, holders)?;
    Ok(())
}

#[tactic(auto, using(crate::proofs::Written::writes_then))]
fn put_found(out: &mut Vec<u8>, node: Id, bytes: &Bytes) -> Result<(), OutOfMemory>
    ensures { OnOk result (Writes out.old.items out.new.items (Field.Tag 3 ∷ (Field.Id node ∷ (Field.Bytes bytes.now ∷ [])))) }
{
    put_tag(out, 3)?;
    put_id(out, node)?;
    put_bytes(out, bytes)?;
    Ok(())
}

fn put_busy(out: &mut Vec<u8>, node: Id, joiner: Id) -> Result<(), OutOfMemory>
    ensures { OnOk result (Writes out.old.items out.new.items (Field.Tag 7 ∷ (Field.Id node ∷ (Field.Id joiner ∷ [])))) }
{
    put_tag(out, 7)?;
    put_id(out, node)?;
    put_id(out, joiner)?;
    Ok(())
}

pub(crate) fn put_reply(out: &mut Vec<u8>, reply: &Reply) -> Result<(), OutOfMemory>
    ensures { OnOk result (Writes out.old.items out.new.items (fields_of_reply reply.now)) }
{
    match reply {
        Reply::Delivered { node, hops } => put_counted(out, 1, *node, *hops),
        Reply::Stored { holders } => put_stored(out, holders),
        Reply::Found { node, bytes } => put_found(out, *node, bytes),
        Reply::NotFound { node } => put_tagged(out, 4, *node),
        Reply::Collision { node } => put_tagged(out, 5, *node),
        Reply::TooFew { node, known } => put_counted(out, 6, *node, *known),
        Reply::Busy { node, joiner } => put_busy(out, *node, *joiner),
        Reply::NotReady { node } => put_tagged(out, 8, *node),
        Reply::Full { node } => put_tagged(out, 9, *node),
        Reply::Gone { node } => put_tagged(out, 10, *node),
        Reply::Reclaimed { node } => put_tagged(out, 11, *node),
    }
}

/// The tombs of a Grant, if there are any.
fn put_tombs(out: &mut Vec<u8>, tombs: &FileIds) -> Result<(), OutOfMemory>
    ensures { OnOk result (Writes out.old.items out.new.items (fields_of_tombs tombs.now)) }
{
    if !tombs.as_slice().is_empty() {
        put_files(out, tombs)?;
    }
    Ok(())
}

#[tactic(auto, using(crate::proofs::Written::writes_then, crate::proofs::Written::asked_then))]
fn put_lookup(
    out: &mut Vec<u8>,
    origin: Id,
    number: u64,
    key: Id,
    hops: u16,
) -> Result<(), OutOfMemory>
    ensures { OnOk result (Writes out.old.items out.new.items (fields_of (Lookup origin number key hops))) }
{
    put_asked(out, origin, number)?;
    put_id(out, key)?;
    put_hops(out, hops)?;
    Ok(())
}

/// A reply to a request.
#[tactic(auto, using(crate::proofs::Written::writes_then))]
fn put_replied(out: &mut Vec<u8>, number: u64, reply: &Reply) -> Result<(), OutOfMemory>
    ensures { OnOk result (Writes out.old.items out.new.items (Field.Number number ∷ fields_of_reply reply.now)) }
{
    put_number(out, number)?;
    put_reply(out, reply)?;
    Ok(())
}

#[tactic(auto, using(crate::proofs::Written::writes_then, crate::proofs::Written::asked_then))]
fn put_insert(
    out: &mut Vec<u8>,
    origin: Id,
    number: u64,
    hops: u16,
    file: &FileId,
    copies: Copies,
    bytes: &Bytes,
) -> Result<(), OutOfMemory>
    ensures { OnOk result (Writes out.old.items out.new.items (fields_of (Insert origin number hops file.now copies bytes.now))) }
{
    put_asked(out, origin, number)?;
    put_hops(out, hops)?;
    put_file(out, file)?;
    put_copies(out, copies)?;
    put_bytes(out, bytes)?;
    Ok(())
}

/// A fetch or a reclaim.
#[tactic(auto, using(crate::proofs::Written::writes_then, crate::proofs::Written::asked_then))]
fn put_fetch(
    out: &mut Vec<u8>,
    origin: Id,
    number: u64,
    hops: u16,
    file: &FileId,
) -> Result<(), OutOfMemory>
    ensures { OnOk result (Writes out.old.items out.new.items (fields_of (Fetch origin number hops file.now))) }
{
    put_asked(out, origin, number)?;
    put_hops(out, hops)?;
    put_file(out, file)?;
    Ok(())
}

#[tactic(auto, using(crate::proofs::Written::writes_then))]
fn put_join_request(
    out: &mut Vec<u8>,
    joiner: Id,
    attempt: u32,
    hops: u16,
) -> Result<(), OutOfMemory>
    ensures { OnOk result (Writes out.old.items out.new.items (fields_of (JoinRequest joiner attempt hops))) }
{
    put_id(out, joiner)?;
    put_attempt(out, attempt)?;
    put_hops(out, hops)?;
    Ok(())
}

/// An attempt, and members.
#[tactic(auto, using(crate::proofs::Written::writes_then))]
fn put_members(out: &mut Vec<u8>, attempt: u32, members: &Ids) -> Result<(), OutOfMemory>
    ensures { OnOk result (Writes out.old.items out.new.items (fields_of (JoinReply attempt members.now))) }
{
    put_attempt(out, attempt)?;
    put_ids(out, members)?;
    Ok(())
}

/// An attempt, and why it failed.
#[tactic(auto, using(crate::proofs::Written::writes_then))]
fn put_refusal(out: &mut Vec<u8>, attempt: u32, why: &Why) -> Result<(), OutOfMemory>
    ensures { OnOk result (Writes out.old.items out.new.items (fields_of (Deny attempt why.now))) }
{
    put_attempt(out, attempt)?;
    put_why(out, why)?;
    Ok(())
}

fn put_lease_request(
    out: &mut Vec<u8>,
    attempt: u32,
    left: Id,
    right: Id,
) -> Result<(), OutOfMemory>
    ensures { OnOk result (Writes out.old.items out.new.items (fields_of (LeaseRequest attempt left right))) }
{
    put_attempt(out, attempt)?;
    put_id(out, left)?;
    put_id(out, right)?;
    Ok(())
}

#[tactic(auto, using(crate::proofs::Written::writes_then))]
fn put_grant(
    out: &mut Vec<u8>,
    attempt: u32,
    manifest: &FileIds,
    tombs: &FileIds,
) -> Result<(), OutOfMemory>
    ensures { OnOk result (Writes out.old.items out.new.items (fields_of (Grant attempt manifest.now tombs.now))) }
{
    put_attempt(out, attempt)?;
    put_files(out, manifest)?;
    put_tombs(out, tombs)?;
    Ok(())
}

#[tactic(auto, using(crate::proofs::Written::writes_then))]
fn put_handover(out: &mut Vec<u8>, file: &FileId, bytes: &Bytes) -> Result<(), OutOfMemory>
    ensures { OnOk result (Writes out.old.items out.new.items (fields_of (Handover file.now bytes.now))) }
{
    put_file(out, file)?;
    put_bytes(out, bytes)?;
    Ok(())
}

#[tactic(auto, using(crate::proofs::Written::writes_then, crate::proofs::Written::asked_then))]
fn put_replicate(
    out: &mut Vec<u8>,
    origin: Id,
    number: u64,
    file: &FileId,
    bytes: &Bytes,
) -> Result<(), OutOfMemory>
    ensures { OnOk result (Writes out.old.items out.new.items (fields_of (Replicate origin number file.now bytes.now))) }
{
    put_asked(out, origin, number)?;
    put_file(out, file)?;
    put_bytes(out, bytes)?;
    Ok(())
}

#[tactic(auto, using(crate::proofs::Written::writes_then, crate::proofs::Written::asked_then))]
fn put_ack(out: &mut Vec<u8>, origin: Id, number: u64, file: &FileId) -> Result<(), OutOfMemory>
    ensures { OnOk result (Writes out.old.items out.new.items (fields_of (ReplicaAck origin number file.now))) }
{
    put_asked(out, origin, number)?;
    put_file(out, file)?;
    Ok(())
}

pub(crate) fn put_message(out: &mut Vec<u8>, message: &Message) -> Result<(), OutOfMemory>
    ensures { OnOk result (Writes out.old.items out.new.items (fields_of (plain message.now))) }
{
    match message {
        Message::Lookup {
            origin,
            number,
            key,
            hops,
        } => put_lookup(out, *origin, *number, *key, *hops),
        Message::Insert {
            origin,
            number,
            hops,
            file,
            copies,
            bytes,
        } => put_insert(out, *origin, *number, *hops, file, *copies, bytes),
        Message::Fetch {
            origin,
            number,
            hops,
            file,
        }
        | Message::Reclaim {
            origin,
            number,
            hops,
            file,
        } => put_fetch(out, *origin, *number, *hops, file),
        Message::LookupReply { number, reply }
        | Message::InsertReply { number, reply }
        | Message::FetchReply { number, reply }
        | Message::ReclaimReply { number, reply } => put_replied(out, *number, reply),
        Message::JoinRequest {
            joiner,
            attempt,
            hops,
        } => put_join_request(out, *joiner, *attempt, *hops),
        Message::JoinReply { attempt, members } | Message::ProbeReply { attempt, members } =>
            put_members(out, *attempt, members),
        Message::JoinRefuse { attempt, why } | Message::Deny { attempt, why } => put_refusal(
            out, *attempt, why,
        ),
        Message::Probe { attempt } | Message::Release { attempt } | Message::Confirm { attempt } =>
            put_attempt(out, *attempt),
        Message::LeaseRequest {
            attempt,
            left,
            right,
        } => put_lease_request(out, *attempt, *left, *right),
        Message::Grant {
            attempt,
            manifest,
            tombs,
        } => put_grant(out, *attempt, manifest, tombs),
        Message::Handover { file, bytes } => put_handover(out, file, bytes),
        Message::Announce => Ok(()),
        Message::Replicate {
            origin,
            number,
            file,
            bytes,
        } => put_replicate(out, *origin, *number, file, bytes),
        Message::ReplicaAck {
            origin,
            number,
            file,
        } => put_ack(out, *origin, *number, file),
    }
}
