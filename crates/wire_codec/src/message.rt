//! Reading the fields of each kind of message, from the place on where they begin.

ghost use Rattle.std.specs.Prelude.{◌≤◌, length};
ghost use Rattle.wire_msg.specs.Words.{plain};
ghost use Rattle.wire_codec.specs.declared.kind.Kind.TheVariants as kind;
ghost use Rattle.wire_codec.specs.Spelling.{contents_of_message};
ghost use Rattle.wire_codec.specs.Values.{Gives, contents_at};

use crate::fault::FrameFault;
use crate::field::{
    attempt_at, bytes_at, copies_at, file_at, files_at, hops_at, id_at, ids_at, number_at,
};
use crate::kind::{Kind, Version};
use crate::owned::{owned_bytes, owned_files, owned_ids};
use crate::tagged::{reply_at, reply_tagged, tombs_in, why_at};
use std::alloc::Global;
use wire_msg::Message;

fn lookup_at(bytes: &[u8], place: usize) -> Result<Message, FrameFault>
    requires { place ≤ length bytes.now }
    ensures { Gives (λ m. contents_of_message (plain m)) result (contents_at bytes.now kind.Lookup place) }
{
    let (origin, place) = id_at(bytes, place)?;
    let (number, place) = number_at(bytes, place)?;
    let (key, place) = id_at(bytes, place)?;
    let (hops, _) = hops_at(bytes, place)?;
    Ok(Message::Lookup {
        origin,
        number,
        key,
        hops,
    })
}

fn lookup_reply_at(
    alloc: Global,
    bytes: &[u8],
    version: Version,
    place: usize,
) -> Result<Message, FrameFault>
    requires { place ≤ length bytes.now }
    ensures { Gives (λ m. contents_of_message (plain m)) result (contents_at bytes.now (kind.LookupReply version) place) }
{
    let (number, place) = number_at(bytes, place)?;
    let reply = reply_at(alloc, bytes, version, place)?;
    Ok(Message::LookupReply { number, reply })
}

fn insert_at(alloc: Global, bytes: &[u8], place: usize) -> Result<Message, FrameFault>
    requires { place ≤ length bytes.now }
    ensures { Gives (λ m. contents_of_message (plain m)) result (contents_at bytes.now kind.Insert place) }
{
    let (origin, place) = id_at(bytes, place)?;
    let (number, place) = number_at(bytes, place)?;
    let (hops, place) = hops_at(bytes, place)?;
    let (file, place) = file_at(bytes, place)?;
    let (copies, place) = copies_at(bytes, place)?;
    let (bytes, _) = bytes_at(bytes, place)?;
    let bytes = owned_bytes(alloc, bytes)?;
    Ok(Message::Insert {
        origin,
        number,
        hops,
        file,
        copies,
        bytes,
    })
}

fn insert_reply_at(
    alloc: Global,
    bytes: &[u8],
    version: Version,
    place: usize,
) -> Result<Message, FrameFault>
    requires { place ≤ length bytes.now }
    ensures { Gives (λ m. contents_of_message (plain m)) result (contents_at bytes.now (kind.InsertReply version) place) }
{
    let (number, place) = number_at(bytes, place)?;
    let reply = reply_at(alloc, bytes, version, place)?;
    Ok(Message::InsertReply { number, reply })
}

fn fetch_at(bytes: &[u8], place: usize) -> Result<Message, FrameFault>
    requires { place ≤ length bytes.now }
    ensures { Gives (λ m. contents_of_message (plain m)) result (contents_at bytes.now kind.Fetch place) }
{
    let (origin, place) = id_at(bytes, place)?;
    let (number, place) = number_at(bytes, place)?;
    let (hops, place) = hops_at(bytes, place)?;
    let (file, _) = file_at(bytes, place)?;
    Ok(Message::Fetch {
        origin,
        number,
        hops,
        file,
    })
}

fn fetch_reply_at(
    alloc: Global,
    bytes: &[u8],
    version: Version,
    place: usize,
) -> Result<Message, FrameFault>
    requires { place ≤ length bytes.now }
    ensures { Gives (λ m. contents_of_message (plain m)) result (contents_at bytes.now (kind.FetchReply version) place) }
{
    let (number, place) = number_at(bytes, place)?;
    let reply = reply_at(alloc, bytes, version, place)?;
    Ok(Message::FetchReply { number, reply })
}

fn join_request_at(bytes: &[u8], place: usize) -> Result<Message, FrameFault>
    requires { place ≤ length bytes.now }
    ensures { Gives (λ m. contents_of_message (plain m)) result (contents_at bytes.now kind.JoinRequest place) }
{
    let (joiner, place) = id_at(bytes, place)?;
    let (attempt, place) = attempt_at(bytes, place)?;
    let (hops, _) = hops_at(bytes, place)?;
    Ok(Message::JoinRequest {
        joiner,
        attempt,
        hops,
    })
}

fn join_reply_at(alloc: Global, bytes: &[u8], place: usize) -> Result<Message, FrameFault>
    requires { place ≤ length bytes.now }
    ensures { Gives (λ m. contents_of_message (plain m)) result (contents_at bytes.now kind.JoinReply place) }
{
    let (attempt, place) = attempt_at(bytes, place)?;
    let (members, _) = ids_at(bytes, place)?;
    let members = owned_ids(alloc, members)?;
    Ok(Message::JoinReply { attempt, members })
}

fn join_refuse_at(bytes: &[u8], place: usize) -> Result<Message, FrameFault>
    requires { place ≤ length bytes.now }
    ensures { Gives (λ m. contents_of_message (plain m)) result (contents_at bytes.now kind.JoinRefuse place) }
{
    let (attempt, place) = attempt_at(bytes, place)?;
    let why = why_at(bytes, place)?;
    Ok(Message::JoinRefuse { attempt, why })
}

fn probe_at(bytes: &[u8], place: usize) -> Result<Message, FrameFault>
    requires { place ≤ length bytes.now }
    ensures { Gives (λ m. contents_of_message (plain m)) result (contents_at bytes.now kind.Probe place) }
{
    let (attempt, _) = attempt_at(bytes, place)?;
    Ok(Message::Probe { attempt })
}

fn probe_reply_at(alloc: Global, bytes: &[u8], place: usize) -> Result<Message, FrameFault>
    requires { place ≤ length bytes.now }
    ensures { Gives (λ m. contents_of_message (plain m)) result (contents_at bytes.now kind.ProbeReply place) }
{
    let (attempt, place) = attempt_at(bytes, place)?;
    let (members, _) = ids_at(bytes, place)?;
    let members = owned_ids(alloc, members)?;
    Ok(Message::ProbeReply { attempt, members })
}

fn lease_request_at(bytes: &[u8], place: usize) -> Result<Message, FrameFault>
    requires { place ≤ length bytes.now }
    ensures { Gives (λ m. contents_of_message (plain m)) result (contents_at bytes.now kind.LeaseRequest place) }
{
    let (attempt, place) = attempt_at(bytes, place)?;
    let (left, place) = id_at(bytes, place)?;
    let (right, _) = id_at(bytes, place)?;
    Ok(Message::LeaseRequest {
        attempt,
        left,
        right,
    })
}

fn grant_at(
    alloc: Global,
    bytes: &[u8],
    version: Version,
    place: usize,
) -> Result<Message, FrameFault>
    requires { place ≤ length bytes.now }
    ensures { Gives (λ m. contents_of_message (plain m)) result (contents_at bytes.now (kind.Grant version) place) }
{
    let (attempt, place) = attempt_at(bytes, place)?;
    let (manifest, place) = files_at(bytes, place)?;
    let manifest = owned_files(alloc, manifest)?;
    let tombs = tombs_in(alloc, bytes, version, place)?;
    Ok(Message::Grant {
        attempt,
        manifest,
        tombs,
    })
}

fn deny_at(bytes: &[u8], place: usize) -> Result<Message, FrameFault>
    requires { place ≤ length bytes.now }
    ensures { Gives (λ m. contents_of_message (plain m)) result (contents_at bytes.now kind.Deny place) }
{
    let (attempt, place) = attempt_at(bytes, place)?;
    let why = why_at(bytes, place)?;
    Ok(Message::Deny { attempt, why })
}

fn handover_at(alloc: Global, bytes: &[u8], place: usize) -> Result<Message, FrameFault>
    requires { place ≤ length bytes.now }
    ensures { Gives (λ m. contents_of_message (plain m)) result (contents_at bytes.now kind.Handover place) }
{
    let (file, place) = file_at(bytes, place)?;
    let (bytes, _) = bytes_at(bytes, place)?;
    let bytes = owned_bytes(alloc, bytes)?;
    Ok(Message::Handover { file, bytes })
}

fn release_at(bytes: &[u8], place: usize) -> Result<Message, FrameFault>
    requires { place ≤ length bytes.now }
    ensures { Gives (λ m. contents_of_message (plain m)) result (contents_at bytes.now kind.Release place) }
{
    let (attempt, _) = attempt_at(bytes, place)?;
    Ok(Message::Release { attempt })
}

fn confirm_at(bytes: &[u8], place: usize) -> Result<Message, FrameFault>
    requires { place ≤ length bytes.now }
    ensures { Gives (λ m. contents_of_message (plain m)) result (contents_at bytes.now kind.Confirm place) }
{
    let (attempt, _) = attempt_at(bytes, place)?;
    Ok(Message::Confirm { attempt })
}

fn replicate_at(alloc: Global, bytes: &[u8], place: usize) -> Result<Message, FrameFault>
    requires { place ≤ length bytes.now }
    ensures { Gives (λ m. contents_of_message (plain m)) result (contents_at bytes.now kind.Replicate place) }
{
    let (origin, place) = id_at(bytes, place)?;
    let (number, place) = number_at(bytes, place)?;
    let (file, place) = file_at(bytes, place)?;
    let (bytes, _) = bytes_at(bytes, place)?;
    let bytes = owned_bytes(alloc, bytes)?;
    Ok(Message::Replicate {
        origin,
        number,
        file,
        bytes,
    })
}

fn replica_ack_at(bytes: &[u8], place: usize) -> Result<Message, FrameFault>
    requires { place ≤ length bytes.now }
    ensures { Gives (λ m. contents_of_message (plain m)) result (contents_at bytes.now kind.ReplicaAck place) }
{
    let (origin, place) = id_at(bytes, place)?;
    let (number, place) = number_at(bytes, place)?;
    let (file, _) = file_at(bytes, place)?;
    Ok(Message::ReplicaAck {
        origin,
        number,
        file,
    })
}

fn reclaim_at(bytes: &[u8], place: usize) -> Result<Message, FrameFault>
    requires { place ≤ length bytes.now }
    ensures { Gives (λ m. contents_of_message (plain m)) result (contents_at bytes.now kind.Reclaim place) }
{
    let (origin, place) = id_at(bytes, place)?;
    let (number, place) = number_at(bytes, place)?;
    let (hops, place) = hops_at(bytes, place)?;
    let (file, _) = file_at(bytes, place)?;
    Ok(Message::Reclaim {
        origin,
        number,
        hops,
        file,
    })
}

fn reclaim_reply_at(alloc: Global, bytes: &[u8], place: usize) -> Result<Message, FrameFault>
    requires { place ≤ length bytes.now }
    ensures { Gives (λ m. contents_of_message (plain m)) result (contents_at bytes.now kind.ReclaimReply place) }
{
    let (number, place) = number_at(bytes, place)?;
    let reply = reply_tagged(alloc, bytes, 1, 11, place)?;
    Ok(Message::ReclaimReply { number, reply })
}

/// The message of a kind.
pub(crate) fn message_at(
    alloc: Global,
    bytes: &[u8],
    kind: Kind,
    place: usize,
) -> Result<Message, FrameFault>
    requires { place ≤ length bytes.now }
    ensures { Gives (λ m. contents_of_message (plain m)) result (contents_at bytes.now kind place) }
{
    match kind {
        Kind::Lookup => lookup_at(bytes, place),
        Kind::LookupReply(version) => lookup_reply_at(alloc, bytes, version, place),
        Kind::Insert => insert_at(alloc, bytes, place),
        Kind::InsertReply(version) => insert_reply_at(alloc, bytes, version, place),
        Kind::Fetch => fetch_at(bytes, place),
        Kind::FetchReply(version) => fetch_reply_at(alloc, bytes, version, place),
        Kind::JoinRequest => join_request_at(bytes, place),
        Kind::JoinReply => join_reply_at(alloc, bytes, place),
        Kind::JoinRefuse => join_refuse_at(bytes, place),
        Kind::Probe => probe_at(bytes, place),
        Kind::ProbeReply => probe_reply_at(alloc, bytes, place),
        Kind::LeaseRequest => lease_request_at(bytes, place),
        Kind::Grant(version) => grant_at(alloc, bytes, version, place),
        Kind::Deny => deny_at(bytes, place),
        Kind::Handover => handover_at(alloc, bytes, place),
        Kind::Release => release_at(bytes, place),
        Kind::Confirm => confirm_at(bytes, place),
        Kind::Announce => Ok(Message::Announce),
        Kind::Replicate => replicate_at(alloc, bytes, place),
        Kind::ReplicaAck => replica_ack_at(bytes, place),
        Kind::Reclaim => reclaim_at(bytes, place),
        Kind::ReclaimReply => reclaim_reply_at(alloc, bytes, place),
    }
}
