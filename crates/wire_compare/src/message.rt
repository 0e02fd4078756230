//! Messages compared.

ghost use Rattle.std.specs.Prelude.{◌≡◌};
ghost use Rattle.std.specs.Bool.{Decides};
ghost use Rattle.wire_msg.specs.Words as words;
ghost use Rattle.wire_msg.specs.Words.{plain};

use crate::lists::{same_bytes, same_files, same_ids};
use crate::reply::same_reply;
use ring_math::{Bytes, FileId, FileIds, Id, Ids};
use wire_msg::{Copies, Message, Reply, Why};

/// Whether two messages are the same.
pub fn same_message(one: &Message, other: &Message) -> bool
    ensures { Decides result (plain one.now ≡ plain other.now) }
{
    match one {
        Message::Lookup {
            origin,
            key,
            number,
            hops,
        } => is_lookup(other, *origin, *key, *number, *hops),
        Message::LookupReply { number, reply } => is_lookup_reply(other, *number, reply),
        Message::Insert {
            file,
            copies,
            hops,
            number,
            origin,
            bytes,
        } => is_insert(other, file, *copies, *hops, *number, *origin, bytes),
        Message::InsertReply { number, reply } => is_insert_reply(other, *number, reply),
        Message::Fetch {
            origin,
            number,
            hops,
            file,
        } => is_fetch(other, *origin, *number, *hops, file),
        Message::FetchReply { number, reply } => is_fetch_reply(other, *number, reply),
        Message::JoinRequest {
            joiner,
            attempt,
            hops,
        } => is_join_request(other, *joiner, *attempt, *hops),
        Message::JoinReply { attempt, members } => is_join_reply(other, *attempt, members),
        Message::JoinRefuse { attempt, why } => is_join_refuse(other, *attempt, why),
        Message::Probe { attempt } => is_probe(other, *attempt),
        Message::ProbeReply { attempt, members } => is_probe_reply(other, *attempt, members),
        Message::LeaseRequest {
            attempt,
            left,
            right,
        } => is_lease_request(other, *attempt, *left, *right),
        Message::Grant {
            attempt,
            manifest,
            tombs,
        } => is_grant(other, *attempt, manifest, tombs),
        Message::Deny { attempt, why } => is_deny(other, *attempt, why),
        Message::Handover { file, bytes } => is_handover(other, file, bytes),
        Message::Release { attempt } => is_release(other, *attempt),
        Message::Confirm { attempt } => is_confirm(other, *attempt),
        Message::Announce => matches!(other, Message::Announce),
        Message::Replicate {
            file,
            number,
            origin,
            bytes,
        } => is_replicate(other, file, *number, *origin, bytes),
        Message::ReplicaAck {
            origin,
            number,
            file,
        } => is_replica_ack(other, *origin, *number, file),
        Message::Reclaim {
            origin,
            number,
            hops,
            file,
        } => is_reclaim(other, *origin, *number, *hops, file),
        Message::ReclaimReply { number, reply } => is_reclaim_reply(other, *number, reply),
    }
}

// For each kind with parts: whether a message is the one of this kind with these parts.

fn is_lookup(message: &Message, origin: Id, key: Id, number: u64, hops: u16) -> bool
    ensures { Decides result (words.Lookup origin number key hops ≡ plain message.now) }
{
    match message {
        Message::Lookup {
            origin: other_origin,
            key: other_key,
            number: other_number,
            hops: other_hops,
        } => origin == *other_origin
            && key == *other_key
            && number == *other_number
            && hops == *other_hops,
        _ => false,
    }
}

fn is_lookup_reply(message: &Message, number: u64, reply: &Reply) -> bool
    ensures { Decides result (words.LookupReply number reply.now ≡ plain message.now) }
{
    match message {
        Message::LookupReply {
            number: other_number,
            reply: other_reply,
        } => number == *other_number && same_reply(reply, other_reply),
        _ => false,
    }
}

fn is_insert(
    message: &Message,
    file: &FileId,
    copies: Copies,
    hops: u16,
    number: u64,
    origin: Id,
    bytes: &Bytes,
) -> bool
    ensures { Decides result (words.Insert origin number hops file.now copies bytes.now ≡ plain message.now) }
{
    match message {
        Message::Insert {
            file: other_file,
            copies: other_copies,
            hops: other_hops,
            number: other_number,
            origin: other_origin,
            bytes: other_bytes,
        } => file == other_file
            && copies == *other_copies
            && hops == *other_hops
            && number == *other_number
            && origin == *other_origin
            && same_bytes(bytes, other_bytes),
        _ => false,
    }
}

fn is_insert_reply(message: &Message, number: u64, reply: &Reply) -> bool
    ensures { Decides result (words.InsertReply number reply.now ≡ plain message.now) }
{
    match message {
        Message::InsertReply {
            number: other_number,
            reply: other_reply,
        } => number == *other_number && same_reply(reply, other_reply),
        _ => false,
    }
}

fn is_fetch(message: &Message, origin: Id, number: u64, hops: u16, file: &FileId) -> bool
    ensures { Decides result (words.Fetch origin number hops file.now ≡ plain message.now) }
{
    match message {
        Message::Fetch {
            origin: other_origin,
            number: other_number,
            hops: other_hops,
            file: other_file,
        } => origin == *other_origin
            && number == *other_number
            && hops == *other_hops
            && file == other_file,
        _ => false,
    }
}

fn is_fetch_reply(message: &Message, number: u64, reply: &Reply) -> bool
    ensures { Decides result (words.FetchReply number reply.now ≡ plain message.now) }
{
    match message {
        Message::FetchReply {
            number: other_number,
            reply: other_reply,
        } => number == *other_number && same_reply(reply, other_reply),
        _ => false,
    }
}

fn is_join_request(message: &Message, joiner: Id, attempt: u32, hops: u16) -> bool
    ensures { Decides result (words.JoinRequest joiner attempt hops ≡ plain message.now) }
{
    match message {
        Message::JoinRequest {
            joiner: other_joiner,
            attempt: other_attempt,
            hops: other_hops,
        } => joiner == *other_joiner && attempt == *other_attempt && hops == *other_hops,
        _ => false,
    }
}

fn is_join_reply(message: &Message, attempt: u32, members: &Ids) -> bool
    ensures { Decides result (words.JoinReply attempt members.now ≡ plain message.now) }
{
    match message {
        Message::JoinReply {
            attempt: other_attempt,
            members: other_members,
        } => attempt == *other_attempt && same_ids(members, other_members),
        _ => false,
    }
}

fn is_join_refuse(message: &Message, attempt: u32, why: &Why) -> bool
    ensures { Decides result (words.JoinRefuse attempt why.now ≡ plain message.now) }
{
    match message {
        Message::JoinRefuse {
            attempt: other_attempt,
            why: other_why,
        } => attempt == *other_attempt && why == other_why,
        _ => false,
    }
}

fn is_probe(message: &Message, attempt: u32) -> bool
    ensures { Decides result (words.Probe attempt ≡ plain message.now) }
{
    match message {
        Message::Probe {
            attempt: other_attempt,
        } => attempt == *other_attempt,
        _ => false,
    }
}

fn is_probe_reply(message: &Message, attempt: u32, members: &Ids) -> bool
    ensures { Decides result (words.ProbeReply attempt members.now ≡ plain message.now) }
{
    match message {
        Message::ProbeReply {
            attempt: other_attempt,
            members: other_members,
        } => attempt == *other_attempt && same_ids(members, other_members),
        _ => false,
    }
}

fn is_lease_request(message: &Message, attempt: u32, left: Id, right: Id) -> bool
    ensures { Decides result (words.LeaseRequest attempt left right ≡ plain message.now) }
{
    match message {
        Message::LeaseRequest {
            attempt: other_attempt,
            left: other_left,
            right: other_right,
        } => attempt == *other_attempt && left == *other_left && right == *other_right,
        _ => false,
    }
}

fn is_grant(message: &Message, attempt: u32, manifest: &FileIds, tombs: &FileIds) -> bool
    ensures { Decides result (words.Grant attempt manifest.now tombs.now ≡ plain message.now) }
{
    match message {
        Message::Grant {
            attempt: other_attempt,
            manifest: other_manifest,
            tombs: other_tombs,
        } => attempt == *other_attempt
            && same_files(manifest, other_manifest)
            && same_files(tombs, other_tombs),
        _ => false,
    }
}

fn is_deny(message: &Message, attempt: u32, why: &Why) -> bool
    ensures { Decides result (words.Deny attempt why.now ≡ plain message.now) }
{
    match message {
        Message::Deny {
            attempt: other_attempt,
            why: other_why,
        } => attempt == *other_attempt && why == other_why,
        _ => false,
    }
}

fn is_handover(message: &Message, file: &FileId, bytes: &Bytes) -> bool
    ensures { Decides result (words.Handover file.now bytes.now ≡ plain message.now) }
{
    match message {
        Message::Handover {
            file: other_file,
            bytes: other_bytes,
        } => file == other_file && same_bytes(bytes, other_bytes),
        _ => false,
    }
}

fn is_release(message: &Message, attempt: u32) -> bool
    ensures { Decides result (words.Release attempt ≡ plain message.now) }
{
    match message {
        Message::Release {
            attempt: other_attempt,
        } => attempt == *other_attempt,
        _ => false,
    }
}

fn is_confirm(message: &Message, attempt: u32) -> bool
    ensures { Decides result (words.Confirm attempt ≡ plain message.now) }
{
    match message {
        Message::Confirm {
            attempt: other_attempt,
        } => attempt == *other_attempt,
        _ => false,
    }
}

fn is_replicate(message: &Message, file: &FileId, number: u64, origin: Id, bytes: &Bytes) -> bool
    ensures { Decides result (words.Replicate origin number file.now bytes.now ≡ plain message.now) }
{
    match message {
        Message::Replicate {
            file: other_file,
            number: other_number,
            origin: other_origin,
            bytes: other_bytes,
        } => file == other_file
            && number == *other_number
            && origin == *other_origin
            && same_bytes(bytes, other_bytes),
        _ => false,
    }
}

fn is_replica_ack(message: &Message, origin: Id, number: u64, file: &FileId) -> bool
    ensures { Decides result (words.ReplicaAck origin number file.now ≡ plain message.now) }
{
    match message {
        Message::ReplicaAck {
            origin: other_origin,
            number: other_number,
            file: other_file,
        } => origin == *other_origin && number == *other_number && file == other_file,
        _ => false,
    }
}

fn is_reclaim(message: &Message, origin: Id, number: u64, hops: u16, file: &FileId) -> bool
    ensures { Decides result (words.Reclaim origin number hops file.now ≡ plain message.now) }
{
    match message {
        Message::Reclaim {
            origin: other_origin,
            number: other_number,
            hops: other_hops,
            file: other_file,
        } => origin == *other_origin
            && number == *other_number
            && hops == *other_hops
            && file == other_file,
        _ => false,
    }
}

fn is_reclaim_reply(message: &Message, number: u64, reply: &Reply) -> bool
    ensures { Decides result (words.ReclaimReply number reply.now ≡ plain message.now) }
{
    match message {
        Message::ReclaimReply {
            number: other_number,
            reply: other_reply,
        } => number == *other_number && same_reply(reply, other_reply),
        _ => false,
    }
}
