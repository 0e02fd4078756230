//! How many bytes the fields of a message take.

ghost use Rattle.std.specs.Prelude.{◌≡◌, ◌≤◌, ◌+◌, ◌*◌};
ghost use Rattle.ring_math.specs.declared.limits.TheConstants.{MOST_BYTES, MOST_ENTRIES, MOST_MEMBERS};
ghost use Rattle.wire_msg.specs.Words.{plain};
ghost use Rattle.wire_codec.specs.Fields.{Field};
ghost use Rattle.wire_codec.specs.Kinds.{fields_of, fields_of_why, fields_of_reply, fields_of_tombs};
ghost use Rattle.wire_codec.specs.Sizes.{size_of, size_of_all};

use ring_math::{Bytes, FileIds, Ids};
use wire_msg::{Message, Reply, Why};

const ID: usize = 16;

const FILE: usize = 20;

const NUMBER: usize = 8;

const ATTEMPT: usize = 4;

const HOPS: usize = 2;

const COPIES: usize = 1;

const TAG: usize = 1;

fn bytes_size(bytes: &Bytes) -> usize
    ensures value { result ≡ size_of (Field.Bytes bytes.now) }
    ensures limit { result ≤ 2 + MOST_BYTES }
{
    2 + bytes.as_slice().len()
}

fn ids_size(ids: &Ids) -> usize
    ensures value { result ≡ size_of (Field.Ids ids.now) }
    ensures limit { result ≤ 1 + 16 * MOST_MEMBERS }
{
    1 + ID * ids.as_slice().len()
}

fn files_size(files: &FileIds) -> usize
    ensures value { result ≡ size_of (Field.Files files.now) }
    ensures limit { result ≤ 2 + 20 * MOST_ENTRIES }
{
    2 + FILE * files.as_slice().len()
}

fn tombs_size(tombs: &FileIds) -> usize
    ensures value { result ≡ size_of_all (fields_of_tombs tombs.now) }
    ensures limit { result ≤ 2 + 20 * MOST_ENTRIES }
{
    if tombs.as_slice().is_empty() {
        0
    } else {
        files_size(tombs)
    }
}

fn why_size(why: &Why) -> usize
    ensures value { result ≡ size_of_all (fields_of_why why.now) }
    ensures limit { result ≤ 33 }
{
    match why {
        Why::Busy { .. } => TAG + ID,
        Why::Moved { .. } => TAG + ID + ID,
        Why::NotReady => TAG,
    }
}

fn reply_size(reply: &Reply) -> usize
    ensures value { result ≡ size_of_all (fields_of_reply reply.now) }
    ensures limit { result ≤ 19 + MOST_BYTES + 16 * MOST_MEMBERS }
{
    match reply {
        Reply::Delivered { .. } => TAG + ID + HOPS,
        Reply::Stored { holders } => TAG + ids_size(holders),
        Reply::Found { bytes, .. } => TAG + ID + bytes_size(bytes),
        Reply::NotFound { .. } => TAG + ID,
        Reply::Collision { .. } => TAG + ID,
        Reply::TooFew { .. } => TAG + ID + HOPS,
        Reply::Busy { .. } => TAG + ID + ID,
        Reply::NotReady { .. } => TAG + ID,
        Reply::Full { .. } => TAG + ID,
        Reply::Gone { .. } => TAG + ID,
        Reply::Reclaimed { .. } => TAG + ID,
    }
}

/// The bytes of the fields of the message.
pub(crate) fn message_size(message: &Message) -> usize
    ensures value { result ≡ size_of_all (fields_of (plain message.now)) }
    ensures limit { result ≤ 100 + MOST_BYTES + 16 * MOST_MEMBERS + 40 * MOST_ENTRIES }
{
    match message {
        Message::Lookup { .. } => ID + NUMBER + ID + HOPS,
        Message::LookupReply { reply, .. } => NUMBER + reply_size(reply),
        Message::Insert { bytes, .. } => ID + NUMBER + HOPS + FILE + COPIES + bytes_size(bytes),
        Message::InsertReply { reply, .. } => NUMBER + reply_size(reply),
        Message::Fetch { .. } => ID + NUMBER + HOPS + FILE,
        Message::FetchReply { reply, .. } => NUMBER + reply_size(reply),
        Message::JoinRequest { .. } => ID + ATTEMPT + HOPS,
        Message::JoinReply { members, .. } => ATTEMPT + ids_size(members),
        Message::JoinRefuse { why, .. } => ATTEMPT + why_size(why),
        Message::Probe { .. } => ATTEMPT,
        Message::ProbeReply { members, .. } => ATTEMPT + ids_size(members),
        Message::LeaseRequest { .. } => ATTEMPT + ID + ID,
        Message::Grant {
            manifest,
            tombs,
            ..
        } => ATTEMPT + files_size(manifest) + tombs_size(tombs),
        Message::Deny { why, .. } => ATTEMPT + why_size(why),
        Message::Handover { bytes, .. } => FILE + bytes_size(bytes),
        Message::Release { .. } => ATTEMPT,
        Message::Confirm { .. } => ATTEMPT,
        Message::Announce => 0,
        Message::Replicate { bytes, .. } => ID + NUMBER + FILE + bytes_size(bytes),
        Message::ReplicaAck { .. } => ID + NUMBER + FILE,
        Message::Reclaim { .. } => ID + NUMBER + HOPS + FILE,
        Message::ReclaimReply { reply, .. } => NUMBER + reply_size(reply),
    }
}
