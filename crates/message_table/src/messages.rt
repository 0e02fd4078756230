//! Messages in words.

ghost use Rattle.std.specs.Prelude.{◌≡◌, ◌++◌, codes, decimal, OnOk};
ghost use Rattle.wire_msg.specs.Words.{plain};
ghost use Rattle.wire_msg.specs.Words as words;
ghost use Rattle.message_table.specs.Messages.{answered_text, asker_text, attempt_text, between_text, content_text, file_text, hops_text, lists_text, members_text, message_text, refusal_text};

use crate::labels::Labels;
use delivery_report::{put_bytes, put_reply, put_why};
use ring_math::{Bytes, FileId, FileIds, Id, Ids, OutOfMemory};
use text_writer::Text;
use wire_msg::{Copies, Message, Reply, Why};

/// The kind of a message and its fields.
pub(crate) fn put_message(
    text: &mut Text,
    labels: &Labels,
    message: &Message,
) -> Result<(), OutOfMemory>
    ensures { OnOk result (text.new ≡ text.old ++ message_text labels.now.nodes labels.now.files (plain message.now)) }
{
    match message {
        Message::Lookup {
            origin,
            key,
            number,
            hops,
        } => lookup(text, labels, *origin, *key, *number, *hops),
        Message::LookupReply { number, reply } => {
            answered(text, labels, b"LookupReply", *number, reply)
        }
        Message::Insert {
            file,
            copies,
            hops,
            number,
            origin,
            bytes,
        } => {
            of_file(text, labels, b"Insert", *origin, *number, file)?;
            to_store(text, *copies, bytes, *hops)
        }
        Message::InsertReply { number, reply } => {
            answered(text, labels, b"InsertReply", *number, reply)
        }
        Message::Fetch {
            origin,
            number,
            hops,
            file,
        } => passed_on(text, labels, b"Fetch", *origin, *number, *hops, file),
        Message::FetchReply { number, reply } => {
            answered(text, labels, b"FetchReply", *number, reply)
        }
        Message::JoinRequest {
            joiner,
            attempt,
            hops,
        } => join_request(text, labels, *joiner, *attempt, *hops),
        Message::JoinReply { attempt, members } => {
            put_members(text, labels, b"JoinReply", *attempt, members)
        }
        Message::JoinRefuse { attempt, why } => {
            refusal(text, labels, b"JoinRefuse", *attempt, why)
        }
        Message::Probe { attempt } => alone(text, b"Probe", *attempt),
        Message::ProbeReply { attempt, members } => {
            put_members(text, labels, b"ProbeReply", *attempt, members)
        }
        Message::LeaseRequest {
            attempt,
            left,
            right,
        } => { between(text, labels, *attempt, *left, *right) }
        Message::Grant {
            attempt,
            manifest,
            tombs,
        } => grant(text, labels, *attempt, manifest, tombs),
        Message::Deny { attempt, why } => refusal(text, labels, b"Deny", *attempt, why),
        Message::Handover { file, bytes } => handover(text, labels, file, bytes),
        Message::Release { attempt } => alone(text, b"Release", *attempt),
        Message::Confirm { attempt } => alone(text, b"Confirm", *attempt),
        Message::Announce => text.put(b"Announce"),
        Message::Replicate {
            file,
            number,
            origin,
            bytes,
        } => replicate(text, labels, *origin, *number, file, bytes),
        Message::ReplicaAck {
            origin,
            number,
            file,
        } => of_file(text, labels, b"ReplicaAck", *origin, *number, file),
        Message::Reclaim {
            origin,
            number,
            hops,
            file,
        } => passed_on(text, labels, b"Reclaim", *origin, *number, *hops, file),
        Message::ReclaimReply { number, reply } => {
            answered(text, labels, b"ReclaimReply", *number, reply)
        }
    }
}

/// A kind, and whose command it is of.
pub(crate) fn asker(
    text: &mut Text,
    labels: &Labels,
    kind: &[u8],
    origin: Id,
    number: u64,
) -> Result<(), OutOfMemory>
    ensures { OnOk result (text.new ≡ text.old ++ (kind.now ++ asker_text labels.now.nodes origin number)) }
{
    text.put(kind)?;
    labels.put_node(text, b" of ", origin)?;
    text.number_after(b" ", number)
}

/// A lookup of a key.
fn lookup(
    text: &mut Text,
    labels: &Labels,
    origin: Id,
    key: Id,
    number: u64,
    hops: u16,
) -> Result<(), OutOfMemory>
    ensures { OnOk result (text.new ≡ text.old ++ message_text labels.now.nodes labels.now.files (words.Lookup origin number key hops)) }
{
    asker(text, labels, b"Lookup", origin, number)?;
    text.id_after(b" key ", key)?;
    put_hops(text, hops)
}

/// A kind, whose command it is of, and a file.
fn of_file(
    text: &mut Text,
    labels: &Labels,
    kind: &[u8],
    origin: Id,
    number: u64,
    file: &FileId,
) -> Result<(), OutOfMemory>
    ensures { OnOk result (text.new ≡ text.old ++ (kind.now ++ asker_text labels.now.nodes origin number ++ file_text labels.now.files file.now)) }
{
    asker(text, labels, kind, origin, number)?;
    labels.put_file(text, b" file ", file)
}

/// The same of a message that is passed on from node to node.
fn passed_on(
    text: &mut Text,
    labels: &Labels,
    kind: &[u8],
    origin: Id,
    number: u64,
    hops: u16,
    file: &FileId,
) -> Result<(), OutOfMemory>
    ensures { OnOk result (text.new ≡ text.old ++ (kind.now ++ asker_text labels.now.nodes origin number ++ file_text labels.now.files file.now ++ hops_text hops)) }
{
    of_file(text, labels, kind, origin, number, file)?;
    put_hops(text, hops)
}

/// How many copies of which bytes an insert is to store, and its hops.
fn to_store(text: &mut Text, copies: Copies, bytes: &Bytes, hops: u16) -> Result<(), OutOfMemory>
    ensures { OnOk result (text.new ≡ text.old ++ (codes " copies " ++ decimal copies ++ content_text bytes.now ++ hops_text hops)) }
{
    text.number_after(b" copies ", u64::from(copies.get()))?;
    content(text, bytes.as_slice())?;
    put_hops(text, hops)
}

/// A copy of a file.
fn replicate(
    text: &mut Text,
    labels: &Labels,
    origin: Id,
    number: u64,
    file: &FileId,
    bytes: &Bytes,
) -> Result<(), OutOfMemory>
    ensures { OnOk result (text.new ≡ text.old ++ message_text labels.now.nodes labels.now.files (words.Replicate origin number file.now bytes.now)) }
{
    of_file(text, labels, b"Replicate", origin, number, file)?;
    content(text, bytes.as_slice())
}

/// A file that is handed over.
fn handover(
    text: &mut Text,
    labels: &Labels,
    file: &FileId,
    bytes: &Bytes,
) -> Result<(), OutOfMemory>
    ensures { OnOk result (text.new ≡ text.old ++ message_text labels.now.nodes labels.now.files (words.Handover file.now bytes.now)) }
{
    text.put(b"Handover")?;
    labels.put_file(text, b" file ", file)?;
    content(text, bytes.as_slice())
}

/// The request of a joiner.
fn join_request(
    text: &mut Text,
    labels: &Labels,
    joiner: Id,
    attempt: u32,
    hops: u16,
) -> Result<(), OutOfMemory>
    ensures { OnOk result (text.new ≡ text.old ++ message_text labels.now.nodes labels.now.files (words.JoinRequest joiner attempt hops)) }
{
    labels.put_node(text, b"JoinRequest of ", joiner)?;
    put_attempt(text, attempt)?;
    put_hops(text, hops)
}

/// A kind, and the answer to a command.
fn answered(
    text: &mut Text,
    labels: &Labels,
    kind: &[u8],
    number: u64,
    reply: &Reply,
) -> Result<(), OutOfMemory>
    ensures { OnOk result (text.new ≡ text.old ++ (kind.now ++ answered_text labels.now.nodes number reply.now)) }
{
    text.put(kind)?;
    text.number_after(b" to ", number)?;
    text.put(b" ")?;
    put_reply(text, labels.names(), reply)
}

/// A kind and an attempt, and nothing more of its own.
fn alone(text: &mut Text, kind: &[u8], attempt: u32) -> Result<(), OutOfMemory>
    ensures { OnOk result (text.new ≡ text.old ++ (kind.now ++ attempt_text attempt)) }
{
    text.put(kind)?;
    put_attempt(text, attempt)
}

/// A kind, an attempt, and a node with its leaves.
fn put_members(
    text: &mut Text,
    labels: &Labels,
    kind: &[u8],
    attempt: u32,
    members: &Ids,
) -> Result<(), OutOfMemory>
    ensures { OnOk result (text.new ≡ text.old ++ (kind.now ++ members_text labels.now.nodes attempt members.now)) }
{
    alone(text, kind, attempt)?;
    text.put(b" members")?;
    labels.names().write_all(text, members.as_slice())
}

/// A kind, an attempt, and why it was refused.
fn refusal(
    text: &mut Text,
    labels: &Labels,
    kind: &[u8],
    attempt: u32,
    why: &Why,
) -> Result<(), OutOfMemory>
    ensures { OnOk result (text.new ≡ text.old ++ (kind.now ++ refusal_text labels.now.nodes attempt why.now)) }
{
    alone(text, kind, attempt)?;
    text.put(b" ")?;
    put_why(text, labels.names(), why)
}

/// The request of a lease between two nodes.
fn between(
    text: &mut Text,
    labels: &Labels,
    attempt: u32,
    left: Id,
    right: Id,
) -> Result<(), OutOfMemory>
    ensures { OnOk result (text.new ≡ text.old ++ (codes "LeaseRequest" ++ between_text labels.now.nodes attempt left right)) }
{
    alone(text, b"LeaseRequest", attempt)?;
    labels.put_both(text, b" between ", left, right)
}

/// A lease with its lists.
fn grant(
    text: &mut Text,
    labels: &Labels,
    attempt: u32,
    manifest: &FileIds,
    tombs: &FileIds,
) -> Result<(), OutOfMemory>
    ensures { OnOk result (text.new ≡ text.old ++ message_text labels.now.nodes labels.now.files (words.Grant attempt manifest.now tombs.now)) }
{
    alone(text, b"Grant", attempt)?;
    lists(text, labels, manifest, tombs)
}

fn lists(
    text: &mut Text,
    labels: &Labels,
    manifest: &FileIds,
    tombs: &FileIds,
) -> Result<(), OutOfMemory>
    ensures { OnOk result (text.new ≡ text.old ++ lists_text labels.now.files manifest.now tombs.now) }
{
    text.put(b" manifest")?;
    labels.put_files(text, manifest.as_slice())?;
    text.put(b" tombs")?;
    labels.put_files(text, tombs.as_slice())
}

fn put_attempt(text: &mut Text, attempt: u32) -> Result<(), OutOfMemory>
    ensures { OnOk result (text.new ≡ text.old ++ attempt_text attempt) }
{
    text.number_after(b" attempt ", u64::from(attempt))
}

fn put_hops(text: &mut Text, hops: u16) -> Result<(), OutOfMemory>
    ensures { OnOk result (text.new ≡ text.old ++ hops_text hops) }
{
    text.number_after(b" hops ", u64::from(hops))
}

fn content(text: &mut Text, bytes: &[u8]) -> Result<(), OutOfMemory>
    ensures { OnOk result (text.new ≡ text.old ++ content_text bytes.now) }
{
    text.put(b" bytes ")?;
    put_bytes(text, bytes)
}
