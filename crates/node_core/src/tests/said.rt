//! What a step sends and notes, in short, and whether it is what is wanted.

use super::given::Given;
use crate::{Node, Output};
use ring_math::Id;
use std::alloc::Global;
use std::test::Fail;
use wire_msg::{Answer, Command, Message, Note, Outgoing, Reply};

pub(super) fn kind(message: &Message) -> &'static str {
    match message {
        Message::Lookup { .. } => "Lookup",
        Message::LookupReply { .. } => "LookupReply",
        Message::Insert { .. } => "Insert",
        Message::InsertReply { .. } => "InsertReply",
        Message::Fetch { .. } => "Fetch",
        Message::FetchReply { .. } => "FetchReply",
        Message::JoinRequest { .. } => "JoinRequest",
        Message::JoinReply { .. } => "JoinReply",
        Message::JoinRefuse { .. } => "JoinRefuse",
        Message::Probe { .. } => "Probe",
        Message::ProbeReply { .. } => "ProbeReply",
        Message::LeaseRequest { .. } => "LeaseRequest",
        Message::Grant { .. } => "Grant",
        Message::Deny { .. } => "Deny",
        Message::Handover { .. } => "Handover",
        Message::Release { .. } => "Release",
        Message::Confirm { .. } => "Confirm",
        Message::Announce => "Announce",
        Message::Replicate { .. } => "Replicate",
        Message::ReplicaAck { .. } => "ReplicaAck",
        Message::Reclaim { .. } => "Reclaim",
        Message::ReclaimReply { .. } => "ReclaimReply",
    }
}

fn reply_name(reply: &Reply) -> &'static str {
    match reply {
        Reply::Delivered { .. } => "Delivered",
        Reply::Stored { .. } => "Stored",
        Reply::Found { .. } => "Found",
        Reply::NotFound { .. } => "NotFound",
        Reply::Collision { .. } => "Collision",
        Reply::TooFew { .. } => "TooFew",
        Reply::Busy { .. } => "Busy",
        Reply::NotReady { .. } => "NotReady",
        Reply::Full { .. } => "Full",
        Reply::Gone { .. } => "Gone",
        Reply::Reclaimed { .. } => "Reclaimed",
    }
}

pub(super) fn answer_name(answer: &Answer) -> &'static str {
    match answer {
        Answer::Reply(reply) => reply_name(reply),
        Answer::Joined { .. } => "Joined",
        Answer::Denied { .. } => "Denied",
        Answer::Stopped { .. } => "Stopped",
        Answer::GaveUp => "GaveUp",
        Answer::NothingToGiveUp => "NothingToGiveUp",
    }
}

/// Whether the note is of this kind, of this command, and says this.
fn is_noted(note: &Note, kind: &str, number: u64, name: &str) -> bool {
    match note {
        Note::Accepted { .. } => kind == "Accepted",
        Note::Reclaimed { .. } => kind == "Reclaimed",
        Note::Delivered { number: other, .. } => kind == "Delivered" && *other == number,
        Note::Answered {
            number: other,
            reply,
            ..
        } => kind == "Answered" && *other == number && reply_name(reply) == name,
        Note::Closed {
            number: other,
            answer,
        } => kind == "Closed" && *other == number && answer_name(answer) == name,
    }
}

/// Whether messages of these kinds were sent to these nodes, and nothing else.
pub(super) fn are_sent(sends: &[Outgoing], wanted: &[(&str, Id)]) -> bool {
    let mut place = 0;
    for sent in sends {
        match wanted.get(place) {
            Some((name, to)) if kind(&sent.message) == *name && sent.receiver == *to => {}
            _ => return false,
        }
        place = place.saturating_add(1);
    }
    place == wanted.len()
}

/// Whether just these are noted: of each the kind, the command's number and what is said; of a file that is accepted or
/// reclaimed the kind alone.
pub(super) fn are_noted(notes: &[Note], wanted: &[(&str, u64, &str)]) -> bool {
    let mut place = 0;
    for note in notes {
        match wanted.get(place) {
            Some((kind, number, name)) if is_noted(note, kind, *number, name) => {}
            _ => return false,
        }
        place = place.saturating_add(1);
    }
    place == wanted.len()
}

/// It is given to the node, which sends and notes just these. Where it does not, `of` is the failure.
pub(super) fn take(
    node: &mut Node,
    alloc: Global,
    given: &Given,
    of: &'static str,
    sent: &[(&str, Id)],
    noted: &[(&str, u64, &str)],
) -> Result<(), Fail> {
    let output = given.to(node, alloc)?;
    if are_sent(output.messages.as_slice(), sent) && are_noted(output.notes.as_slice(), noted) {
        Ok(())
    } else {
        Err(Fail::from(of))
    }
}

/// The same of a message; its kind is the failure.
pub(super) fn tell(
    node: &mut Node,
    alloc: Global,
    sender: Id,
    message: Message,
    sent: &[(&str, Id)],
    noted: &[(&str, u64, &str)],
) -> Result<(), Fail> {
    let of = kind(&message);
    let given = Given::Message { sender, message };
    take(node, alloc, &given, of, sent, noted)
}

/// The same of a command.
pub(super) fn command(
    node: &mut Node,
    alloc: Global,
    number: u64,
    command: Command,
    sent: &[(&str, Id)],
    noted: &[(&str, u64, &str)],
) -> Result<(), Fail> {
    let given = Given::Command { number, command };
    take(node, alloc, &given, "a command", sent, noted)
}

/// What the node sends and notes where this message comes.
pub(super) fn told(
    node: &mut Node,
    alloc: Global,
    sender: Id,
    message: Message,
) -> Result<Output, Fail> {
    Given::Message { sender, message }.to(node, alloc)
}

/// Fails with this where it does not hold.
pub(super) fn hold(holds: bool, of: &'static str) -> Result<(), Fail> {
    if holds { Ok(()) } else { Err(Fail::from(of)) }
}
