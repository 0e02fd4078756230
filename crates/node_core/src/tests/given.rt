//! Inputs made by hand: nodes, a file, and messages about it.

use crate::{Input, Node, Output};
use ring_math::{Bytes, FileId, FileIds, Id, Ids, IdsBuilder};
use std::alloc::Global;
use std::test::Fail;
use wire_msg::{Command, Copies, Message};

/// What is given to a node.
#[derive(Drop)]
pub(super) enum Given {
    Command { number: u64, command: Command },
    Message { sender: Id, message: Message },
    Noise,
}

impl Given {
    /// The step of the node to which it is given.
    pub(super) fn to(&self, node: &mut Node, alloc: Global) -> Result<Output, Fail> {
        let input = match self {
            Given::Command { number, command } => Input::Command {
                number: *number,
                command,
            },
            Given::Message { sender, message } => Input::Message {
                sender: *sender,
                message,
            },
            Given::Noise => Input::Noise,
        };
        Ok(node.step(alloc, &input)?)
    }
}

pub(super) const A: Id = Id(0x10 << 120);

pub(super) const B: Id = Id(0x90 << 120);

pub(super) const C: Id = Id(0x30 << 120);

/// Who sent the commands that reach a root.
pub(super) const ORIGIN: Id = Id(0xe0 << 120);

/// A file whose key is the identifier of C.
pub(super) const FILE: FileId = FileId([
    0x30, 0, 0, 0, 0, 0, 0, 0, 0, 0, 0, 0, 0, 0, 0, 0, 0, 0, 0, 0,
]);

pub(super) fn abc(alloc: Global) -> Result<Bytes, Fail> {
    Ok(Bytes::copy_of(alloc, b"abc")?)
}

pub(super) fn copies(count: u8) -> Result<Copies, Fail> {
    match Copies::new(count) {
        Some(copies) => Ok(copies),
        None => Err("copies are 1 to 9")?,
    }
}

pub(super) fn lookup(number: u64, hops: u16) -> Message {
    Message::Lookup {
        origin: ORIGIN,
        number,
        key: C,
        hops,
    }
}

pub(super) fn insert(alloc: Global, number: u64, count: u8) -> Result<Message, Fail> {
    let copies = copies(count)?;
    Ok(Message::Insert {
        origin: ORIGIN,
        number,
        hops: 0,
        file: FILE,
        copies,
        bytes: abc(alloc)?,
    })
}

pub(super) fn fetch(number: u64) -> Message {
    Message::Fetch {
        origin: ORIGIN,
        number,
        hops: 0,
        file: FILE,
    }
}

pub(super) fn reclaim(number: u64) -> Message {
    Message::Reclaim {
        origin: ORIGIN,
        number,
        hops: 0,
        file: FILE,
    }
}

pub(super) fn replica(alloc: Global, number: u64) -> Result<Message, Fail> {
    Ok(Message::Replicate {
        origin: ORIGIN,
        number,
        file: FILE,
        bytes: abc(alloc)?,
    })
}

pub(super) fn ack(number: u64) -> Message {
    Message::ReplicaAck {
        origin: ORIGIN,
        number,
        file: FILE,
    }
}

pub(super) fn handover(alloc: Global, bytes: &[u8]) -> Result<Message, Fail> {
    Ok(Message::Handover {
        file: FILE,
        bytes: Bytes::copy_of(alloc, bytes)?,
    })
}

/// That A stands alone.
fn only_a(alloc: Global) -> Result<Ids, Fail> {
    let mut members = IdsBuilder::new();
    members.push(A);
    Ok(members.finish(alloc)?)
}

pub(super) fn join_reply(alloc: Global, attempt: u32) -> Result<Message, Fail> {
    let members = only_a(alloc)?;
    Ok(Message::JoinReply { attempt, members })
}

pub(super) fn probe_reply(alloc: Global, attempt: u32) -> Result<Message, Fail> {
    let members = only_a(alloc)?;
    Ok(Message::ProbeReply { attempt, members })
}

/// The place on both sides of a node.
pub(super) fn lease(attempt: u32, beside: Id) -> Message {
    Message::LeaseRequest {
        attempt,
        left: beside,
        right: beside,
    }
}

fn none(alloc: Global) -> Result<FileIds, Fail> {
    Ok(FileIds::copy_of(alloc, &[])?)
}

fn only_the_file(alloc: Global) -> Result<FileIds, Fail> {
    Ok(FileIds::copy_of(alloc, &[FILE])?)
}

pub(super) fn grant(alloc: Global, attempt: u32) -> Result<Message, Fail> {
    let manifest = none(alloc)?;
    Ok(Message::Grant {
        attempt,
        manifest,
        tombs: none(alloc)?,
    })
}

/// The file is handed over with the lease.
pub(super) fn grant_with_file(alloc: Global, attempt: u32) -> Result<Message, Fail> {
    let manifest = only_the_file(alloc)?;
    Ok(Message::Grant {
        attempt,
        manifest,
        tombs: none(alloc)?,
    })
}

/// The file is a tombstone.
pub(super) fn grant_with_tomb(alloc: Global, attempt: u32) -> Result<Message, Fail> {
    let manifest = none(alloc)?;
    Ok(Message::Grant {
        attempt,
        manifest,
        tombs: only_the_file(alloc)?,
    })
}
