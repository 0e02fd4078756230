//! What nodes send to one another.

ghost use Rattle.std.specs.Prelude.{◌≡◌, IfOk};

use crate::command::Copies;
use crate::reply::{Reply, Why};
use ring_math::{Bytes, FileId, FileIds, Id, Ids, OutOfMemory};
use std::alloc::Global;

// A record keeps each message that was sent, so the fields stand in an order that leaves no room between them, and small ones stand
// first: what lies unused before a field is moved with it.
const _: () = prove!(size_of::<Message>() == 64);

const _: () = prove!(size_of::<Envelope>() == 112);

/// A message, of one of twenty-two kinds. Hops are 0 to 65,535, attempts those of the joiner that a join belongs to.
#[derive(Drop)]
pub enum Message {
    Lookup {
        hops: u16,
        number: u64,
        origin: Id,
        key: Id,
    },
    LookupReply {
        number: u64,
        reply: Reply,
    },
    Insert {
        file: FileId,
        copies: Copies,
        hops: u16,
        number: u64,
        origin: Id,
        bytes: Bytes,
    },
    InsertReply {
        number: u64,
        reply: Reply,
    },
    Fetch {
        hops: u16,
        number: u64,
        origin: Id,
        file: FileId,
    },
    FetchReply {
        number: u64,
        reply: Reply,
    },
    JoinRequest {
        hops: u16,
        attempt: u32,
        joiner: Id,
    },
    /// The node that covers the joiner's identifier, and its leaves.
    JoinReply {
        attempt: u32,
        members: Ids,
    },
    JoinRefuse {
        attempt: u32,
        why: Why,
    },
    Probe {
        attempt: u32,
    },
    /// The probed node and its leaves.
    ProbeReply {
        attempt: u32,
        members: Ids,
    },
    /// The joiner asks to stand between these two.
    LeaseRequest {
        attempt: u32,
        left: Id,
        right: Id,
    },
    /// The lease, with the files and the tombstones that come with it.
    Grant {
        attempt: u32,
        manifest: FileIds,
        tombs: FileIds,
    },
    Deny {
        attempt: u32,
        why: Why,
    },
    /// A file that the joiner now keeps.
    Handover {
        file: FileId,
        bytes: Bytes,
    },
    Release {
        attempt: u32,
    },
    Confirm {
        attempt: u32,
    },
    /// The sender is ready.
    Announce,
    /// A copy of a file for one of the nodes closest to its key.
    Replicate {
        file: FileId,
        number: u64,
        origin: Id,
        bytes: Bytes,
    },
    ReplicaAck {
        number: u64,
        origin: Id,
        file: FileId,
    },
    Reclaim {
        hops: u16,
        number: u64,
        origin: Id,
        file: FileId,
    },
    ReclaimReply {
        number: u64,
        reply: Reply,
    },
}

/// A message to a node, as a step writes it.
#[derive(Drop)]
pub struct Outgoing {
    pub receiver: Id,
    pub message: Message,
}

/// A message on its way.
#[derive(Drop)]
pub struct Envelope {
    pub sender: Id,
    pub receiver: Id,
    /// The stamp of the entry that sent it.
    pub stamp: u64,
    pub message: Message,
}

impl Message {
    /// The same message, which shares the lists that this one names.
    pub fn copy(&self, alloc: Global) -> Result<Message, OutOfMemory>
        ensures { IfOk result (λ message. message ≡ self.now) }
    {
        Ok(match self {
            Message::Lookup {
                origin,
                key,
                number,
                hops,
            } => Message::Lookup {
                origin: *origin,
                key: *key,
                number: *number,
                hops: *hops,
            },
            Message::LookupReply { number, reply } => Message::LookupReply {
                number: *number,
                reply: reply.copy(alloc)?,
            },
            Message::Insert {
                file,
                copies,
                hops,
                number,
                origin,
                bytes,
            } => Message::Insert {
                file: *file,
                copies: *copies,
                hops: *hops,
                number: *number,
                origin: *origin,
                bytes: bytes.copy(alloc)?,
            },
            Message::InsertReply { number, reply } => Message::InsertReply {
                number: *number,
                reply: reply.copy(alloc)?,
            },
            Message::Fetch {
                origin,
                number,
                hops,
                file,
            } => Message::Fetch {
                origin: *origin,
                number: *number,
                hops: *hops,
                file: *file,
            },
            Message::FetchReply { number, reply } => Message::FetchReply {
                number: *number,
                reply: reply.copy(alloc)?,
            },
            Message::JoinRequest {
                joiner,
                attempt,
                hops,
            } => Message::JoinRequest {
                joiner: *joiner,
                attempt: *attempt,
                hops: *hops,
            },
            Message::JoinReply { attempt, members } => Message::JoinReply {
                attempt: *attempt,
                members: members.copy(alloc)?,
            },
            Message::JoinRefuse { attempt, why } => Message::JoinRefuse {
                attempt: *attempt,
                why: *why,
            },
            Message::Probe { attempt } => Message::Probe { attempt: *attempt },
            Message::ProbeReply { attempt, members } => Message::ProbeReply {
                attempt: *attempt,
                members: members.copy(alloc)?,
            },
            Message::LeaseRequest {
                attempt,
                left,
                right,
            } => Message::LeaseRequest {
                attempt: *attempt,
                left: *left,
                right: *right,
            },
            Message::Grant {
                attempt,
                manifest,
                tombs,
            } => Message::Grant {
                attempt: *attempt,
                manifest: manifest.copy(alloc)?,
                tombs: tombs.copy(alloc)?,
            },
            Message::Deny { attempt, why } => Message::Deny {
                attempt: *attempt,
                why: *why,
            },
            Message::Handover { file, bytes } => Message::Handover {
                file: *file,
                bytes: bytes.copy(alloc)?,
            },
            Message::Release { attempt } => Message::Release { attempt: *attempt },
            Message::Confirm { attempt } => Message::Confirm { attempt: *attempt },
            Message::Announce => Message::Announce,
            Message::Replicate {
                file,
                number,
                origin,
                bytes,
            } => Message::Replicate {
                file: *file,
                number: *number,
                origin: *origin,
                bytes: bytes.copy(alloc)?,
            },
            Message::ReplicaAck {
                origin,
                number,
                file,
            } => Message::ReplicaAck {
                origin: *origin,
                number: *number,
                file: *file,
            },
            Message::Reclaim {
                origin,
                number,
                hops,
                file,
            } => Message::Reclaim {
                origin: *origin,
                number: *number,
                hops: *hops,
                file: *file,
            },
            Message::ReclaimReply { number, reply } => Message::ReclaimReply {
                number: *number,
                reply: reply.copy(alloc)?,
            },
        })
    }
}

impl Envelope {
    /// The same envelope, which shares the lists that its message names.
    pub fn copy(&self, alloc: Global) -> Result<Envelope, OutOfMemory>
        ensures { IfOk result (λ envelope. envelope ≡ self.now) }
    {
        let message = self.message.copy(alloc)?;
        Ok(Envelope {
            sender: self.sender,
            receiver: self.receiver,
            stamp: self.stamp,
            message,
        })
    }
}
