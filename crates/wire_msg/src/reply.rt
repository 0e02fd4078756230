//! Answers to requests and to commands.

ghost use Rattle.std.specs.Prelude.{◌≡◌, IfOk};

use ring_math::{Bytes, Id, Ids, OutOfMemory};
use std::alloc::Global;

/// The answer to a lookup, an insert, a fetch or a reclaim.
#[derive(Drop)]
pub enum Reply {
    /// The node was the closest ready one, so many hops from the origin.
    Delivered { node: Id, hops: u16 },
    /// Each of these nodes holds the file: the root, then its replicas, nearest to the key first.
    Stored { holders: Ids },
    Found { node: Id, bytes: Bytes },
    NotFound { node: Id },
    /// Other bytes are held for the file.
    Collision { node: Id },
    /// The root knows so many leaves, fewer than the copies need.
    TooFew { node: Id, known: u16 },
    /// The key is kept back for a joiner.
    Busy { node: Id, joiner: Id },
    NotReady { node: Id },
    /// The root has 4,096 entries, and none for the file.
    Full { node: Id },
    /// The file was reclaimed.
    Gone { node: Id },
    /// The file is reclaimed, now or before.
    Reclaimed { node: Id },
}

impl Reply {
    /// The same reply, which shares the lists that this one names.
    pub fn copy(&self, alloc: Global) -> Result<Reply, OutOfMemory>
        ensures { IfOk result (λ reply. reply ≡ self.now) }
    {
        Ok(match self {
            Reply::Delivered { node, hops } => Reply::Delivered {
                node: *node,
                hops: *hops,
            },
            Reply::Stored { holders } => Reply::Stored {
                holders: holders.copy(alloc)?,
            },
            Reply::Found { node, bytes } => Reply::Found {
                node: *node,
                bytes: bytes.copy(alloc)?,
            },
            Reply::NotFound { node } => Reply::NotFound { node: *node },
            Reply::Collision { node } => Reply::Collision { node: *node },
            Reply::TooFew { node, known } => Reply::TooFew {
                node: *node,
                known: *known,
            },
            Reply::Busy { node, joiner } => Reply::Busy {
                node: *node,
                joiner: *joiner,
            },
            Reply::NotReady { node } => Reply::NotReady { node: *node },
            Reply::Full { node } => Reply::Full { node: *node },
            Reply::Gone { node } => Reply::Gone { node: *node },
            Reply::Reclaimed { node } => Reply::Reclaimed { node: *node },
        })
    }
}

/// Why a join was refused.
#[derive(Clone, Copy, Debug, PartialEq, Eq)]
pub enum Why {
    /// Another joiner has the lease.
    Busy { joiner: Id },
    /// The node's links are these, and not those that the joiner named.
    Moved { left: Id, right: Id },
    NotReady,
}

/// How a node ended its own join.
#[derive(Clone, Copy, Debug, PartialEq, Eq)]
pub enum Own {
    GivenUp,
    /// It was not waiting.
    Already,
    /// Its attempts are used up.
    Spent,
}

/// How a command was closed.
#[derive(Drop)]
pub enum Answer {
    Reply(Reply),
    /// The node stands between these two.
    Joined { left: Id, right: Id },
    Denied { node: Id, why: Why },
    Stopped { node: Id, own: Own },
    GaveUp,
    NothingToGiveUp,
}

impl Answer {
    /// The same answer, which shares the lists that this one names.
    pub fn copy(&self, alloc: Global) -> Result<Answer, OutOfMemory>
        ensures { IfOk result (λ answer. answer ≡ self.now) }
    {
        Ok(match self {
            Answer::Reply(reply) => Answer::Reply(reply.copy(alloc)?),
            Answer::Joined { left, right } => Answer::Joined {
                left: *left,
                right: *right,
            },
            Answer::Denied { node, why } => Answer::Denied {
                node: *node,
                why: *why,
            },
            Answer::Stopped { node, own } => Answer::Stopped {
                node: *node,
                own: *own,
            },
            Answer::GaveUp => Answer::GaveUp,
            Answer::NothingToGiveUp => Answer::NothingToGiveUp,
        })
    }
}
