//! What the calls of a joiner answer.

use ring_math::{Id, Ids};

/// What becomes of a Join command.
#[derive(Clone, Copy, Debug, PartialEq, Eq)]
pub enum Begin {
    /// The node is to send a request with this attempt.
    Started { attempt: u32 },
    /// A join is under way, or the node is ready.
    Already,
    /// The attempts are used up.
    Spent,
}

/// What becomes of the reply to a probe.
#[derive(Drop)]
pub enum ProbeStep {
    /// No such reply is awaited.
    Dropped,
    /// A reply is still awaited; these are to be probed too.
    Probe { more: Ids },
    /// Each has answered: these two are to be asked for their leases.
    Lease { attempt: u32, left: Id, right: Id },
}

/// What becomes of a grant.
#[derive(Clone, Copy, Debug, PartialEq, Eq)]
pub enum GrantStep {
    /// It is of an attempt that is past: the node is to release it.
    Older,
    /// The join is done: the node is to confirm it.
    Settled,
    /// It is the lease of a neighbour.
    Noted,
    Dropped,
}

/// A join that is done.
#[derive(Clone, Copy, Debug, PartialEq, Eq)]
pub struct Finished {
    pub attempt: u32,
    /// The number of the Join command.
    pub number: u64,
    pub left: Id,
    pub right: Id,
}

/// A join that has ended before the node was ready.
#[derive(Clone, Copy, Debug, PartialEq, Eq)]
pub struct Halted {
    pub attempt: u32,
    /// The number of the Join command.
    pub number: u64,
    /// Who was asked for a lease, on the left and on the right: they are to be told.
    pub neighbours: Option<(Id, Id)>,
}
