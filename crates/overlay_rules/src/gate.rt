//! A gatekeeper's leases.

use ring_math::Id;

/// A lease that a ready node gave on one side: the joiner may come to stand between these two neighbours, one of them the node itself.
#[derive(Clone, Copy, Debug, PartialEq, Eq)]
pub struct Gate {
    pub joiner: Id,
    /// The joiner's attempt that it belongs to.
    pub attempt: u32,
    pub left: Id,
    pub right: Id,
}

/// What a gatekeeper says to a request for a lease.
#[derive(Clone, Copy, Debug, PartialEq, Eq)]
pub enum Verdict {
    Grant,
    /// The lease stands already.
    Again,
    /// Another joiner has a lease on a side that is asked for.
    Busy { joiner: Id },
    /// The request does not fit the node's links, which are these.
    Moved { left: Id, right: Id },
}
