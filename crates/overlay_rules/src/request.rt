//! Requests on their way, and inserts at their root.

use ring_math::{FileId, Id, Ids};

/// Where a key leads from a node.
#[derive(Clone, Copy, Debug, PartialEq, Eq)]
pub enum Way {
    NotReady,
    /// The node covers the key.
    Here,
    /// The key is kept for this joiner.
    Gap { joiner: Id },
    /// This node is nearer.
    To { node: Id },
}

/// What a reply answers.
#[derive(Clone, Copy, Debug, PartialEq, Eq)]
pub enum Asked {
    Lookup,
    Insert,
    Fetch,
    Reclaim,
}

/// An insert at its root that waits for replicas.
#[derive(Drop)]
pub struct Pending {
    pub origin: Id,
    pub number: u64,
    pub file: FileId,
    /// The nodes that are to hold replicas, nearest to the key first.
    pub targets: Ids,
    /// Those of them that have not answered.
    pub awaited: Ids,
}
