//! What a node notes of groups.

use crate::group::Group;
use crate::published::Published;

/// What a node notes: what became of a command of its own user, and what it hears as a member.
#[derive(Drop)]
pub enum GroupNote {
    /// The node is a member.
    Subscribed {
        number: u64,
    },
    /// The node is a member no longer.
    Left {
        number: u64,
    },
    /// The bytes are on their way.
    Published {
        number: u64,
    },
    /// The node is not ready, or keeps the group's key for a joiner.
    Refused {
        number: u64,
    },
    /// What was published in a group of which the node is a member, with the number of the command that published it.
    Heard {
        group: Group,
        number: u64,
        bytes: Published,
    },
}
