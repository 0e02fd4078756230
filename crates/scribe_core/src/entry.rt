//! What happens in groups, and entries of a record as they are read there.

ghost use Rattle.std.specs.Prelude.{◌≡◌};
ghost use Rattle.scribe_core.specs.Seen.{event_seen};

use crate::group::Group;
use crate::message::{GroupCommand, GroupSent};
use crate::note::GroupNote;
use ring_math::Id;

/// What happens at a node.
#[derive(Drop)]
pub enum GroupEvent {
    /// A command of the node's own user, with its number.
    Command {
        node: Id,
        number: u64,
        group: Group,
        command: GroupCommand,
    },
    /// The message of this number, counted from 0 in the order in which all were sent, comes to its receiver.
    Deliver {
        message: u64,
    },
}

impl GroupEvent {
    pub(crate) fn seen(&self) -> GroupEventRef<'_>
        ensures { event_seen result ≡ self.now }
    {
        match self {
            GroupEvent::Command {
                node,
                number,
                group,
                command,
            } => GroupEventRef::Command {
                node: *node,
                number: *number,
                group,
                command,
            },
            GroupEvent::Deliver { message } => GroupEventRef::Deliver { message: *message },
        }
    }
}

/// An event of a record, as it is read there.
#[derive(Clone, Copy)]
pub enum GroupEventRef<'a> {
    Command {
        node: Id,
        number: u64,
        group: &'a Group,
        command: &'a GroupCommand,
    },
    Deliver {
        message: u64,
    },
}

/// An entry of a record, as it is read there: an event, and what its node's step sent and noted.
#[derive(Clone, Copy)]
pub struct GroupEntryRef<'a> {
    pub event: GroupEventRef<'a>,
    pub messages: &'a [GroupSent],
    pub notes: &'a [GroupNote],
}
