//! What members of groups are told to do, and what nodes say to each other for it. In copies the group and the bytes are
//! shared.

ghost use Rattle.std.specs.Prelude.{◌≡◌, IfOk};

use crate::group::Group;
use crate::published::Published;
use ring_math::{Bytes, Id, OutOfMemory};
use std::alloc::Global;

/// What a node is told to do in a group.
#[derive(Drop)]
pub enum GroupCommand {
    /// Become a member.
    Subscribe,
    /// Be a member no longer.
    Leave,
    /// Send these bytes to all members.
    Publish { bytes: Bytes },
}

impl GroupCommand {
    /// The same command.
    pub fn copy(&self, alloc: Global) -> Result<GroupCommand, OutOfMemory>
        ensures { IfOk result (λ copy. copy ≡ self.now) }
    {
        Ok(match self {
            GroupCommand::Subscribe => GroupCommand::Subscribe,
            GroupCommand::Leave => GroupCommand::Leave,
            GroupCommand::Publish { bytes } => GroupCommand::Publish {
                bytes: bytes.copy(alloc)?,
            },
        })
    }
}

/// What one node says to another in a group.
#[derive(Drop)]
pub enum GroupMessage {
    /// Take me as a child.
    Graft,
    /// I am your child no longer.
    Prune,
    /// Bytes on their way to the root, with the number of the command that published them.
    Publish { number: u64, bytes: Published },
    /// Bytes on their way down from the root, with the number of the command that published them.
    Cast { number: u64, bytes: Published },
}

impl GroupMessage {
    fn copy(&self) -> Result<GroupMessage, OutOfMemory>
        ensures { IfOk result (λ copy. copy ≡ self.now) }
    {
        Ok(match self {
            GroupMessage::Graft => GroupMessage::Graft,
            GroupMessage::Prune => GroupMessage::Prune,
            GroupMessage::Publish { number, bytes } => GroupMessage::Publish {
                number: *number,
                bytes: bytes.copy()?,
            },
            GroupMessage::Cast { number, bytes } => GroupMessage::Cast {
                number: *number,
                bytes: bytes.copy()?,
            },
        })
    }
}

/// A message of a group.
#[derive(Drop)]
pub struct GroupSent {
    pub sender: Id,
    pub receiver: Id,
    pub group: Group,
    pub message: GroupMessage,
}

impl GroupSent {
    /// The same message.
    pub fn copy(&self) -> Result<GroupSent, OutOfMemory>
        ensures { IfOk result (λ copy. copy ≡ self.now) }
    {
        Ok(GroupSent {
            sender: self.sender,
            receiver: self.receiver,
            group: self.group.copy()?,
            message: self.message.copy()?,
        })
    }
}
