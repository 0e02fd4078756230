//! Where a step is made, and what it sends from there.

ghost use Rattle.std.specs.Prelude.{◌≡◌, ◌++◌, ◌∷◌, [], OnOk, map};
ghost use Rattle.scribe_core.specs.Parts.{to};
ghost use Rattle.scribe_core.specs.Record.{sent_from};
ghost use Rattle.group_play.specs.Said.{grafts, prunes};

use ring_math::{Id, OutOfMemory};
use scribe_core::{Group, GroupMessage, GroupSent, GroupWriter};

/// A node and a group, in which a step is made, and where the node's seat in the group may stand.
#[derive(Clone, Copy)]
pub(crate) struct Spot<'a> {
    pub(crate) node: Id,
    pub(crate) group: &'a Group,
    pub(crate) guess: Option<usize>,
}

impl Spot<'_> {
    /// Sends one message more.
    pub(crate) fn send(
        &self,
        writer: &mut GroupWriter,
        receiver: Id,
        message: GroupMessage,
    ) -> Result<(), OutOfMemory>
        ensures entries { writer.new.entries ≡ writer.old.entries }
        ensures messages { OnOk result (writer.new.messages ≡
            writer.old.messages ++ sent_from self.now.node self.now.group.now (to receiver message) ∷ []) }
        ensures notes { writer.new.notes ≡ writer.old.notes }
    {
        writer.send(GroupSent {
            sender: self.node,
            receiver,
            group: self.group.copy()?,
            message,
        })
    }

    /// Sends a Graft to the parent, if there is one to ask.
    pub(crate) fn graft(
        &self,
        writer: &mut GroupWriter,
        parent: Option<Id>,
    ) -> Result<(), OutOfMemory>
        ensures entries { writer.new.entries ≡ writer.old.entries }
        ensures messages { OnOk result (writer.new.messages ≡
            writer.old.messages ++ map (sent_from self.now.node self.now.group.now) (grafts parent)) }
        ensures notes { writer.new.notes ≡ writer.old.notes }
    {
        if let Some(parent) = parent {
            self.send(writer, parent, GroupMessage::Graft)?;
        }
        Ok(())
    }

    /// Sends a Prune to the parent, if there is one to leave.
    pub(crate) fn prune(
        &self,
        writer: &mut GroupWriter,
        parent: Option<Id>,
    ) -> Result<(), OutOfMemory>
        ensures entries { writer.new.entries ≡ writer.old.entries }
        ensures messages { OnOk result (writer.new.messages ≡
            writer.old.messages ++ map (sent_from self.now.node self.now.group.now) (prunes parent)) }
        ensures notes { writer.new.notes ≡ writer.old.notes }
    {
        if let Some(parent) = parent {
            self.send(writer, parent, GroupMessage::Prune)?;
        }
        Ok(())
    }
}
