//! The rules: what a step makes of a node's part, and what it says.

ghost use Rattle.std.specs.Prelude.{◌≡◌, ◌++◌, ◌∷◌, [], List, IfOk, OnOk, map};
ghost use Rattle.ring_math.specs.Names.{Number};
ghost use Rattle.scribe_core.specs.declared.message.GroupMessage.TheVariants as message;
ghost use Rattle.scribe_core.specs.Parts.{to, to_each};
ghost use Rattle.scribe_core.specs.Record.{sent_from};
ghost use Rattle.scribe_core.specs.Step.{cast, on_graft, on_leave, on_prune, on_publish, on_published, on_subscribe, subscribe};
ghost use Rattle.group_play.specs.Said.{Gives};
ghost use Rattle.group_play.specs.Shown.{HasSeen, is_barred, part_of};

use crate::part::{Part, add_child, remove_child, see};
use crate::spot::Spot;
use overlay_rules::Way;
use ring_math::{Id, OutOfMemory};
use scribe_core::{GroupMessage, GroupNote, GroupWriter, Published};

impl Part {
    /// A command to subscribe.
    pub(crate) fn on_subscribe(
        &mut self,
        writer: &mut GroupWriter,
        at: &Spot<'_>,
        way: Way,
        number: u64,
    ) -> Result<(), OutOfMemory>
        ensures { (seen : List Number) → HasSeen self.old.seen seen →
            OnOk result (Gives at.now.node at.now.group.now self.new writer.old writer.new (on_subscribe way (part_of self.old seen) number)) }
    {
        if self.is_barred(&way) {
            return writer.note(GroupNote::Refused { number });
        }
        self.subscribe(writer, at, way, number)
    }

    /// Whether the node can't become a member: it is not ready, or it is loose and keeps the key for a joiner.
    fn is_barred(&self, way: &Way) -> bool
        ensures { result ≡ is_barred way.now self.now.place }
    {
        match way {
            Way::NotReady => true,
            Way::Here | Way::To { .. } => false,
            Way::Gap { .. } => self.is_loose(),
        }
    }

    fn subscribe(
        &mut self,
        writer: &mut GroupWriter,
        at: &Spot<'_>,
        way: Way,
        number: u64,
    ) -> Result<(), OutOfMemory>
        ensures { (seen : List Number) → HasSeen self.old.seen seen →
            OnOk result (Gives at.now.node at.now.group.now self.new writer.old writer.new (subscribe way (part_of self.old seen) number)) }
    {
        self.is_member = true;
        let parent = self.attach(way);
        writer.note(GroupNote::Subscribed { number })?;
        at.graft(writer, parent)?;
        Ok(())
    }

    /// A command to leave.
    pub(crate) fn on_leave(
        &mut self,
        writer: &mut GroupWriter,
        at: &Spot<'_>,
        number: u64,
    ) -> Result<(), OutOfMemory>
        ensures { (seen : List Number) → HasSeen self.old.seen seen →
            OnOk result (Gives at.now.node at.now.group.now self.new writer.old writer.new (on_leave (part_of self.old seen) number)) }
    {
        self.is_member = false;
        let parent = self.trim();
        writer.note(GroupNote::Left { number })?;
        at.prune(writer, parent)?;
        Ok(())
    }

    /// A command to publish.
    pub(crate) fn on_publish(
        &mut self,
        writer: &mut GroupWriter,
        at: &Spot<'_>,
        way: Way,
        number: u64,
        bytes: &Published,
    ) -> Result<(), OutOfMemory>
        ensures { (seen : List Number) → HasSeen self.old.seen seen →
            OnOk result (Gives at.now.node at.now.group.now self.new writer.old writer.new
            (on_publish way at.now.group.now (part_of self.old seen) number bytes.now)) }
    {
        match way {
            Way::NotReady | Way::Gap { .. } => writer.note(GroupNote::Refused { number }),
            Way::Here => {
                writer.note(GroupNote::Published { number })?;
                self.cast(writer, at, number, bytes)
            }
            Way::To { node } => {
                writer.note(GroupNote::Published { number })?;
                pass_on(writer, at, node, number, bytes)
            }
        }
    }

    /// A child asks for its place.
    pub(crate) fn on_graft(
        &mut self,
        writer: &mut GroupWriter,
        at: &Spot<'_>,
        way: Way,
        sender: Id,
    ) -> Result<(), OutOfMemory>
        ensures { (seen : List Number) → HasSeen self.old.seen seen →
            OnOk result (Gives at.now.node at.now.group.now self.new writer.old writer.new (on_graft way (part_of self.old seen) sender)) }
    {
        add_child(&mut self.children, sender)?;
        let parent = self.attach(way);
        at.graft(writer, parent)?;
        Ok(())
    }

    /// A child leaves.
    pub(crate) fn on_prune(
        &mut self,
        writer: &mut GroupWriter,
        at: &Spot<'_>,
        sender: Id,
    ) -> Result<(), OutOfMemory>
        ensures { (seen : List Number) → HasSeen self.old.seen seen →
            OnOk result (Gives at.now.node at.now.group.now self.new writer.old writer.new (on_prune (part_of self.old seen) sender)) }
    {
        remove_child(&mut self.children, sender);
        let parent = self.trim();
        at.prune(writer, parent)?;
        Ok(())
    }

    /// What was published comes on its way to the root.
    pub(crate) fn on_published(
        &mut self,
        writer: &mut GroupWriter,
        at: &Spot<'_>,
        way: Way,
        number: u64,
        bytes: &Published,
    ) -> Result<(), OutOfMemory>
        ensures { (seen : List Number) → HasSeen self.old.seen seen →
            OnOk result (Gives at.now.node at.now.group.now self.new writer.old writer.new
            (on_published way at.now.group.now (part_of self.old seen) number bytes.now)) }
    {
        match way {
            Way::NotReady | Way::Gap { .. } => Ok(()),
            Way::Here => self.cast(writer, at, number, bytes),
            Way::To { node } => pass_on(writer, at, node, number, bytes),
        }
    }

    /// What was not seen is heard by a member, and goes to each child.
    pub(crate) fn cast(
        &mut self,
        writer: &mut GroupWriter,
        at: &Spot<'_>,
        number: u64,
        bytes: &Published,
    ) -> Result<(), OutOfMemory>
        ensures { (seen : List Number) → HasSeen self.old.seen seen →
            OnOk result (Gives at.now.node at.now.group.now self.new writer.old writer.new (cast at.now.group.now (part_of self.old seen) number bytes.now)) }
    {
        if !see(&mut self.seen, number)? {
            return Ok(());
        }
        cast_to(writer, at, &self.children, number, bytes)?;
        if self.is_member {
            writer.note(heard(at, number, bytes)?)?;
        }
        Ok(())
    }
}

/// A Cast to each of these, in their order.
fn cast_to(
    writer: &mut GroupWriter,
    at: &Spot<'_>,
    children: &[Id],
    number: u64,
    bytes: &Published,
) -> Result<(), OutOfMemory>
    ensures entries { writer.new.entries ≡ writer.old.entries }
    ensures messages { OnOk result (writer.new.messages ≡
        writer.old.messages ++ map (sent_from at.now.node at.now.group.now) (to_each children.now (message.Cast number bytes.now))) }
    ensures notes { writer.new.notes ≡ writer.old.notes }
{
    for child in children {
        let message = GroupMessage::Cast {
            number,
            bytes: bytes.copy()?,
        };
        at.send(writer, *child, message)?;
    }
    Ok(())
}

/// A member's note of what it hears.
fn heard(at: &Spot<'_>, number: u64, bytes: &Published) -> Result<GroupNote, OutOfMemory>
    ensures { IfOk result (λ note. note ≡ GroupNote.Heard at.now.group.now number bytes.now) }
{
    Ok(GroupNote::Heard {
        group: at.group.copy()?,
        number,
        bytes: bytes.copy()?,
    })
}

/// What was published goes on to the next node on the way to the root.
fn pass_on(
    writer: &mut GroupWriter,
    at: &Spot<'_>,
    receiver: Id,
    number: u64,
    bytes: &Published,
) -> Result<(), OutOfMemory>
    ensures entries { writer.new.entries ≡ writer.old.entries }
    ensures messages { OnOk result (writer.new.messages ≡
        writer.old.messages ++ sent_from at.now.node at.now.group.now (to receiver (message.Publish number bytes.now)) ∷ []) }
    ensures notes { writer.new.notes ≡ writer.old.notes }
{
    let message = GroupMessage::Publish {
        number,
        bytes: bytes.copy()?,
    };
    at.send(writer, receiver, message)
}
