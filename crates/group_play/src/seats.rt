//! The seats of nodes in groups, which are found by node and group.

ghost use Rattle.std.specs.Prelude.{◌≡◌, Contains, IfOk, IfSome, MatchOption, OnOk};
ghost use Rattle.std.specs.Bool.{Decides};
ghost use Rattle.ring_math.specs.Names.{Id as PlainId};
ghost use Rattle.scribe_core.specs.Parts.{GroupName, Part as PlainPart, Command, Comes, no_part};
ghost use Rattle.world_model.specs.Recorded.{world_of};
ghost use Rattle.group_play.specs.Seats.{AreSeats, IsPlaceOf, IsSeatOf, NoneFrom, ShowParts, StepsTo};

use crate::part::Part;
use crate::spot::Spot;
use ring_math::{Id, OutOfMemory, cw};
use scribe_core::{Group, GroupCommand, GroupMessage, GroupWriter};
use std::alloc::Global;
use std::collections::HashMap;
use world_model::World;

/// The seat of a node in a group.
#[derive(Drop)]
pub(crate) struct Seat {
    pub(crate) node: Id,
    pub(crate) group: Group,
    /// The last seat before this one that is looked up by the same number.
    pub(crate) before: Option<usize>,
}

/// Seats, in the order in which they were taken, and the part at each.
///
/// A seat is looked up by a number, the way from its node to the group's key. Seats that share one are chained.
#[derive(Drop)]
pub(crate) struct Seats {
    pub(crate) items: Vec<Seat>,
    pub(crate) parts: Vec<Part>,
    /// The last seat of each number.
    pub(crate) last: HashMap<u128, usize>,
}

impl Seats {
    /// No seat is taken. It takes no memory.
    pub(crate) fn new(alloc: Global) -> Seats
        ensures seats { AreSeats result }
        ensures parts { ShowParts result (λ x name. no_part) }
    {
        Seats {
            items: Vec::new(alloc),
            parts: Vec::new(alloc),
            last: HashMap::new(alloc),
        }
    }

    /// A command comes to a node in a group.
    pub(crate) fn command(
        &mut self,
        alloc: Global,
        writer: &mut GroupWriter,
        world: &World,
        at: &Spot<'_>,
        number: u64,
        command: &GroupCommand,
    ) -> Result<(), OutOfMemory>
        requires seats { AreSeats self.old }
        requires member { Contains world.now.nodes at.now.node }
        ensures seats { OnOk result (AreSeats self.new) }
        ensures steps { (parts : PlainId → GroupName → PlainPart) → ShowParts self.old parts →
            OnOk result (StepsTo (world_of world.now) self.new parts
            (record { node = at.now.node; group = at.now.group.now; input = Command number command.now }) writer.old writer.new) }
    {
        let place = self.place(alloc, at)?;
        let part = &mut self.parts[place];
        part.command(alloc, writer, world, at, number, command)?;
        Ok(())
    }

    /// A message comes to a node in a group.
    pub(crate) fn message(
        &mut self,
        alloc: Global,
        writer: &mut GroupWriter,
        world: &World,
        at: &Spot<'_>,
        sender: Id,
        message: &GroupMessage,
    ) -> Result<(), OutOfMemory>
        requires seats { AreSeats self.old }
        requires member { Contains world.now.nodes at.now.node }
        ensures seats { OnOk result (AreSeats self.new) }
        ensures steps { (parts : PlainId → GroupName → PlainPart) → ShowParts self.old parts →
            OnOk result (StepsTo (world_of world.now) self.new parts
            (record { node = at.now.node; group = at.now.group.now; input = Comes sender message.now }) writer.old writer.new) }
    {
        let place = self.place(alloc, at)?;
        let part = &mut self.parts[place];
        part.message(writer, world, at, sender, message)?;
        Ok(())
    }

    /// The place of a node's seat in a group, which is taken if it was not.
    fn place(&mut self, alloc: Global, at: &Spot<'_>) -> Result<usize, OutOfMemory>
        requires seats { AreSeats self.old }
        ensures seats { OnOk result (AreSeats self.new) }
        ensures parts { OnOk result ((parts : PlainId → GroupName → PlainPart) → ShowParts self.old parts → ShowParts self.new parts) }
        ensures place { IfOk result (IsPlaceOf self.new at.now.node at.now.group.now) }
    {
        match self.find(at) {
            Some(place) => Ok(place),
            None => self.take(alloc, at),
        }
    }

    /// The place of a node's seat in a group, None exactly where it has none.
    fn find(&self, at: &Spot<'_>) -> Option<usize>
        requires seats { AreSeats self.now }
        ensures { MatchOption result (NoneFrom self.now.items.items 0 at.now.node at.now.group.now) (IsPlaceOf self.now at.now.node at.now.group.now) }
    {
        if let Some(place) = self.guessed(at) {
            return Some(place);
        }
        let mut next = self.last.get(&cw(at.node, at.group.key())).copied();
        while let Some(place) = next {
            let seat = &self.items[place];
            if is_seat_of(seat, at) {
                return Some(place);
            }
            next = seat.before;
        }
        None
    }

    /// The place where the node's seat in the group may stand, if it does.
    fn guessed(&self, at: &Spot<'_>) -> Option<usize>
        ensures { IfSome result (IsPlaceOf self.now at.now.node at.now.group.now) }
    {
        let place = at.guess?;
        let seat = self.items.get(place)?;
        is_seat_of(seat, at).then_some(place)
    }

    /// A seat for a node that has none in the group.
    fn take(&mut self, alloc: Global, at: &Spot<'_>) -> Result<usize, OutOfMemory>
        requires seats { AreSeats self.old }
        requires new { NoneFrom self.old.items.items 0 at.now.node at.now.group.now }
        ensures seats { OnOk result (AreSeats self.new) }
        ensures parts { OnOk result ((parts : PlainId → GroupName → PlainPart) → ShowParts self.old parts → ShowParts self.new parts) }
        ensures place { IfOk result (IsPlaceOf self.new at.now.node at.now.group.now) }
    {
        let group = at.group.copy()?;
        let place = self.items.len();
        let before = self.last.insert(cw(at.node, group.key()), place)?;
        self.items.push(Seat {
            node: at.node,
            group,
            before,
        })?;
        self.parts.push(Part::new(alloc))?;
        Ok(place)
    }
}

fn is_seat_of(seat: &Seat, at: &Spot<'_>) -> bool
    ensures { Decides result (IsSeatOf seat.now at.now.node at.now.group.now) }
{
    seat.node == at.node && seat.group.as_slice() == at.group.as_slice()
}
