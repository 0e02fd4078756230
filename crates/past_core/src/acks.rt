//! Acknowledgements of replicas.

ghost use Rattle.std.specs.Prelude.{◌≡◌, ◌==◌, not, Some, None, length, filter, position, IfOk, OnErr};
ghost use Rattle.overlay_rules.specs.State.{State};
ghost use Rattle.overlay_rules.specs.Replicas.{awaits, on_replica_ack};
ghost use Rattle.past_core.specs.Acks.{acked, IsWithin, ack_outcome};

use crate::past::Past;
use ring_math::{FileId, Id, Ids, IdsBuilder, OutOfMemory};
use std::alloc::Global;

/// What an acknowledgement is for.
#[derive(Drop)]
pub enum Ack {
    /// No insert awaits it.
    Unknown,
    /// The insert at this place, from 0, which awaits these besides.
    Heard { place: usize, awaited: Ids },
    /// The insert at this place, from 0, which awaits nobody else.
    Last { place: usize },
}

/// Those that are not this node, in order.
fn all_but(ids: &Ids, id: Id) -> IdsBuilder
    ensures { result ≡ filter (λ y. not (y == id)) ids.now }
{
    let mut others = IdsBuilder::new();
    for other in ids.as_slice() {
        if *other != id {
            others.push(*other);
        }
    }
    others
}

impl Past {
    /// What this acknowledgement is for. It changes nothing, and can want memory only where an insert awaits it.
    pub fn what_ack(
        &self,
        alloc: Global,
        sender: Id,
        origin: Id,
        number: u64,
        file: &FileId,
    ) -> Result<Ack, OutOfMemory>
        ensures row { (s : State) → let before : State = record s { pending = self.now.asks } in
            IfOk result (λ ack. on_replica_ack before sender origin number file.now ≡ acked before origin number ack) }
        ensures within { IfOk result (IsWithin (length self.now.asks)) }
        ensures refused { OnErr result (position (awaits sender origin number file.now) self.now.asks ≡ None → ⊥) }
    {
        let Some(place) = self.ack_place(sender, origin, number, file) else {
            return Ok(Ack::Unknown);
        };
        let awaited = all_but(&self.as_slice()[place].awaited, sender);
        if awaited.as_slice().is_empty() {
            return Ok(Ack::Last { place });
        }
        let awaited = awaited.finish(alloc)?;
        Ok(Ack::Heard { place, awaited })
    }

    /// Notes that the sender holds a replica for this command's insert of this file. It answers the nodes that hold one
    /// beside the root, nearest to the key first, exactly where this acknowledgement was the last one awaited; the insert
    /// is taken away then. After `OutOfMemory`, which comes only where an insert awaits the sender, the same wait as before.
    pub fn on_ack(
        &mut self,
        alloc: Global,
        sender: Id,
        origin: Id,
        number: u64,
        file: FileId,
    ) -> Result<Option<Ids>, OutOfMemory>
        ensures row { (s : State) → IfOk result (λ targets.
            on_replica_ack (record s { pending = self.old.asks }) sender origin number file
            ≡ ack_outcome (record s { pending = self.new.asks }) origin number targets) }
        ensures refused { OnErr result (position (awaits sender origin number file) self.old.asks ≡ None → ⊥) }
        ensures as_before { OnErr result (self.new.asks ≡ self.old.asks) }
    {
        match self.what_ack(alloc, sender, origin, number, &file)? {
            Ack::Unknown => Ok(None),
            Ack::Heard { place, awaited } => {
                self.hear(place, awaited);
                Ok(None)
            }
            Ack::Last { place } => Ok(self.take_out(place).map(|ask| ask.targets)),
        }
    }
}
