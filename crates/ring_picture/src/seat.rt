//! What the picture shows of nodes.

ghost use Rattle.std.specs.Prelude.{◌≡◌, ℕ, IfOk};
ghost use Rattle.overlay_rules.specs.State.{State};
ghost use Rattle.world_model.specs.Cells.{AllStand, ids_of};
ghost use Rattle.ring_picture.specs.Seats.{owner_of, ready_ids, seats_of};

use coverage::{Reach, closest_of};
use ring_math::{Id, OutOfMemory};
use std::alloc::Global;
use world_model::Cells;

/// What the picture shows of a node.
#[derive(Clone, Copy, PartialEq, Eq, Debug)]
pub struct Seat {
    /// The node.
    pub id: Id,
    /// Its links and the joiners of its gates, where it is ready.
    pub reach: Option<Reach>,
}

/// The seats of all nodes, in this order.
pub(crate) fn seats_of(alloc: Global, cells: &Cells, nodes: &[Id]) -> Result<Vec<Seat>, OutOfMemory>
    requires { ids_of cells.now ≡ nodes.now }
    ensures { (states : ℕ → State) → AllStand cells.now states → IfOk result (λ seats. seats.items ≡ seats_of states nodes.now) }
{
    let mut seats = Vec::new(alloc);
    for place in 0..nodes.len() {
        let id = &nodes[place];
        seats.push(Seat {
            id: *id,
            reach: cells.reach(place),
        })?;
    }
    Ok(seats)
}

/// The nodes that are ready.
pub(crate) fn ready_ids(alloc: Global, seats: &[Seat]) -> Result<Vec<Id>, OutOfMemory>
    ensures { IfOk result (λ ready. ready.items ≡ ready_ids seats.now) }
{
    let mut ready = Vec::new(alloc);
    for seat in seats {
        if seat.reach.is_some() {
            ready.push(seat.id)?;
        }
    }
    Ok(ready)
}

/// Of these nodes the one that is closest to the key.
pub(crate) fn owner_of(ready: &[Id], key: Id) -> Option<Id>
    ensures { result ≡ owner_of ready.now key }
{
    match closest_of(ready, key) {
        Some(place) => Some(ready[place]),
        None => None,
    }
}
