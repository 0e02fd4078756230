//! What a node keeps.

ghost use Rattle.std.specs.Prelude.{◌≡◌};

use crate::lease::Lease;
use crate::seat::Seat;
use file_store::FileStore;
use lookup_core::Knowledge;
use past_core::Past;
use ring_math::Id;

/// A node. Its parts are here to be read: `commit` changes them.
#[derive(Drop)]
pub struct Node {
    pub me: Id,
    pub seat: Seat,
    pub left_gate: Option<Lease>,
    pub right_gate: Option<Lease>,
    pub known: Knowledge,
    pub store: FileStore,
    pub past: Past,
    /// The numbers of its own requests that are not closed.
    pub waiting: Vec<u64>,
    ghost same_me: { known.leafs.me ≡ me },
}
