//! Large files: cut into fragments and an index that names them, and joined again; and scenarios that store and fetch one.
#![tactic(auto)]

mod cutting;
mod fault;
mod joining;
mod large;
mod laws;
mod limits;
mod piece;

pub use cutting::cut;
pub use fault::{CutFault, JoinFault};
pub use joining::{join, join_fault};
pub use large::large_scenario;
pub use laws::pieces_come_back;
pub use limits::{FILE_ID_BYTES, HEAD_BYTES, MOST_FRAGMENTS, MOST_LARGE_BYTES, MOST_LARGE_NAME};
pub use piece::{Piece, PieceList, Pieces};

#[cfg(test)]
mod tests;
