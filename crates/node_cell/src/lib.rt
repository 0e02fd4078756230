//! A cell: a node with the history of all that came to it, and the frames that it is to send.
//!
//! A cell takes in one input after another. Its stamps are Lamport's: each is greater than the one before it and than that of
//! the message that came in, so the stamps of all cells together extend the order in which things could cause one another.
#![tactic(auto)]

mod carried;
mod cell;
mod entry;
mod fault;
mod frames;
mod gathering;
mod live;
mod plan;
mod posting;
mod reading;
mod serving;
mod sharing;
mod stamps;

pub use cell::NodeCell;
pub use entry::{CellEntry, CellInput};
pub use fault::CellFault;
pub use frames::Addressed;
pub use gathering::gather;
pub use live::{LiveNode, Taken};

#[cfg(test)]
mod tests;
