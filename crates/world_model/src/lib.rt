//! The world: nodes, and the record of all that happens among them.
//!
//! A world is seen as its setting and its entries, which are always a legal record of that setting. Each node stands for its
//! state after them. A command, a delivery and noise each add one entry; what an event costs is what its messages cost, however
//! long the record is. What can be refused is done before anything changes, so that after `OutOfMemory` a world is as before.
#![tactic(auto)]

mod cells;
mod index;
mod world;

pub use cells::Cells;
pub use overlay_rules::{Entries, Entry, EntryRef, Event, EventRef, Record};
pub use world::World;

#[cfg(test)]
mod tests;
