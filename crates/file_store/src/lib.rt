//! The store of a node: for each file that it knows, the bytes or a tombstone.
//!
//! A file is immutable, and a reclaimed one stays a tombstone for good. At most [`MOST_ENTRIES`](ring_math::MOST_ENTRIES) entries stand.
#![tactic(auto)]

mod after;
mod answer;
mod arena;
mod order;
mod store;

pub use after::Buried;
pub use answer::{Bury, Put};
pub use store::FileStore;

#[cfg(test)]
mod tests;
