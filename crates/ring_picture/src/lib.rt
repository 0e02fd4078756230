//! The ring of nodes as a picture: the circle of identifiers, each node at its angle, the links and the gates of those that are
//! ready, and the keys of files, each with an arrow to its owner, which is the ready node that is closest to it.
//!
//! Angles are made from identifiers by whole numbers, and all turning is left to the picture's own rotation. Arrows along the
//! circle are dashes of it. So no place on the circle is ever computed.
#![tactic(auto)]

mod angle;
mod captions;
mod keys;
mod laws;
mod layout;
mod nodes;
mod ring;
mod seat;
mod sides;
mod way;

pub use laws::{owners_are_closest, ready_are_ready};
pub use layout::ring_size;
pub use ring::put_ring;

#[cfg(test)]
mod tests;
