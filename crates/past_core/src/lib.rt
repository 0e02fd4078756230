//! The files of a root: inserts that wait for replicas, and what comes of an insert, a replica, an acknowledgement and a
//! reclaim (PAST, Rowstron and Druschel 2001).
//!
//! Each call is given twice: as one that only reads, for a caller that plans a whole step before it changes anything,
//! beside the change that takes no memory; and as one call that does both.
#![tactic(auto)]

mod acks;
mod asks;
mod inserts;
mod nearest;
mod past;
mod pending;
mod reclaims;
mod replicas;

pub use acks::Ack;
pub use asks::Asks;
pub use inserts::{InsertAsk, InsertStep, InsertWhat, what_insert};
pub use nearest::targets_of;
pub use overlay_rules::Pending;
pub use past::Past;
pub use reclaims::{ReclaimStep, ReclaimWhat};
pub use replicas::on_replicate;

#[cfg(test)]
mod tests;
