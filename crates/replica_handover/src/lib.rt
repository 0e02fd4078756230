//! What a node hands over to one that joins beside it: the files and the tombstones whose keys are in its gap.
#![tactic(auto)]

mod gap;
mod taking;

pub use gap::{in_gap, tombs_in_gap};
pub use taking::{Pledge, Taking};

#[cfg(test)]
mod tests;
