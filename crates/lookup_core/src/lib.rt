//! What a node knows of others, and where it sends what is for a key.
#![tactic(auto)]

mod hop;
mod knowledge;

pub use coverage::Hop;
pub use hop::next_hop;
pub use knowledge::{Knowledge, News};

#[cfg(test)]
mod slow;
#[cfg(test)]
mod tests;
