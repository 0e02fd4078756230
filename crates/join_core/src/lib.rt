//! A node that joins: it asks for its place, probes the leaves that it learns of, takes the leases of both neighbours,
//! and is done. Each call is one input's part in that, and answers what the node is to send.
#![tactic(auto)]

mod attempt;
mod joiner;
mod laws;
mod probed;
mod steps;

pub use attempt::Attempt;
pub use joiner::Joiner;
pub use laws::rows_law;
pub use probed::Probed;
pub use steps::{Begin, Finished, GrantStep, Halted, ProbeStep};

#[cfg(test)]
mod tests;
