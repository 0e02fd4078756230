//! One node served as a process: lines come from a source, and the answer to each goes to a sink before more is read.
//!
//! The first line names the node, `node ID` or `founder ID`. Each further line tells it a command or brings it bytes from the network.
//! Answers are those of the node's process; what they say is defined there.
#![tactic(auto)]

mod fault;
mod law;
mod serving;
mod session;

pub use fault::ServiceFault;
pub use law::one_conversation;
pub use serving::{MOST_PIECE, serve_node};

#[cfg(test)]
mod tests;
