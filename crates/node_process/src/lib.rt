//! One node as a process: lines come in, and each is answered before the next is read.
//!
//! A line tells the node a command of its own user, or brings bytes from the network. The answer names what the node sends, what it
//! notes, and the stamp of the step. Who carries what is sent, and how, is no matter of the node: what it does with what it is
//! given is that of a cell, whose history is not kept.
#![tactic(auto)]

mod process;
mod texts;

pub use process::NodeProcess;
pub use texts::{put_done, put_refused};

#[cfg(test)]
mod tests;
