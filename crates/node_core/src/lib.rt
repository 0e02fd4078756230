//! A node, one step at a time: what a command or a message makes of its state, what it sends and what it notes.
#![tactic(auto)]

mod dispatch;
mod files;
mod input;
mod joins;
mod laws;
mod node;
mod request;
mod sends;

pub use input::{Input, Output};
pub use node::Node;
pub use node_parts::{Change, Prepared};

#[cfg(test)]
mod tests;
