//! A ready node as gatekeeper of its two sides. It gives a joiner a lease on a side, and there is one joiner at a time on each.
//! What a lease hands over is kept elsewhere: here are the links and the gates alone, and no call takes memory.
#![tactic(auto)]

mod links;

pub use links::Links;
pub use overlay_rules::{Gate, Verdict};

#[cfg(test)]
mod tests;
