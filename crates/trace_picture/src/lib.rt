//! The picture of a trace: on the left the ring of its nodes, on the right the course of its messages.
#![tactic(auto)]

mod drawing;
mod keys;
mod replay;
mod verdict;
mod window;

pub use drawing::picture;

#[cfg(test)]
mod tests;
