//! Scripts of groups: which bytes are which script, and for all other bytes the one fault with its line and place.
//!
//! A script is a scenario, a line `groups`, and lines of actions in groups.
#![tactic(auto)]

mod builder;
mod cut;
mod form;
mod guesses;
mod limits;
mod line;
mod read;
mod script;

pub use limits::MOST_SCRIPT_BYTES;
pub use read::read_groups;
pub use script::GroupScript;

#[cfg(test)]
mod tests;
