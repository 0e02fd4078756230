//! The words of the command line: what the program is to do.
#![tactic(auto)]

mod command;
mod limits;
mod mode;
mod modes;
mod read;

pub use limits::{
    DEFAULT_DRAWN, DEFAULT_FROM, DEFAULT_NODES, DEFAULT_ROOM, DEFAULT_SEED, DEFAULT_SIZE,
    FEWEST_MADE_NODES, LEAST_ROOM, MOST_DRAWN, MOST_MADE_NODES, MOST_ROOM, MOST_SIZE,
};
pub use mode::{Mode, WordFault};
pub use read::{check_words, read_words};

#[cfg(test)]
mod tests;
