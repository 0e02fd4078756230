//! The scenario language: which bytes are which scenario, and for all other bytes the one fault with its line and place.
#![tactic(auto)]

mod act;
mod action;
mod builder;
mod command;
mod declare;
mod fault;
mod form;
mod limits;
mod lines;
mod name;
mod named;
mod node;
mod operands;
mod read;
mod scenario;
mod spelling;
mod tally;
#[cfg(test)]
mod tests;
mod words;

pub use action::{Action, What};
pub use builder::ScenarioBuilder;
pub use declare::content_of;
pub use fault::LineFault;
pub use form::{Form, Part, form_with};
pub use limits::{
    MOST_DELIVERIES, MOST_FILES, MOST_LETTERS, MOST_LINE_BYTES, MOST_LINES, MOST_NAME_BYTES,
    MOST_NODES, MOST_REPEATS,
};
pub use lines::split_line;
pub use name::Name;
pub use node::{FileLine, NodeLine};
pub use operands::{bytes_at, check_key, check_length, check_name, number_at, salt_at};
pub use read::{first_outside_text, is_comment, read_scenario};
pub use scenario::Scenario;
pub use spelling::{behind_at, is_dash, is_name, number};
pub use tally::Tally;
pub use words::{Word, words_in};
