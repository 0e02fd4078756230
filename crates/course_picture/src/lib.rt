//! The course of a record as a picture: a lifeline for each node, an entry below another, and each message as an arrow from the
//! entry that sent it to each that delivered it.
#![tactic(auto)]

mod arrows;
mod board;
mod course;
mod drawing;
mod fate;
mod front;
mod laws;
mod marks;
mod names;
mod rows;
mod sizes;
mod ways;
mod words;

pub use board::{course_height, course_width};
pub use course::{Part, put_course};
pub use fate::Fate;
pub use laws::{
    each_arrow_is_of_a_message, each_message_has_its_arrow, legal_records_are_in_order,
    nodes_stand_apart,
};
pub use sizes::MOST_ROWS;

#[cfg(test)]
mod tests;
