//! Schedules: what a scenario has happen, one turn after another, and scenarios that are made from a seed.
#![tactic(auto)]

mod begun;
mod cursor;
mod file;
mod laws;
mod made;
mod make;
mod shuffle_words;
mod task;
mod turn;
mod words;

pub use cursor::Cursor;
pub use file::MadeFile;
pub use laws::turn_law;
pub use made::Made;
pub use make::{make_scenario, scenario_of};
pub use shuffle_words::ShuffleWords;
pub use task::{MADE_FILES, Task, plan_joins};
pub use turn::Turn;
pub use words::Words;

#[cfg(test)]
mod tests;
