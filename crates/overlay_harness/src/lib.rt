//! Scenarios that are run: every node is a cell of its own, and what they did is woven into one record.
//!
//! In a play one message after another is chosen. In a run a scenario's stages say only how many frames each node may take, so
//! there are many runs of a scenario. What each of them keeps is said once, as a definition.
#![tactic(auto)]

mod cells;
mod enough;
mod fault;
mod hand;
mod idle;
mod limits;
mod rounds;
mod runs;
mod stage;
mod telling;
mod threaded;
mod unfit;
mod worker;

pub use cells::new_cells;
pub use fault::RunFault;
pub use hand::{hand_over_unread, serve_by_hand};
pub use limits::MOST_RUN_NODES;
pub use runs::{cells_served_by_hand, run, run_by_hand, tested_run, woven_run};
pub use stage::{Stage, stages};
pub use telling::tell_all;
pub use unfit::first_unfit_line;

#[cfg(test)]
mod tests;
