//! Cells' histories, woven into one record.
//!
//! Every cell keeps its own history, with Lamport's stamps. In the order of stamps, and of nodes where stamps are equal, each
//! message stands behind the entry that sent it: so the entries of all cells, in this order, are a record of them together.
#![tactic(auto)]

mod acts;
mod ahead;
mod fault;
mod given;
mod kept;
mod reading;
mod relay;
mod search;
mod starts;
mod stop;
mod strand;
mod through;
mod untaken;
mod waiting;
mod weaving;

pub use fault::WeaveFault;
pub use reading::all_read;
pub use through::through_cells;
pub use untaken::unread;
pub use waiting::Unread;
pub use weaving::{into_woven, weave};

#[cfg(test)]
mod tests;
