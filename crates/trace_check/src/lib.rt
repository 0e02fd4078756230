//! The check of a trace that anybody may have made: whether its record is legal, and if it is not, where it is wrong first.
//!
//! The record is replayed by nodes, entry by entry. Each entry's event has to be one that may come next, and what the entry
//! sent and noted has to be what the step of its node sends and notes. Stamps are not read.
#![tactic(auto)]

mod ahead;
mod checking;
mod laws;
mod numbers;
mod replay;
mod same;
mod verdict;

pub use checking::check;
pub use laws::a_record_has_one_verdict;
pub use trace_text::{MOST_TRACE_BYTES, Nodes, Trace, TraceFault, read_trace, write_trace};
pub use verdict::{Part, Verdict};

#[cfg(test)]
mod tests;
