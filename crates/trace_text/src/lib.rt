//! Traces: a setting and a record as a text, written and read.
#![tactic(auto)]

mod fault;
mod form;
mod front;
mod lanes;
mod last_entry;
mod laws;
mod limits;
mod line;
mod operands;
mod reader;
mod trace;
mod words;
mod writer;

pub use fault::TraceFault;
pub use laws::{
    a_line_follows_where_a_trace_goes_on, a_text_has_one_fault, a_text_has_one_reading,
    no_trace_has_a_fault,
};
pub use limits::MOST_TRACE_BYTES;
pub use reader::read_trace;
pub use trace::{Nodes, Trace};
pub use writer::write_trace;

#[cfg(test)]
mod tests;
