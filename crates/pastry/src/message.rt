//! Faults in plain words.

mod before;
mod expected;
mod explained;
mod form;
mod group_line;
mod line;
mod odd_byte;
mod remark;
mod shown;
mod unfit;
mod word_count;

pub(crate) use before::Before;
pub(crate) use explained::Explained;
pub(crate) use group_line::ExplainedScript;
pub(crate) use shown::Grouped;
pub(crate) use unfit::Unfit;
