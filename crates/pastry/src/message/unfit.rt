//! Why a scenario can't be run, with the line that a run can't have.

use crate::message::line::{first_word, line_of};
use crate::message::shown::Shown;
use overlay_harness::MOST_RUN_NODES;
use std::fmt;

/// The first line of a scenario that a run can't have.
#[derive(Clone, Copy)]
pub(crate) struct Unfit<'a> {
    pub(crate) number: u32,
    /// The scenario, if it is at hand.
    pub(crate) text: Option<&'a [u8]>,
}

impl fmt::Display for Unfit<'_> {
    fn fmt<W: fmt::Write>(&self, f: &mut fmt::Formatter<W>) -> fmt::Result {
        let number = self.number;
        let line = line_of(self.text.unwrap_or(&[]), number);
        if first_word(line) == b"node".as_slice() {
            return write!(
                f,
                "line {number}: a run has at most {MOST_RUN_NODES} nodes, each a thread; play takes more"
            );
        }
        let shown = Shown(line);
        write!(
            f,
            "line {number}: a run can't have {shown}, since its threads choose which message comes next; \
             \"settle N\" lets each node take up to N, and play delivers as the lines say"
        )
    }
}
