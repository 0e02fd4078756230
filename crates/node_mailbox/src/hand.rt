//! What the rule knows of one pass.

use std::collections::LinkedList;
use wire_msg::Frame;

/// The frames that a pass put and took, and its parts. No value of it is made: it is what contracts say of a pass.
pub(crate) struct Hand {
    pub(crate) parts: u64,
    pub(crate) put: LinkedList<Frame>,
    pub(crate) taken: LinkedList<Frame>,
}
