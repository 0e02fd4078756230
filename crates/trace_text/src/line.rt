//! The lines of a trace.

use overlay_rules::Event;
use ring_math::Id;
use wire_msg::{Envelope, Note};

/// A line of a trace.
#[derive(Drop)]
pub(crate) enum Line {
    /// The format and its version.
    Trace,
    Node(Id),
    Founder(Id),
    /// The event with which an entry begins.
    Event(Event),
    /// What the entry sent.
    Sent(Envelope),
    /// What the entry noted.
    Note(Note),
    End { skipped: u64 },
}
