//! What a cell carries while it serves from mailboxes.

use node_mailbox::Passes;
use wire_msg::Frame;

/// A cell's passes, and how far it is with them.
#[derive(Drop)]
pub(crate) struct Carried {
    pub(crate) passes: Passes,
    /// The frame that was taken from the cell's own mailbox last, where it could not be handled.
    pub(crate) in_hand: Option<Frame>,
    /// How often the first unsent frame was put already.
    pub(crate) copies: u8,
}
