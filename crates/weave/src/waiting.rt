//! A message that waits to be taken.

use ring_math::Id;
use wire_msg::Envelope;

/// A message that no history took, with the entry that sent it: that at this place, from 0, of the node's history.
#[derive(Drop)]
pub struct Unread {
    pub node: Id,
    pub place: u64,
    pub envelope: Envelope,
}
