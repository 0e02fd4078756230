//! Limits of what a node is told.

/// The most bytes of a line that brings bytes from the network. Every frame that a node sends fits.
pub const MOST_FRAME_LINE: usize = 400_000;
