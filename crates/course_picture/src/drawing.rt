//! What an arrow or a row is drawn by.

ghost use Rattle.std.specs.Prelude.{◌≡◌, ◌≤◌, length};
ghost use Rattle.course_picture.specs.Arrows.{senders_from};
ghost use Rattle.course_picture.specs.Words.{names_of};

use crate::board::Board;
use crate::front::Front;
use delivery_report::NodeNames;
use std::alloc::Global;

/// A record, where it is drawn, and what its nodes are called.
#[derive(Drop)]
pub(crate) struct Drawing<'a> {
    pub(crate) alloc: Global,
    pub(crate) board: Board<'a>,
    pub(crate) front: Front<'a>,
    pub(crate) names: NodeNames<'a>,
    /// The place of the entry that sent each message.
    pub(crate) senders: Vec<usize>,
    ghost drawn: { board.stop ≤ length front },
    ghost called: { names ≡ names_of board.nodes },
    ghost sent: { senders.items ≡ senders_from 0 front },
}
