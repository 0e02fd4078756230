//! The passes of all cells, taken in.

ghost use Rattle.std.specs.Prelude.{◌≡◌, length, map, All};
ghost use Rattle.node_mailbox.specs.Pass.{TookOnlyPut};
ghost use Rattle.node_mailbox.specs.Post.{AreOf};
ghost use Rattle.weave_laws.specs.Answered.{AllSent};
ghost use Rattle.node_cell.specs.Equipped.{HasPassesOf};
ghost use Rattle.node_cell.specs.Gathering.{HasAllParts, HaveAllParts, PutNoiseAlone, all_joined, without_passes};
ghost use Rattle.node_cell.specs.Histories.{histories};

use crate::cell::NodeCell;
use node_mailbox::{Passes, Post};
use std::sync::Wait;

/// Takes the passes out of each cell in order, and joins them into these. A frame in hand is given up. It takes no memory.
///
/// There is a cell for each node of the post, and all passes together have all parts of each mailbox. The passes that the cells
/// are joined into put no frame that spells an envelope. So each envelope that a cell took was sent by one of these cells.
pub fn gather<R: Wait>(rt: &R, post: &Post, own: Passes, cells: &mut [NodeCell]) -> Passes
    requires own { AreOf own post.now }
    requires cells { All (HasPassesOf post.now) cells.old }
    requires nodes { length cells.old ≡ length post.now.nodes }
    requires parts { HaveAllParts post.now own cells.old }
    requires noise { PutNoiseAlone own }
    ensures of { AreOf result post.now }
    ensures joined { result ≡ all_joined own cells.old }
    ensures parts { All HasAllParts result }
    ensures was_put { All TookOnlyPut result }
    ensures cells { cells.new ≡ map without_passes cells.old }
    ensures sent { AllSent (histories cells.new) }
{
    let mut all = own;
    for place in 0..cells.len() {
        let cell = &mut cells[place];
        let (passes, _in_hand) = cell.unequip();
        all.join(rt, post, passes);
    }
    all
}
