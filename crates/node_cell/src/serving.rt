//! A cell that serves from its own mailbox.

ghost use Rattle.std.specs.Prelude.{◌≡◌, true, false, Some, None, [], All, Contains, IfOk, IfErr, IfSome, IfNone, IsSome, OnOk, OnErr, slice_get};
ghost use Rattle.node_mailbox.specs.Pass.{TookAllPut};
ghost use Rattle.node_mailbox.specs.Post.{PostView, AreOf, pass_at};
ghost use Rattle.node_cell.specs.Carried.{KeepsPasses, just_given};
ghost use Rattle.node_cell.specs.Equipped.{AreOwnOf, GoesOn, HasPassesOf, IsUnused, TookOut};
ghost use Rattle.node_cell.specs.Taken.{IsDueToBytes, TookBytes};
ghost use Rattle.node_cell.specs.Serving.{FoundNone, Refused, Served, TakesInHand, holding};

use crate::carried::Carried;
use crate::cell::NodeCell;
use crate::fault::CellFault;
use node_mailbox::{Passes, Post};
use ring_math::Id;
use std::alloc::Global;
use std::sync::Wait;
use wire_msg::Frame;

impl NodeCell {
    /// Gives the cell a pass to each mailbox of a post. Nothing came to the cell yet, and the passes have put and taken nothing.
    pub fn equip(&mut self, passes: Passes)
        requires new { self.old.history ≡ [] }
        requires none { self.old.carried ≡ None }
        requires unused { All IsUnused passes }
        ensures cell { self.new ≡ record self.old { carried = Some (just_given passes) } }
        ensures of { (post : PostView) → AreOf passes post → HasPassesOf post self.new }
    {
        self.carried = Some(Carried {
            passes,
            in_hand: None,
            copies: 0,
        });
    }

    /// Takes the passes out again, with the frame that was taken from the cell's own mailbox and could not be handled, if there
    /// is one.
    pub fn unequip(&mut self) -> (Passes, Option<Frame>)
        requires { IsSome self.old.carried }
        ensures { TookOut self.old result.0 result.1 self.new }
    {
        match self.carried.take() {
            Some(
                Carried {
                    passes,
                    in_hand,
                    ..
                },
            ) => (passes, in_hand),
            None => unreachable!(),
        }
    }

    /// Handles the frame in hand, or where there is none the next frame of the cell's own mailbox, as [`NodeCell::handle`] does.
    /// It answers false, with nothing changed, only where no frame is in hand and the mailbox was empty at a moment of this
    /// call. After a fault the frame is in hand, and the node and its history are as before.
    pub fn serve<R: Wait>(&mut self, rt: &R, alloc: Global, post: &Post) -> Result<bool, CellFault>
        requires passes { HasPassesOf post.now self.old }
        requires node { Contains post.now.nodes self.old.node }
        ensures passes { HasPassesOf post.now self.new }
        ensures goes_on { GoesOn self.old self.new }
        ensures served { IfOk result (λ served. served ≡ true → Served post.now self.old self.new) }
        ensures none { IfOk result (λ served. served ≡ false → FoundNone post.now self.old) }
        ensures same { IfOk result (λ served. served ≡ false → self.new ≡ self.old) }
        ensures err { IfErr result (λ fault. Refused post.now self.old fault self.new) }
    {
        let Some(mut carried) = self.carried.take() else {
            unreachable!()
        };
        let Some(frame) = carried.next_frame(rt, post, self.node.id()) else {
            self.carried = Some(carried);
            return Ok(false);
        };
        self.serve_frame(alloc, carried, frame)?;
        Ok(true)
    }

    /// Handles a frame while the cell has not what it carries, and gives it this back. After a fault the frame is in hand.
    fn serve_frame(
        &mut self,
        alloc: Global,
        mut carried: Carried,
        frame: Frame,
    ) -> Result<(), CellFault>
        requires without { self.old.carried ≡ None }
        requires no_hand { carried.in_hand ≡ None }
        requires keeps { KeepsPasses self.old.node self.old.history (holding frame carried) }
        ensures ok { OnOk result (TookBytes (record self.old { carried = Some carried }) frame self.new) }
        ensures err { OnErr result (self.new ≡ record self.old { carried = Some (holding frame carried) }) }
        ensures due { IfErr result (IsDueToBytes self.old frame) }
    {
        match self.handle(alloc, frame.as_slice()) {
            Ok(()) => {
                self.carried = Some(carried);
                Ok(())
            }
            Err(fault) => {
                carried.in_hand = Some(frame);
                self.carried = Some(carried);
                Err(fault)
            }
        }
    }
}

impl Carried {
    /// The frame in hand, which is then in hand no longer, or else the next frame of the node's mailbox.
    fn next_frame<R: Wait>(&mut self, rt: &R, post: &Post, node: Id) -> Option<Frame>
        requires passes { AreOwnOf post.now node self.old.passes }
        requires node { Contains post.now.nodes node }
        ensures passes { AreOwnOf post.now node self.new.passes }
        ensures some { IfSome result (λ frame. TakesInHand post.now node self.old.in_hand self.old frame (holding frame self.new)) }
        ensures empty_hand { self.new.in_hand ≡ None }
        ensures kept { (es : _) → KeepsPasses node es self.old → IfSome result (λ frame. KeepsPasses node es (holding frame self.new)) }
        ensures none { IfNone result (self.new ≡ self.old) }
        ensures was_empty { IfNone result ((place : _) × (slice_get post.now.nodes place ≡ Some node) × TookAllPut (pass_at self.old.passes place)) }
    {
        if let Some(frame) = self.in_hand.take() {
            return Some(frame);
        }
        let place = post.place(node)?;
        self.passes.take(rt, post, place)
    }
}
