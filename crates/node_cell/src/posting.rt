//! A cell that puts its frames into the mailboxes of their receivers.

ghost use Rattle.std.specs.Prelude.{◌≡◌, ◌<◌, ◌≤◌, ◌+◌, ◌-◌, ℕ, true, false, [], length, IfOk, IfErr, OnOk, OnErr};
ghost use Rattle.node_mailbox.specs.Post.{AreOf};
ghost use Rattle.node_cell.specs.Equipped.{GoesOn, HasPassesOf};
ghost use Rattle.node_cell.specs.Posting.{Posted, PutSome, with_puts};

use crate::carried::Carried;
use crate::cell::NodeCell;
use crate::frames::Addressed;
use node_mailbox::Post;
use ring_math::OutOfMemory;
use std::alloc::Global;
use std::sync::Wait;
use wire_msg::Frame;

impl NodeCell {
    /// Puts the first unsent frame so many times, 1 to 4, into its receiver's mailbox, and takes it off the list. Where the
    /// receiver has no mailbox, it is taken off and put nowhere. The answer is false exactly where no frame is unsent. After
    /// `OutOfMemory` the frame is still the first unsent one, and fewer copies may stand in the mailbox; the cell counts
    /// these, and the next call puts only what is wanting to its `copies`.
    pub fn post_one<R: Wait>(
        &mut self,
        rt: &R,
        alloc: Global,
        post: &Post,
        copies: u8,
    ) -> Result<bool, OutOfMemory>
        requires passes { HasPassesOf post.now self.old }
        requires copies { (1 ≤ copies) × (copies ≤ 4) }
        ensures passes { HasPassesOf post.now self.new }
        ensures goes_on { GoesOn self.old self.new }
        ensures posted { IfOk result (λ posted. posted ≡ true → Posted post.now copies self.old self.new) }
        ensures none { IfOk result (λ posted. posted ≡ false → self.old.unsent ≡ []) }
        ensures same { IfOk result (λ posted. posted ≡ false → self.new ≡ self.old) }
        ensures err { OnErr result (PutSome post.now copies self.old self.new) }
    {
        let Some(carried) = &mut self.carried else {
            unreachable!()
        };
        let Some(first) = self.unsent.pop_front() else {
            return Ok(false);
        };
        let Addressed { receiver, frame } = first;
        let Some(place) = post.place(receiver) else {
            carried.copies = 0;
            return Ok(true);
        };
        match carried.put(rt, alloc, post, place, frame, copies) {
            Ok(()) => Ok(true),
            Err(frame) => {
                self.unsent
                    .push_front_reserved(Addressed { receiver, frame });
                Err(OutOfMemory)
            }
        }
    }
}

impl Carried {
    /// Puts the frame so many times in all, the last time itself and before that copies of it. Where memory is refused, the
    /// frame comes back.
    fn put<R: Wait>(
        &mut self,
        rt: &R,
        alloc: Global,
        post: &Post,
        place: usize,
        frame: Frame,
        copies: u8,
    ) -> Result<(), Frame>
        requires of { AreOf self.old.passes post.now }
        requires place { place < length post.now.nodes }
        requires copies { 1 ≤ copies }
        ensures of { AreOf self.new.passes post.now }
        ensures ok { OnOk result (self.new ≡ with_puts place frame (copies - self.old.copies) 0 self.old) }
        ensures err { OnErr result ((n : ℕ) × (self.old.copies + n < copies) × (self.new ≡ with_puts place frame n (self.old.copies + n) self.old)) }
        ensures back { IfErr result (λ back. back ≡ frame) }
    {
        let Ok(()) = self.put_copies(rt, alloc, post, place, &frame, copies - 1) else {
            return Err(frame);
        };
        if self.copies < copies {
            self.passes.put(rt, post, place, frame)?;
        }
        self.copies = 0;
        Ok(())
    }

    /// Puts copies of the frame until so many are counted.
    fn put_copies<R: Wait>(
        &mut self,
        rt: &R,
        alloc: Global,
        post: &Post,
        place: usize,
        frame: &Frame,
        count: u8,
    ) -> Result<(), OutOfMemory>
        requires of { AreOf self.old.passes post.now }
        requires place { place < length post.now.nodes }
        ensures of { AreOf self.new.passes post.now }
        ensures put { (n : ℕ) × (n ≤ count - self.old.copies) × (self.new ≡ with_puts place frame.now n (self.old.copies + n) self.old) }
        ensures ok { OnOk result (count ≤ self.new.copies) }
        ensures err { OnErr result (self.new.copies < count) }
    {
        while self.copies < count {
            let copy = Frame::copy_of(alloc, frame.as_slice())?;
            let Ok(()) = self.passes.put(rt, post, place, copy) else {
                return Err(OutOfMemory);
            };
            self.copies += 1;
        }
        Ok(())
    }
}
