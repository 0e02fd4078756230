//! A mailbox, and a pass to it.

ghost use Rattle.std.specs.Prelude.{◌≡◌, ◌≤◌, IfOk, IfErr, IfSome, IfNone, OnOk, OnErr};
ghost use Rattle.node_mailbox.specs.Pass.{fresh_pass, after_put, after_take, after_split, split_off, after_join, TookOnlyPut, TookAllPut};
ghost use Rattle.node_mailbox.specs.declared.limits.TheConstants.{ALL_PARTS};

use crate::hand::Hand;
use crate::rule::{Parts, Pop, Push, Queue};
use crossbeam_queue::SegPass;
use ring_math::OutOfMemory;
use std::alloc::Global;
use std::marker::Model;
use std::sync::Wait;
use wire_msg::Frame;

/// A queue of frames, first in, first out. Contracts see its name, by which its passes are known.
pub struct Mailbox {
    queue: Queue,
}

impl Model for Mailbox {
    ghost use Rattle.std.specs.Prelude.{ℕ};

    ghost Value = { ℕ × ℕ };

    ghost view = { λ m. m.queue.web };
}

/// The right to put into one mailbox and to take from it. It has no bytes: contracts alone see what it put and took.
#[derive(Drop)]
pub struct MailPass {
    pass: SegPass<Frame, Hand>,
}

impl Model for MailPass {
    ghost use Rattle.std.specs.Prelude.{◌≡◌, ◌<◌, None};
    ghost use Rattle.node_mailbox.specs.Pass.{PassView, pass_view};

    ghost Value = { PassView };

    ghost view = { λ p. pass_view p.pass.web p.pass.me.view.client.parts p.pass.me.view.client.put p.pass.me.view.client.taken };

    // between two calls the pass holds no frame and no block, and it has a part
    ghost invariant = { λ p. (p.pass.me.hand ≡ None) × (p.pass.me.spare ≡ None) × (0 < p.pass.me.view.client.parts) };
}

impl Mailbox {
    /// An empty mailbox, and the pass with [`ALL_PARTS`] of it.
    pub fn new(alloc: Global) -> Result<(Mailbox, MailPass), OutOfMemory>
        ensures { IfOk result (λ made. made.1 ≡ fresh_pass made.0 ALL_PARTS) }
    {
        let (queue, pass) = Queue::with_rule(alloc)?;
        Ok((Mailbox { queue }, MailPass { pass }))
    }

    /// Puts the frame at the back, or hands it back for want of memory.
    pub fn put<R: Wait>(&self, rt: &R, pass: &mut MailPass, frame: Frame) -> Result<(), Frame>
        requires { pass.old.mailbox ≡ self.now }
        ensures mailbox { pass.new.mailbox ≡ pass.old.mailbox }
        ensures ok { OnOk result (pass.new ≡ after_put pass.old frame) }
        ensures err { OnErr result (pass.new ≡ pass.old) }
        ensures back { IfErr result (λ back. back ≡ frame) }
    {
        self.queue.push_as::<Push, R>(rt, &mut pass.pass, frame)
    }

    /// Takes the frame at the front. `None` comes only where the queue was empty at a moment of this call.
    pub fn take<R: Wait>(&self, rt: &R, pass: &mut MailPass) -> Option<Frame>
        requires { pass.old.mailbox ≡ self.now }
        ensures mailbox { pass.new.mailbox ≡ pass.old.mailbox }
        ensures some { IfSome result (λ frame. pass.new ≡ after_take pass.old frame) }
        ensures none { IfNone result (pass.new ≡ pass.old) }
        ensures was_put { TookOnlyPut pass.new }
        ensures was_empty { IfNone result (TookAllPut pass.new) }
    {
        self.queue.pop_as::<Pop, R>(rt, &mut pass.pass)
    }

    /// Gives one part to a new pass, which has put and taken nothing.
    pub fn split<R: Wait>(&self, rt: &R, pass: &mut MailPass) -> Result<MailPass, OutOfMemory>
        requires mailbox { pass.old.mailbox ≡ self.now }
        requires two { 2 ≤ pass.old.parts }
        ensures mailbox { pass.new.mailbox ≡ pass.old.mailbox }
        ensures old { OnOk result (pass.new ≡ after_split pass.old) }
        ensures new { IfOk result (λ new. new ≡ split_off pass.old) }
        ensures err { OnErr result (pass.new ≡ pass.old) }
    {
        let pass = self.queue.another::<Parts>(&mut pass.pass);
        Ok(MailPass { pass })
    }

    /// Joins the other pass into this one: its lists follow, and its parts are added.
    pub fn join<R: Wait>(&self, rt: &R, into: &mut MailPass, other: MailPass)
        requires into { into.old.mailbox ≡ self.now }
        requires other { other.mailbox ≡ self.now }
        ensures mailbox { into.new.mailbox ≡ into.old.mailbox }
        ensures joined { into.new ≡ after_join into.old other }
        ensures was_put { TookOnlyPut into.new }
    {
        let MailPass { pass } = other;
        self.queue.absorb::<Parts>(&mut into.pass, pass);
        // A look at the queue tells what the rule says of the joined pass.
        self.queue.len_as::<Pop, R>(rt, &mut into.pass);
    }
}

impl Drop for Mailbox {
    fn drop(self) {
        let Mailbox { queue } = self;
        queue.destroy();
    }
}
