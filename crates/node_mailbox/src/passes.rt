//! A pass to each mailbox of a post.

ghost use Rattle.std.specs.Prelude.{◌≡◌, ◌≤◌, ◌<◌, ℕ, length, map, slice_set, All, IfOk, IfErr, IfSome, IfNone, OnOk, OnErr};
ghost use Rattle.node_mailbox.specs.Pass.{after_put, after_take, after_split, split_off, after_join, TookOnlyPut, TookAllPut};
ghost use Rattle.node_mailbox.specs.Post.{AreOf, AreOfFirst, mailbox_at, pass_at, after_joins};

use crate::mailbox::MailPass;
use crate::post::Post;
use ring_math::OutOfMemory;
use std::alloc::Global;
use std::marker::Model;
use std::sync::Wait;
use wire_msg::Frame;

/// A pass to the mailbox of each node, in the order of the post.
#[derive(Drop)]
pub struct Passes {
    pub(crate) passes: Vec<MailPass>,
}

impl Model for Passes {
    ghost use Rattle.std.specs.Prelude.{List};
    ghost use Rattle.node_mailbox.specs.Pass.{PassView};

    ghost Value = { List PassView };

    ghost view = { λ p. p.passes.items };
}

impl Passes {
    /// Puts the frame into the mailbox at this place, or hands it back for want of memory.
    pub fn put<R: Wait>(
        &mut self,
        rt: &R,
        post: &Post,
        place: usize,
        frame: Frame,
    ) -> Result<(), Frame>
        requires of { AreOf self.old post.now }
        requires place { place < length post.now.nodes }
        ensures of { AreOf self.new post.now }
        ensures ok { OnOk result (self.new ≡ slice_set self.old place (after_put (pass_at self.old place) frame)) }
        ensures err { OnErr result (self.new ≡ self.old) }
        ensures back { IfErr result (λ back. back ≡ frame) }
    {
        let pass = &mut self.passes[place];
        post.mailbox(place).put(rt, pass, frame)
    }

    /// Takes the frame at the front of the mailbox at this place. `None` comes only where its queue was empty at a moment
    /// of this call.
    pub fn take<R: Wait>(&mut self, rt: &R, post: &Post, place: usize) -> Option<Frame>
        requires of { AreOf self.old post.now }
        requires place { place < length post.now.nodes }
        ensures of { AreOf self.new post.now }
        ensures some { IfSome result (λ frame. self.new ≡ slice_set self.old place (after_take (pass_at self.old place) frame)) }
        ensures none { IfNone result (self.new ≡ self.old) }
        ensures was_put { TookOnlyPut (pass_at self.new place) }
        ensures was_empty { IfNone result (TookAllPut (pass_at self.new place)) }
    {
        let pass = &mut self.passes[place];
        post.mailbox(place).take(rt, pass)
    }

    /// Gives one part of each pass to a new one. After `OutOfMemory` those that were already split are joined back.
    pub fn split<R: Wait>(
        &mut self,
        rt: &R,
        alloc: Global,
        post: &Post,
    ) -> Result<Passes, OutOfMemory>
        requires of { AreOf self.old post.now }
        requires two { All (λ pass. 2 ≤ pass.parts) self.old }
        ensures of { AreOf self.new post.now }
        ensures new_of { IfOk result (λ new. AreOf new post.now) }
        ensures old { OnOk result (self.new ≡ map after_split self.old) }
        ensures new { IfOk result (λ new. new ≡ map split_off self.old) }
        ensures err { OnErr result (self.new ≡ self.old) }
    {
        let mut passes = Vec::with_capacity(alloc, self.passes.len())?;
        for place in 0..self.passes.len() {
            match self.split_one(rt, post, place) {
                Ok(pass) => passes.push_reserved(pass),
                Err(fault) => {
                    self.join_first(rt, post, passes);
                    return Err(fault);
                }
            }
        }
        Ok(Passes { passes })
    }

    fn split_one<R: Wait>(
        &mut self,
        rt: &R,
        post: &Post,
        place: usize,
    ) -> Result<MailPass, OutOfMemory>
        requires of { AreOf self.old post.now }
        requires place { place < length post.now.nodes }
        requires two { 2 ≤ (pass_at self.old place).parts }
        ensures of { AreOf self.new post.now }
        ensures old { OnOk result (self.new ≡ slice_set self.old place (after_split (pass_at self.old place))) }
        ensures new { IfOk result (λ new. new ≡ split_off (pass_at self.old place)) }
        ensures err { OnErr result (self.new ≡ self.old) }
    {
        let pass = &mut self.passes[place];
        post.mailbox(place).split(rt, pass)
    }

    /// Joins each of the others into the pass to the same mailbox.
    pub fn join<R: Wait>(&mut self, rt: &R, post: &Post, other: Passes)
        requires of { AreOf self.old post.now }
        requires other { AreOf other post.now }
        ensures of { AreOf self.new post.now }
        ensures joined { self.new ≡ after_joins self.old other }
        ensures was_put { All TookOnlyPut self.new }
    {
        let Passes { passes } = other;
        self.join_first(rt, post, passes);
    }

    /// Joins passes to the first mailboxes of the post.
    fn join_first<R: Wait>(&mut self, rt: &R, post: &Post, mut passes: Vec<MailPass>)
        requires of { AreOf self.old post.now }
        requires passes { AreOfFirst passes.items post.now }
        ensures of { AreOf self.new post.now }
        ensures joined { self.new ≡ after_joins self.old passes.items }
        ensures was_put { (place : ℕ) → place < length passes.items → TookOnlyPut (pass_at self.new place) }
    {
        while let Some(pass) = passes.pop() {
            self.join_one(rt, post, passes.len(), pass);
        }
    }

    fn join_one<R: Wait>(&mut self, rt: &R, post: &Post, place: usize, other: MailPass)
        requires of { AreOf self.old post.now }
        requires place { place < length post.now.nodes }
        requires other { other.mailbox ≡ mailbox_at post.now place }
        ensures of { AreOf self.new post.now }
        ensures joined { self.new ≡ slice_set self.old place (after_join (pass_at self.old place) other) }
        ensures was_put { TookOnlyPut (pass_at self.new place) }
    {
        let pass = &mut self.passes[place];
        post.mailbox(place).join(rt, pass, other);
    }
}
