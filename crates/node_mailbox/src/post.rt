//! A mailbox for each of some nodes.

ghost use Rattle.std.specs.Prelude.{◌≡◌, ◌≢◌, ◌<◌, ℕ, Some, length, map, slice_get, All, AllPairs, IfOk, IfSome, IfNone};
ghost use Rattle.node_mailbox.specs.Pass.{fresh_pass};
ghost use Rattle.node_mailbox.specs.Post.{AreOf, mailbox_at};
ghost use Rattle.node_mailbox.specs.declared.limits.TheConstants.{ALL_PARTS};

use crate::mailbox::Mailbox;
use crate::passes::Passes;
use ring_math::{Id, OutOfMemory};
use std::alloc::Global;
use std::marker::Model;

/// The mailboxes of nodes, found by the nodes' places.
#[derive(Drop)]
pub struct Post {
    nodes: Vec<Id>,
    mailboxes: Vec<Mailbox>,
}

impl Model for Post {
    ghost use Rattle.std.specs.Prelude.{◌≡◌, ◌≢◌, length, AllPairs};
    ghost use Rattle.node_mailbox.specs.Post.{PostView};

    ghost Value = { PostView };

    ghost view = { λ p. record { nodes = p.nodes.items; mailboxes = p.mailboxes.items } };

    ghost invariant = { λ p. (length p.mailboxes.items ≡ length p.nodes.items) × AllPairs ◌≢◌ p.nodes.items };
}

impl Post {
    /// An empty mailbox for each node, and the passes with all parts of each.
    pub fn new(alloc: Global, nodes: &[Id]) -> Result<(Post, Passes), OutOfMemory>
        requires { AllPairs ◌≢◌ nodes.now }
        ensures nodes { IfOk result (λ made. made.0.nodes ≡ nodes.now) }
        ensures passes { IfOk result (λ made. made.1 ≡ map (λ mailbox. fresh_pass mailbox ALL_PARTS) made.0.mailboxes) }
        ensures of { IfOk result (λ made. AreOf made.1 made.0) }
    {
        let mut mailboxes = Vec::with_capacity(alloc, nodes.len())?;
        let mut passes = Vec::with_capacity(alloc, nodes.len())?;
        for _ in nodes {
            let (mailbox, pass) = Mailbox::new(alloc)?;
            mailboxes.push(mailbox)?;
            passes.push(pass)?;
        }
        let nodes = nodes.to_vec(alloc)?;
        Ok((Post { nodes, mailboxes }, Passes { passes }))
    }

    /// The mailbox of the node at a place.
    pub fn mailbox(&self, place: usize) -> &Mailbox
        requires { place < length self.now.nodes }
        ensures { result.now ≡ mailbox_at self.now place }
    {
        &self.mailboxes[place]
    }

    /// The node's place, `None` exactly where the post has no mailbox for it.
    pub fn place(&self, node: Id) -> Option<usize>
        ensures some { IfSome result (λ place. slice_get self.now.nodes place ≡ Some node) }
        ensures none { IfNone result (All (λ other. other ≢ node) self.now.nodes) }
        ensures only { (place : ℕ) → slice_get self.now.nodes place ≡ Some node → result ≡ Some place }
    {
        self.nodes.iter().position(|other| *other == node)
    }
}
