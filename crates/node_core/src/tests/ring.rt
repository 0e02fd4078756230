//! A few nodes, and all that they send one another.

use super::given::Given;
use super::said::{answer_name, kind};
use crate::{Node, Output};
use ring_math::Id;
use std::alloc::Global;
use std::test::Fail;
use wire_msg::{Command, Message, Note, Outgoing};

/// A message on its way.
#[derive(Drop)]
struct Letter {
    sender: Id,
    receiver: Id,
    message: Message,
}

/// Nodes, all letters in the order in which they were sent, and how commands were closed.
#[derive(Drop)]
pub(super) struct Ring {
    nodes: Vec<Node>,
    letters: Vec<Letter>,
    closed: Vec<(u64, &'static str)>,
}

/// One step of the node with this identifier.
fn step_of(nodes: &mut [Node], alloc: Global, id: Id, given: &Given) -> Result<Output, Fail> {
    for node in nodes {
        if node.id() == id {
            return given.to(node, alloc);
        }
    }
    Err("no such node")?
}

fn post(
    letters: &mut Vec<Letter>,
    alloc: Global,
    sender: Id,
    sends: &[Outgoing],
) -> Result<(), Fail> {
    for sent in sends {
        let message = sent.message.copy(alloc)?;
        letters.push(Letter {
            sender,
            receiver: sent.receiver,
            message,
        })?;
    }
    Ok(())
}

fn close(closed: &mut Vec<(u64, &'static str)>, notes: &[Note]) -> Result<(), Fail> {
    for note in notes {
        if let Note::Closed { number, answer } = note {
            closed.push((*number, answer_name(answer)))?;
        }
    }
    Ok(())
}

impl Ring {
    /// No node yet.
    pub(super) fn new(alloc: Global) -> Ring {
        Ring {
            nodes: Vec::new(alloc),
            letters: Vec::new(alloc),
            closed: Vec::new(alloc),
        }
    }

    pub(super) fn found(&mut self, alloc: Global, id: Id) -> Result<(), Fail> {
        let node = Node::founder(alloc, id)?;
        self.nodes.push(node)?;
        Ok(())
    }

    /// One more node, that is to join.
    pub(super) fn add(&mut self, alloc: Global, id: Id) -> Result<(), Fail> {
        let node = Node::fresh(alloc, id)?;
        self.nodes.push(node)?;
        Ok(())
    }

    fn keep(&mut self, alloc: Global, sender: Id, output: &Output) -> Result<(), Fail> {
        close(&mut self.closed, output.notes.as_slice())?;
        post(&mut self.letters, alloc, sender, output.messages.as_slice())
    }

    fn give(&mut self, alloc: Global, to: Id, given: &Given) -> Result<(), Fail> {
        let output = step_of(&mut self.nodes, alloc, to, given)?;
        self.keep(alloc, to, &output)
    }

    /// The node begins to join.
    pub(super) fn join(
        &mut self,
        alloc: Global,
        node: Id,
        number: u64,
        via: Id,
    ) -> Result<(), Fail> {
        let command = Command::Join { via };
        let given = Given::Command { number, command };
        self.give(alloc, node, &given)
    }

    /// The letter at this place comes; nothing comes where none was sent.
    pub(super) fn deliver(&mut self, alloc: Global, place: usize) -> Result<(), Fail> {
        match self.letters.get(place) {
            Some(letter) => {
                let to = letter.receiver;
                let given = Given::Message {
                    sender: letter.sender,
                    message: letter.message.copy(alloc)?,
                };
                self.give(alloc, to, &given)
            }
            None => Ok(()),
        }
    }

    /// Letters come in the order in which they were sent, from this place on.
    pub(super) fn settle(&mut self, alloc: Global, from: usize) -> Result<(), Fail> {
        for ahead in 0..24 {
            self.deliver(alloc, from.saturating_add(ahead))?;
        }
        Ok(())
    }

    /// Whether the letters from this place on are of these kinds, to these nodes.
    pub(super) fn has_sent(&self, from: usize, wanted: &[(&str, Id)]) -> bool {
        let mut place = from;
        for (name, receiver) in wanted {
            match self.letters.get(place) {
                Some(letter) if kind(&letter.message) == *name && letter.receiver == *receiver => {}
                _ => return false,
            }
            place = place.saturating_add(1);
        }
        place == self.letters.len()
    }

    /// Whether just these commands were closed, so and in this order.
    pub(super) fn has_closed(&self, wanted: &[(u64, &str)]) -> bool {
        let mut place = 0;
        for (number, name) in wanted {
            match self.closed.get(place) {
                Some((other, told)) if *other == *number && *told == *name => {}
                _ => return false,
            }
            place = place.saturating_add(1);
        }
        place == self.closed.len()
    }

    /// Whether the node is ready and stands between these two.
    pub(super) fn has_links(&self, id: Id, left: Id, right: Id) -> bool {
        for node in &self.nodes {
            if node.id() == id {
                return matches!(node.reach(), Some(reach) if reach.left == left && reach.right == right);
            }
        }
        false
    }
}
