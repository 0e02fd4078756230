//! What no clause says: that cells are woven with ample memory, and what is found that was not sent, and not taken.

ghost use Rattle.std.specs.Prelude.{◌≡◌, All, IfOk};
ghost use Rattle.overlay_rules.specs.Record.{all_differ};
ghost use Rattle.ring_math.specs.Sides.{is_in};
ghost use Rattle.weave.specs.Cells.{HasNoPasses, nodes};

use crate::{Unread, WeaveFault, unread, weave};
use node_cell::{CellFault, NodeCell};
use overlay_rules::Record;
use ring_math::Id;
use std::alloc::Global;
use std::collections::VecDeque;
use std::test::Fail;
use wire_codec::encode;
use wire_msg::{Command, Envelope, Frame, Message};

const A: Id = Id(0x10 << 120);

const B: Id = Id(0x90 << 120);

fn has_node(cells: &[NodeCell], node: Id) -> bool
    ensures { result ≡ is_in (nodes cells.now) node }
{
    let Some((first, rest)) = cells.split_first() else {
        return false;
    };
    first.me() == node || has_node(rest, node)
}

/// Whether the cells have different nodes.
fn differ(cells: &[NodeCell]) -> bool
    ensures { result ≡ all_differ (nodes cells.now) }
{
    let Some((first, rest)) = cells.split_first() else {
        return true;
    };
    !has_node(rest, first.me()) && differ(rest)
}

/// The cells of A, the founder, and of B, which was told to join by way of A, and the frames that they sent.
#[derive(Drop)]
struct Trial {
    cells: Vec<NodeCell>,
    frames: VecDeque<(Id, Frame)>,
    ghost without: { All HasNoPasses cells.items },
}

/// The cell of a node that was told to join, as its first command.
fn joining(alloc: Global, me: Id, via: Id) -> Result<NodeCell, Fail>
    ensures { IfOk result HasNoPasses }
{
    let mut cell = NodeCell::new(alloc, me, false)?;
    cell.submit(alloc, 1, &Command::Join { via })?;
    Ok(cell)
}

/// The first frame that a cell did not hand out yet.
fn next_of(cells: &mut [NodeCell]) -> Option<(Id, Frame)>
    requires { All HasNoPasses cells.old }
    ensures { All HasNoPasses cells.new }
{
    for place in 0..cells.len() {
        let cell = &mut cells[place];
        if let Some(next) = cell.next_unsent() {
            return Some(next);
        }
    }
    None
}

/// Hands the frame over to the cell that it is for.
fn hand_over(
    cells: &mut [NodeCell],
    alloc: Global,
    receiver: Id,
    frame: &Frame,
) -> Result<(), CellFault>
    requires { All HasNoPasses cells.old }
    ensures { All HasNoPasses cells.new }
{
    for place in 0..cells.len() {
        let cell = &mut cells[place];
        if cell.me() == receiver {
            cell.handle(alloc, frame.as_slice())?;
        }
    }
    Ok(())
}

impl Trial {
    fn new(alloc: Global) -> Result<Trial, Fail> {
        let mut trial = Trial {
            cells: Vec::new(alloc),
            frames: VecDeque::new(alloc),
        };
        trial.add(NodeCell::new(alloc, A, true)?)?;
        trial.add(joining(alloc, B, A)?)?;
        trial.collect()?;
        Ok(trial)
    }

    fn add(&mut self, cell: NodeCell) -> Result<(), Fail>
        requires { HasNoPasses cell }
    {
        self.cells.push(cell)?;
        Ok(())
    }

    fn collect(&mut self) -> Result<(), Fail> {
        for _ in 0..1_000 {
            let Some(frame) = next_of(&mut self.cells) else {
                break;
            };
            self.frames.push_back(frame)?;
        }
        Ok(())
    }

    fn hand_over(&mut self, alloc: Global, receiver: Id, frame: &Frame) -> Result<(), Fail> {
        hand_over(&mut self.cells, alloc, receiver, frame)?;
        self.collect()
    }

    /// Hands over the oldest frames, at most so many.
    fn settle(&mut self, alloc: Global, most: usize) -> Result<(), Fail> {
        for _ in 0..most {
            let Some((receiver, frame)) = self.frames.pop_front() else {
                return Ok(());
            };
            self.hand_over(alloc, receiver, &frame)?;
        }
        Ok(())
    }

    /// A message that no cell sent comes to this node.
    fn forge(&mut self, alloc: Global, receiver: Id, stamp: u64) -> Result<(), Fail> {
        let envelope = Envelope {
            sender: B,
            receiver,
            stamp,
            message: Message::Announce,
        };
        let frame = encode(alloc, &envelope)?;
        self.hand_over(alloc, receiver, &frame)
    }

    fn weave(&self, alloc: Global) -> Result<Result<Record, WeaveFault>, Fail> {
        if !differ(&self.cells) {
            return Err("a node has two cells")?;
        }
        Ok(weave(alloc, &self.cells))
    }

    fn unread(&self, alloc: Global, receiver: Id) -> Result<Option<Unread>, Fail> {
        if !differ(&self.cells) {
            return Err("a node has two cells")?;
        }
        Ok(unread(alloc, &self.cells, receiver)?)
    }
}

/// The node and the place of a stray message, and its stamp.
fn stray(woven: &Result<Record, WeaveFault>) -> Option<(Id, u64, u64)> {
    match woven {
        Err(
            WeaveFault::Stray {
                node,
                place,
                envelope,
            },
        ) => Some((*node, *place, envelope.stamp)),
        _ => None,
    }
}

#[test]
fn the_first_message_that_was_not_sent_is_stray(rt: HostRuntime) -> Result<(), Fail> {
    let mut trial = Trial::new(rt.alloc())?;
    trial.settle(rt.alloc(), 3)?;
    trial.forge(rt.alloc(), B, 40)?;
    trial.forge(rt.alloc(), A, 30)?;
    let woven = trial.weave(rt.alloc())?;
    assert_eq!(rt; stray(&woven), Some((A, 2, 30)));
    Ok(())
}

/// The node and the place of the entry that sent the first message which waits for a node, and its stamp.
fn waiting(trial: &Trial, alloc: Global, receiver: Id) -> Result<Option<(Id, u64, u64)>, Fail> {
    let found = trial.unread(alloc, receiver)?;
    Ok(found.map(|unread| (unread.node, unread.place, unread.envelope.stamp)))
}

#[test]
fn the_oldest_message_is_unread(rt: HostRuntime) -> Result<(), Fail> {
    let mut trial = Trial::new(rt.alloc())?;
    assert_eq!(rt; waiting(&trial, rt.alloc(), B)?, None);
    assert_eq!(rt; waiting(&trial, rt.alloc(), A)?, Some((B, 0, 1)));
    trial.settle(rt.alloc(), 1)?;
    assert_eq!(rt; waiting(&trial, rt.alloc(), A)?, None);
    assert_eq!(rt; waiting(&trial, rt.alloc(), B)?, Some((A, 0, 2)));
    trial.settle(rt.alloc(), 40)?;
    assert_eq!(rt; waiting(&trial, rt.alloc(), A)?, None);
    assert_eq!(rt; waiting(&trial, rt.alloc(), B)?, None);
    Ok(())
}
