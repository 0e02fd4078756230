//! What no clause says: that a cell, and a node that keeps no history, take in what comes with ample memory.

ghost use Rattle.std.specs.Prelude.{◌≡◌, None};

use crate::{CellEntry, CellFault, CellInput, LiveNode, NodeCell};
use ring_math::{Bytes, Id, OutOfMemory};
use std::alloc::Global;
use std::test::Fail;
use wire_codec::encode;
use wire_msg::{Command, Envelope, Frame, Message, Reply};

const A: Id = Id(0x10 << 120);

const B: Id = Id(0x90 << 120);

const C: Id = Id(0x30 << 120);

fn is_sent<T: Send>() {}

/// A message to a node, with a stamp, comes to a cell.
fn take(
    cell: &mut NodeCell,
    alloc: Global,
    receiver: Id,
    stamp: u64,
) -> Result<Result<(), CellFault>, Fail>
    requires { cell.old.carried ≡ None }
    ensures { cell.new.carried ≡ None }
{
    let envelope = Envelope {
        sender: B,
        receiver,
        stamp,
        message: Message::Announce,
    };
    let frame = encode(alloc, &envelope);
    drop(envelope);
    Ok(cell.handle(alloc, frame?.as_slice()))
}

/// Noise, and two messages, of which the second was sent before the first came.
fn take_three(cell: &mut NodeCell, alloc: Global) -> Result<(), Fail>
    requires { cell.old.carried ≡ None }
    ensures { cell.new.carried ≡ None }
{
    cell.handle(alloc, b"")?;
    take(cell, alloc, A, 9)??;
    Ok(take(cell, alloc, A, 3)??)
}

/// Whether their stamps follow the greater, and nothing is sent.
fn follows(cell: &mut NodeCell, alloc: Global) -> Result<bool, Fail>
    requires { cell.old.carried ≡ None }
{
    take_three(cell, alloc)?;
    let mut stamps = cell.history().iter().map(|entry| entry.stamp);
    Ok(stamps.eq([1, 10, 11]) && cell.stamp() == 11 && cell.next_unsent().is_none())
}

// A cell is dropped by a call: at the end of a block its drop would be written out, part for part, at each way out.
#[test]
fn stamps_follow_the_greater(rt: HostRuntime) -> Result<(), Fail> {
    let mut cell = NodeCell::new(rt.alloc(), A, true)?;
    let is_so = follows(&mut cell, rt.alloc());
    drop(cell);
    assert!(rt; is_so?);
    Ok(())
}

/// A message to another node, and bytes that are no frame: whether both are noise.
fn takes_noise(cell: &mut NodeCell, alloc: Global) -> Result<bool, Fail>
    requires { cell.old.carried ≡ None }
{
    take(cell, alloc, C, 9)??;
    cell.handle(alloc, b"\x01\x12")?;
    let mut inputs = cell.history().iter().map(|entry| &entry.input);
    Ok(inputs.all(|input| matches!(input, CellInput::Noise)) && cell.stamp() == 2)
}

#[test]
fn what_is_for_others_is_noise(rt: HostRuntime) -> Result<(), Fail> {
    let mut cell = NodeCell::new(rt.alloc(), A, true)?;
    let is_so = takes_noise(&mut cell, rt.alloc());
    drop(cell);
    assert!(rt; is_so?);
    Ok(())
}

fn is_spent(handled: Result<(), CellFault>) -> bool {
    handled == Err(CellFault::Spent { stamp: u64::MAX })
}

/// A message with the last stamp, one with the stamp before it, and noise: whether just the second is taken in.
fn takes_the_second(cell: &mut NodeCell, alloc: Global) -> Result<bool, Fail>
    requires { cell.old.carried ≡ None }
{
    let last = take(cell, alloc, A, u64::MAX)?;
    let before = take(cell, alloc, A, u64::MAX - 1)?;
    let noise = cell.handle(alloc, b"");
    let is_second = cell.history().len() == 1 && cell.stamp() == u64::MAX;
    Ok(is_spent(last) && before.is_ok() && is_spent(noise) && is_second)
}

#[test]
fn a_spent_cell_takes_nothing_in(rt: HostRuntime) -> Result<(), Fail> {
    let mut cell = NodeCell::new(rt.alloc(), A, true)?;
    let is_so = takes_the_second(&mut cell, rt.alloc());
    drop(cell);
    assert!(rt; is_so?);
    Ok(())
}

#[test]
fn a_cell_can_be_lent_to_a_thread() {
    is_sent::<NodeCell>();
}

/// A message to A with stamp 9.
fn later_frame(alloc: Global) -> Result<Frame, OutOfMemory> {
    let envelope = Envelope {
        sender: B,
        receiver: A,
        stamp: 9,
        message: Message::Announce,
    };
    let frame = encode(alloc, &envelope);
    drop(envelope);
    frame
}

/// The stamp at which a node is told to join, and how many frames it then sends.
fn told(live: &mut LiveNode, alloc: Global) -> Result<(u64, usize), CellFault> {
    let taken = live.submit(alloc, 1, &Command::Join { via: B })?;
    let found = (taken.entry.stamp, taken.frames.len());
    drop(taken);
    Ok(found)
}

/// The stamp at which bytes come to a node, and how many frames it then sends.
fn came(live: &mut LiveNode, alloc: Global, bytes: &[u8]) -> Result<(u64, usize), CellFault> {
    let taken = live.handle(alloc, bytes)?;
    let found = (taken.entry.stamp, taken.frames.len());
    drop(taken);
    Ok(found)
}

/// Whether it is told to join, and then takes in noise and a message.
fn goes_on(live: &mut LiveNode, alloc: Global) -> Result<bool, Fail> {
    let joins = told(live, alloc)? == (1, 1);
    let hears = came(live, alloc, b"")? == (2, 0);
    let frame = later_frame(alloc)?;
    Ok(joins && hears && came(live, alloc, frame.as_slice())? == (10, 0))
}

#[test]
fn a_node_goes_on_without_its_history(rt: HostRuntime) -> Result<(), Fail> {
    let mut live = LiveNode::new(rt.alloc(), A, false)?;
    let is_so = goes_on(&mut live, rt.alloc());
    drop(live);
    assert!(rt; is_so?);
    Ok(())
}

/// A file that was found, with a stamp.
fn found_frame(alloc: Global, stamp: u64, bytes: &[u8]) -> Result<Frame, Fail> {
    let bytes = Bytes::copy_of(alloc, bytes)?;
    let envelope = Envelope {
        sender: B,
        receiver: A,
        stamp,
        message: Message::FetchReply {
            number: 1,
            reply: Reply::Found { node: B, bytes },
        },
    };
    let frame = encode(alloc, &envelope);
    drop(envelope);
    Ok(frame?)
}

/// A file that was found comes to a cell.
fn take_found(cell: &mut NodeCell, alloc: Global, stamp: u64, bytes: &[u8]) -> Result<(), Fail>
    requires { cell.old.carried ≡ None }
    ensures { cell.new.carried ≡ None }
{
    let frame = found_frame(alloc, stamp, bytes)?;
    cell.handle(alloc, frame.as_slice())?;
    Ok(())
}

/// The bytes of the file that was found, in an entry.
fn found_in(entry: &CellEntry) -> &[u8] {
    match &entry.input {
        CellInput::Comes(envelope) => bytes_in(&envelope.message),
        CellInput::Command { .. } | CellInput::Noise => b"",
    }
}

fn bytes_in(message: &Message) -> &[u8] {
    match message {
        Message::FetchReply {
            reply: Reply::Found { bytes, .. },
            ..
        } => bytes.as_slice(),
        _ => b"",
    }
}

/// The same file twice, and then another: whether all come as they are.
fn keeps_found(cell: &mut NodeCell, alloc: Global) -> Result<bool, Fail>
    requires { cell.old.carried ≡ None }
{
    take_found(cell, alloc, 1, b"one")?;
    take_found(cell, alloc, 2, b"one")?;
    take_found(cell, alloc, 3, b"two")?;
    let mut found = cell.history().iter().map(|entry| found_in(entry));
    Ok(found.next() == Some(b"one") && found.next() == Some(b"one") && found.next() == Some(b"two"))
}

#[test]
fn files_come_as_they_are(rt: HostRuntime) -> Result<(), Fail> {
    let mut cell = NodeCell::new(rt.alloc(), A, true)?;
    let is_so = keeps_found(&mut cell, rt.alloc());
    drop(cell);
    assert!(rt; is_so?);
    Ok(())
}
