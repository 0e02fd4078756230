//! What no clause says: a play written as text is legal, and ten traces with one field changed by hand, and what the rules say of each.

use super::*;
use ring_math::Id;
use std::alloc::Global;
use std::test::Fail;
use wire_msg::{Command, Frame};
use world_model::World;

const A: Id = Id(0x10000000000000000000000000000000);

const C: Id = Id(0x30000000000000000000000000000000);

/// The trace of a founder that looks up a key, line by line.
const LINES: [&str; 10] = [
    "trace 1",
    "node 10000000000000000000000000000000",
    "founder 10000000000000000000000000000000",
    "command 10000000000000000000000000000000 1 02ff000000000000000000000000000000",
    "sent 01020000004310000000000000000000000000000000100000000000000000000000000000000000000000000001000000000000000101100000000000000000000000000000000000",
    "note 02100000000000000000000000000000000000000000000001ff0000000000000000000000000000000000",
    "note 0310000000000000000000000000000000000000000000000101100000000000000000000000000000000000",
    "deliver 0",
    "note 0400000000000000010101100000000000000000000000000000000000",
    "end 0",
];

/// The trace, with this in the place of one line.
fn text_with(alloc: Global, place: usize, line: &str) -> Result<Vec<u8>, Fail> {
    let mut text = Vec::new(alloc);
    for at in 0..LINES.len() {
        let line = if at == place { line } else { LINES[at] };
        text.extend_from_slice(line.as_bytes())?;
        text.push(b'\n')?;
    }
    Ok(text)
}

fn checked(alloc: Global, text: &[u8]) -> Result<Verdict, Fail> {
    let trace = read_trace(alloc, text)?;
    let verdict = check(alloc, &trace)?;
    Ok(verdict)
}

/// What is said of the trace with another text for one line.
fn checked_with(alloc: Global, place: usize, line: &str) -> Result<Verdict, Fail> {
    let text = text_with(alloc, place, line)?;
    checked(alloc, &text)
}

/// Whether the trace with another text for one line is wrong in this part of this entry.
fn is_wrong(alloc: Global, place: usize, line: &str, entry: u64, part: Part) -> Result<bool, Fail> {
    let verdict = checked_with(alloc, place, line)?;
    Ok(verdict == Verdict::Wrong { entry, part })
}

/// A trace of two nodes, of which one joined.
fn joined(alloc: Global) -> Result<Frame, Fail> {
    let nodes = [A, C];
    let mut world = World::new(alloc, &nodes, A)?;
    world.command(alloc, C, 1, &Command::Join { via: A })?;
    for message in 0..8 {
        world.deliver(alloc, message)?;
    }
    let steps = world.finish(0);
    Ok(write_trace(alloc, &nodes, A, &steps)?)
}

#[test]
fn a_play_is_legal(rt: HostRuntime) -> Result<(), Fail> {
    let text = joined(rt.alloc())?;
    let verdict = checked(rt.alloc(), text.as_slice())?;
    assert_eq!(rt; verdict, Verdict::Legal { ready: 2 });
    Ok(())
}

/// A stamp is not read; a command with a greater number may follow.
#[test]
fn changes_that_are_legal(rt: HostRuntime) -> Result<(), Fail> {
    let changes = [
        (0, "trace 1"),
        (
            4,
            "sent 01020000004310000000000000000000000000000000100000000000000000000000000000000000000000000007000000000000000101100000000000000000000000000000000000",
        ),
        (
            9,
            "command 10000000000000000000000000000000 2 05\nnote 04000000000000000206\nend 0",
        ),
    ];
    for (place, line) in changes {
        let verdict = checked_with(rt.alloc(), place, line)?;
        assert_eq!(rt; verdict, Verdict::Legal { ready: 1 }, "{line}");
    }
    Ok(())
}

/// A node that is none of the trace's, twice; a message that was not sent; a number that was given.
#[test]
fn events_that_may_not_come(rt: HostRuntime) -> Result<(), Fail> {
    let changes = [
        (
            3,
            "command 20000000000000000000000000000000 1 02ff000000000000000000000000000000",
            1,
        ),
        (3, "noise 20000000000000000000000000000000", 1),
        (7, "deliver 1", 2),
        (
            9,
            "command 10000000000000000000000000000000 1 05\nnote 04000000000000000106\nend 0",
            3,
        ),
    ];
    for (place, line, entry) in changes {
        assert!(rt;
            is_wrong(rt.alloc(), place, line, entry, Part::Event)?,
            "{line}"
        );
    }
    Ok(())
}

/// The command has another number; then what is sent has another sender, receiver, number or count of hops.
#[test]
fn messages_that_are_not_sent(rt: HostRuntime) -> Result<(), Fail> {
    let changes = [
        (
            3,
            "command 10000000000000000000000000000000 2 02ff000000000000000000000000000000",
        ),
        (
            4,
            "sent 01020000004320000000000000000000000000000000100000000000000000000000000000000000000000000001000000000000000101100000000000000000000000000000000000",
        ),
        (
            4,
            "sent 01020000004310000000000000000000000000000000200000000000000000000000000000000000000000000001000000000000000101100000000000000000000000000000000000",
        ),
        (
            4,
            "sent 01020000004310000000000000000000000000000000100000000000000000000000000000000000000000000001000000000000000201100000000000000000000000000000000000",
        ),
        (
            4,
            "sent 01020000004310000000000000000000000000000000100000000000000000000000000000000000000000000001000000000000000101100000000000000000000000000000000001",
        ),
    ];
    for (place, line) in changes {
        assert!(rt; is_wrong(rt.alloc(), place, line, 1, Part::Sent)?, "{line}");
    }
    Ok(())
}

/// The command has another key; then a delivery has another count of hops, an answer another number, and a closing another answer.
#[test]
fn notes_that_are_not_made(rt: HostRuntime) -> Result<(), Fail> {
    let changes = [
        (
            3,
            "command 10000000000000000000000000000000 1 02fe000000000000000000000000000000",
            1,
        ),
        (
            5,
            "note 02100000000000000000000000000000000000000000000001ff0000000000000000000000000000000001",
            1,
        ),
        (
            6,
            "note 0310000000000000000000000000000000000000000000000201100000000000000000000000000000000000",
            1,
        ),
        (8, "note 04000000000000000106", 2),
    ];
    for (place, line, entry) in changes {
        assert!(rt;
            is_wrong(rt.alloc(), place, line, entry, Part::Notes)?,
            "{line}"
        );
    }
    Ok(())
}
