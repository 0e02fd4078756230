use super::*;
use overlay_rules::{Entries, Entry, Event, Record};
use ring_math::Id;
use std::alloc::Global;
use std::process::Abort;
use std::test::Fail;
use wire_msg::{Answer, Command, Envelope, Envelopes, Message, Note, Notes, Reply};

const TEN: Id = Id(0x10000000000000000000000000000000);

const KEY: Id = Id(0xff000000000000000000000000000000);

/// The trace of a founder that looks up a key, line by line.
const LINES: [&str; 10] = [
    "trace 1",
    "node 10000000000000000000000000000000",
    "founder 10000000000000000000000000000000",
    "command 10000000000000000000000000000000 1 02ff000000000000000000000000000000",
    "sent 01020000004310000000000000000000000000000000100000000000000000000000000000000000000000000001000000000000000101100000000000000000000000000000000000",
    "note 02100000000000000000000000000000000000000000000001ff0000000000000000000000000000000000",
    "note 0310000000000000000000000000000000000000000000000101100000000000000000000000000000000000",
    "deliver 0",
    "note 0400000000000000010101100000000000000000000000000000000000",
    "end 0",
];

/// These lines, each with its end.
fn text_of(alloc: Global, lines: &[&str]) -> Result<Vec<u8>, Fail> {
    let mut text = Vec::new(alloc);
    for line in lines {
        text.extend_from_slice(line.as_bytes())?;
        text.push(b'\n')?;
    }
    Ok(text)
}

fn delivered() -> Reply {
    Reply::Delivered { node: TEN, hops: 0 }
}

/// The command, and what the node does with it.
fn lookup(alloc: Global) -> Result<Entry, Fail> {
    let mut messages = Envelopes::new(alloc);
    messages.push(Envelope {
        sender: TEN,
        receiver: TEN,
        stamp: 1,
        message: Message::LookupReply {
            number: 1,
            reply: delivered(),
        },
    })?;
    let mut notes = Notes::new(alloc);
    notes.push(Note::Delivered {
        origin: TEN,
        number: 1,
        key: KEY,
        hops: 0,
    })?;
    notes.push(Note::Answered {
        origin: TEN,
        number: 1,
        reply: delivered(),
    })?;
    Ok(Entry {
        event: Event::Command {
            node: TEN,
            number: 1,
            command: Command::Lookup { key: KEY },
        },
        messages,
        notes,
    })
}

/// The delivery of the reply.
fn reply(alloc: Global) -> Result<Entry, Fail> {
    let mut notes = Notes::new(alloc);
    notes.push(Note::Closed {
        number: 1,
        answer: Answer::Reply(delivered()),
    })?;
    Ok(Entry {
        event: Event::Deliver { message: 0 },
        messages: Envelopes::new(alloc),
        notes,
    })
}

fn least_run(alloc: Global) -> Result<Record, Fail> {
    let mut entries = Entries::new(alloc);
    entries.push(lookup(alloc)?)?;
    entries.push(reply(alloc)?)?;
    Ok(Record {
        entries,
        skipped: 0,
    })
}

#[test]
fn the_least_run_both_ways(rt: HostRuntime) -> Result<(), Fail> {
    let alloc = rt.alloc();
    let expected = text_of(alloc, &LINES)?;
    let steps = least_run(alloc)?;
    let written = write_trace(alloc, &[TEN], TEN, &steps)?;
    assert_eq!(rt; written.as_slice(), expected.as_slice());
    let trace = read_trace(alloc, &expected)?;
    assert_eq!(rt; trace.nodes.as_slice(), [TEN].as_slice());
    assert_eq!(rt; trace.founder, TEN);
    assert_eq!(rt; (trace.steps.entries.len(), trace.steps.skipped), (2, 0));
    let again = write_trace(alloc, trace.nodes.as_slice(), trace.founder, &trace.steps)?;
    assert_eq!(rt; again.as_slice(), expected.as_slice());
    Ok(())
}

fn refuses(rt: &impl Abort, alloc: Global, text: &[u8], line: u32) {
    assert_eq!(rt;
        read_trace(alloc, text).err(),
        Some(TraceFault::Line { line }),
        "{text:?}"
    );
}

/// Lines of the trace with another text in their place, and the line that is refused then.
const CHANGES: [(usize, &str, u32); 21] = [
    (0, "trace 2", 1),
    (0, "", 1),
    (0, "node 10000000000000000000000000000000", 1),
    (1, "node 1000000000000000000000000000000", 2),
    (1, "node  10000000000000000000000000000000", 2),
    (1, "founder 10000000000000000000000000000000", 2),
    (1, "Node 10000000000000000000000000000000", 2),
    (2, "node 10000000000000000000000000000000", 3),
    (2, "founder 20000000000000000000000000000000", 3),
    (2, "end 0", 3),
    (
        3,
        "command 10000000000000000000000000000000 1 02FF000000000000000000000000000000",
        4,
    ),
    (
        3,
        "command 10000000000000000000000000000000 1 02ff000000000000000000000000000000 0",
        4,
    ),
    (
        3,
        "command 10000000000000000000000000000000 01 02ff000000000000000000000000000000",
        4,
    ),
    (
        3,
        "sent 01020000004310000000000000000000000000000000100000000000000000000000000000000000000000000001000000000000000101100000000000000000000000000000000000",
        4,
    ),
    (
        4,
        "sent 0102000000431000000000000000000000000000000010000000000000000000000000000000000000000000000100000000000000010110000000000000000000000000000000000000",
        5,
    ),
    (4, "sent", 5),
    (
        6,
        "sent 01020000004310000000000000000000000000000000100000000000000000000000000000000000000000000001000000000000000101100000000000000000000000000000000000",
        7,
    ),
    (
        5,
        "note 06100000000000000000000000000000000000000000000001ff0000000000000000000000000000000000",
        6,
    ),
    (7, "deliver 18446744073709551616", 8),
    (7, "deliver -", 8),
    (9, "end", 10),
];

#[test]
fn a_changed_line_is_refused(rt: HostRuntime) -> Result<(), Fail> {
    let alloc = rt.alloc();
    for (place, text, line) in CHANGES {
        let mut lines = LINES;
        if let Some(changed) = lines.get_mut(place) {
            *changed = text;
        }
        refuses(&rt, alloc, &text_of(alloc, &lines)?, line);
    }
    Ok(())
}

#[test]
fn the_end_of_a_trace(rt: HostRuntime) -> Result<(), Fail> {
    let alloc = rt.alloc();
    let whole = text_of(alloc, &LINES)?;
    // No byte, and no end.
    refuses(&rt, alloc, &[], 1);
    refuses(&rt, alloc, &text_of(alloc, &LINES[..9])?, 10);
    // The last line has no end of its own.
    let (_, cut) = whole.split_last().ok_or("the text has a last byte")?;
    refuses(&rt, alloc, cut, 10);
    // A line behind the end, and a byte.
    let mut longer = LINES.as_slice().to_vec(alloc)?;
    longer.push("end 0")?;
    refuses(&rt, alloc, &text_of(alloc, &longer)?, 11);
    let mut longer = whole.as_slice().to_vec(alloc)?;
    longer.push(b' ')?;
    refuses(&rt, alloc, &longer, 11);
    Ok(())
}
