//! What no clause says: pictures as they stand in the rules of the drawing, worked out by hand.

use super::*;
use overlay_rules::{CompactEvent, Entries, Event};
use ring_math::{Bytes, FileId, Id, OutOfMemory};
use std::alloc::Global;
use std::process::Abort;
use std::test::Fail;
use text_writer::Text;
use wire_msg::{Answer, Command, Message, Note, Notes, Outgoing, Reply, Sends};

const A: Id = Id(0x10000000000000000000000000000000);

const B: Id = Id(0x90000000000000000000000000000000);

const KEY: Id = Id(0xff000000000000000000000000000000);

/// What node B answers to command 1.
const REPLY: Reply = Reply::Delivered { node: B, hops: 1 };

fn lookup() -> Message {
    Message::Lookup {
        origin: A,
        key: KEY,
        number: 1,
        hops: 1,
    }
}

fn answer() -> Message {
    Message::LookupReply {
        number: 1,
        reply: REPLY,
    }
}

/// One message to a node.
fn sent(alloc: Global, receiver: Id, message: Message) -> Result<Sends, OutOfMemory> {
    let mut sends = Sends::new(alloc);
    sends.push(Outgoing { receiver, message })?;
    Ok(sends)
}

/// One note.
fn noted(alloc: Global, note: Note) -> Result<Notes, OutOfMemory> {
    let mut notes = Notes::new(alloc);
    notes.push(note)?;
    Ok(notes)
}

/// One entry more, which is node B's or A's.
fn add(
    alloc: Global,
    entries: &mut Entries,
    event: Event,
    node: Id,
    sends: Sends,
    notes: Notes,
) -> Result<(), OutOfMemory> {
    let stamp = entries.next_stamp();
    let event = CompactEvent::of(event, alloc)?;
    entries.add(event, stamp, node, sends, notes)
}

/// A looks a key up, B answers it twice, and one of its answers is lost.
fn looked_up(alloc: Global) -> Result<Entries, OutOfMemory> {
    let mut entries = Entries::new(alloc);
    let command = Event::Command {
        node: A,
        number: 1,
        command: Command::Lookup { key: KEY },
    };
    let asked = sent(alloc, B, lookup())?;
    add(alloc, &mut entries, command, A, asked, Notes::new(alloc))?;
    for _ in 0..2 {
        let answered = sent(alloc, A, answer())?;
        let note = Note::Delivered {
            origin: A,
            number: 1,
            key: KEY,
            hops: 1,
        };
        add(
            alloc,
            &mut entries,
            Event::Deliver { message: 0 },
            B,
            answered,
            noted(alloc, note)?,
        )?;
    }
    let closed = Note::Closed {
        number: 1,
        answer: Answer::Reply(REPLY),
    };
    add(
        alloc,
        &mut entries,
        Event::Deliver { message: 1 },
        A,
        Sends::new(alloc),
        noted(alloc, closed)?,
    )?;
    Ok(entries)
}

/// The bytes of a file that was found.
fn found(alloc: Global) -> Result<Reply, Fail> {
    let bytes = Bytes::copy_of(alloc, &[7, 8])?;
    Ok(Reply::Found { node: B, bytes })
}

/// Noise at B; then A, which is told to fetch a file, answers itself; last a message that nobody sent.
fn fetched(alloc: Global) -> Result<Entries, Fail> {
    let file = FileId([1; 20]);
    let mut entries = Entries::new(alloc);
    add(
        alloc,
        &mut entries,
        Event::Noise { node: B },
        B,
        Sends::new(alloc),
        Notes::new(alloc),
    )?;
    let command = Event::Command {
        node: A,
        number: 2,
        command: Command::Fetch { file },
    };
    let message = Message::FetchReply {
        number: 2,
        reply: found(alloc)?,
    };
    let mut notes = noted(alloc, Note::Reclaimed { file })?;
    notes.push(Note::Answered {
        origin: B,
        number: 7,
        reply: found(alloc)?,
    })?;
    let answered = sent(alloc, A, message)?;
    add(alloc, &mut entries, command, A, answered, notes)?;
    let closed = Note::Closed {
        number: 2,
        answer: Answer::Reply(found(alloc)?),
    };
    add(
        alloc,
        &mut entries,
        Event::Deliver { message: 0 },
        A,
        Sends::new(alloc),
        noted(alloc, closed)?,
    )?;
    let unsent = Event::Deliver { message: 9 };
    add(
        alloc,
        &mut entries,
        unsent,
        A,
        Sends::new(alloc),
        Notes::new(alloc),
    )?;
    Ok(entries)
}

/// Draws a part of a record of nodes A and B, and compares it with these lines.
fn is_drawn_so(
    rt: &impl Abort,
    alloc: Global,
    entries: &Entries,
    part: Part,
    lines: &[&str],
) -> Result<(), Fail> {
    assert!(rt; part.drawn <= entries.len());
    assert!(rt; part.stop <= part.drawn);
    assert!(rt; part.first <= part.stop);
    assert!(rt; part.stop - part.first <= MOST_ROWS);
    let mut text = Text::new(alloc);
    put_course(alloc, &mut text, &[A, B], entries, &part)?;
    let frame = text.into_frame();
    let mut due = Text::new(alloc);
    for line in lines {
        due.put(line.as_bytes())?;
        due.put(b"\n")?;
    }
    let due = due.into_frame();
    assert_eq!(rt; frame.as_slice(), due.as_slice());
    Ok(())
}

/// The first delivery has a solid arrow, the second one a dashed one, and what nobody delivers ends in a cross.
#[test]
fn a_lookup_is_drawn(rt: HostRuntime) -> Result<(), Fail> {
    let entries = looked_up(rt.alloc())?;
    let part = Part {
        drawn: 4,
        first: 0,
        stop: 4,
        wrong: None,
    };
    is_drawn_so(
        &rt,
        rt.alloc(),
        &entries,
        part,
        &[
            "<line class='life' x1='110' y1='80' x2='110' y2='180'/>",
            "<g transform='rotate(300.000,110,74)'>",
            "<g><title>10000000000000000000000000000000</title>",
            "<text class='label' x='110' y='74'>10000000</text>",
            "</g>",
            "</g>",
            "<line class='life' x1='210' y1='80' x2='210' y2='180'/>",
            "<g transform='rotate(300.000,210,74)'>",
            "<g><title>90000000000000000000000000000000</title>",
            "<text class='label' x='210' y='74'>90000000</text>",
            "</g>",
            "</g>",
            "<g><title>message 0 Lookup</title>",
            "<line class='sent' x1='110' y1='100' x2='210' y2='120'/>",
            "</g>",
            "<g><title>message 0 Lookup</title>",
            "<line class='again' x1='110' y1='100' x2='210' y2='140'/>",
            "</g>",
            "<g><title>message 1 LookupReply</title>",
            "<line class='sent' x1='210' y1='120' x2='110' y2='160'/>",
            "</g>",
            "<g><title>message 2 LookupReply</title>",
            "<line class='lost' x1='210' y1='140' x2='160' y2='150'/>",
            "<line class='cross' x1='157' y1='147' x2='163' y2='153'/>",
            "<line class='cross' x1='157' y1='153' x2='163' y2='147'/>",
            "</g>",
            "<line class='guide' x1='110' y1='100' x2='260' y2='100'/>",
            "<circle class='entry' cx='110' cy='100' r='3'/>",
            "<text class='faint-end' x='50' y='104'>1</text>",
            "<text class='label' x='266' y='104'>10000000 command 1 lookup ff000000</text>",
            "<line class='guide' x1='210' y1='120' x2='260' y2='120'/>",
            "<circle class='entry' cx='210' cy='120' r='3'/>",
            "<text class='faint-end' x='50' y='124'>2</text>",
            "<text class='label' x='266' y='124'>90000000 message 0 Lookup; delivery 1 of ff000000 hops 1</text>",
            "<line class='guide' x1='210' y1='140' x2='260' y2='140'/>",
            "<circle class='entry' cx='210' cy='140' r='3'/>",
            "<text class='faint-end' x='50' y='144'>3</text>",
            "<text class='label' x='266' y='144'>90000000 message 0 Lookup; delivery 1 of ff000000 hops 1</text>",
            "<line class='guide' x1='110' y1='160' x2='260' y2='160'/>",
            "<circle class='entry' cx='110' cy='160' r='3'/>",
            "<text class='faint-end' x='50' y='164'>4</text>",
            "<text class='label' x='266' y='164'>10000000 message 1 LookupReply; 1 delivered by 90000000 hops 1</text>",
        ],
    )
}

/// What was sent before the window comes from the upper edge, and what is delivered behind it goes to the lower edge; a row is
/// marked.
#[test]
fn a_window_is_drawn(rt: HostRuntime) -> Result<(), Fail> {
    let entries = looked_up(rt.alloc())?;
    let part = Part {
        drawn: 4,
        first: 1,
        stop: 3,
        wrong: Some(2),
    };
    is_drawn_so(
        &rt,
        rt.alloc(),
        &entries,
        part,
        &[
            "<rect class='marked' x='0' y='110' width='794' height='20'/>",
            "<line class='life' x1='110' y1='80' x2='110' y2='140'/>",
            "<g transform='rotate(300.000,110,74)'>",
            "<g><title>10000000000000000000000000000000</title>",
            "<text class='label' x='110' y='74'>10000000</text>",
            "</g>",
            "</g>",
            "<line class='life' x1='210' y1='80' x2='210' y2='140'/>",
            "<g transform='rotate(300.000,210,74)'>",
            "<g><title>90000000000000000000000000000000</title>",
            "<text class='label' x='210' y='74'>90000000</text>",
            "</g>",
            "</g>",
            "<g><title>message 0 Lookup</title>",
            "<line class='sent' x1='110' y1='80' x2='210' y2='100'/>",
            "</g>",
            "<g><title>message 0 Lookup</title>",
            "<line class='again' x1='110' y1='80' x2='210' y2='120'/>",
            "</g>",
            "<g><title>message 1 LookupReply</title>",
            "<line class='sent' x1='210' y1='100' x2='110' y2='140'/>",
            "</g>",
            "<g><title>message 2 LookupReply</title>",
            "<line class='lost' x1='210' y1='120' x2='160' y2='130'/>",
            "<line class='cross' x1='157' y1='127' x2='163' y2='133'/>",
            "<line class='cross' x1='157' y1='133' x2='163' y2='127'/>",
            "</g>",
            "<line class='guide' x1='210' y1='100' x2='260' y2='100'/>",
            "<circle class='entry' cx='210' cy='100' r='3'/>",
            "<text class='faint-end' x='50' y='104'>2</text>",
            "<text class='label' x='266' y='104'>90000000 message 0 Lookup; delivery 1 of ff000000 hops 1</text>",
            "<line class='guide' x1='210' y1='120' x2='260' y2='120'/>",
            "<circle class='entry' cx='210' cy='120' r='3'/>",
            "<text class='faint-end' x='50' y='124'>3</text>",
            "<text class='label' x='266' y='124'>90000000 message 0 Lookup; delivery 1 of ff000000 hops 1</text>",
        ],
    )
}

/// A message to the node itself goes by the right of its lifeline; and an entry with no node has words alone.
#[test]
fn a_message_to_itself_is_drawn(rt: HostRuntime) -> Result<(), Fail> {
    let entries = fetched(rt.alloc())?;
    let part = Part {
        drawn: 4,
        first: 0,
        stop: 4,
        wrong: None,
    };
    is_drawn_so(
        &rt,
        rt.alloc(),
        &entries,
        part,
        &[
            "<line class='life' x1='110' y1='80' x2='110' y2='180'/>",
            "<g transform='rotate(300.000,110,74)'>",
            "<g><title>10000000000000000000000000000000</title>",
            "<text class='label' x='110' y='74'>10000000</text>",
            "</g>",
            "</g>",
            "<line class='life' x1='210' y1='80' x2='210' y2='180'/>",
            "<g transform='rotate(300.000,210,74)'>",
            "<g><title>90000000000000000000000000000000</title>",
            "<text class='label' x='210' y='74'>90000000</text>",
            "</g>",
            "</g>",
            "<g><title>message 0 FetchReply</title>",
            "<line class='sent-part' x1='110' y1='120' x2='118' y2='120'/>",
            "<line class='sent-part' x1='118' y1='120' x2='118' y2='140'/>",
            "<line class='sent' x1='118' y1='140' x2='110' y2='140'/>",
            "</g>",
            "<line class='guide' x1='210' y1='100' x2='260' y2='100'/>",
            "<circle class='entry' cx='210' cy='100' r='3'/>",
            "<text class='faint-end' x='50' y='104'>1</text>",
            "<text class='label' x='266' y='104'>90000000 noise</text>",
            "<line class='guide' x1='110' y1='120' x2='260' y2='120'/>",
            "<circle class='entry' cx='110' cy='120' r='3'/>",
            "<text class='faint-end' x='50' y='124'>2</text>",
            "<text class='label' x='266' y='124'>10000000 command 2 fetch 01010101; reclaimed 01010101; answered of 90000000 7</text>",
            "<line class='guide' x1='110' y1='140' x2='260' y2='140'/>",
            "<circle class='entry' cx='110' cy='140' r='3'/>",
            "<text class='faint-end' x='50' y='144'>3</text>",
            "<text class='label' x='266' y='144'>10000000 message 0 FetchReply; 2 found by 90000000</text>",
            "<text class='faint-end' x='50' y='164'>4</text>",
            "<text class='label' x='266' y='164'>message 9</text>",
        ],
    )
}
