//! The law has callers: records that are legal by computation.

use crate::quiet_law;
use overlay_rules::{Entries, Entry, Event};
use ring_math::{FileId, Id};
use std::test::Fail;
use wire_msg::{Answer, Command, Envelope, Envelopes, Message, Note, Notes, Reply};

#[test]
fn holds_of_no_entries(rt: HostRuntime) {
    let entries = Entries::new(rt.alloc());
    quiet_law(&[Id(7), Id(9)], Id(9), &entries);
}

#[test]
fn holds_of_a_founder_that_is_answered_by_itself(rt: HostRuntime) -> Result<(), Fail> {
    let mut messages = Envelopes::new(rt.alloc());
    messages.push(Envelope {
        sender: Id(9),
        receiver: Id(9),
        stamp: 1,
        message: Message::FetchReply {
            number: 0,
            reply: Reply::NotFound { node: Id(9) },
        },
    })?;
    let mut asked = Notes::new(rt.alloc());
    asked.push(Note::Answered {
        origin: Id(9),
        number: 0,
        reply: Reply::NotFound { node: Id(9) },
    })?;
    let mut closed = Notes::new(rt.alloc());
    closed.push(Note::Closed {
        number: 0,
        answer: Answer::Reply(Reply::NotFound { node: Id(9) }),
    })?;
    let mut entries = Entries::new(rt.alloc());
    entries.push(Entry {
        event: Event::Command {
            node: Id(9),
            number: 0,
            command: Command::Fetch {
                file: FileId([5; 20]),
            },
        },
        messages,
        notes: asked,
    })?;
    entries.push(Entry {
        event: Event::Deliver { message: 0 },
        messages: Envelopes::new(rt.alloc()),
        notes: closed,
    })?;
    quiet_law(&[Id(7), Id(9)], Id(9), &entries);
    Ok(())
}
