//! The law has callers: records that are legal by computation.

use crate::ring_law;
use overlay_rules::{Entries, Entry, Event};
use ring_math::Id;
use std::test::Fail;
use wire_msg::{Answer, Command, Envelopes, Note, Notes, Own};

#[test]
fn holds_of_no_entries(rt: HostRuntime) {
    let entries = Entries::new(rt.alloc());
    ring_law(&[Id(7), Id(9)], Id(9), &entries);
}

#[test]
fn holds_of_a_founder_that_is_to_join(rt: HostRuntime) -> Result<(), Fail> {
    let mut notes = Notes::new(rt.alloc());
    notes.push(Note::Closed {
        number: 0,
        answer: Answer::Stopped {
            node: Id(9),
            own: Own::Already,
        },
    })?;
    let mut entries = Entries::new(rt.alloc());
    entries.push(Entry {
        event: Event::Command {
            node: Id(9),
            number: 0,
            command: Command::Join { via: Id(7) },
        },
        messages: Envelopes::new(rt.alloc()),
        notes,
    })?;
    ring_law(&[Id(7), Id(9)], Id(9), &entries);
    Ok(())
}
