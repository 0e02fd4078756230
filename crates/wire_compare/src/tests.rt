use super::*;
use ring_math::{Bytes, FileId, Id};
use std::alloc::Global;
use std::test::Fail;
use wire_msg::{Answer, Message, Note, Reply};

const FILE: FileId = FileId([7; 20]);

fn handover(alloc: Global, bytes: &[u8]) -> Result<Message, Fail> {
    Ok(Message::Handover {
        file: FILE,
        bytes: Bytes::copy_of(alloc, bytes)?,
    })
}

fn delivered(number: u64) -> Note {
    Note::Delivered {
        origin: Id(1),
        number,
        key: Id(2),
        hops: 3,
    }
}

#[test]
fn messages_differ_in_their_bytes(rt: HostRuntime) -> Result<(), Fail> {
    let message = handover(rt.alloc(), b"abc")?;
    let other = handover(rt.alloc(), b"abd")?;
    assert!(rt; same_message(&message, &message) && !same_message(&message, &other));
    Ok(())
}

#[test]
fn notes_differ_in_their_numbers(rt: HostRuntime) -> Result<(), Fail> {
    let note = delivered(4);
    let other = delivered(5);
    assert!(rt; same_note(&note, &note) && !same_note(&note, &other));
    Ok(())
}

#[test]
fn answers_and_replies_differ_in_their_nodes(rt: HostRuntime) -> Result<(), Fail> {
    let reply = Reply::Gone { node: Id(1) };
    let other = Reply::Gone { node: Id(2) };
    assert!(rt; same_reply(&reply, &reply) && !same_reply(&reply, &other));
    let answer = Answer::Reply(reply);
    assert!(rt; same_answer(&answer, &answer) && !same_answer(&answer, &Answer::Reply(other)));
    Ok(())
}
