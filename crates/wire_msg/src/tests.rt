use super::*;
use ring_math::{Bytes, FileId, FileIds, Id, IdsBuilder};
use std::alloc::Global;
use std::test::Fail;

fn bytes_of(alloc: Global, bytes: &[u8]) -> Result<Bytes, Fail> {
    Ok(Bytes::copy_of(alloc, bytes)?)
}

#[test]
fn copies_are_one_to_nine(rt: HostRuntime) -> Result<(), Fail> {
    for (n, is_allowed) in [(0, false), (1, true), (9, true), (10, false), (255, false)] {
        let copies = Copies::new(n);
        assert_eq!(rt; copies.is_some(), is_allowed, "{n}");
        if let Some(copies) = copies {
            assert_eq!(rt; copies.get(), n);
        }
    }
    Ok(())
}

#[test]
fn a_frame_holds_its_bytes(rt: HostRuntime) -> Result<(), Fail> {
    let mut frame = Frame::new(rt.alloc());
    assert_eq!(rt; frame.as_slice().len(), 0);
    frame.push(7)?;
    assert_eq!(rt; frame.as_slice(), [7].as_slice());
    let copy = Frame::copy_of(rt.alloc(), b"abc")?;
    assert_eq!(rt; copy.as_slice(), b"abc".as_slice());
    let frame = Frame::from([1, 2].to_vec(rt.alloc())?);
    assert_eq!(rt; frame.as_slice(), [1, 2].as_slice());
    Ok(())
}

fn an_insert(alloc: Global) -> Result<Envelope, Fail> {
    Ok(Envelope {
        sender: Id(1),
        receiver: Id(2),
        stamp: 3,
        message: Message::Insert {
            origin: Id(4),
            number: 5,
            hops: 6,
            file: FileId([7; 20]),
            copies: Copies::new(8).ok_or("8 copies are allowed")?,
            bytes: bytes_of(alloc, b"nine")?,
        },
    })
}

/// Whether this is that insert.
fn is_the_insert(envelope: &Envelope) -> bool {
    let Message::Insert {
        origin,
        number,
        hops,
        file,
        copies,
        bytes,
    } = &envelope.message
    else {
        return false;
    };
    envelope.sender == Id(1)
        && envelope.receiver == Id(2)
        && envelope.stamp == 3
        && *origin == Id(4)
        && *number == 5
        && *hops == 6
        && *file == FileId([7; 20])
        && copies.get() == 8
        && bytes.as_slice() == b"nine".as_slice()
}

/// A copy of the insert, which is no more. What is dropped by a call is one step here, and at the end of a block a case for each
/// kind of message.
fn a_copy(alloc: Global) -> Result<Envelope, Fail> {
    let source = an_insert(alloc)?;
    let copy = source.copy(alloc);
    drop(source);
    Ok(copy?)
}

#[test]
fn a_copy_outlives_its_source(rt: HostRuntime) -> Result<(), Fail> {
    let mut envelopes = Envelopes::new(rt.alloc());
    envelopes.push(a_copy(rt.alloc())?)?;
    let kept = envelopes.as_slice();
    assert!(rt; kept.len() == 1 && kept.iter().all(is_the_insert));
    Ok(())
}

fn a_grant(alloc: Global) -> Result<Message, Fail> {
    let manifest = FileIds::copy_of(alloc, &[FileId([1; 20])])?;
    let tombs = FileIds::copy_of(alloc, &[])?;
    Ok(Message::Grant {
        attempt: 9,
        manifest,
        tombs,
    })
}

/// Whether this is that grant.
fn is_the_grant(message: &Message) -> bool {
    let Message::Grant {
        attempt,
        manifest,
        tombs,
    } = message
    else {
        return false;
    };
    *attempt == 9
        && manifest.as_slice() == [FileId([1; 20])].as_slice()
        && tombs.as_slice().is_empty()
}

fn is_copied(alloc: Global, grant: &Message) -> Result<bool, Fail> {
    let copy = grant.copy(alloc)?;
    let is_so = is_the_grant(&copy);
    drop(copy);
    Ok(is_so)
}

#[test]
fn a_grant_keeps_both_lists(rt: HostRuntime) -> Result<(), Fail> {
    let grant = a_grant(rt.alloc())?;
    let is_so = is_copied(rt.alloc(), &grant);
    drop(grant);
    assert!(rt; is_so?);
    Ok(())
}

/// A note that a command was closed with the holders of a file.
fn a_closing(alloc: Global) -> Result<Note, Fail> {
    let mut holders = IdsBuilder::new();
    holders.push(Id(3));
    let holders = holders.finish(alloc)?;
    let answer = Answer::Reply(Reply::Stored { holders });
    Ok(Note::Closed { number: 4, answer })
}

fn is_the_closing(note: &Note) -> bool {
    match note {
        Note::Closed {
            number: 4,
            answer: Answer::Reply(Reply::Stored { holders }),
        } => holders.as_slice() == [Id(3)].as_slice(),
        _ => false,
    }
}

fn is_the_reclaim(note: &Note) -> bool {
    matches!(note, Note::Reclaimed { file } if *file == FileId([5; 20]))
}

fn a_copied_closing(alloc: Global) -> Result<Note, Fail> {
    let closed = a_closing(alloc)?;
    let copy = closed.copy(alloc);
    drop(closed);
    Ok(copy?)
}

#[test]
fn notes_are_kept_in_order(rt: HostRuntime) -> Result<(), Fail> {
    let mut notes = Notes::new(rt.alloc());
    notes.push(Note::Reclaimed {
        file: FileId([5; 20]),
    })?;
    notes.push(a_copied_closing(rt.alloc())?)?;
    let [first, second] = notes.as_slice() else {
        return Err("two notes were pushed")?;
    };
    assert!(rt; is_the_reclaim(first) && is_the_closing(second));
    Ok(())
}

#[test]
fn a_command_is_copied(rt: HostRuntime) -> Result<(), Fail> {
    let command = Command::Join { via: Id(6) }.copy(rt.alloc())?;
    let is_so = matches!(&command, Command::Join { via: Id(6) });
    drop(command);
    assert!(rt; is_so);
    Ok(())
}

fn is_sent(sent: &Outgoing) -> bool {
    sent.receiver == Id(8) && matches!(&sent.message, Message::Announce)
}

#[test]
fn sends_are_kept(rt: HostRuntime) -> Result<(), Fail> {
    let mut sends = Sends::new(rt.alloc());
    sends.push(Outgoing {
        receiver: Id(8),
        message: Message::Announce,
    })?;
    assert!(rt; sends.as_slice().iter().all(is_sent));
    assert!(rt; sends.into_items().len() == 1);
    Ok(())
}
