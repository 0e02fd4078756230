use super::*;
use ring_math::{Bytes, FileId, FileIds, Id, Ids, IdsBuilder};
use std::alloc::Global;
use std::test::Fail;
use wire_msg::{Answer, Command, Copies, Envelope, Frame, Message, Note, Own, Reply, Why};

const TEN: Id = Id(0x10000000000000000000000000000000);

const THIRTY: Id = Id(0x30000000000000000000000000000000);

const FILE: FileId = FileId([0xf1; 20]);

/// Announce from 10~ to 30~ with stamp 5.
const ANNOUNCE: [u8; 46] = [
    1, 0x12, 0, 0, 0, 0x28, // version, kind and length
    0x10, 0, 0, 0, 0, 0, 0, 0, 0, 0, 0, 0, 0, 0, 0, 0, // sender
    0x30, 0, 0, 0, 0, 0, 0, 0, 0, 0, 0, 0, 0, 0, 0, 0, // receiver
    0, 0, 0, 0, 0, 0, 0, 5, // stamp
];

fn sent(message: Message) -> Envelope {
    Envelope {
        sender: TEN,
        receiver: THIRTY,
        stamp: 5,
        message,
    }
}

/// Whether these bytes are no frame, for this reason.
fn is_refused(alloc: Global, bytes: &[u8], fault: FrameFault) -> bool {
    match decode(alloc, bytes) {
        Ok(_) => false,
        Err(found) => found == fault && !is_frame(bytes),
    }
}

fn is_announce(envelope: &Envelope) -> bool {
    envelope.sender == TEN
        && envelope.receiver == THIRTY
        && envelope.stamp == 5
        && matches!(&envelope.message, Message::Announce)
}

/// The frame of a message. What is dropped by a call is one step here, and at the end of a block a case for each kind of message.
fn spelled(alloc: Global, message: Message) -> Result<Frame, Fail> {
    let envelope = sent(message);
    let frame = encode(alloc, &envelope);
    drop(envelope);
    Ok(frame?)
}

fn is_spelled(alloc: Global, envelope: &Envelope, bytes: &[u8]) -> Result<bool, Fail> {
    let frame = encode(alloc, envelope)?;
    Ok(frame.as_slice() == bytes)
}

fn is_read_as_announce(alloc: Global, bytes: &[u8]) -> Result<bool, Fail> {
    let envelope = decode(alloc, bytes)?;
    let is_so = is_announce(&envelope);
    drop(envelope);
    Ok(is_so)
}

#[test]
fn an_announce(rt: HostRuntime) -> Result<(), Fail> {
    let alloc = rt.alloc();
    assert!(rt; spelled(alloc, Message::Announce)?.as_slice() == ANNOUNCE.as_slice());
    assert!(rt; is_frame(&ANNOUNCE));
    assert!(rt; is_read_as_announce(alloc, &ANNOUNCE)?);
    Ok(())
}

/// The announce with another byte at this place.
fn changed(place: usize, byte: u8) -> [u8; 46] {
    let mut bytes = ANNOUNCE;
    if let Some(old) = bytes.get_mut(place) {
        *old = byte;
    }
    bytes
}

#[test]
fn a_changed_announce(rt: HostRuntime) {
    for (place, byte, fault) in [
        (1, 0x15, FrameFault::Kind { found: 21 }),
        (0, 2, FrameFault::Kind { found: 18 }),
        (0, 3, FrameFault::Version { found: 3 }),
    ] {
        assert!(rt;
            is_refused(rt.alloc(), &changed(place, byte), fault),
            "{place}"
        );
    }
}

#[test]
fn a_longer_announce(rt: HostRuntime) -> Result<(), Fail> {
    let mut longer = ANNOUNCE.as_slice().to_vec(rt.alloc())?;
    longer.push(0)?;
    let fault = FrameFault::Length {
        stated: 40,
        found: 41,
    };
    assert!(rt; is_refused(rt.alloc(), &longer, fault));
    Ok(())
}

#[test]
fn frame_prefixes(rt: HostRuntime) {
    for n in 0..ANNOUNCE.len() {
        let fault = if n < 6 {
            FrameFault::Short { need: 6 }
        } else {
            FrameFault::Length {
                stated: 40,
                found: n - 6,
            }
        };
        assert!(rt; is_refused(rt.alloc(), &ANNOUNCE[..n], fault), "{n}");
    }
}

fn no_files(alloc: Global) -> Result<FileIds, Fail> {
    Ok(FileIds::copy_of(alloc, &[])?)
}

/// So many files.
fn files(alloc: Global, n: u16) -> Result<FileIds, Fail> {
    let mut files = Vec::new(alloc);
    for i in 0..n {
        let [high, low] = i.to_be_bytes();
        let mut file = [0x5a; 20];
        file[0] = high;
        file[19] = low;
        files.push(FileId(file))?;
    }
    if files.len() > 4096 {
        return Err("a list has at most 4,096 files")?;
    }
    Ok(FileIds::of(files)?)
}

/// As many identifiers as a list takes.
fn all_ids(alloc: Global) -> Result<Ids, Fail> {
    let mut ids = IdsBuilder::new();
    for i in 0..17u8 {
        let _has_room = ids.push(Id(u128::from(i)));
    }
    Ok(ids.finish(alloc)?)
}

/// The frame of a grant with so many tombstones.
fn grant(alloc: Global, tombs: u16) -> Result<Vec<u8>, Fail> {
    let manifest = no_files(alloc)?;
    let tombs = files(alloc, tombs)?;
    let grant = Message::Grant {
        attempt: 1,
        manifest,
        tombs,
    };
    let frame = spelled(alloc, grant)?;
    Ok(frame.as_slice().to_vec(alloc)?)
}

#[test]
fn a_grant_without_tombstones(rt: HostRuntime) -> Result<(), Fail> {
    let frame = grant(rt.alloc(), 0)?;
    assert!(rt; frame.starts_with(&[1, 0x0d, 0, 0, 0, 0x2e]));
    assert!(rt; frame.ends_with(&[0, 0, 0, 1, 0, 0]));
    assert!(rt; frame.len() == 52);
    Ok(())
}

#[test]
fn a_grant_with_a_tombstone(rt: HostRuntime) -> Result<(), Fail> {
    let mut frame = grant(rt.alloc(), 1)?;
    assert!(rt; frame.starts_with(&[2, 0x0d, 0, 0, 0, 0x44]));
    assert!(rt; frame.len() == 74);
    let fields = [0, 0, 0, 1, 0, 0, 0, 1];
    assert!(rt; frame.get(46..54) == Some(fields.as_slice()));
    if let Some(count) = frame.get_mut(53) {
        *count = 0;
    }
    assert!(rt; is_refused(rt.alloc(), &frame, FrameFault::Range { place: 52 }));
    Ok(())
}

fn insert(alloc: Global, bytes: &[u8]) -> Result<Message, Fail> {
    Ok(Message::Insert {
        origin: TEN,
        number: 1,
        hops: 2,
        file: FILE,
        copies: Copies::new(9).ok_or("9 copies are allowed")?,
        bytes: Bytes::copy_of(alloc, bytes)?,
    })
}

/// Whether the frame is refused so, with another byte at this place.
fn is_refused_with(
    frame: &[u8],
    alloc: Global,
    place: usize,
    byte: u8,
    fault: FrameFault,
) -> Result<bool, Fail> {
    let mut bytes = frame.to_vec(alloc)?;
    if let Some(old) = bytes.get_mut(place) {
        *old = byte;
    }
    Ok(is_refused(alloc, &bytes, fault))
}

#[test]
fn parts_of_an_insert(rt: HostRuntime) -> Result<(), Fail> {
    let alloc = rt.alloc();
    let frame = spelled(alloc, insert(alloc, &[7])?)?;
    // Places and their bytes, and what is refused then. The copies stand at place 92, the length of the bytes at 93.
    for (place, byte, fault) in [
        (92, 0, FrameFault::Range { place: 92 }),
        (92, 10, FrameFault::Range { place: 92 }),
        (93, 0x11, FrameFault::Range { place: 93 }),
        (94, 2, FrameFault::Short { need: 97 }),
        (94, 0, FrameFault::Range { place: 95 }),
    ] {
        assert!(rt;
            is_refused_with(frame.as_slice(), alloc, place, byte, fault)?,
            "{place}"
        );
    }
    Ok(())
}

/// A reply with this tag.
fn reply(alloc: Global, tag: u8) -> Result<Reply, Fail> {
    let node = TEN;
    Ok(match tag {
        1 => Reply::Delivered { node, hops: 65535 },
        2 => Reply::Stored {
            holders: all_ids(alloc)?,
        },
        3 => Reply::Found {
            node,
            bytes: Bytes::copy_of(alloc, &[1; 4096])?,
        },
        4 => Reply::NotFound { node },
        5 => Reply::Collision { node },
        6 => Reply::TooFew { node, known: 2 },
        7 => Reply::Busy {
            node,
            joiner: THIRTY,
        },
        8 => Reply::NotReady { node },
        9 => Reply::Full { node },
        10 => Reply::Gone { node },
        _ => Reply::Reclaimed { node },
    })
}

/// A why with this tag.
fn why(tag: u8) -> Why {
    match tag {
        1 => Why::Busy { joiner: TEN },
        2 => Why::Moved {
            left: TEN,
            right: THIRTY,
        },
        _ => Why::NotReady,
    }
}

/// A message of this kind, with this tag where it has a why or a reply, and lists as long as they may be.
fn message(alloc: Global, kind: u8, tag: u8) -> Result<Message, Fail> {
    let (origin, number, hops, attempt, file) = (TEN, 1, 2, 7, FILE);
    Ok(match kind {
        1 => Message::Lookup {
            origin,
            number,
            key: THIRTY,
            hops,
        },
        2 => Message::LookupReply {
            number,
            reply: reply(alloc, tag)?,
        },
        3 => insert(alloc, &[0xab; 4096])?,
        4 => Message::InsertReply {
            number,
            reply: reply(alloc, tag)?,
        },
        5 => Message::Fetch {
            origin,
            number,
            hops,
            file,
        },
        6 => Message::FetchReply {
            number,
            reply: reply(alloc, tag)?,
        },
        7 => Message::JoinRequest {
            joiner: TEN,
            attempt,
            hops,
        },
        8 => Message::JoinReply {
            attempt,
            members: all_ids(alloc)?,
        },
        9 => Message::JoinRefuse {
            attempt,
            why: why(tag),
        },
        10 => Message::Probe { attempt },
        11 => Message::ProbeReply {
            attempt,
            members: all_ids(alloc)?,
        },
        12 => Message::LeaseRequest {
            attempt,
            left: TEN,
            right: THIRTY,
        },
        13 => Message::Grant {
            attempt,
            manifest: files(alloc, 4096)?,
            tombs: files(alloc, 4096)?,
        },
        14 => Message::Deny {
            attempt,
            why: why(tag),
        },
        15 => Message::Handover {
            file,
            bytes: Bytes::copy_of(alloc, b"abc")?,
        },
        16 => Message::Release { attempt },
        17 => Message::Confirm { attempt },
        18 => Message::Announce,
        19 => Message::Replicate {
            origin,
            number,
            file,
            bytes: Bytes::copy_of(alloc, b"")?,
        },
        20 => Message::ReplicaAck {
            origin,
            number,
            file,
        },
        21 => Message::Reclaim {
            origin,
            number,
            hops,
            file,
        },
        _ => Message::ReclaimReply {
            number,
            reply: reply(alloc, tag)?,
        },
    })
}

/// Kind, tag of its why or reply, version, and the bytes behind the length.
const FRAMES: [(u8, u8, u8, u32); 36] = [
    (1, 0, 1, 82),
    (2, 1, 1, 67),
    (2, 7, 1, 81),
    (2, 8, 1, 65),
    (2, 10, 2, 65),
    (2, 11, 2, 65),
    (3, 0, 1, 4185),
    (4, 2, 1, 322),
    (4, 5, 1, 65),
    (4, 6, 1, 67),
    (4, 9, 1, 65),
    (4, 10, 2, 65),
    (5, 0, 1, 86),
    (6, 3, 1, 4163),
    (6, 4, 1, 65),
    (6, 10, 2, 65),
    (6, 11, 2, 65),
    (7, 0, 1, 62),
    (8, 0, 1, 317),
    (9, 1, 1, 61),
    (9, 2, 1, 77),
    (10, 0, 1, 44),
    (11, 0, 1, 317),
    (12, 0, 1, 76),
    (13, 0, 2, 163888),
    (14, 3, 1, 45),
    (15, 0, 1, 65),
    (16, 0, 1, 44),
    (17, 0, 1, 44),
    (18, 0, 1, 40),
    (19, 0, 1, 86),
    (20, 0, 1, 84),
    (21, 0, 2, 86),
    (22, 1, 2, 67),
    (22, 9, 2, 65),
    (22, 11, 2, 65),
];

/// Whether these bytes are a frame, and the spelling of what they are read as.
fn is_spelling(alloc: Global, frame: &[u8]) -> Result<bool, Fail> {
    let back = decode(alloc, frame)?;
    let is_so = is_spelled(alloc, &back, frame);
    drop(back);
    Ok(is_so? && is_frame(frame))
}

#[test]
fn there_and_back(rt: HostRuntime) -> Result<(), Fail> {
    let alloc = rt.alloc();
    for (kind, tag, version, length) in FRAMES {
        let frame = spelled(alloc, message(alloc, kind, tag)?)?;
        let frame = frame.as_slice();
        let length = length.to_be_bytes();
        assert!(rt; frame.starts_with(&[version, kind]), "kind {kind}");
        assert!(rt; frame.get(2..6) == Some(length.as_slice()), "kind {kind}");
        assert!(rt; is_spelling(alloc, frame)?, "kind {kind}");
    }
    Ok(())
}

/// The bytes of an identifier with this first byte, and zeros behind it.
fn id_bytes(first: u8) -> [u8; 16] {
    let mut bytes = [0; 16];
    bytes[0] = first;
    bytes
}

/// The commands of all kinds, each with its spelling: a tag, and what the parts put behind it.
fn command(alloc: Global, tag: u8) -> Result<(Command, Vec<u8>), Fail> {
    let mut spelled = Vec::new(alloc);
    spelled.push(tag)?;
    Ok((
        match tag {
            1 => {
                spelled.extend_from_slice(&id_bytes(0x10))?;
                Command::Join { via: TEN }
            }
            2 => {
                spelled.extend_from_slice(&id_bytes(0x30))?;
                Command::Lookup { key: THIRTY }
            }
            3 => {
                spelled.extend_from_slice(&[0xf1; 20])?;
                spelled.extend_from_slice(&[9, 0, 2, 0x61, 0x62])?;
                Command::Insert {
                    file: FILE,
                    copies: Copies::new(9).ok_or("9 copies are allowed")?,
                    bytes: Bytes::copy_of(alloc, b"ab")?,
                }
            }
            4 => {
                spelled.extend_from_slice(&[0xf1; 20])?;
                Command::Fetch { file: FILE }
            }
            5 => Command::GiveUp,
            _ => {
                spelled.extend_from_slice(&[0xf1; 20])?;
                Command::Reclaim { file: FILE }
            }
        },
        spelled,
    ))
}

fn is_command_spelled(alloc: Global, command: &Command, spelled: &[u8]) -> Result<bool, Fail> {
    let bytes = encode_command(alloc, command)?;
    Ok(bytes.as_slice() == spelled)
}

fn is_command_read(alloc: Global, spelled: &[u8]) -> Result<bool, Fail> {
    let back = decode_command(alloc, spelled)?;
    let is_so = is_command_spelled(alloc, &back, spelled);
    drop(back);
    is_so
}

#[test]
fn commands_there_and_back(rt: HostRuntime) -> Result<(), Fail> {
    let alloc = rt.alloc();
    for tag in 1..7 {
        let (said, spelled) = command(alloc, tag)?;
        assert!(rt; is_command_spelled(alloc, &said, &spelled)?, "tag {tag}");
        assert!(rt; is_command_read(alloc, &spelled)?, "tag {tag}");
    }
    Ok(())
}

/// The notes of all kinds, and those of the answers.
fn note(alloc: Global, tag: u8) -> Result<Note, Fail> {
    let number = 7;
    Ok(match tag {
        1 => Note::Accepted {
            file: FILE,
            bytes: Bytes::copy_of(alloc, b"")?,
        },
        2 => Note::Delivered {
            origin: TEN,
            number,
            key: THIRTY,
            hops: 3,
        },
        3 => Note::Answered {
            origin: TEN,
            number,
            reply: Reply::Gone { node: THIRTY },
        },
        4 => Note::Reclaimed { file: FILE },
        _ => Note::Closed {
            number,
            answer: answer(alloc, tag)?,
        },
    })
}

fn answer(alloc: Global, tag: u8) -> Result<Answer, Fail> {
    Ok(match tag {
        11 => Answer::Reply(reply(alloc, 2)?),
        12 => Answer::Joined {
            left: TEN,
            right: THIRTY,
        },
        13 => Answer::Denied {
            node: TEN,
            why: Why::NotReady,
        },
        14 => Answer::Stopped {
            node: TEN,
            own: Own::GivenUp,
        },
        15 => Answer::Stopped {
            node: TEN,
            own: Own::Spent,
        },
        16 => Answer::GaveUp,
        _ => Answer::NothingToGiveUp,
    })
}

/// A note, its first bytes, its last and how many it has.
const NOTES: [(u8, u8, u8, usize); 11] = [
    (1, 1, 0, 23),
    (2, 2, 3, 43),
    (3, 3, 0, 42),
    (4, 5, 0xf1, 21),
    (11, 4, 16, 284),
    (12, 4, 0, 42),
    (13, 4, 3, 27),
    (14, 4, 1, 27),
    (15, 4, 3, 27),
    (16, 4, 5, 10),
    (17, 4, 6, 10),
];

/// Whether these bytes are a note, and the spelling of what they are read as.
fn is_note(alloc: Global, bytes: &[u8]) -> Result<bool, Fail> {
    let back = decode_note(alloc, bytes)?;
    let again = encode_note(alloc, &back);
    drop(back);
    Ok(again?.as_slice() == bytes)
}

fn note_bytes(alloc: Global, tag: u8) -> Result<Frame, Fail> {
    let note = note(alloc, tag)?;
    let bytes = encode_note(alloc, &note);
    drop(note);
    Ok(bytes?)
}

#[test]
fn notes_there_and_back(rt: HostRuntime) -> Result<(), Fail> {
    let alloc = rt.alloc();
    for (tag, first, last, length) in NOTES {
        let bytes = note_bytes(alloc, tag)?;
        let bytes = bytes.as_slice();
        assert!(rt; bytes.len() == length, "note {tag}");
        assert!(rt;
            bytes.first() == Some(&first) && bytes.last() == Some(&last),
            "note {tag}"
        );
        assert!(rt; is_note(alloc, bytes)?, "note {tag}");
    }
    Ok(())
}

fn is_command_refused(alloc: Global, bytes: &[u8], fault: FrameFault) -> bool {
    matches!(decode_command(alloc, bytes), Err(found) if found == fault)
}

#[test]
fn commands_are_refused(rt: HostRuntime) {
    for (bytes, fault) in [
        ([].as_slice(), FrameFault::Short { need: 1 }),
        ([0].as_slice(), FrameFault::Range { place: 0 }),
        ([7].as_slice(), FrameFault::Range { place: 0 }),
        ([5, 0].as_slice(), FrameFault::Range { place: 1 }),
        ([4, 0].as_slice(), FrameFault::Short { need: 21 }),
    ] {
        assert!(rt; is_command_refused(rt.alloc(), bytes, fault), "{bytes:?}");
    }
}

fn is_note_refused(alloc: Global, bytes: &[u8], fault: FrameFault) -> bool {
    matches!(decode_note(alloc, bytes), Err(found) if found == fault)
}

#[test]
fn notes_are_refused(rt: HostRuntime) {
    for (bytes, fault) in [
        ([].as_slice(), FrameFault::Short { need: 1 }),
        ([6].as_slice(), FrameFault::Range { place: 0 }),
        (
            [4, 0, 0, 0, 0, 0, 0, 0, 1].as_slice(),
            FrameFault::Short { need: 10 },
        ),
        (
            [4, 0, 0, 0, 0, 0, 0, 0, 1, 7].as_slice(),
            FrameFault::Range { place: 9 },
        ),
        (
            [4, 0, 0, 0, 0, 0, 0, 0, 1, 5, 5].as_slice(),
            FrameFault::Range { place: 10 },
        ),
    ] {
        assert!(rt; is_note_refused(rt.alloc(), bytes, fault), "{bytes:?}");
    }
}
