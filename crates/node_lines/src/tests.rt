//! What no clause says: that lines of each form are read with ample memory.

use crate::{Refusal, Start, TellFault, Told, read_line, read_start};
use ring_math::{FileId, Id, file_id};
use std::alloc::Global;
use std::test::Fail;
use wire_msg::Command;

/// The command that a line says.
fn command(alloc: Global, line: &[u8]) -> Option<Command> {
    match read_line(alloc, line) {
        Ok(Told::Does(command)) => Some(command),
        _ => None,
    }
}

/// The node that a line joins by, or the key that it looks up.
fn identifier(alloc: Global, line: &[u8]) -> Option<Id> {
    match command(alloc, line)? {
        Command::Join { via } => Some(via),
        Command::Lookup { key } => Some(key),
        _ => None,
    }
}

#[test]
fn identifiers_are_read(rt: HostRuntime) {
    let id = Id(0x0123456789abcdefabcdef0123456789);
    let join = identifier(rt.alloc(), b"join 0123456789abcdefABCDEF0123456789");
    assert_eq!(rt; join, Some(id));
    let lookup = identifier(rt.alloc(), b"  lookup  0123456789abcdefABCDEF0123456789 ");
    assert_eq!(rt; lookup, Some(id));
}

/// The file, the copies and the bytes of an insert.
fn inserted(alloc: Global, line: &[u8]) -> Option<(FileId, u8, usize)> {
    match command(alloc, line)? {
        Command::Insert {
            file,
            copies,
            bytes,
        } => Some((file, copies.get(), bytes.as_slice().len())),
        _ => None,
    }
}

/// The file that a line fetches or reclaims.
fn file(alloc: Global, line: &[u8]) -> Option<FileId> {
    match command(alloc, line)? {
        Command::Fetch { file } => Some(file),
        Command::Reclaim { file } => Some(file),
        _ => None,
    }
}

#[test]
fn files_are_named(rt: HostRuntime) {
    let named = file_id(b"photo.jpg", b"alice", &[1, 2, 3, 4, 5, 6, 7, 8]);
    let insert = b"insert 70686f746f2e6a7067 616c696365 0102030405060708 c0ffee 3";
    assert_eq!(rt; inserted(rt.alloc(), insert), Some((named, 3, 3)));
    let counted = FileId([
        0, 1, 2, 3, 4, 5, 6, 7, 8, 9, 10, 11, 12, 13, 14, 15, 16, 17, 18, 19,
    ]);
    let fetch = b"fetch 000102030405060708090a0b0c0d0e0f10111213";
    assert_eq!(rt; file(rt.alloc(), fetch), Some(counted));
    let reclaim = b"reclaim 000102030405060708090a0b0c0d0e0f10111213";
    assert_eq!(rt; file(rt.alloc(), reclaim), Some(counted));
}

/// The bytes that a line brings.
fn brought(alloc: Global, line: &[u8]) -> Option<usize> {
    match read_line(alloc, line) {
        Ok(Told::Comes(bytes)) => Some(bytes.as_slice().len()),
        _ => None,
    }
}

#[test]
fn bytes_are_brought(rt: HostRuntime) {
    assert_eq!(rt; brought(rt.alloc(), b"frame 00ff10"), Some(3));
    assert_eq!(rt; brought(rt.alloc(), b"frame -"), Some(0));
    assert_eq!(rt; brought(rt.alloc(), b"frame"), None);
}

/// Why a line is none.
fn refusal(alloc: Global, line: &[u8]) -> Option<Refusal> {
    match read_line(alloc, line) {
        Err(TellFault::Refused(refusal)) => Some(refusal),
        _ => None,
    }
}

#[test]
fn what_is_no_line_is_refused(rt: HostRuntime) {
    let lines: [(&[u8], Refusal); 6] = [
        (b"settle 3", Refusal::Word { place: 0 }),
        (b"frame", Refusal::Word { place: 0 }),
        (b"fetch", Refusal::Count { found: 1 }),
        (b"fetch 00", Refusal::Hex { place: 6 }),
        (b"giveup \t", Refusal::NotText { place: 7 }),
        (b"frame 0g", Refusal::Hex { place: 6 }),
    ];
    for (line, due) in lines {
        assert_eq!(rt; refusal(rt.alloc(), line), Some(due));
    }
}

#[test]
fn nodes_are_named(rt: HostRuntime) {
    let node = read_start(rt.alloc(), b"node 000000000000000000000000000000fF");
    assert!(rt;
        node == Ok(Start {
            me: Id(255),
            founder: false
        })
    );
    let founder = read_start(rt.alloc(), b"founder 000000000000000000000000000000fF");
    assert!(rt;
        founder
            == Ok(Start {
                me: Id(255),
                founder: true
            })
    );
    let neither = read_start(rt.alloc(), b"first 000000000000000000000000000000fF");
    assert!(rt; neither == Err(TellFault::Refused(Refusal::Word { place: 0 })));
}
