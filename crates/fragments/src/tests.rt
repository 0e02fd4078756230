//! Pieces of large files: what is cut is joined again, and what is at fault where it is not. Identifiers and random bytes were
//! computed apart, by SHA-1 and ChaCha8.

use crate::{CutFault, JoinFault, Pieces, cut, join, large_scenario, pieces_come_back};
use ring_math::{Bytes, OutOfMemory};
use scenario_reader::What;
use std::alloc::Global;
use std::test::Fail;

/// So many bytes, of which no two fragments are equal.
fn sample(alloc: Global, size: usize) -> Result<Vec<u8>, OutOfMemory> {
    let mut bytes = Vec::new(alloc);
    for i in 0..size {
        bytes.push((i % 251) as u8)?;
    }
    Ok(bytes)
}

fn cut_sample(alloc: Global, size: usize) -> Result<Pieces, Fail> {
    let bytes = sample(alloc, size)?;
    Ok(cut(alloc, b"l", b"", &[0; 8], &bytes)?)
}

/// All fragments, found.
fn found_in(alloc: Global, pieces: &Pieces) -> Result<Vec<Option<Bytes>>, OutOfMemory> {
    let mut found = Vec::new(alloc);
    for fragment in pieces.fragments.as_slice() {
        found.push(Some(fragment.bytes.copy(alloc)?))?;
    }
    Ok(found)
}

/// Whether a sample of so many bytes is the same again, cut and joined.
fn comes_back(alloc: Global, size: usize) -> Result<bool, Fail> {
    let pieces = cut_sample(alloc, size)?;
    let found = found_in(alloc, &pieces)?;
    let joined = join(alloc, pieces.index.bytes.as_slice(), &found)?;
    let bytes = sample(alloc, size)?;
    Ok(joined.as_slice() == bytes.as_slice())
}

#[test]
fn what_was_cut_is_joined_again(rt: HostRuntime) -> Result<(), Fail> {
    for size in [0, 1, 4_096, 4_097, 835_584] {
        assert!(rt; comes_back(rt.alloc(), size)?);
    }
    pieces_come_back();
    Ok(())
}

/// 4,097 bytes are 00001001 in hexadecimal, and have two fragments.
#[test]
fn an_index_names_fragments(rt: HostRuntime) -> Result<(), Fail> {
    let pieces = cut_sample(rt.alloc(), 4_097)?;
    let index = pieces.index.bytes.as_slice();
    assert!(rt; index.starts_with(b"\x00\x00\x10\x01\x00\x02"));
    assert_eq!(rt; index.len(), 46);
    assert_eq!(rt; pieces.fragments.as_slice().len(), 2);
    if let Some(last) = pieces.fragments.as_slice().last() {
        assert_eq!(rt; last.name.as_slice(), b"l\x00\x00\x00\x01".as_slice());
        assert_eq!(rt; last.bytes.as_slice(), b"\x50".as_slice());
        assert_eq!(rt;
            last.file.0,
            *b"\x9d\xba\xc7\x49\x66\x7a\xc9\xc4\x5e\x07\x88\x12\xee\xa6\x85\x1f\x12\xa1\x27\xcc"
        );
        assert!(rt; index.ends_with(&last.file.0));
    }
    Ok(())
}

#[test]
fn refuses_what_is_too_long(rt: HostRuntime) -> Result<(), Fail> {
    let bytes = sample(rt.alloc(), 835_585)?;
    let long = cut(rt.alloc(), b"l", b"", &[0; 8], &bytes);
    assert!(rt; matches!(long, Err(CutFault::TooLong { found: 835_585 })));
    let named = cut(rt.alloc(), &[b'l'; 61], b"", &[0; 8], b"");
    assert!(rt; matches!(named, Err(CutFault::LongName { found: 61 })));
    Ok(())
}

/// What is at fault where these are joined.
fn fault(alloc: Global, index: &[u8], found: &[Option<Bytes>]) -> Option<JoinFault> {
    match join(alloc, index, found) {
        Ok(_) => None,
        Err(fault) => Some(fault),
    }
}

/// A fragment of so many bytes.
fn some_bytes(alloc: Global, size: usize) -> Result<Option<Bytes>, Fail> {
    let bytes = sample(alloc, size)?;
    Ok(Some(Bytes::copy_of(alloc, &bytes)?))
}

/// What is at fault where these two are joined.
fn fault_of_two(
    alloc: Global,
    index: &[u8],
    one: Option<Bytes>,
    other: Option<Bytes>,
) -> Result<Option<JoinFault>, Fail> {
    let mut found = Vec::new(alloc);
    found.push(one)?;
    found.push(other)?;
    Ok(fault(alloc, index, &found))
}

/// Two fragments that are swapped, one that is short, a missing one, and one too few.
#[test]
fn fragments_are_at_fault_in_order(rt: HostRuntime) -> Result<(), Fail> {
    let alloc = rt.alloc();
    let pieces = cut_sample(alloc, 4_097)?;
    let index = pieces.index.bytes.as_slice();
    let (short, full) = (some_bytes(alloc, 1)?, some_bytes(alloc, 4_096)?);
    let swapped = fault_of_two(alloc, index, short, full)?;
    assert_eq!(rt; swapped, Some(JoinFault::Size { fragment: 0 }));
    let (full, empty) = (some_bytes(alloc, 4_096)?, some_bytes(alloc, 0)?);
    let cut_off = fault_of_two(alloc, index, full, empty)?;
    assert_eq!(rt; cut_off, Some(JoinFault::Size { fragment: 1 }));
    let full = some_bytes(alloc, 4_096)?;
    let missing = fault_of_two(alloc, index, full, None)?;
    assert_eq!(rt; missing, Some(JoinFault::Missing { fragment: 1 }));
    let few = JoinFault::Count {
        stated: 2,
        found: 1,
    };
    assert_eq!(rt; fault(alloc, index, &[None]), Some(few));
    Ok(())
}

/// An index of three fragments for 4,097 bytes, and one of 5 bytes.
#[test]
fn an_index_is_at_fault_first(rt: HostRuntime) -> Result<(), Fail> {
    let pieces = cut_sample(rt.alloc(), 4_097)?;
    let index = pieces.index.bytes.as_slice();
    let three = b"\x00\x00\x10\x01\x00\x03";
    let two = b"\x00\x00\x10\x01\x00\x02";
    assert_eq!(rt;
        fault(rt.alloc(), three, &[]),
        Some(JoinFault::Index { place: 4 })
    );
    assert_eq!(rt;
        fault(rt.alloc(), two, &[]),
        Some(JoinFault::Index { place: 6 })
    );
    assert_eq!(rt;
        fault(rt.alloc(), &two[..5], &[]),
        Some(JoinFault::Index { place: 5 })
    );
    let none = JoinFault::Count {
        stated: 2,
        found: 0,
    };
    assert_eq!(rt; fault(rt.alloc(), index, &[]), Some(none));
    Ok(())
}

/// The bytes are those of stream 1 of seed 7. Two joins, then three inserts and three fetches, each with a settle.
#[test]
fn makes_a_large_scenario(rt: HostRuntime) -> Result<(), Fail> {
    let scenario = large_scenario(rt.alloc(), 2, 7, 4_097)?;
    assert_eq!(rt; scenario.files().len(), 3);
    if let Some(first) = scenario.files().first() {
        assert_eq!(rt; first.name.as_slice(), b"p0".as_slice());
        assert!(rt; first.bytes.as_slice().starts_with(b"\x28\x7e\x54\x8e"));
        assert_eq!(rt;
            first.file.0,
            *b"\x11\xc1\x39\x0e\xaf\xdd\x3e\x20\xbc\x97\x25\xbc\x43\xe8\xe6\x9e\xa5\xf7\xad\x47"
        );
    }
    if let Some(last) = scenario.files().last() {
        assert_eq!(rt; last.name.as_slice(), b"x".as_slice());
        assert_eq!(rt; last.line, 5);
    }
    assert_eq!(rt; scenario.actions().len(), 17);
    if let Some(last) = scenario.actions().last() {
        assert!(rt; matches!(&last.what, What::Settle(200)));
        assert_eq!(rt; last.line, 23);
    }
    Ok(())
}
