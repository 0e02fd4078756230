use super::*;
use coverage::Reach;
use file_store::{Bury, FileStore, Put};
use ring_math::{Bytes, FileId, FileIds, Id};
use std::alloc::Global;
use std::test::Fail;

/// The identifier that begins with this byte.
fn id(first: u8) -> Id {
    Id(u128::from(first) << 120)
}

/// The file whose identifier begins with this byte.
fn file(first: u8) -> FileId {
    let mut bytes = [0; 20];
    bytes[0] = first;
    FileId(bytes)
}

fn list(alloc: Global, firsts: &[u8]) -> Result<FileIds, Fail> {
    let mut files = Vec::new(alloc);
    for first in firsts {
        files.push(file(*first))?;
    }
    if files.len() > 4096 {
        return Err(Fail::from("a list has at most 4,096 files"));
    }
    Ok(FileIds::of(files)?)
}

/// Files with one byte, and tombstones.
fn store_of(alloc: Global, files: &[u8], tombs: &[u8]) -> Result<FileStore, Fail> {
    let mut store = FileStore::new(alloc);
    for first in files {
        store.put(alloc, file(*first), &Bytes::copy_of(alloc, b"1")?)?;
    }
    store.bury_all(alloc, &list(alloc, tombs)?)?;
    Ok(store)
}

/// 10~ between e0~ and 90~, where 50~ joins on the right and f8~ on the left.
fn busy() -> Reach {
    Reach {
        me: id(0x10),
        left: id(0xe0),
        right: id(0x90),
        left_joiner: Some(id(0xf8)),
        right_joiner: Some(id(0x50)),
    }
}

// Each question is a function that borrows the store: what a test owns is dropped by a call, and not part for part at each way out.

/// Whether these are the files that are handed over to a joiner.
fn is_in_gap(alloc: Global, store: &FileStore, joiner: u8, files: &[FileId]) -> Result<bool, Fail> {
    let found = in_gap(alloc, store, &busy(), id(joiner))?;
    Ok(found.as_slice() == files)
}

/// Whether these are the tombstones.
fn are_tombs_in_gap(
    alloc: Global,
    store: &FileStore,
    joiner: u8,
    tombs: &[FileId],
) -> Result<bool, Fail> {
    let found = tombs_in_gap(alloc, store, &busy(), id(joiner))?;
    Ok(found.as_slice() == tombs)
}

fn hands_over(alloc: Global, store: &FileStore) -> Result<bool, Fail> {
    Ok(
        is_in_gap(alloc, store, 0x50, &[file(0x40), file(0x50)])?
            && are_tombs_in_gap(alloc, store, 0x50, &[file(0x31), file(0x48)])?
            && is_in_gap(alloc, store, 0xf8, &[file(0xfa)])?,
    )
}

// From 10~ half way to 90~ is 50~, and half way to the joiner 50~ is 30~, which stays with 10~.
#[test]
fn the_gap_of_a_joiner_is_handed_over(rt: HostRuntime) -> Result<(), Fail> {
    let files = [0x60, 0x50, 0x20, 0x40, 0x30, 0xfa];
    let store = store_of(rt.alloc(), &files, &[0x48, 0x31, 0x70])?;
    let is_so = hands_over(rt.alloc(), &store);
    drop(store);
    assert!(rt; is_so?);
    Ok(())
}

fn takes_no_more(alloc: Global, store: &mut FileStore) -> Result<bool, Fail> {
    let one = Bytes::copy_of(alloc, b"1")?;
    Ok(store.put(alloc, file(0x40), &one)? == Put::Gone)
}

fn has_no_tombs(alloc: Global, store: &FileStore) -> Result<bool, Fail> {
    let alone = Reach {
        left_joiner: None,
        right_joiner: None,
        ..busy()
    };
    let tombs = tombs_in_gap(alloc, store, &alone, id(0x50))?;
    Ok(tombs.as_slice().is_empty())
}

fn buries_for_itself(alloc: Global, store: &mut FileStore) -> Result<bool, Fail> {
    Ok(
        store.bury(alloc, file(0x40))? == Bury::Buried
            && store.bury(alloc, file(0x41))? == Bury::Laid
            && takes_no_more(alloc, store)?
            && has_no_tombs(alloc, store)?,
    )
}

#[test]
fn who_does_not_join_has_no_gap(rt: HostRuntime) -> Result<(), Fail> {
    let mut store = store_of(rt.alloc(), &[0x40], &[])?;
    let is_so = buries_for_itself(rt.alloc(), &mut store);
    drop(store);
    assert!(rt; is_so?);
    Ok(())
}

fn pledge(alloc: Global, manifest: &[u8], tombs: &[u8]) -> Result<Pledge, Fail> {
    let manifest = list(alloc, manifest)?;
    Ok(Pledge::new(manifest, list(alloc, tombs)?))
}

fn expect_left(taking: &mut Taking, alloc: Global, files: &[u8], tombs: &[u8]) -> Result<(), Fail> {
    let files = list(alloc, files)?;
    taking.expect_left(files, list(alloc, tombs)?);
    Ok(())
}

fn expect_right(
    taking: &mut Taking,
    alloc: Global,
    files: &[u8],
    tombs: &[u8],
) -> Result<(), Fail> {
    let files = list(alloc, files)?;
    taking.expect_right(files, list(alloc, tombs)?);
    Ok(())
}

/// Both sides pledge, and then each something else, which is dropped. Whether the right side had pledged nothing before.
fn pledge_twice(taking: &mut Taking, alloc: Global) -> Result<bool, Fail> {
    expect_left(taking, alloc, &[1, 2], &[3])?;
    expect_left(taking, alloc, &[], &[])?;
    let is_open = taking.right().is_none();
    expect_right(taking, alloc, &[1], &[])?;
    expect_right(taking, alloc, &[9], &[9])?;
    Ok(is_open)
}

/// Whether it is complete just when the last of what was pledged has come.
fn waits_for_all(taking: &Taking, alloc: Global, store: &mut FileStore) -> Result<bool, Fail> {
    let at_first = taking.complete(store);
    store.bury(alloc, file(3))?;
    let before_the_last = taking.complete(store);
    store.bury(alloc, file(2))?;
    Ok(!at_first && !before_the_last && taking.complete(store))
}

fn copy_waits_for_all(taking: &Taking, alloc: Global, store: &mut FileStore) -> Result<bool, Fail> {
    let copy = taking.copy(alloc)?;
    let is_so = waits_for_all(&copy, alloc, store);
    drop(copy);
    Ok(is_so? && taking.complete(store))
}

fn waits(taking: &mut Taking, alloc: Global, store: &mut FileStore) -> Result<bool, Fail> {
    let at_first = taking.complete(store);
    let is_open = pledge_twice(taking, alloc)?;
    Ok(!at_first && is_open && copy_waits_for_all(taking, alloc, store)?)
}

#[test]
fn a_joiner_waits_for_all_that_was_pledged(rt: HostRuntime) -> Result<(), Fail> {
    let mut store = store_of(rt.alloc(), &[1, 3], &[])?;
    let mut taking = Taking::new();
    let is_so = waits(&mut taking, rt.alloc(), &mut store);
    drop(taking);
    drop(store);
    assert!(rt; is_so?);
    Ok(())
}

/// Whether the left side keeps its first pledge, where another comes for it, and the right side has none.
fn keeps_the_first(taking: &mut Taking, alloc: Global) -> Result<bool, Fail> {
    expect_left(taking, alloc, &[1, 2], &[3])?;
    let later = pledge(alloc, &[9], &[])?;
    taking.keep(Taking::of(Some(later), None));
    let Some(kept) = taking.left() else {
        return Ok(false);
    };
    let files = [file(1), file(2)];
    Ok(kept.manifest().as_slice() == files.as_slice() && taking.right().is_none())
}

#[test]
fn a_later_pledge_of_a_side_is_dropped(rt: HostRuntime) -> Result<(), Fail> {
    let mut taking = Taking::new();
    let is_so = keeps_the_first(&mut taking, rt.alloc());
    drop(taking);
    assert!(rt; is_so?);
    Ok(())
}
