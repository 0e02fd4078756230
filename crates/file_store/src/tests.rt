use super::*;
use ring_math::{Bytes, FileId, FileIds};
use std::alloc::Global;
use std::test::Fail;

/// The file whose identifier begins with this number.
fn file(n: u16) -> FileId {
    let [high, low] = n.to_be_bytes();
    let mut bytes = [0; 20];
    bytes[0] = high;
    bytes[1] = low;
    FileId(bytes)
}

fn bytes(alloc: Global, text: &[u8]) -> Result<Bytes, Fail> {
    Ok(Bytes::copy_of(alloc, text)?)
}

fn list(alloc: Global, numbers: &[u16]) -> Result<FileIds, Fail> {
    let mut files = Vec::new(alloc);
    for n in numbers {
        files.push(file(*n))?;
    }
    if files.len() > 4096 {
        return Err(Fail::from("a list has at most 4,096 files"));
    }
    Ok(FileIds::of(files)?)
}

/// Files without bytes, as many as are asked for, in an order that is not theirs.
fn filled(alloc: Global, count: u16) -> Result<FileStore, Fail> {
    let mut store = FileStore::new(alloc);
    let empty = bytes(alloc, b"")?;
    for n in 0..count {
        store.put(alloc, file((u32::from(n) * 2731 % 4096) as u16), &empty)?;
    }
    Ok(store)
}

// Each question is a function that borrows the store: what a test owns is dropped by a call, and not part for part at each way out.

/// Whether these bytes are answered so.
fn puts(
    store: &mut FileStore,
    alloc: Global,
    n: u16,
    text: &[u8],
    answer: Put,
) -> Result<bool, Fail> {
    let bytes = bytes(alloc, text)?;
    Ok(store.put(alloc, file(n), &bytes)? == answer)
}

fn buries(store: &mut FileStore, alloc: Global, n: u16, answer: Bury) -> Result<bool, Fail> {
    Ok(store.bury(alloc, file(n))? == answer)
}

/// Whether it has so many entries, and so many of these are files.
fn has(store: &FileStore, entries: usize, files: usize) -> bool {
    store.entries() == entries && store.count() == files
}

fn refuses_new(store: &mut FileStore, alloc: Global) -> Result<bool, Fail> {
    Ok(puts(store, alloc, 4096, b"", Put::Full)? && buries(store, alloc, 4096, Bury::Full)?)
}

/// Whether a file without bytes stays as it is, until it is buried.
fn stays(store: &mut FileStore, alloc: Global, n: u16) -> Result<bool, Fail> {
    let is_kept = puts(store, alloc, n, b"", Put::Same)?
        && puts(store, alloc, n, b"1", Put::Differs)?
        && store.get(&file(n)) == Some(b"".as_slice());
    Ok(is_kept && buries(store, alloc, n, Bury::Buried)? && store.get(&file(n)).is_none())
}

fn takes_no_new_file(store: &mut FileStore, alloc: Global) -> Result<bool, Fail> {
    let is_full = has(store, 4096, 4096) && refuses_new(store, alloc)?;
    for n in [0, 2047, 4095] {
        if !stays(store, alloc, n)? {
            return Ok(false);
        }
    }
    Ok(is_full && has(store, 4096, 4093))
}

#[test]
fn a_full_store_takes_no_new_file(rt: HostRuntime) -> Result<(), Fail> {
    let mut store = filled(rt.alloc(), 4096)?;
    let is_so = takes_no_new_file(&mut store, rt.alloc());
    drop(store);
    assert!(rt; is_so?);
    Ok(())
}

/// Whether these are the files from the first number on.
fn rise(files: &[FileId]) -> bool {
    for (n, found) in files.iter().enumerate() {
        if n >= 4096 || *found != file(n as u16) {
            return false;
        }
    }
    true
}

fn has_all(store: &FileStore, alloc: Global) -> Result<bool, Fail> {
    let files = store.files(alloc)?;
    Ok(files.as_slice().len() == 4096 && rise(files.as_slice()))
}

#[test]
fn files_rise_whatever_came_first(rt: HostRuntime) -> Result<(), Fail> {
    let store = filled(rt.alloc(), 4096)?;
    let is_so = has_all(&store, rt.alloc());
    drop(store);
    assert!(rt; is_so?);
    Ok(())
}

fn puts_once(store: &mut FileStore, alloc: Global) -> Result<bool, Fail> {
    Ok(
        puts(store, alloc, 7, b"abc", Put::New)?
            && store.get(&file(7)) == Some(b"abc".as_slice())
            && !store.is_gone(&file(7)),
    )
}

fn buries_for_good(store: &mut FileStore, alloc: Global) -> Result<bool, Fail> {
    Ok(
        buries(store, alloc, 7, Bury::Buried)?
            && buries(store, alloc, 7, Bury::Already)?
            && puts(store, alloc, 7, b"abc", Put::Gone)?
            && buries(store, alloc, 3, Bury::Laid)?,
    )
}

fn has_tombstones(store: &FileStore) -> bool {
    store.is_gone(&file(3))
        && store.is_gone(&file(7))
        && !store.is_gone(&file(5))
        && has(store, 2, 0)
}

fn keeps_tombstones(store: &mut FileStore, alloc: Global) -> Result<bool, Fail> {
    Ok(puts_once(store, alloc)? && buries_for_good(store, alloc)? && has_tombstones(store))
}

#[test]
fn a_tombstone_stays(rt: HostRuntime) -> Result<(), Fail> {
    let mut store = FileStore::new(rt.alloc());
    let is_so = keeps_tombstones(&mut store, rt.alloc());
    drop(store);
    assert!(rt; is_so?);
    Ok(())
}

/// The two of the first 4,096 files that a store filled with 4,094 lacks.
const LACKING: [u16; 2] = [(4094 * 2731 % 4096) as u16, (4095 * 2731 % 4096) as u16];

fn shows_what_is_buried(store: &FileStore, tombs: &[FileId]) -> bool {
    let after = Buried::new(store, tombs);
    after.has_lists(&[file(5000), file(1), file(6000)], &[file(6000), file(0)])
        && !after.has_lists(&[file(7000)], &[])
        && !after.has_lists(&[], &[file(1)])
        && after.slot(&file(LACKING[1])).is_none()
        && matches!(after.slot(&file(0)), Some(None))
        && matches!(after.slot(&file(1)), Some(Some(_)))
        && !store.has_lists(&[file(5000)], &[])
}

fn has_buried(store: &FileStore) -> bool {
    store.has_lists(&[file(5000), file(1), file(6000)], &[file(6000), file(0)])
        && !store.has_lists(&[file(7000)], &[])
        && has(store, 4096, 4093)
}

fn buries_the_first(store: &mut FileStore, alloc: Global) -> Result<bool, Fail> {
    let tombs = list(alloc, &[5000, 6000, 5000, 0, 7000, 6000, LACKING[0]])?;
    let is_shown = shows_what_is_buried(store, tombs.as_slice());
    store.bury_all(alloc, &tombs)?;
    Ok(is_shown && has_buried(store))
}

#[test]
fn what_room_is_left_goes_to_the_first_tombs(rt: HostRuntime) -> Result<(), Fail> {
    let mut store = filled(rt.alloc(), 4094)?;
    let is_so = buries_the_first(&mut store, rt.alloc());
    drop(store);
    assert!(rt; is_so?);
    Ok(())
}

#[test]
fn a_file_that_is_put_completes_a_manifest(rt: HostRuntime) -> Result<(), Fail> {
    let mut store = FileStore::new(rt.alloc());
    store.bury(rt.alloc(), file(2))?;
    let (manifest, tombs) = ([file(1), file(2)], [file(2)]);
    assert!(rt; !store.has_lists(&manifest, &tombs));
    assert!(rt; store.has_lists_with(&file(1), &manifest, &tombs));
    assert!(rt; !store.has_lists_with(&file(3), &manifest, &tombs));
    store.reserve(1)?;
    store.set(file(1), Some(bytes(rt.alloc(), b"one")?));
    assert!(rt; store.has_lists(&manifest, &tombs));
    Ok(())
}

fn bury_two(store: &mut FileStore, alloc: Global) -> Result<(), Fail> {
    store.bury(alloc, file(0))?;
    store.bury(alloc, file(9))?;
    Ok(())
}

fn copy_stays(store: &mut FileStore, alloc: Global) -> Result<bool, Fail> {
    let copy = store.copy(alloc)?;
    let buried = bury_two(store, alloc);
    let is_so = has(&copy, 3, 3) && copy.get(&file(0)).is_some() && !copy.is_gone(&file(9));
    drop(copy);
    buried?;
    Ok(is_so)
}

#[test]
fn a_copy_stands_alone(rt: HostRuntime) -> Result<(), Fail> {
    let mut store = filled(rt.alloc(), 3)?;
    let is_so = copy_stays(&mut store, rt.alloc());
    drop(store);
    assert!(rt; is_so?);
    Ok(())
}
