//! The lists of a gap.

ghost use Rattle.std.specs.Prelude.{◌≡◌, ◌&&◌, IfOk, is_some, is_none};
ghost use Rattle.coverage.specs.GapFiles.{files_in_gap, tombs_in_gap, is_in_gap};

use coverage::{Reach, is_in_gap};
use file_store::FileStore;
use ring_math::{FileIds, Held, Id, OutOfMemory, key_of};
use std::alloc::Global;

/// The files with bytes whose key is in the gap of the joiner, by rising file identifier.
pub fn in_gap(
    alloc: Global,
    store: &FileStore,
    reach: &Reach,
    joiner: Id,
) -> Result<FileIds, OutOfMemory>
    ensures { IfOk result (λ list. list ≡ files_in_gap reach.now joiner store.now.files) }
{
    let mut found = Vec::new(alloc);
    for place in 0..store.entries() {
        let held = store.at(place);
        if is_file_of(held, reach, joiner) {
            found.push(held.file)?;
        }
    }
    FileIds::copy_of(alloc, &found)
}

/// The tombstones whose key is in the gap of the joiner, by rising file identifier.
pub fn tombs_in_gap(
    alloc: Global,
    store: &FileStore,
    reach: &Reach,
    joiner: Id,
) -> Result<FileIds, OutOfMemory>
    ensures { IfOk result (λ list. list ≡ tombs_in_gap reach.now joiner store.now.files) }
{
    let mut found = Vec::new(alloc);
    for place in 0..store.entries() {
        let held = store.at(place);
        if is_tomb_of(held, reach, joiner) {
            found.push(held.file)?;
        }
    }
    FileIds::copy_of(alloc, &found)
}

/// Whether bytes stand, and the key is in the gap.
fn is_file_of(held: &Held, reach: &Reach, joiner: Id) -> bool
    ensures { result ≡ (is_some held.now.slot && is_in_gap reach.now joiner held.now) }
{
    held.slot.is_some() && is_in_gap(reach, joiner, key_of(&held.file))
}

/// Whether a tombstone stands, and the key is in the gap.
fn is_tomb_of(held: &Held, reach: &Reach, joiner: Id) -> bool
    ensures { result ≡ (is_none held.now.slot && is_in_gap reach.now joiner held.now) }
{
    held.slot.is_none() && is_in_gap(reach, joiner, key_of(&held.file))
}
