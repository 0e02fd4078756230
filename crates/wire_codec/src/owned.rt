//! The lists of a frame in memory of their own.

ghost use Rattle.std.specs.Prelude.{◌≡◌, ◌≤◌, length, map, IfOk};
ghost use Rattle.std.specs.Int.{w128, from_be_bytes};
ghost use Rattle.ring_math.specs.declared.limits.TheConstants.{MOST_BYTES, MOST_ENTRIES, MOST_MEMBERS};

use ring_math::{Bytes, FileId, FileIds, Id, Ids, IdsBuilder, OutOfMemory};
use std::alloc::Global;

pub(crate) fn owned_bytes(alloc: Global, bytes: &[u8]) -> Result<Bytes, OutOfMemory>
    requires { length bytes.now ≤ MOST_BYTES }
    ensures { IfOk result (λ owned. owned ≡ bytes.now) }
{
    match Bytes::copy_of(alloc, bytes) {
        Ok(owned) => Ok(owned),
        // There are no more bytes than a file has, so memory was refused.
        Err(_) => Err(OutOfMemory),
    }
}

pub(crate) fn owned_ids(alloc: Global, ids: &[[u8; 16]]) -> Result<Ids, OutOfMemory>
    requires { length ids.now ≤ MOST_MEMBERS }
    ensures { IfOk result (λ owned. owned ≡ map (from_be_bytes w128) ids.now) }
{
    let mut owned = IdsBuilder::new();
    for id in ids {
        let _has_room = owned.push(Id(u128::from_be_bytes(*id)));
    }
    owned.finish(alloc)
}

pub(crate) fn owned_files(alloc: Global, files: &[[u8; 20]]) -> Result<FileIds, OutOfMemory>
    requires { length files.now ≤ MOST_ENTRIES }
    ensures { IfOk result (λ owned. owned ≡ files.now) }
{
    let mut owned = Vec::with_capacity(alloc, files.len())?;
    for file in files {
        owned.push(FileId(*file))?;
    }
    FileIds::of(owned)
}
