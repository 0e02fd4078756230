//! Replicas.

ghost use Rattle.std.specs.Prelude.{◌≡◌, ℕ, IfOk, OnErr};
ghost use Rattle.ring_math.specs.Files.{slot_of};
ghost use Rattle.file_store.specs.Answers.{put_of};
ghost use Rattle.overlay_rules.specs.State.{State};
ghost use Rattle.overlay_rules.specs.Replicas.{replicate_at};
ghost use Rattle.past_core.specs.Replied.{replica_outcome};

use file_store::{FileStore, Put};
use ring_math::{Bytes, FileId, OutOfMemory};
use std::alloc::Global;

/// Puts a replica of a file where there is no entry for it and room for one. True, for an acknowledgement,
/// exactly where the file is now held with these bytes.
///
/// After `OutOfMemory`, which comes only where the file would be put, the same files stand as before.
pub fn on_replicate(
    alloc: Global,
    store: &mut FileStore,
    file: FileId,
    bytes: &Bytes,
) -> Result<bool, OutOfMemory>
    ensures row { (s : State) (from origin number : ℕ) → IfOk result (λ is_held.
        replicate_at (record s { files = store.old.files }) from origin number file bytes.now (slot_of store.old.files file)
        ≡ replica_outcome (record s { files = store.new.files }) from origin number file is_held) }
    ensures refused { OnErr result (put_of store.old.files file bytes.now ≡ Put.New) }
    ensures as_before { OnErr result (store.new.files ≡ store.old.files) }
{
    let answer = store.put(alloc, file, bytes)?;
    Ok(matches!(answer, Put::New | Put::Same))
}
