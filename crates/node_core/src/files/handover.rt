//! Files that are handed over to a joiner.

ghost use Rattle.std.specs.Prelude.{◌≡◌};
ghost use Rattle.std.specs.Bool.{OnTrue, OnFalse};
ghost use Rattle.overlay_rules.specs.Replicas.{on_handover as on_handover_of};
ghost use Rattle.node_parts.specs.declared.change.Wait.TheVariants as waiting;
ghost use Rattle.node_core.specs.Rows.{IsRow};

use crate::joins::finishing::ready_with_file;
use file_store::Put;
use node_parts::{Change, Node, Prepared};
use ring_math::{Bytes, FileId, OutOfMemory};
use std::alloc::Global;

/// Nothing stands for the file, and there is room for it.
fn is_new(put: Put) -> bool
    ensures new { OnTrue result (put ≡ Put.New) }
    ensures other { OnFalse result (put ≡ Put.New → ⊥) }
{
    matches!(put, Put::New)
}

/// The row of a file that is handed over: it is put where it can be, and the join may be done with it.
#[inline(never)]
pub(crate) fn on_handover(
    node: &Node,
    alloc: Global,
    file: &FileId,
    bytes: &Bytes,
) -> Result<Prepared, OutOfMemory>
    ensures { IsRow node.now waiting.Keep (λ s. on_handover_of s file.now bytes.now) result }
{
    let put = node.store.would_put(file, bytes);
    if is_new(put) {
        ready_with_file(node, alloc, file, bytes)
    } else {
        Ok(Prepared::quiet(alloc, Change::nothing()))
    }
}
