//! Lists compared.

ghost use Rattle.std.specs.Prelude.{◌≡◌};
ghost use Rattle.std.specs.Bool.{Decides};

use ring_math::{Bytes, FileId, FileIds, Id, Ids};

/// Whether the bytes are equal.
pub(crate) fn same_bytes(one: &Bytes, other: &Bytes) -> bool
    ensures { Decides result (one.now ≡ other.now) }
{
    one.as_slice() == other.as_slice()
}

/// Whether the same identifiers stand in the same order.
pub(crate) fn same_ids(one: &Ids, other: &Ids) -> bool
    ensures { Decides result (one.now ≡ other.now) }
{
    are_same_ids(one.as_slice(), other.as_slice())
}

/// Whether the same files stand in the same order.
pub(crate) fn same_files(one: &FileIds, other: &FileIds) -> bool
    ensures { Decides result (one.now ≡ other.now) }
{
    are_same_files(one.as_slice(), other.as_slice())
}

fn are_same_ids(one: &[Id], other: &[Id]) -> bool
    ensures { Decides result (one.now ≡ other.now) }
{
    one == other
}

fn are_same_files(one: &[FileId], other: &[FileId]) -> bool
    ensures { Decides result (one.now ≡ other.now) }
{
    one == other
}
