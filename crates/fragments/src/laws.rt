//! That what was cut comes back.

ghost use Rattle.std.specs.Prelude.{◌≤◌, length};
ghost use Rattle.fragments.specs.Joined.{ComesBack};
ghost use Rattle.fragments.specs.Pieces.{LargeFile, pieces_of};
ghost use Rattle.fragments.specs.declared.limits.TheConstants.{MOST_LARGE_BYTES};

/// For every name, owner, salt and bytes, which are no more than [`MOST_LARGE_BYTES`](crate::MOST_LARGE_BYTES): the index and
/// all fragments that [`cut`](crate::cut) makes of them are joined without a fault, and give these bytes.
pub fn pieces_come_back()
    ensures { (f : LargeFile) → length f.bytes ≤ MOST_LARGE_BYTES → ComesBack (pieces_of f) f.bytes }
{}
