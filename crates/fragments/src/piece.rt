//! The pieces of a large file.

ghost use Rattle.std.specs.Prelude.{◌≡◌};

use ring_math::{Bytes, FileId};
use std::marker::Model;

/// A file that a node can store: a fragment of a large file, or its index.
#[derive(Drop)]
pub struct Piece {
    pub file: FileId,
    pub name: Bytes,
    pub bytes: Bytes,
}

/// Pieces in order.
#[derive(Drop)]
pub struct PieceList {
    pub(crate) items: Vec<Piece>,
}

impl Model for PieceList {
    ghost use Rattle.std.specs.Prelude.{List};
    ghost use Rattle.fragments.specs.declared.piece.Piece.{Piece};

    ghost Value = { List Piece };

    ghost view = { λ a. a.items.items };
}

impl PieceList {
    /// The pieces, in order.
    pub fn as_slice(&self) -> &[Piece]
        ensures { result.now ≡ self.now }
    {
        &self.items
    }
}

/// A large file as pieces: the index, and the fragments that it names.
#[derive(Drop)]
pub struct Pieces {
    pub index: Piece,
    pub fragments: PieceList,
}
