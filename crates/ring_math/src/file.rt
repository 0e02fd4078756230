//! Identifiers of files, and what a node keeps for one.

ghost use Rattle.std.specs.Prelude.{◌≡◌, ◌<◌, length, All};
ghost use Rattle.ring_math.specs.Keys.{file_of, key_of};

use crate::id::{Id, leading_id};
use crate::lists::{Bytes, bytes_law};
use sha1::Sha1;
use std::marker::Model;

/// An identifier of a file: 20 bytes, the SHA-1 of what names it.
#[derive(Clone, Copy, PartialEq, Eq, Debug)]
pub struct FileId(pub [u8; 20]);

impl Model for FileId {
    ghost use Rattle.std.specs.Prelude.{◌≡◌, ℕ, List, length};

    ghost Value = { List ℕ };

    ghost view = { λ a. a.0 };

    ghost invariant = { λ a. length a.0 ≡ 20 };

    ghost inverse = { λ n. record { 0 = n } };
}

impl FileId {
    /// An identifier of a file is 20 bytes: a law, which does nothing. For one behind a reference a proof has it in no other way.
    pub fn range_law(self)
        ensures length { length self ≡ 20 }
        ensures bytes { All (λ byte. byte < 256) self }
    {
        bytes_law(&self.0);
    }
}

/// The identifier of a file (PAST): the SHA-1 of its name, one zero byte, its owner and its salt.
pub fn file_id(name: &[u8], owner: &[u8], salt: &[u8; 8]) -> FileId
    ensures { result ≡ file_of name.now owner.now salt.now }
{
    let mut hasher = Sha1::new();
    hasher.update(name);
    hasher.update(&[0]);
    hasher.update(owner);
    hasher.update(salt);
    FileId(hasher.finalize())
}

/// The key of a file: the first 16 bytes of its identifier, the most significant first.
pub fn key_of(file: &FileId) -> Id
    ensures { result ≡ key_of file.now }
{
    leading_id(&file.0)
}

/// An entry of a store: the bytes of a file, or its tombstone.
#[derive(Drop)]
pub struct Held {
    pub file: FileId,
    /// The bytes, or None for a tombstone.
    pub slot: Option<Bytes>,
}
