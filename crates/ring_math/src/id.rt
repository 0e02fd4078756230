//! Identifiers of nodes, and keys.

ghost use Rattle.std.specs.Prelude.{◌≡◌, ◌<◌, ◌^◌};
ghost use Rattle.ring_math.specs.Keys.{id_of, key_of};

use sha1::Sha1;
use std::marker::Model;

/// An identifier of a node, or a key: a number from 0 to 2^128 - 1.
#[derive(Clone, Copy, PartialEq, Eq, Debug)]
pub struct Id(pub u128);

impl Model for Id {
    ghost use Rattle.std.specs.Prelude.{ℕ, ◌<◌, ◌^◌};

    ghost Value = { ℕ };

    ghost view = { λ a. a.0 };

    ghost invariant = { λ a. a.0 < 2 ^ 128 };

    ghost inverse = { λ n. record { 0 = n } };
}

impl Id {
    /// An identifier is below 2^128: a law, which does nothing.
    ///
    /// A clause sees an identifier as a number. What a proof knows of that number's range it knows where the identifier is
    /// given by value; of one behind a reference, as in a message, it has the range by this law and in no other way. For a
    /// list it is [`Ids::range_law`](crate::Ids::range_law).
    pub fn range_law(self)
        ensures { self < 2 ^ 128 }
    {}
}

/// The identifier of a name: the first 16 bytes of its SHA-1 (FIPS 180-4), the most significant first.
pub fn id_of_name(name: &[u8]) -> Id
    ensures { result ≡ id_of name.now }
{
    leading_id(&Sha1::digest(name))
}

/// The first 16 bytes of a digest as a number, the most significant first.
pub(crate) fn leading_id(digest: &[u8; 20]) -> Id
    ensures { result ≡ key_of digest.now }
{
    let mut bytes = [0; 16];
    bytes.copy_from_slice(&digest[..16]);
    Id(u128::from_be_bytes(bytes))
}
