//! The nearest to a key of identifiers that come one after the other.

ghost use Rattle.std.specs.Prelude.{◌≡◌};
ghost use Rattle.ring_math.specs.Nearer.{nearer_of as nearer_in, improves as improves_on};

use crate::circle::nearer;
use crate::digits::shared;
use crate::id::Id;

/// The nearer to the key of two identifiers that may be missing, and of two at one place the first.
pub fn nearer_of(first: Option<Id>, second: Option<Id>, key: Id) -> Option<Id>
    ensures { result ≡ nearer_in first second key }
{
    match (first, second) {
        (Some(x), Some(y)) if !nearer(y, x, key) => first,
        (Some(_), None) => first,
        _ => second,
    }
}

/// Whether an identifier shares at least `least` leading digits with the key and is nearer to it than `than`.
pub fn improves(id: Id, key: Id, least: u8, than: Id) -> bool
    ensures { result ≡ improves_on key least than id }
{
    least <= shared(id, key) && nearer(id, than, key)
}
