//! Why bytes are no frame.

ghost use Rattle.std.specs.Prelude.{◌≡◌};
ghost use Rattle.wire_codec.specs.declared.fault.FrameFault.TheVariants as fault;

use ring_math::OutOfMemory;

/// The first refusal of the bytes that applies, or want of memory on a whole frame.
#[derive(Clone, Copy, Debug, PartialEq, Eq)]
pub enum FrameFault {
    /// The bytes end before a field, a tag, a count or a list that was announced. With so many it would be whole.
    Short { need: usize },
    /// The first byte is neither 1 nor 2.
    Version { found: u8 },
    /// The second byte is no kind of the version.
    Kind { found: u8 },
    /// The length that bytes 2 to 5 state is not that of what follows them.
    Length { stated: u32, found: usize },
    /// A tag, a count, a length or copies out of range begins at the place, or bytes behind the last field.
    Range { place: usize },
    /// Memory was refused.
    OutOfMemory,
}

impl From<OutOfMemory> for FrameFault {
    ghost from_gives = { λ _ made. made ≡ fault.OutOfMemory };

    fn from(_error: OutOfMemory) -> FrameFault {
        FrameFault::OutOfMemory
    }
}
