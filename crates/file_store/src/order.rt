//! The order of file identifiers: that of a dictionary, byte by byte.

ghost use Rattle.std.specs.Prelude.{◌≡◌};
ghost use Rattle.ring_math.specs.Bytewise.{is_before, same_bytes};
ghost use Rattle.file_store.specs.Heads.{IsHead};

use ring_math::FileId;

pub(crate) fn comes_before(a: &FileId, b: &FileId) -> bool
    ensures { result ≡ is_before a.now b.now }
{
    for i in 0..20 {
        if a.0[i] != b.0[i] {
            return a.0[i] < b.0[i];
        }
    }
    false
}

pub(crate) fn is_same(a: &FileId, b: &FileId) -> bool
    ensures { result ≡ same_bytes a.now b.now }
{
    for i in 0..20 {
        if a.0[i] != b.0[i] {
            return false;
        }
    }
    true
}

pub(crate) fn is_same_text(a: &[u8], b: &[u8]) -> bool
    ensures { result ≡ same_bytes a.now b.now }
{
    a == b
}

/// The first two bytes as a number: where these differ between two files, they alone decide which comes first.
pub(crate) fn head_of(file: &FileId) -> u16
    ensures { IsHead file.now result }
{
    u16::from(file.0[0]) * 256 + u16::from(file.0[1])
}
