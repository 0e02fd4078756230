//! Reading one field of a frame. Each call takes the place where the field begins, and gives the place behind it.

ghost use Rattle.std.specs.Prelude.{◌+◌, ◌*◌, ◌≤◌, ◌<◌, length, map, IfOk};
ghost use Rattle.std.specs.Int.{w8, w16, w128, from_be_bytes};
ghost use Rattle.wire_codec.specs.Fields.{Field};
ghost use Rattle.wire_codec.specs.Layouts.{Form};
ghost use Rattle.wire_codec.specs.Reading.{Reads, part_at, number_at, number_within, field_at};

use crate::fault::FrameFault;
use ring_math::{FileId, Id, MOST_BYTES, MOST_ENTRIES, MOST_MEMBERS};
use wire_msg::Copies;

/// The `N` bytes from the place on.
pub(crate) fn chunk_at<const N: usize>(bytes: &[u8], place: usize) -> Result<&[u8; N], FrameFault>
    requires within { place ≤ length bytes.now }
    requires small { N ≤ 20 }
    ensures value { Reads (λ chunk. chunk.now) result (part_at bytes.now place N) }
    ensures within { IfOk result (λ chunk. place + N ≤ length bytes.now) }
{
    match bytes[place..].split_first_chunk::<N>() {
        Some((chunk, _)) => Ok(chunk),
        None => Err(FrameFault::Short { need: place + N }),
    }
}

/// So many bytes from the place on.
fn part_at(bytes: &[u8], place: usize, len: usize) -> Result<&[u8], FrameFault>
    requires within { place ≤ length bytes.now }
    requires small { len ≤ 20 * MOST_ENTRIES }
    ensures value { Reads (λ part. part.now) result (part_at bytes.now place len) }
    ensures within { IfOk result (λ part. place + len ≤ length bytes.now) }
{
    match bytes[place..].split_at_checked(len) {
        Some((part, _)) => Ok(part),
        None => Err(FrameFault::Short { need: place + len }),
    }
}

pub(crate) fn id_at(bytes: &[u8], place: usize) -> Result<(Id, usize), FrameFault>
    requires { place ≤ length bytes.now }
    ensures value { Reads (λ x. (Field.Id x.0, x.1)) result (field_at bytes.now Form.Id place) }
    ensures within { IfOk result (λ x. x.1 ≤ length bytes.now) }
{
    let chunk = chunk_at(bytes, place)?;
    Ok((Id(u128::from_be_bytes(*chunk)), place + 16))
}

pub(crate) fn file_at(bytes: &[u8], place: usize) -> Result<(FileId, usize), FrameFault>
    requires { place ≤ length bytes.now }
    ensures value { Reads (λ x. (Field.File x.0, x.1)) result (field_at bytes.now Form.File place) }
    ensures within { IfOk result (λ x. x.1 ≤ length bytes.now) }
{
    let chunk = chunk_at(bytes, place)?;
    Ok((FileId(*chunk), place + 20))
}

pub(crate) fn number_at(bytes: &[u8], place: usize) -> Result<(u64, usize), FrameFault>
    requires { place ≤ length bytes.now }
    ensures value { Reads (λ x. (Field.Number x.0, x.1)) result (field_at bytes.now Form.Number place) }
    ensures within { IfOk result (λ x. x.1 ≤ length bytes.now) }
{
    let chunk = chunk_at(bytes, place)?;
    Ok((u64::from_be_bytes(*chunk), place + 8))
}

pub(crate) fn attempt_at(bytes: &[u8], place: usize) -> Result<(u32, usize), FrameFault>
    requires { place ≤ length bytes.now }
    ensures value { Reads (λ x. (Field.Attempt x.0, x.1)) result (field_at bytes.now Form.Attempt place) }
    ensures within { IfOk result (λ x. x.1 ≤ length bytes.now) }
{
    let chunk = chunk_at(bytes, place)?;
    Ok((u32::from_be_bytes(*chunk), place + 4))
}

pub(crate) fn hops_at(bytes: &[u8], place: usize) -> Result<(u16, usize), FrameFault>
    requires { place ≤ length bytes.now }
    ensures value { Reads (λ x. (Field.Hops x.0, x.1)) result (field_at bytes.now Form.Hops place) }
    ensures within { IfOk result (λ x. x.1 ≤ length bytes.now) }
{
    let chunk = chunk_at(bytes, place)?;
    Ok((u16::from_be_bytes(*chunk), place + 2))
}

/// A tag, a count or copies: one byte from `lowest` to `highest`.
pub(crate) fn byte_within(
    bytes: &[u8],
    lowest: u8,
    highest: u8,
    place: usize,
) -> Result<u8, FrameFault>
    requires { place ≤ length bytes.now }
    ensures value { Reads (λ n. n) result (number_within bytes.now w8 lowest highest place) }
    ensures range { IfOk result (λ n. (lowest ≤ n) × (n ≤ highest)) }
    ensures within { IfOk result (λ n. place + 1 ≤ length bytes.now) }
{
    let chunk = chunk_at(bytes, place)?;
    let n = u8::from_be_bytes(*chunk);
    if n < lowest || n > highest {
        return Err(FrameFault::Range { place });
    }
    Ok(n)
}

/// A length or a count of two bytes, from `lowest` to `highest`.
fn length_within(
    bytes: &[u8],
    lowest: usize,
    highest: usize,
    place: usize,
) -> Result<usize, FrameFault>
    requires { place ≤ length bytes.now }
    ensures value { Reads (λ n. n) result (number_within bytes.now w16 lowest highest place) }
    ensures range { IfOk result (λ n. (lowest ≤ n) × (n ≤ highest)) }
    ensures within { IfOk result (λ n. place + 2 ≤ length bytes.now) }
{
    let chunk = chunk_at(bytes, place)?;
    let len = usize::from(u16::from_be_bytes(*chunk));
    if len < lowest || len > highest {
        return Err(FrameFault::Range { place });
    }
    Ok(len)
}

pub(crate) fn copies_at(bytes: &[u8], place: usize) -> Result<(Copies, usize), FrameFault>
    requires { place ≤ length bytes.now }
    ensures value { Reads (λ x. (Field.Copies x.0, x.1)) result (field_at bytes.now Form.Copies place) }
    ensures within { IfOk result (λ x. x.1 ≤ length bytes.now) }
{
    let chunk = chunk_at(bytes, place)?;
    match Copies::new(u8::from_be_bytes(*chunk)) {
        Some(copies) => Ok((copies, place + 1)),
        None => Err(FrameFault::Range { place }),
    }
}

pub(crate) fn bytes_at(bytes: &[u8], place: usize) -> Result<(&[u8], usize), FrameFault>
    requires { place ≤ length bytes.now }
    ensures value { Reads (λ x. (Field.Bytes x.0.now, x.1)) result (field_at bytes.now Form.Bytes place) }
    ensures limit { IfOk result (λ x. length x.0.now ≤ MOST_BYTES) }
    ensures within { IfOk result (λ x. x.1 ≤ length bytes.now) }
{
    let len = length_within(bytes, 0, MOST_BYTES, place)?;
    let part = part_at(bytes, place + 2, len)?;
    Ok((part, place + 2 + len))
}

pub(crate) fn ids_at(bytes: &[u8], place: usize) -> Result<(&[[u8; 16]], usize), FrameFault>
    requires { place ≤ length bytes.now }
    ensures value { Reads (λ x. (Field.Ids (map (from_be_bytes w128) x.0.now), x.1)) result (field_at bytes.now Form.Ids place) }
    ensures limit { IfOk result (λ x. length x.0.now ≤ MOST_MEMBERS) }
    ensures within { IfOk result (λ x. x.1 ≤ length bytes.now) }
{
    let count = usize::from(byte_within(bytes, 0, MOST_MEMBERS as u8, place)?);
    let part = part_at(bytes, place + 1, 16 * count)?;
    Ok((part.as_chunks().0, place + 1 + 16 * count))
}

pub(crate) fn files_at(bytes: &[u8], place: usize) -> Result<(&[[u8; 20]], usize), FrameFault>
    requires { place ≤ length bytes.now }
    ensures value { Reads (λ x. (Field.Files x.0.now, x.1)) result (field_at bytes.now Form.Files place) }
    ensures limit { IfOk result (λ x. length x.0.now ≤ MOST_ENTRIES) }
    ensures within { IfOk result (λ x. x.1 ≤ length bytes.now) }
{
    let count = length_within(bytes, 0, MOST_ENTRIES, place)?;
    let part = part_at(bytes, place + 2, 20 * count)?;
    Ok((part.as_chunks().0, place + 2 + 20 * count))
}

pub(crate) fn tombs_at(bytes: &[u8], place: usize) -> Result<(&[[u8; 20]], usize), FrameFault>
    requires { place ≤ length bytes.now }
    ensures value { Reads (λ x. (Field.Tombs x.0.now, x.1)) result (field_at bytes.now Form.Tombs place) }
    ensures limit { IfOk result (λ x. (1 ≤ length x.0.now) × (length x.0.now ≤ MOST_ENTRIES)) }
    ensures within { IfOk result (λ x. x.1 ≤ length bytes.now) }
{
    let count = length_within(bytes, 1, MOST_ENTRIES, place)?;
    let part = part_at(bytes, place + 2, 20 * count)?;
    Ok((part.as_chunks().0, place + 2 + 20 * count))
}
