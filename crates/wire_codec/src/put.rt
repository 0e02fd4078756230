//! Writing one field of a frame at the end of the bytes.

ghost use Rattle.std.specs.Prelude.{◌≡◌, ◌++◌, ◌∷◌, [], ◌<◌, ◌^◌, OnOk};
ghost use Rattle.std.specs.Int.{w64, w128, to_be_bytes};
ghost use Rattle.std.specs.List.{flat_map, AllByRecursion};
ghost use Rattle.wire_codec.specs.Fields.{Field, IsFile};
ghost use Rattle.wire_codec.specs.Writing.{Writes};

use ring_math::{Bytes, FileId, FileIds, Id, Ids, OutOfMemory};
use std::alloc::Global;
use wire_msg::Copies;

pub(crate) fn put_tag(out: &mut Vec<u8>, tag: u8) -> Result<(), OutOfMemory>
    ensures { OnOk result (Writes out.old.items out.new.items (Field.Tag tag ∷ [])) }
{
    out.push(tag)?;
    Ok(())
}

/// One word. It is a call of its own, as the next two are, because only then is a word turned round by one instruction.
#[inline(never)]
fn put_word(out: &mut Vec<u8>, word: u64) -> Result<(), OutOfMemory>
    ensures { OnOk result (out.new.items ≡ out.old.items ++ to_be_bytes w64 word) }
{
    out.extend_from_slice(&word.to_be_bytes())?;
    Ok(())
}

pub(crate) fn put_id(out: &mut Vec<u8>, id: Id) -> Result<(), OutOfMemory>
    ensures { OnOk result (Writes out.old.items out.new.items (Field.Id id ∷ [])) }
{
    put_word(out, (id.0 >> 64) as u64)?;
    put_word(out, (id.0 % (1 << 64)) as u64)?;
    Ok(())
}

/// Three words at once.
#[inline(never)]
fn put_three_words(out: &mut Vec<u8>, a: u64, b: u64, c: u64) -> Result<(), OutOfMemory>
    ensures { OnOk result (out.new.items ≡ out.old.items ++ flat_map (to_be_bytes w64) (a ∷ (b ∷ (c ∷ [])))) }
{
    let words = [a.to_be_bytes(), b.to_be_bytes(), c.to_be_bytes()];
    out.extend_from_slice(words.as_flattened())?;
    Ok(())
}

/// The command that is asked: its origin and number.
pub(crate) fn put_asked(out: &mut Vec<u8>, origin: Id, number: u64) -> Result<(), OutOfMemory>
    ensures { OnOk result (Writes out.old.items out.new.items (Field.Id origin ∷ (Field.Number number ∷ []))) }
{
    put_three_words(
        out,
        (origin.0 >> 64) as u64,
        (origin.0 % (1 << 64)) as u64,
        number,
    )?;
    Ok(())
}

/// Five words, where the bytes have to grow first.
#[cold]
#[inline(never)]
fn grow_by_five_words(
    out: &mut Vec<u8>,
    a: u64,
    b: u64,
    c: u64,
    d: u64,
    e: u64,
) -> Result<(), OutOfMemory>
    ensures { OnOk result (out.new.items ≡ out.old.items ++ flat_map (to_be_bytes w64) (a ∷ (b ∷ (c ∷ (d ∷ (e ∷ [])))))) }
{
    let words = [
        a.to_be_bytes(),
        b.to_be_bytes(),
        c.to_be_bytes(),
        d.to_be_bytes(),
        e.to_be_bytes(),
    ];
    out.extend_from_slice(words.as_flattened())?;
    Ok(())
}

/// Five words at once. Growing is a call of its own, so that nothing is saved for it where there is room.
#[inline(never)]
fn put_five_words(
    out: &mut Vec<u8>,
    a: u64,
    b: u64,
    c: u64,
    d: u64,
    e: u64,
) -> Result<(), OutOfMemory>
    ensures { OnOk result (out.new.items ≡ out.old.items ++ flat_map (to_be_bytes w64) (a ∷ (b ∷ (c ∷ (d ∷ (e ∷ [])))))) }
{
    if out.capacity() - out.len() < 40 {
        return grow_by_five_words(out, a, b, c, d, e);
    }
    let words = [
        a.to_be_bytes(),
        b.to_be_bytes(),
        c.to_be_bytes(),
        d.to_be_bytes(),
        e.to_be_bytes(),
    ];
    out.extend_from_slice(words.as_flattened())?;
    Ok(())
}

/// Sender, receiver and stamp of an envelope.
pub(crate) fn put_addresses(
    out: &mut Vec<u8>,
    sender: Id,
    receiver: Id,
    stamp: u64,
) -> Result<(), OutOfMemory>
    ensures { OnOk result (Writes out.old.items out.new.items (Field.Id sender ∷ (Field.Id receiver ∷ (Field.Number stamp ∷ [])))) }
{
    put_five_words(
        out,
        (sender.0 >> 64) as u64,
        (sender.0 % (1 << 64)) as u64,
        (receiver.0 >> 64) as u64,
        (receiver.0 % (1 << 64)) as u64,
        stamp,
    )?;
    Ok(())
}

/// A file identifier. It is a call of its own, so that only messages with a file have room for a copy of one.
#[inline(never)]
pub(crate) fn put_file(out: &mut Vec<u8>, file: &FileId) -> Result<(), OutOfMemory>
    ensures { OnOk result (Writes out.old.items out.new.items (Field.File file.now ∷ [])) }
{
    let whole = *file;
    out.extend_from_slice(&whole.0)?;
    Ok(())
}

pub(crate) fn put_number(out: &mut Vec<u8>, number: u64) -> Result<(), OutOfMemory>
    ensures { OnOk result (Writes out.old.items out.new.items (Field.Number number ∷ [])) }
{
    put_word(out, number)
}

pub(crate) fn put_attempt(out: &mut Vec<u8>, attempt: u32) -> Result<(), OutOfMemory>
    ensures { OnOk result (Writes out.old.items out.new.items (Field.Attempt attempt ∷ [])) }
{
    out.extend_from_slice(&attempt.to_be_bytes())?;
    Ok(())
}

pub(crate) fn put_hops(out: &mut Vec<u8>, hops: u16) -> Result<(), OutOfMemory>
    ensures { OnOk result (Writes out.old.items out.new.items (Field.Hops hops ∷ [])) }
{
    out.extend_from_slice(&hops.to_be_bytes())?;
    Ok(())
}

pub(crate) fn put_copies(out: &mut Vec<u8>, copies: Copies) -> Result<(), OutOfMemory>
    ensures { OnOk result (Writes out.old.items out.new.items (Field.Copies copies ∷ [])) }
{
    out.push(copies.get())?;
    Ok(())
}

pub(crate) fn put_bytes(out: &mut Vec<u8>, bytes: &Bytes) -> Result<(), OutOfMemory>
    ensures { OnOk result (Writes out.old.items out.new.items (Field.Bytes bytes.now ∷ [])) }
{
    let bytes = bytes.as_slice();
    out.extend_from_slice(&(bytes.len() as u16).to_be_bytes())?;
    out.extend_from_slice(bytes)?;
    Ok(())
}

fn put_each_id(out: &mut Vec<u8>, ids: &[Id]) -> Result<(), OutOfMemory>
    ensures bytes { OnOk result (out.new.items ≡ out.old.items ++ flat_map (to_be_bytes w128) ids.now) }
    ensures fits { OnOk result (AllByRecursion (λ id. id < 2 ^ 128) ids.now) }
{
    for id in ids {
        put_id(out, *id)?;
    }
    Ok(())
}

pub(crate) fn put_ids(out: &mut Vec<u8>, ids: &Ids) -> Result<(), OutOfMemory>
    ensures { OnOk result (Writes out.old.items out.new.items (Field.Ids ids.now ∷ [])) }
{
    let ids = ids.as_slice();
    out.push(ids.len() as u8)?;
    put_each_id(out, ids)
}

fn put_each_file(out: &mut Vec<u8>, files: &[FileId]) -> Result<(), OutOfMemory>
    ensures bytes { OnOk result (out.new.items ≡ out.old.items ++ flat_map (λ file. file) files.now) }
    ensures fits { OnOk result (AllByRecursion IsFile files.now) }
{
    for file in files {
        put_file(out, file)?;
    }
    Ok(())
}

/// The count of the files, and the files.
pub(crate) fn put_files(out: &mut Vec<u8>, files: &FileIds) -> Result<(), OutOfMemory>
    ensures { OnOk result (Writes out.old.items out.new.items (Field.Files files.now ∷ [])) }
{
    let files = files.as_slice();
    out.extend_from_slice(&(files.len() as u16).to_be_bytes())?;
    put_each_file(out, files)
}
