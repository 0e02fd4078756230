//! Large files are cut into pieces.

ghost use Rattle.std.specs.Prelude.{◌≡◌, ◌<◌, ◌≤◌, ◌++◌, length, map, Err, IfOk, IfErr, OnOk};
ghost use Rattle.std.specs.Int.{w32, to_be_bytes};
ghost use Rattle.std.specs.List.{flat_map};
ghost use Rattle.fragments.specs.declared.limits.TheConstants.{MOST_LARGE_BYTES, MOST_LARGE_NAME, MOST_FRAGMENTS};
ghost use Rattle.ring_math.specs.Keys.{file_of};
ghost use Rattle.fragments.specs.Pieces.{index_bytes, pieces_of, with_index};
ghost use Rattle.fragments.specs.declared.piece.Piece.{Piece as PlainPiece};

use crate::fault::CutFault;
use crate::limits::{MOST_LARGE_BYTES, MOST_LARGE_NAME};
use crate::piece::{Piece, PieceList, Pieces};
use ring_math::{Bytes, MOST_BYTES, OutOfMemory, file_id};
use std::alloc::Global;

/// Cuts a file into fragments of [`MOST_BYTES`], and the index that names them.
///
/// Fragment i is named by the file's name and i in four bytes; the index has the file's name. Owner and salt of all are
/// the file's. The index says the length in four bytes, the number of fragments in two, and then their identifiers; all
/// numbers are big-endian. `TooLong` comes exactly where there are more bytes than [`MOST_LARGE_BYTES`], else `LongName`
/// exactly where the name has more than [`MOST_LARGE_NAME`], both before memory is taken.
pub fn cut(
    alloc: Global,
    name: &[u8],
    owner: &[u8],
    salt: &[u8; 8],
    bytes: &[u8],
) -> Result<Pieces, CutFault>
    ensures too_long { MOST_LARGE_BYTES < length bytes.now → result ≡ Err (CutFault.TooLong (length bytes.now)) }
    ensures long_name { length bytes.now ≤ MOST_LARGE_BYTES → MOST_LARGE_NAME < length name.now → result ≡ Err (CutFault.LongName (length name.now)) }
    ensures memory { length bytes.now ≤ MOST_LARGE_BYTES → length name.now ≤ MOST_LARGE_NAME → IfErr result (λ fault. fault ≡ CutFault.OutOfMemory) }
    ensures pieces { IfOk result (λ pieces. pieces ≡ pieces_of (record { name = name.now; owner = owner.now; salt = salt.now; bytes = bytes.now })) }
{
    if bytes.len() > MOST_LARGE_BYTES {
        return Err(CutFault::TooLong { found: bytes.len() });
    }
    if name.len() > MOST_LARGE_NAME {
        return Err(CutFault::LongName { found: name.len() });
    }
    Ok(pieces_of(alloc, name, owner, salt, bytes)?)
}

/// The pieces of a file.
fn pieces_of(
    alloc: Global,
    name: &[u8],
    owner: &[u8],
    salt: &[u8; 8],
    bytes: &[u8],
) -> Result<Pieces, OutOfMemory>
    requires { length bytes.now ≤ MOST_LARGE_BYTES }
    ensures { IfOk result (λ pieces. pieces ≡ pieces_of (record { name = name.now; owner = owner.now; salt = salt.now; bytes = bytes.now })) }
{
    let mut fragments = Vec::new(alloc);
    for i in 0..bytes.len().div_ceil(MOST_BYTES) {
        let start = MOST_BYTES * i;
        let end = bytes.len().min(start + MOST_BYTES);
        fragments.push(fragment(alloc, name, owner, salt, i as u32, &bytes[start..end])?)?;
    }
    with_index(alloc, name, owner, salt, bytes.len() as u32, fragments)
}

/// A fragment of the file of this name, owner and salt, by its number and its bytes.
pub(crate) fn fragment(
    alloc: Global,
    name: &[u8],
    owner: &[u8],
    salt: &[u8; 8],
    number: u32,
    bytes: &[u8],
) -> Result<Piece, OutOfMemory>
    ensures { IfOk result (λ piece. piece ≡ record {
      file = file_of (name.now ++ to_be_bytes w32 number) owner.now salt.now;
      name = name.now ++ to_be_bytes w32 number;
      bytes = bytes.now;
    }) }
{
    let name = fragment_name(alloc, name, number)?;
    piece(alloc, &name, owner, salt, bytes)
}

/// The fragments of the file of this name, owner and salt that has so many bytes, and the index that names them.
pub(crate) fn with_index(
    alloc: Global,
    name: &[u8],
    owner: &[u8],
    salt: &[u8; 8],
    size: u32,
    fragments: Vec<Piece>,
) -> Result<Pieces, OutOfMemory>
    requires { length fragments.items ≤ MOST_FRAGMENTS }
    ensures { IfOk result (λ pieces. pieces ≡ with_index size name.now owner.now salt.now fragments.items) }
{
    let said = index_bytes(alloc, size, &fragments)?;
    let index = piece(alloc, name, owner, salt, &said)?;
    let fragments = PieceList { items: fragments };
    Ok(Pieces { index, fragments })
}

/// A file of this name, owner and salt.
fn piece(
    alloc: Global,
    name: &[u8],
    owner: &[u8],
    salt: &[u8; 8],
    bytes: &[u8],
) -> Result<Piece, OutOfMemory>
    ensures { IfOk result (λ piece. piece ≡ record { file = file_of name.now owner.now salt.now; name = name.now; bytes = bytes.now }) }
{
    Ok(Piece {
        file: file_id(name, owner, salt),
        name: copy_of(alloc, name)?,
        bytes: copy_of(alloc, bytes)?,
    })
}

/// The bytes of a name or a piece, which are few enough for a file.
fn copy_of(alloc: Global, bytes: &[u8]) -> Result<Bytes, OutOfMemory>
    ensures { IfOk result (λ copy. copy ≡ bytes.now) }
{
    match Bytes::copy_of(alloc, bytes) {
        Ok(copy) => Ok(copy),
        Err(_) => Err(OutOfMemory),
    }
}

fn fragment_name(alloc: Global, name: &[u8], fragment: u32) -> Result<Vec<u8>, OutOfMemory>
    ensures { IfOk result (λ bytes. bytes.items ≡ name.now ++ to_be_bytes w32 fragment) }
{
    let mut bytes = name.to_vec(alloc)?;
    bytes.extend_from_slice(&fragment.to_be_bytes())?;
    Ok(bytes)
}

/// What the index of a file of so many bytes says.
fn index_bytes(alloc: Global, size: u32, fragments: &[Piece]) -> Result<Vec<u8>, OutOfMemory>
    requires { length fragments.now ≤ MOST_FRAGMENTS }
    ensures { IfOk result (λ bytes. bytes.items ≡ index_bytes size (map (λ (p : PlainPiece). p.file) fragments.now)) }
{
    let mut bytes = Vec::new(alloc);
    bytes.extend_from_slice(&size.to_be_bytes())?;
    bytes.extend_from_slice(&(fragments.len() as u16).to_be_bytes())?;
    put_files(&mut bytes, fragments)?;
    Ok(bytes)
}

fn put_files(bytes: &mut Vec<u8>, fragments: &[Piece]) -> Result<(), OutOfMemory>
    ensures { OnOk result (bytes.new.items ≡ bytes.old.items ++ flat_map (λ (p : PlainPiece). p.file) fragments.now) }
{
    for fragment in fragments {
        bytes.extend_from_slice(&fragment.file.0)?;
    }
    Ok(())
}
