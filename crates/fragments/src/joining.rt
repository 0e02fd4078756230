//! The pieces of a large file are joined.

ghost use Rattle.std.specs.Prelude.{◌≡◌, ◌≤◌, ◌<◌, ◌^◌, ◌++◌, Some, None, Err, IfOk, IfErr, IfSome, IfNone, OnOk, SomeIff, length};
ghost use Rattle.fragments.specs.Joined.{stated_size, stated_count, index_fault, first_from, is_missing, has_other_size, fragment_fault, join_fault, bytes_in, joined};
ghost use Rattle.fragments.specs.declared.limits.TheConstants.{HEAD_BYTES};

use crate::fault::JoinFault;
use crate::limits::{FILE_ID_BYTES, HEAD_BYTES};
use ring_math::{Bytes, MOST_BYTES, OutOfMemory};
use std::alloc::Global;
use wire_msg::Frame;

/// The bytes of a large file, from its index and its fragments in order.
///
/// The faults come in the order in which they stand: `Index`, `Count`, `Missing` of the first fragment that is missing,
/// and `Size` of the first that has another size than [`cut`](crate::cut) gives it. `OutOfMemory` comes only where there is
/// none of these.
pub fn join(alloc: Global, index: &[u8], found: &[Option<Bytes>]) -> Result<Frame, JoinFault>
    ensures fault { IfSome (join_fault index.now found.now) (λ fault. result ≡ Err fault) }
    ensures whole { IfOk result (λ bytes. bytes ≡ joined found.now) }
    ensures memory { IfNone (join_fault index.now found.now) (IfErr result (λ fault. fault ≡ JoinFault.OutOfMemory)) }
{
    match join_fault(index, found) {
        Some(fault) => Err(fault),
        None => Ok(joined(alloc, found)?),
    }
}

/// What is at fault where these pieces are joined. It takes no memory.
pub fn join_fault(index: &[u8], found: &[Option<Bytes>]) -> Option<JoinFault>
    ensures { result ≡ join_fault index.now found.now }
{
    let head = match head_of(index) {
        Some(head) => head,
        None => {
            let place = index.len();
            return Some(JoinFault::Index { place });
        }
    };
    if let Some(fault) = index_fault(index, head) {
        return Some(fault);
    }
    if found.len() != usize::from(head.fragments) {
        return Some(JoinFault::Count {
            stated: head.fragments,
            found: found.len(),
        });
    }
    fragment_fault(found, head.size)
}

/// What an index states.
#[derive(Clone, Copy)]
struct Head {
    size: u32,
    fragments: u16,
}

/// What an index states, None where it is too short to.
fn head_of(index: &[u8]) -> Option<Head>
    ensures { SomeIff result (HEAD_BYTES ≤ length index.now) (record { size = stated_size index.now; fragments = stated_count index.now }) }
{
    let (size, rest) = index.split_first_chunk::<4>()?;
    let (fragments, _) = rest.split_first_chunk::<2>()?;
    Some(Head {
        size: u32::from_be_bytes(*size),
        fragments: u16::from_be_bytes(*fragments),
    })
}

/// What is at fault with an index that states this.
fn index_fault(index: &[u8], head: Head) -> Option<JoinFault>
    requires long { HEAD_BYTES ≤ length index.now }
    requires size { head.size ≡ stated_size index.now }
    requires count { head.fragments ≡ stated_count index.now }
    ensures { result ≡ index_fault index.now }
{
    let count = usize::from(head.fragments);
    if count != (head.size as usize).div_ceil(MOST_BYTES) {
        return Some(JoinFault::Index { place: 4 });
    }
    if index.len() != HEAD_BYTES + FILE_ID_BYTES * count {
        return Some(JoinFault::Index { place: HEAD_BYTES });
    }
    None
}

/// The first fragment that is missing, else the first that has another size than in a file of so many bytes.
fn fragment_fault(found: &[Option<Bytes>], size: u32) -> Option<JoinFault>
    requires { length found.now < 2 ^ 16 }
    ensures { result ≡ fragment_fault size found.now }
{
    if let Some(fragment) = first_missing(found) {
        return Some(JoinFault::Missing { fragment });
    }
    let fragment = first_of_other_size(found, size)?;
    Some(JoinFault::Size { fragment })
}

fn first_missing(found: &[Option<Bytes>]) -> Option<u16>
    requires { length found.now < 2 ^ 16 }
    ensures { result ≡ first_from is_missing 0 found.now }
{
    for (i, fragment) in found.iter().enumerate() {
        if fragment.is_none() {
            return Some(i as u16);
        }
    }
    None
}

fn first_of_other_size(found: &[Option<Bytes>], size: u32) -> Option<u16>
    requires { length found.now < 2 ^ 16 }
    ensures { result ≡ first_from (has_other_size size) 0 found.now }
{
    for (i, fragment) in found.iter().enumerate() {
        if has_other_size(size as usize, i, fragment) {
            return Some(i as u16);
        }
    }
    None
}

/// Whether a fragment has another size than its place in a file of so many bytes asks for.
fn has_other_size(size: usize, place: usize, fragment: &Option<Bytes>) -> bool
    requires { place < 2 ^ 16 }
    ensures { result ≡ has_other_size size place fragment.now }
{
    match fragment {
        Some(bytes) => {
            let left = size.saturating_sub(MOST_BYTES * place);
            bytes.as_slice().len() != left.min(MOST_BYTES)
        }
        None => false,
    }
}

/// The bytes of all fragments, one behind the other.
fn joined(alloc: Global, found: &[Option<Bytes>]) -> Result<Frame, OutOfMemory>
    ensures { IfOk result (λ bytes. bytes ≡ joined found.now) }
{
    let mut bytes = Vec::new(alloc);
    for fragment in found {
        put_fragment(&mut bytes, fragment)?;
    }
    Ok(Frame::from(bytes))
}

fn put_fragment(bytes: &mut Vec<u8>, fragment: &Option<Bytes>) -> Result<(), OutOfMemory>
    ensures { OnOk result (bytes.new.items ≡ bytes.old.items ++ bytes_in fragment.now) }
{
    if let Some(fragment) = fragment {
        bytes.extend_from_slice(fragment.as_slice())?;
    }
    Ok(())
}
