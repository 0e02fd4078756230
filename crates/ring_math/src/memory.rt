//! Want of memory, and room for lists that grow.

ghost use Rattle.std.specs.Prelude.{◌≡◌, ◌+◌, ◌≤◌, OnOk, vec_capacity, vec_len};

use std::alloc::{AllocError, AllocFailed};

/// Memory was refused. Whatever was asked is as it was before the call.
#[derive(Clone, Copy, PartialEq, Eq, Debug)]
pub struct OutOfMemory;

impl From<AllocError> for OutOfMemory {
    fn from(_error: AllocError) -> OutOfMemory {
        OutOfMemory
    }
}

impl<T: Drop> From<AllocFailed<T>> for OutOfMemory {
    fn from(_error: AllocFailed<T>) -> OutOfMemory {
        OutOfMemory
    }
}

/// Room for so many items more in a list that goes on growing. Where there is too little, the list has four times its room then,
/// and not twice: its items are copied each time it grows, so in all a third as many are. Room that nothing is written to costs no
/// memory.
pub fn reserve_ahead<T>(list: &mut Vec<T>, more: usize) -> Result<(), OutOfMemory>
    ensures items { list.new.items ≡ list.old.items }
    ensures room { OnOk result (vec_len list.new + more ≤ vec_capacity list.new) }
    ensures capacity { vec_capacity list.old ≤ vec_capacity list.new }
{
    if list.capacity() - list.len() < more {
        list.reserve(more.max(list.len().saturating_mul(3)))?;
    }
    Ok(())
}
