//! Bytes that are published.

ghost use Rattle.std.specs.Prelude.{◌≡◌, ◌≤◌, IfOk, length};
ghost use Rattle.ring_math.specs.declared.limits.TheConstants.{MOST_BYTES};

use ring_math::{Bytes, OutOfMemory};
use std::alloc::Global;
use std::marker::Model;
use std::rc::RcSlice;

/// Bytes that are published, at most [`MOST_BYTES`](ring_math::MOST_BYTES). A copy is one owner more of the same memory.
///
/// Groups are played by one thread, which counts the owners without waiting for what it wrote before, as it would for [`Bytes`],
/// whose owners may be threads.
#[derive(Drop)]
pub struct Published {
    items: RcSlice<u8>,
}

impl Model for Published {
    ghost use Rattle.std.specs.Prelude.{ℕ, List, length, ◌≤◌};
    ghost use Rattle.std.specs.Rc.{rc_slice_items};
    ghost use Rattle.ring_math.specs.declared.limits.TheConstants.{MOST_BYTES};

    ghost Value = { List ℕ };

    ghost view = { λ a. rc_slice_items a.items };

    ghost invariant = { λ a. length (rc_slice_items a.items) ≤ MOST_BYTES };
}

impl Published {
    /// These bytes, published.
    pub fn of(alloc: Global, bytes: &Bytes) -> Result<Published, OutOfMemory>
        ensures { IfOk result (λ published. published ≡ bytes.now) }
    {
        let items = RcSlice::from_slice(alloc, bytes.as_slice())?;
        Ok(Published { items })
    }

    /// The bytes, in order.
    pub fn as_slice(&self) -> &[u8]
        ensures value { result.now ≡ self.now }
        ensures limit { length self.now ≤ MOST_BYTES }
    {
        self.items.as_slice()
    }

    /// The same bytes, shared. It takes no memory: the only error is that there are too many owners to count.
    pub fn copy(&self) -> Result<Published, OutOfMemory>
        ensures { IfOk result (λ published. published ≡ self.now) }
    {
        let items = self.items.clone()?;
        Ok(Published { items })
    }
}
