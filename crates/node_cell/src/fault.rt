//! Why a cell took nothing in.

use ring_math::OutOfMemory;
use std::alloc::AllocError;

/// The last stamp that there is.
pub const LAST_STAMP: u64 = u64::MAX;

/// Why a cell took nothing in. It is then as it was before.
#[derive(Clone, Copy, Debug, PartialEq, Eq)]
pub enum CellFault {
    /// The greater of the cell's stamp and the input's is this one, [`LAST_STAMP`].
    Spent { stamp: u64 },
    /// Memory was refused.
    OutOfMemory,
}

impl From<OutOfMemory> for CellFault {
    ghost use Rattle.std.specs.Prelude.{◌≡◌};
    ghost use Rattle.node_cell.specs.declared.fault.CellFault.TheVariants.{OutOfMemory};

    ghost from_gives = { λ _ made. made ≡ OutOfMemory };

    fn from(_error: OutOfMemory) -> CellFault {
        CellFault::OutOfMemory
    }
}

impl From<AllocError> for CellFault {
    ghost use Rattle.std.specs.Prelude.{◌≡◌};
    ghost use Rattle.node_cell.specs.declared.fault.CellFault.TheVariants.{OutOfMemory};

    ghost from_gives = { λ _ made. made ≡ OutOfMemory };

    fn from(_error: AllocError) -> CellFault {
        CellFault::OutOfMemory
    }
}
