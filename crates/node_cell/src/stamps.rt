//! Lamport's stamps.

ghost use Rattle.std.specs.Prelude.{◌≡◌, ◌<◌, max, IfOk, IfErr, OnOk};
ghost use Rattle.weave_laws.specs.Cells.{input_stamp, stamp_after as stamp_after_of};
ghost use Rattle.node_cell.specs.declared.fault.TheConstants.{LAST_STAMP};
ghost use Rattle.node_cell.specs.Entries.{plain_input_of};
ghost use Rattle.node_cell.specs.Faults.{IsDueAt};

use crate::entry::CellInput;
use crate::fault::CellFault;

/// The stamp of the entry of an input: one more than the greater of the stamp so far and the input's.
fn stamp_after(last: u64, input: &CellInput) -> Result<u64, CellFault>
    ensures ok { IfOk result (λ stamp. stamp ≡ stamp_after_of last (plain_input_of input.now)) }
    ensures in_time { OnOk result (max last (input_stamp (plain_input_of input.now)) < LAST_STAMP) }
    ensures due { IfErr result (IsDueAt last (plain_input_of input.now)) }
{
    let greater = last.max(input.stamp());
    match greater.checked_add(1) {
        Some(stamp) => Ok(stamp),
        None => Err(CellFault::Spent { stamp: greater }),
    }
}

/// An input, and the stamp of its entry.
#[derive(Drop)]
pub(crate) struct Stamped {
    pub(crate) stamp: u64,
    pub(crate) input: CellInput,
}

/// The input with the stamp of its entry, as [`stamp_after`] has it.
pub(crate) fn with_stamp(last: u64, input: CellInput) -> Result<Stamped, CellFault>
    ensures stamp { IfOk result (λ s. s.stamp ≡ stamp_after_of last (plain_input_of input)) }
    ensures input { IfOk result (λ s. s.input ≡ input) }
    ensures in_time { OnOk result (max last (input_stamp (plain_input_of input)) < LAST_STAMP) }
    ensures due { IfErr result (IsDueAt last (plain_input_of input)) }
{
    let stamp = stamp_after(last, &input)?;
    Ok(Stamped { stamp, input })
}
