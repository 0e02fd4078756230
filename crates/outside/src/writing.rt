//! Writing all of some bytes to a sink.

ghost use Rattle.std.specs.Prelude.{◌≡◌, ◌≤◌, ◌++◌, OnOk, OnErr};
ghost use Rattle.outside.specs.Rose.{Rose};
ghost use Rattle.outside.specs.Sink.{BreaksOff};
ghost use Rattle.outside.specs.Told.{Told};
ghost use Rattle.outside.specs.Writing.{Writes};

use crate::traits::{Sink, Taken};

/// A call of the sink failed before all was taken.
#[derive(Clone, Copy, Debug, PartialEq, Eq)]
pub struct WriteFault;

/// Writes all bytes to a sink, and offers at each call all that are left. It ends at the first call that fails. No memory.
pub fn write_all<K: Sink>(sink: &mut K, bytes: &[u8]) -> Result<(), WriteFault>
    ensures whole { OnOk result (Told (K.taken sink.old) (K.taken sink.new) (λ before after. after ≡ before ++ bytes.now)) }
    ensures part { OnErr result (Told (K.taken sink.old) (K.taken sink.new) (BreaksOff bytes.now)) }
    ensures calls { Writes K.takes sink.old bytes.now result sink.new }
    ensures count { K.faults sink.old ≤ K.faults sink.new }
    ensures fault { OnErr result (Rose (K.faults sink.old) (K.faults sink.new)) }
{
    let mut written = 0;
    while written < bytes.len() {
        match sink.put(&bytes[written..]) {
            Taken::Took(count) => written += count,
            Taken::Failed => return Err(WriteFault),
        }
    }
    Ok(())
}
