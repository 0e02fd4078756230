//! Where weaving stops.

ghost use Rattle.std.specs.Prelude.{◌≡◌, map, List};
ghost use Rattle.wire_msg.specs.Words.{Envelope};
ghost use Rattle.weave.specs.Placed.{IsWithin, placed};
ghost use Rattle.weave.specs.Stops.{IsHaltAt, IsStopAt};
ghost use Rattle.weave.specs.declared.fault.WeaveFault.TheVariants as fault;
ghost use Rattle.weave.specs.declared.stop.Stop.TheVariants as Stop;

use crate::acts::Act;
use crate::fault::WeaveFault;
use crate::strand::Strand;
use node_cell::CellInput;
use ring_math::OutOfMemory;
use std::alloc::Global;

/// Why an entry can't be woven. It says less than a fault, which has an envelope: so what is answered for each entry stays small.
#[derive(Clone, Copy, Debug, PartialEq, Eq)]
pub(crate) enum Stop {
    /// The message that it took in was sent in no history.
    Stray,
    OutOfMemory,
}

impl From<OutOfMemory> for Stop {
    ghost use Rattle.std.specs.Prelude.{◌≡◌};
    ghost use Rattle.weave.specs.declared.stop.Stop.TheVariants.{OutOfMemory};

    ghost from_gives = { λ _ made. made ≡ OutOfMemory };

    fn from(_error: OutOfMemory) -> Stop {
        Stop::OutOfMemory
    }
}

/// The fault at an entry, where weaving stops.
#[inline(never)]
pub(crate) fn fault_at<S: Strand>(alloc: Global, act: &Act, strands: &[S], stop: Stop) -> WeaveFault
    requires { stop ≡ Stop.Stray → IsWithin (map S.history strands.now) act.now }
    ensures stray { (sent : List Envelope) → stop ≡ Stop.Stray → IsHaltAt sent (placed (map S.history strands.now) act.now) stop →
        IsStopAt sent (placed (map S.history strands.now) act.now) result }
    ensures memory { stop ≡ Stop.OutOfMemory → result ≡ fault.OutOfMemory }
{
    match stop {
        Stop::Stray => stray_at(alloc, act, strands),
        Stop::OutOfMemory => WeaveFault::OutOfMemory,
    }
}

/// The stray message that an entry took in.
fn stray_at<S: Strand>(alloc: Global, act: &Act, strands: &[S]) -> WeaveFault
    requires { IsWithin (map S.history strands.now) act.now }
    ensures { (sent : List Envelope) → IsHaltAt sent (placed (map S.history strands.now) act.now) Stop.Stray →
        IsStopAt sent (placed (map S.history strands.now) act.now) result }
{
    let Some(entry) = act.entry(strands) else {
        return WeaveFault::OutOfMemory;
    };
    let CellInput::Comes(envelope) = &entry.input else {
        return WeaveFault::OutOfMemory;
    };
    match envelope.copy(alloc) {
        Ok(envelope) => WeaveFault::Stray {
            node: act.node(strands),
            place: act.place as u64,
            envelope,
        },
        Err(_) => WeaveFault::OutOfMemory,
    }
}
