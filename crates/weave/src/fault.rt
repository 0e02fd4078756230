//! Why cells were not woven.

use ring_math::{Id, OutOfMemory};
use wire_msg::Envelope;

/// Why cells were not woven.
#[derive(Drop)]
pub enum WeaveFault {
    /// No history sent this envelope, which came to a node: it is the input of the entry at this place, from 0, of the node's
    /// history. In the woven order this is the first such entry.
    Stray {
        node: Id,
        place: u64,
        envelope: Envelope,
    },
    /// Memory was refused.
    OutOfMemory,
}

impl From<OutOfMemory> for WeaveFault {
    ghost use Rattle.std.specs.Prelude.{◌≡◌};
    ghost use Rattle.weave.specs.declared.fault.WeaveFault.TheVariants.{OutOfMemory};

    ghost from_gives = { λ _ made. made ≡ OutOfMemory };

    fn from(_error: OutOfMemory) -> WeaveFault {
        WeaveFault::OutOfMemory
    }
}
