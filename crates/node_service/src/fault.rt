//! Why a service ended before its input.

ghost use Rattle.std.specs.Prelude.{◌≡◌};
ghost use Rattle.node_service.specs.declared.fault.ServiceFault.TheVariants as fault;

use ring_math::OutOfMemory;

/// Why a service ended before its input. What was taken by then is the beginning of what was due, whole answers first.
#[derive(Clone, Copy, PartialEq, Eq, Debug)]
pub enum ServiceFault {
    /// A call of the source failed. Every line that had come to its end is answered.
    Read,
    /// A call of the sink failed, so of the last answers the first bytes were taken, and not all.
    Write,
    /// Memory was refused. It also comes once 18,446,744,073,709,551,615 pieces were read, more than any source lives to give.
    OutOfMemory,
}

impl From<OutOfMemory> for ServiceFault {
    ghost from_gives = { λ _ made. made ≡ fault.OutOfMemory };

    fn from(_error: OutOfMemory) -> ServiceFault {
        ServiceFault::OutOfMemory
    }
}
