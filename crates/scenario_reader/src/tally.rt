//! What has been counted of a scenario's actions.

ghost use Rattle.std.specs.Prelude.{◌≡◌, ◌+◌, ◌^◌, ◌<◌};
ghost use Rattle.scenario_reader.specs.Tallies.{start, tallied};

use crate::action::What;

/// What actions come to.
#[derive(Clone, Copy)]
pub struct Tally {
    pub commands: u64,
    /// Copies of a delivery from here on: the number of the last `dup`, and 1 before any.
    pub copies: u8,
    /// The deliveries that are asked for, each copy counted. A settle ends early if no message is left.
    pub deliveries: u32,
}

impl Tally {
    /// Before any action.
    pub(crate) fn start() -> Tally
        ensures { result ≡ start }
    {
        Tally {
            commands: 0,
            copies: 1,
            deliveries: 0,
        }
    }

    /// The tally with one more action.
    pub(crate) fn after(self, what: &What) -> Tally
        requires commands { self.commands + 1 < 2 ^ 64 }
        requires deliveries { (tallied self what.now).deliveries < 2 ^ 32 }
        ensures { result ≡ tallied self what.now }
    {
        match what {
            What::Command { .. } => Tally {
                commands: self.commands + 1,
                ..self
            },
            What::Settle(count) => Tally {
                deliveries: self.deliveries + *count * u32::from(self.copies),
                ..self
            },
            What::Deliver(_) => Tally {
                deliveries: self.deliveries + 1,
                ..self
            },
            What::Shuffle { count, .. } => Tally {
                deliveries: self.deliveries + *count,
                ..self
            },
            What::Dup(copies) => Tally {
                copies: *copies,
                ..self
            },
            What::Noise { .. } => self,
        }
    }
}
