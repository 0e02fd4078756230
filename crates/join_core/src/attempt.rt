//! Attempts that can be begun.

ghost use Rattle.std.specs.Prelude.{◌≡◌, ◌<◌, ◌+◌, ◌==◌, if◌then◌else◌, Some, None};

use std::marker::Model;
use wire_msg::LAST_ATTEMPT;

/// The number of an attempt that can be begun: any below [`LAST_ATTEMPT`], so that there is one after it.
#[derive(Clone, Copy, Debug, PartialEq, Eq)]
pub struct Attempt {
    number: u32,
}

impl Model for Attempt {
    ghost use Rattle.std.specs.Prelude.{ℕ, ◌<◌};
    ghost use Rattle.wire_msg.specs.declared.limits.TheConstants.{LAST_ATTEMPT};

    ghost Value = { ℕ };

    ghost view = { λ a. a.number };

    ghost invariant = { λ a. a.number < LAST_ATTEMPT };

    ghost inverse = { λ n. record { number = n } };
}

impl Attempt {
    /// The attempt with this number, None exactly for [`LAST_ATTEMPT`].
    pub fn new(number: u32) -> Option<Attempt>
        ensures { result ≡ (if number == LAST_ATTEMPT then None else Some number) }
    {
        if number == LAST_ATTEMPT {
            None
        } else {
            Some(Attempt { number })
        }
    }

    pub fn get(&self) -> u32
        ensures value { result ≡ self.now }
        ensures limit { result < LAST_ATTEMPT }
    {
        self.number
    }

    /// The number of the attempt after this one.
    pub fn next(&self) -> u32
        ensures { result ≡ self.now + 1 }
    {
        self.number + 1
    }
}
