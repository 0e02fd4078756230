//! Which calls of a device in memory fail.

ghost use Rattle.std.specs.Prelude.{◌≡◌, ◌≤◌, IfOk, IsTrue};
ghost use Rattle.outside.specs.Rose.{Rose};

use ring_math::OutOfMemory;
use std::alloc::Global;
use std::marker::Model;

/// The calls of a device in memory: how many were made, and which of them fail.
#[derive(Drop)]
pub(crate) struct Calls {
    fails: Vec<u64>,
    made: u64,
    faults: u64,
}

impl Model for Calls {
    ghost use Rattle.outside.specs.Calls.{Calls as Seen};

    ghost Value = { Seen };

    ghost view = { λ c. record { fails = c.fails.items; made = c.made; faults = c.faults } };
}

impl Calls {
    ghost use Rattle.outside.specs.Calls.{after_call, is_next_to_fail};

    /// No call was made yet. Those with a number in `fails` will fail, counted from 1.
    pub(crate) fn new(alloc: Global, fails: &[u64]) -> Result<Calls, OutOfMemory>
        ensures { IfOk result (λ c. c ≡ record { fails = fails.now; made = 0; faults = 0 }) }
    {
        let fails = fails.to_vec(alloc)?;
        Ok(Calls {
            fails,
            made: 0,
            faults: 0,
        })
    }

    /// Whether the coming call is one of those that fail. A call whose number is past those of a u64 is none of them.
    pub(crate) fn is_next_to_fail(&self) -> bool
        ensures { result ≡ is_next_to_fail self.now }
    {
        match self.made.checked_add(1) {
            Some(number) => self.fails.contains(&number),
            None => false,
        }
    }

    /// Counts a call, and a fault where it failed.
    pub(crate) fn record(&mut self, failed: bool)
        ensures after { self.new ≡ after_call self.old failed }
        ensures count { self.old.faults ≤ self.new.faults }
        ensures fault { IsTrue failed → Rose self.old.faults self.new.faults }
    {
        self.made = self.made.saturating_add(1);
        if failed {
            self.faults = self.faults.saturating_add(1);
        }
    }
}
