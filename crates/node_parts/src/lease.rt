//! A gate with what its joiner takes over.

ghost use Rattle.std.specs.Prelude.{◌≡◌, IfOk};
ghost use Rattle.overlay_rules.specs.State.{bare, joiner_of};

use gate_core::Gate;
use replica_handover::Pledge;
use ring_math::{Id, OutOfMemory};
use std::alloc::Global;
use std::marker::Model;

/// A lease that a ready node gave, and what it hands over with it.
#[derive(Drop)]
pub struct Lease {
    pub gate: Gate,
    pub lists: Pledge,
}

impl Model for Lease {
    ghost use Rattle.overlay_rules.specs.State.{Lease as RulesLease};

    ghost Value = { RulesLease };

    ghost view = { λ a. record { gate = a.gate; lists = a.lists } };
}

impl Lease {
    /// The same in memory of its own.
    pub fn copy(&self, alloc: Global) -> Result<Lease, OutOfMemory>
        ensures { IfOk result (λ copy. copy ≡ self.now) }
    {
        let lists = self.lists.copy(alloc)?;
        Ok(Lease {
            gate: self.gate,
            lists,
        })
    }
}

/// The gate without its lists.
pub fn bare(lease: &Option<Lease>) -> Option<Gate>
    ensures { result ≡ bare lease.now }
{
    match lease {
        Some(lease) => Some(lease.gate),
        None => None,
    }
}

/// The joiner of a gate.
pub fn joiner_of(lease: &Option<Lease>) -> Option<Id>
    ensures { result ≡ joiner_of lease.now }
{
    match lease {
        Some(lease) => Some(lease.gate.joiner),
        None => None,
    }
}
