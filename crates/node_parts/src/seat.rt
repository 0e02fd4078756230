//! Where a node stands in joining: its joiner, what it takes over, and its links.

ghost use Rattle.std.specs.Prelude.{◌≡◌, IfOk};
ghost use Rattle.overlay_rules.specs.State.{Waiting, Ready, is_ready};
ghost use Rattle.join_core.specs.Joining.{joiner_of};
ghost use Rattle.node_parts.specs.Seats.{links_in, taken_of, phase_to, heard_phase, granted_phase};

use join_core::Joiner;
use replica_handover::Taking;
use ring_math::{Id, OutOfMemory};
use std::alloc::Global;
use std::marker::Model;

/// A node's phase. It is seen as that of the rules.
#[derive(Drop)]
pub struct Seat {
    joiner: Joiner,
    /// What the neighbours hand over with their leases.
    taking: Taking,
    /// The link counterclockwise of a node that has joined.
    left: Id,
    /// The link clockwise of a node that has joined.
    right: Id,
}

impl Model for Seat {
    ghost use Rattle.std.specs.Prelude.{◌≡◌};
    ghost use Rattle.overlay_rules.specs.State.{Phase};
    ghost use Rattle.join_core.specs.Joining.{joiner_of};
    ghost use Rattle.node_parts.specs.Seats.{phase_of, taken_of};

    ghost Value = { Phase };

    ghost view = { λ a. phase_of a.joiner a.taking a.left a.right };

    ghost invariant = { λ a. (joiner_of (phase_of a.joiner a.taking a.left a.right) ≡ a.joiner)
        × (taken_of (phase_of a.joiner a.taking a.left a.right) ≡ a.taking) };
}

impl Seat {
    /// The seat of the founder, which is ready and alone.
    pub fn founder(me: Id) -> Seat
        ensures { result ≡ Ready 0 me me }
    {
        Seat {
            joiner: Joiner::Done { attempt: 0 },
            taking: Taking::new(),
            left: me,
            right: me,
        }
    }

    /// The seat of a node that is to join.
    pub fn fresh(me: Id) -> Seat
        ensures { result ≡ Waiting 1 }
    {
        Seat {
            joiner: Joiner::Waiting { attempt: 1 },
            taking: Taking::new(),
            left: me,
            right: me,
        }
    }

    /// How far it is in joining.
    pub fn joiner(&self) -> &Joiner
        ensures { result.now ≡ joiner_of self.now }
    {
        &self.joiner
    }

    /// Whether it has joined.
    pub fn is_ready(&self) -> bool
        ensures { result ≡ is_ready self.now }
    {
        matches!(&self.joiner, Joiner::Done { .. })
    }

    /// The links on the left and on the right, None exactly where it is not ready.
    pub fn links(&self) -> Option<(Id, Id)>
        ensures { result ≡ links_in self.now }
    {
        match &self.joiner {
            Joiner::Done { .. } => Some((self.left, self.right)),
            _ => None,
        }
    }

    /// What the neighbours have handed over with their leases; nothing where no leases are asked for.
    pub fn taking(&self) -> &Taking
        ensures { result.now ≡ taken_of self.now }
    {
        &self.taking
    }

    /// A join begins, goes on or ends: the joiner is this from now on.
    pub fn go_to(&mut self, joiner: Joiner)
        ensures { self.new ≡ phase_to joiner self.old }
    {
        let (left, right) = (self.left, self.right);
        let joiner = match joiner {
            Joiner::Done { .. } => return,
            Joiner::Leasing {
                attempt,
                number,
                left,
                right,
                ..
            } => Joiner::Leasing {
                attempt,
                number,
                left,
                right,
                from_left: false,
                from_right: false,
            },
            other => other,
        };
        *self = Seat {
            joiner,
            taking: Taking::new(),
            left,
            right,
        };
    }

    /// Where it probes, this node has answered. It takes no memory.
    pub fn hear(&mut self, sender: Id)
        ensures { self.new ≡ heard_phase sender self.old }
    {
        self.joiner.hear(sender);
    }

    /// What the neighbours hand over is kept, on each side where nothing was kept before.
    pub fn grant(&mut self, given: Taking)
        ensures { self.new ≡ granted_phase given self.old }
    {
        if let Joiner::Leasing {
            from_left,
            from_right,
            ..
        } = &mut self.joiner
        {
            self.taking.keep(given);
            *from_left = self.taking.left().is_some();
            *from_right = self.taking.right().is_some();
        }
    }

    /// It has joined by this attempt, or its links are these now.
    pub fn settle(&mut self, attempt: u32, left: Id, right: Id)
        ensures { self.new ≡ Ready attempt left right }
    {
        *self = Seat {
            joiner: Joiner::Done { attempt },
            taking: Taking::new(),
            left,
            right,
        };
    }

    /// The same in memory of its own.
    pub fn copy(&self, alloc: Global) -> Result<Seat, OutOfMemory>
        ensures { IfOk result (λ copy. copy ≡ self.now) }
    {
        let joiner = self.joiner.copy(alloc)?;
        let taking = self.taking.copy(alloc)?;
        Ok(Seat {
            joiner,
            taking,
            left: self.left,
            right: self.right,
        })
    }
}
