//! The phases of a join.

ghost use Rattle.std.specs.Prelude.{◌≡◌, ◌<◌, IfOk, OnErr, IfSome, None};
ghost use Rattle.ring_math.specs.Sides.{also_of};
ghost use Rattle.join_core.specs.Awaited.{is_asking, is_awaited};
ghost use Rattle.join_core.specs.Joining.{attempt_of, begin_of, after_begin};
ghost use Rattle.join_core.specs.Probes.{reply_of, after_reply, probe_step_of, after_probe_reply, goes_on_with, heard as heard_of};
ghost use Rattle.join_core.specs.Leases.{grant_step_of, after_grant, is_granted, finished_of, after_finish};
ghost use Rattle.join_core.specs.Ends.{halt, refused_of, denied_of, given_up_of, after_halt};

use crate::attempt::Attempt;
use crate::probed::Probed;
use crate::steps::{Begin, Finished, GrantStep, Halted, ProbeStep};
use ring_math::{Id, Ids, OutOfMemory};
use std::alloc::Global;
use wire_msg::LAST_ATTEMPT;

/// How far a node is in joining. The number is that of the Join command.
#[derive(Drop)]
pub enum Joiner {
    /// It has not joined; this attempt is the next.
    Waiting {
        attempt: u32,
    },
    /// It has asked for its place.
    Asking {
        attempt: Attempt,
        number: u64,
    },
    /// It has probed the leaves that it knows of.
    Probing {
        attempt: Attempt,
        number: u64,
        probed: Probed,
    },
    /// It has asked two neighbours for their leases. The marks say which of them were granted.
    Leasing {
        attempt: Attempt,
        number: u64,
        left: Id,
        right: Id,
        from_left: bool,
        from_right: bool,
    },
    /// It has joined by this attempt; 0 where it never had to.
    Done {
        attempt: u32,
    },
}

impl Joiner {
    /// A Join command with this number. `Spent` exactly where it is Waiting with the last attempt, `Already` exactly
    /// where it is not Waiting; nothing changes then.
    pub fn begin(&mut self, number: u64) -> Begin
        ensures answer { result ≡ begin_of self.old }
        ensures joiner { self.new ≡ after_begin result self.old number }
    {
        match self {
            Joiner::Waiting { attempt } => match Attempt::new(*attempt) {
                Some(attempt) => {
                    let begin = Begin::Started {
                        attempt: attempt.get(),
                    };
                    *self = Joiner::Asking { attempt, number };
                    begin
                }
                None => Begin::Spent,
            },
            _ => Begin::Already,
        }
    }

    /// The reply to its request, with the node's leaves once its members were learnt: the leaves, each of which is to be
    /// probed. None exactly where it is not Asking with that attempt or there is no leaf; nothing changes then. Memory can be
    /// refused only in the place of another answer.
    pub fn on_reply(
        &mut self,
        alloc: Global,
        attempt: u32,
        leafs: &Ids,
    ) -> Result<Option<Ids>, OutOfMemory>
        ensures answer { IfOk result (λ probes. probes ≡ reply_of self.old attempt leafs.now) }
        ensures joiner { IfOk result (λ probes. self.new ≡ after_reply probes self.old) }
        ensures refused { OnErr result (reply_of self.old attempt leafs.now ≡ None → ⊥) }
        ensures as_before { OnErr result (self.new ≡ self.old) }
    {
        match self {
            Joiner::Asking {
                attempt: own,
                number,
            } if own.get() == attempt && !leafs.as_slice().is_empty() => {
                let probes = leafs.copy(alloc)?;
                let probed = Probed::unanswered(alloc, leafs.as_slice())?;
                *self = Joiner::Probing {
                    attempt: *own,
                    number: *number,
                    probed,
                };
                Ok(Some(probes))
            }
            _ => Ok(None),
        }
    }

    /// The reply to a probe, with the node's leaves, its first left and its first right once its members were learnt.
    /// `Dropped` exactly where it is not Probing with that attempt and the sender probed and unanswered; nothing changes
    /// then. `Lease` where each has answered afterwards, else `Probe` with the leaves that were not probed yet. Memory can
    /// be refused only in the place of these two.
    pub fn on_probe_reply(
        &mut self,
        alloc: Global,
        sender: Id,
        attempt: u32,
        leafs: &Ids,
        left: Id,
        right: Id,
    ) -> Result<ProbeStep, OutOfMemory>
        ensures answer { IfOk result (λ step. step ≡ probe_step_of self.old sender attempt leafs.now left right) }
        ensures joiner { IfOk result (λ step. self.new ≡ after_probe_reply step sender self.old) }
        ensures refused { OnErr result (probe_step_of self.old sender attempt leafs.now left right ≡ ProbeStep.Dropped → ⊥) }
        ensures as_before { OnErr result (self.new ≡ self.old) }
    {
        match self {
            Joiner::Probing {
                attempt: own,
                number,
                probed,
            } if own.get() == attempt && probed.awaits(sender) => {
                let more = probed.not_probed(alloc, leafs)?;
                let probed = probed.answered(alloc, sender, more.as_slice())?;
                if !probed.all_answered() {
                    *self = Joiner::Probing {
                        attempt: *own,
                        number: *number,
                        probed,
                    };
                    return Ok(ProbeStep::Probe { more });
                }
                *self = Joiner::Leasing {
                    attempt: *own,
                    number: *number,
                    left,
                    right,
                    from_left: false,
                    from_right: false,
                };
                Ok(ProbeStep::Lease {
                    attempt,
                    left,
                    right,
                })
            }
            _ => Ok(ProbeStep::Dropped),
        }
    }

    /// Whether it only goes on after an awaited answer of this node, with the two sides of the leaf set once its members were learnt:
    /// each leaf was probed, and another than the sender has not answered. What `on_probe_reply` would give then, `Probe` with no
    /// leaf, is said by the lemma `goes-on`.
    pub fn goes_on_with(&self, sender: Id, right: &[Id], left: &[Id]) -> bool
        ensures { result ≡ goes_on_with self.now sender (also_of right.now left.now) }
    {
        match self {
            Joiner::Probing { probed, .. } => {
                probed.contains_leaves(right, left) && probed.awaits_besides(sender)
            }
            _ => false,
        }
    }

    /// Where it is Probing, this node has answered. It takes no memory.
    pub fn hear(&mut self, sender: Id)
        ensures { self.new ≡ heard_of sender self.old }
    {
        if let Joiner::Probing { probed, .. } = self {
            probed.hear(sender);
        }
    }

    /// A grant of a lease. `Older` exactly where its own attempt is greater; `Settled` exactly where it is Done with that
    /// attempt; `Noted` exactly where it is Leasing with that attempt and the sender is one of the two neighbours, and then
    /// the mark of each side that the sender is stands. Of the others nothing changes.
    pub fn on_grant(&mut self, sender: Id, attempt: u32) -> GrantStep
        ensures answer { result ≡ grant_step_of self.old sender attempt }
        ensures joiner { self.new ≡ after_grant result sender self.old }
    {
        if attempt < self.attempt() {
            return GrantStep::Older;
        }
        match self {
            Joiner::Leasing {
                attempt: own,
                left,
                right,
                from_left,
                from_right,
                ..
            } if own.get() == attempt && (sender == *left || sender == *right) => {
                *from_left = *from_left || sender == *left;
                *from_right = *from_right || sender == *right;
                GrantStep::Noted
            }
            Joiner::Done { attempt: own } if *own == attempt => GrantStep::Settled,
            _ => GrantStep::Dropped,
        }
    }

    /// Whether a reply to a request with this attempt is awaited.
    pub fn is_asking(&self, attempt: u32) -> bool
        ensures { result ≡ is_asking self.now attempt }
    {
        match self {
            Joiner::Asking { attempt: own, .. } => attempt == own.get(),
            _ => false,
        }
    }

    /// Whether an answer of this node to a probe with this attempt is awaited.
    pub fn awaits(&self, sender: Id, attempt: u32) -> bool
        ensures { result ≡ is_awaited self.now sender attempt }
    {
        match self {
            Joiner::Probing {
                attempt: own,
                probed,
                ..
            } => attempt == own.get() && probed.awaits(sender),
            _ => false,
        }
    }

    /// The attempt of the join under way, of the next one, or of the last one.
    pub fn attempt(&self) -> u32
        ensures { result ≡ attempt_of self.now }
    {
        match self {
            Joiner::Waiting { attempt } | Joiner::Done { attempt } => *attempt,
            Joiner::Asking { attempt, .. }
            | Joiner::Probing { attempt, .. }
            | Joiner::Leasing { attempt, .. } => attempt.get(),
        }
    }

    /// Whether it is Leasing and both marks stand.
    pub fn granted(&self) -> bool
        ensures { result ≡ is_granted self.now }
    {
        match self {
            Joiner::Leasing {
                from_left,
                from_right,
                ..
            } => *from_left && *from_right,
            _ => false,
        }
    }

    /// The join is done. None exactly where `granted` is false; nothing changes then.
    pub fn finish(&mut self) -> Option<Finished>
        ensures answer { result ≡ finished_of self.old }
        ensures joiner { self.new ≡ after_finish result self.old }
    {
        match self {
            Joiner::Leasing {
                attempt,
                number,
                left,
                right,
                from_left: true,
                from_right: true,
            } => {
                let finished = Finished {
                    attempt: attempt.get(),
                    number: *number,
                    left: *left,
                    right: *right,
                };
                *self = Joiner::Done {
                    attempt: finished.attempt,
                };
                Some(finished)
            }
            _ => None,
        }
    }

    /// A neighbour denies its lease. None exactly where it is not Leasing with that attempt; nothing changes then. Else the
    /// next attempt waits.
    pub fn on_deny(&mut self, attempt: u32) -> Option<Halted>
        ensures answer { result ≡ denied_of self.old attempt }
        ensures joiner { self.new ≡ after_halt result self.old }
    {
        match self {
            Joiner::Leasing { attempt: own, .. } if own.get() == attempt => self.give_up(),
            _ => None,
        }
    }

    /// Its request is refused. None exactly where it is not Asking with that attempt; nothing changes then. Else the next
    /// attempt waits.
    pub fn on_refuse(&mut self, attempt: u32) -> Option<Halted>
        ensures answer { result ≡ refused_of self.old attempt }
        ensures joiner { self.new ≡ after_halt result self.old }
    {
        match self {
            Joiner::Asking { attempt: own, .. } if own.get() == attempt => self.give_up(),
            _ => None,
        }
    }

    /// Ends the join under way, and the next attempt waits. None exactly where it is Waiting or Done; nothing changes then.
    pub fn give_up(&mut self) -> Option<Halted>
        ensures answer { result ≡ given_up_of self.old }
        ensures joiner { self.new ≡ after_halt result self.old }
    {
        let halted = self.under_way()?;
        *self = Joiner::Waiting {
            attempt: halted.attempt + 1,
        };
        Some(halted)
    }

    /// The join that would end now.
    fn under_way(&self) -> Option<Halted>
        ensures halted { result ≡ given_up_of self.now }
        ensures limit { IfSome result (λ halted. halted.attempt < LAST_ATTEMPT) }
    {
        match self {
            Joiner::Asking { attempt, number } => Some(ended(attempt, *number, None)),
            Joiner::Probing {
                attempt,
                number,
                ..
            } => Some(ended(attempt, *number, None)),
            Joiner::Leasing {
                attempt,
                number,
                left,
                right,
                ..
            } => Some(ended(attempt, *number, Some((*left, *right)))),
            Joiner::Waiting { .. } | Joiner::Done { .. } => None,
        }
    }

    /// The same in memory of its own.
    pub fn copy(&self, alloc: Global) -> Result<Joiner, OutOfMemory>
        ensures { IfOk result (λ copy. copy ≡ self.now) }
    {
        match self {
            Joiner::Waiting { attempt } => Ok(Joiner::Waiting { attempt: *attempt }),
            Joiner::Asking { attempt, number } => Ok(Joiner::Asking {
                attempt: *attempt,
                number: *number,
            }),
            Joiner::Probing {
                attempt,
                number,
                probed,
            } => Ok(Joiner::Probing {
                attempt: *attempt,
                number: *number,
                probed: probed.copy(alloc)?,
            }),
            Joiner::Leasing {
                attempt,
                number,
                left,
                right,
                from_left,
                from_right,
            } => Ok(Joiner::Leasing {
                attempt: *attempt,
                number: *number,
                left: *left,
                right: *right,
                from_left: *from_left,
                from_right: *from_right,
            }),
            Joiner::Done { attempt } => Ok(Joiner::Done { attempt: *attempt }),
        }
    }
}

fn ended(attempt: &Attempt, number: u64, neighbours: Option<(Id, Id)>) -> Halted
    ensures value { result ≡ halt attempt.now number neighbours }
    ensures limit { result.attempt < LAST_ATTEMPT }
{
    Halted {
        attempt: attempt.get(),
        number,
        neighbours,
    }
}
