//! Links, gates, and what requests for leases, releases and confirmations make of them.

ghost use Rattle.std.specs.Prelude.{◌≡◌, if◌then◌else◌, None};
ghost use Rattle.overlay_rules.specs.Gates.{is_older, is_gate_of, unless, asked_for, is_again, busy_with, blocked_by, fits, verdict, cleared_links};
ghost use Rattle.overlay_rules.specs.Gates.{gated_links, asked_links, released_links, holds_gate, confirmed_links};
ghost use Rattle.gate_core.specs.Older.{is_older_gate};
ghost use Rattle.gate_core.specs.Reached.{joiner_in, reach_of};

use coverage::Reach;
use overlay_rules::{Gate, Verdict};
use ring_math::{Id, between};
use std::marker::Model;

/// A node's two neighbours, and who has a lease beside it. A node alone has itself as both.
#[derive(Clone, Copy, Debug, PartialEq, Eq)]
pub struct Links {
    /// The neighbour counterclockwise.
    pub left: Id,
    /// The neighbour clockwise.
    pub right: Id,
    pub left_gate: Option<Gate>,
    pub right_gate: Option<Gate>,
}

impl Model for Links {
    ghost use Rattle.overlay_rules.specs.Gates.{Links as LinksAndGates};

    ghost Value = { LinksAndGates };

    ghost view = { λ a. record { left = a.left; right = a.right; left_gate = a.left_gate; right_gate = a.right_gate } };

    ghost inverse = { λ k. record { left = k.left; right = k.right; left_gate = k.left_gate; right_gate = k.right_gate } };
}

impl Links {
    /// What coverage depends on, for a node `me` with these links and gates.
    pub fn reach(&self, me: Id) -> Reach
        ensures { result ≡ reach_of self.now me }
    {
        Reach {
            me,
            left: self.left,
            right: self.right,
            left_joiner: joiner_of(&self.left_gate),
            right_joiner: joiner_of(&self.right_gate),
        }
    }

    /// What `me` says to the joiner's request for a lease between `left` and `right`. It asks for the right side where
    /// `left` is `me`, and for the left side where `right` is.
    ///
    /// `Again`: a side is asked for, and the gate of each such side is this joiner's with this attempt. Else `Busy`: once
    /// the joiner's gates of older attempts are gone, a side that is asked for has a gate; the right side's is named first.
    /// Else `Grant` where the joiner stands strictly between the two, a side is asked for, and the links on the sides
    /// asked for are those two. Else `Moved`, with the links as they are.
    pub fn weigh(&self, me: Id, joiner: Id, attempt: u32, left: Id, right: Id) -> Verdict
        ensures { result ≡ verdict self.now me (asked_for joiner attempt left right) }
    {
        self.verdict(me, &asked_for(joiner, attempt, left, right))
    }

    /// Answers as `weigh`. Unless that is `Again`, the joiner's gates of older attempts are taken away, on both sides and
    /// whatever the answer; on `Grant` each side that is asked for then gets this gate.
    pub fn ask(&mut self, me: Id, joiner: Id, attempt: u32, left: Id, right: Id) -> Verdict
        ensures answer { result ≡ verdict self.old me (asked_for joiner attempt left right) }
        ensures links { self.new ≡ asked_links self.old me (asked_for joiner attempt left right) result }
    {
        self.ask_for(me, &asked_for(joiner, attempt, left, right))
    }

    /// The same, by the gate that the request asks for.
    pub fn ask_for(&mut self, me: Id, gate: &Gate) -> Verdict
        ensures answer { result ≡ verdict self.old me gate.now }
        ensures links { self.new ≡ asked_links self.old me gate.now result }
    {
        let verdict = self.verdict(me, gate);
        match verdict {
            Verdict::Again => {}
            Verdict::Busy { .. } | Verdict::Moved { .. } => {
                self.clear_older(gate.joiner, gate.attempt);
            }
            Verdict::Grant => {
                self.clear_older(gate.joiner, gate.attempt);
                self.open(me, gate);
            }
        }
        verdict
    }

    /// Takes away each gate that is this joiner's with this attempt. True exactly where there is one.
    pub fn release(&mut self, joiner: Id, attempt: u32) -> bool
        ensures answer { result ≡ holds_gate self.old joiner attempt }
        ensures links { self.new ≡ released_links self.old joiner attempt }
    {
        let on_left = is_held_by(&self.left_gate, joiner, attempt);
        let on_right = is_held_by(&self.right_gate, joiner, attempt);
        take_away(&mut self.left_gate, on_left);
        take_away(&mut self.right_gate, on_right);
        on_left || on_right
    }

    /// The joiner is ready: it becomes the link of each side whose gate is its with this attempt, and that gate is taken
    /// away. True exactly where there is one. Which node the links are of makes no difference.
    pub fn confirm(&mut self, _me: Id, joiner: Id, attempt: u32) -> bool
        ensures answer { result ≡ holds_gate self.old joiner attempt }
        ensures links { self.new ≡ confirmed_links self.old joiner attempt }
    {
        if is_held_by(&self.left_gate, joiner, attempt) {
            self.left = joiner;
        }
        if is_held_by(&self.right_gate, joiner, attempt) {
            self.right = joiner;
        }
        self.release(joiner, attempt)
    }

    /// What `me` says to the request for this gate.
    fn verdict(&self, me: Id, gate: &Gate) -> Verdict
        ensures { result ≡ verdict self.now me gate.now }
    {
        if self.has_given(me, gate) {
            return Verdict::Again;
        }
        match self.blocker(me, gate) {
            Some(joiner) => Verdict::Busy { joiner },
            None if self.has_place(me, gate) => Verdict::Grant,
            None => Verdict::Moved {
                left: self.left,
                right: self.right,
            },
        }
    }

    /// Whether a side is asked for, and each such side has the gate already.
    fn has_given(&self, me: Id, gate: &Gate) -> bool
        ensures { result ≡ is_again self.now me gate.now }
    {
        let on_right = me == gate.left;
        let on_left = me == gate.right;
        (on_right || on_left)
            && (!on_right || is_held_by(&self.right_gate, gate.joiner, gate.attempt))
            && (!on_left || is_held_by(&self.left_gate, gate.joiner, gate.attempt))
    }

    /// The joiner of a gate that stands in the way of this one, on the right first.
    fn blocker(&self, me: Id, gate: &Gate) -> Option<Id>
        ensures { result ≡ blocked_by self.now me gate.now }
    {
        let on_right = busy(me == gate.left, &self.right_gate, gate);
        let on_left = busy(me == gate.right, &self.left_gate, gate);
        on_right.or(on_left)
    }

    /// Whether the joiner may come to stand where the gate says.
    fn has_place(&self, me: Id, gate: &Gate) -> bool
        ensures { result ≡ fits self.now me gate.now }
    {
        let on_right = me == gate.left;
        let on_left = me == gate.right;
        between(gate.left, gate.joiner, gate.right)
            && (on_right || on_left)
            && (!on_right || self.right == gate.right)
            && (!on_left || self.left == gate.left)
    }

    /// Takes away the joiner's gates of older attempts.
    fn clear_older(&mut self, joiner: Id, attempt: u32)
        ensures { self.new ≡ cleared_links self.old joiner attempt }
    {
        let on_left = is_older(&self.left_gate, joiner, attempt);
        let on_right = is_older(&self.right_gate, joiner, attempt);
        take_away(&mut self.left_gate, on_left);
        take_away(&mut self.right_gate, on_right);
    }

    /// This gate on each side that it asks for.
    fn open(&mut self, me: Id, gate: &Gate)
        ensures { self.new ≡ gated_links self.old me gate.now }
    {
        if me == gate.right {
            self.left_gate = Some(*gate);
        }
        if me == gate.left {
            self.right_gate = Some(*gate);
        }
    }
}

/// The gate that a request for a lease asks for.
fn asked_for(joiner: Id, attempt: u32, left: Id, right: Id) -> Gate
    ensures { result ≡ asked_for joiner attempt left right }
{
    Gate {
        joiner,
        attempt,
        left,
        right,
    }
}

fn joiner_of(gate: &Option<Gate>) -> Option<Id>
    ensures { result ≡ joiner_in gate.now }
{
    match gate {
        Some(gate) => Some(gate.joiner),
        None => None,
    }
}

/// Whether the gate is this joiner's with this attempt.
fn is_held_by(gate: &Option<Gate>, joiner: Id, attempt: u32) -> bool
    ensures { result ≡ is_gate_of joiner attempt gate.now }
{
    match gate {
        Some(gate) => gate.joiner == joiner && gate.attempt == attempt,
        None => false,
    }
}

/// Whether the gate is this joiner's with an older attempt.
fn is_older(gate: &Option<Gate>, joiner: Id, attempt: u32) -> bool
    ensures { result ≡ is_older_gate joiner attempt gate.now }
{
    match gate {
        Some(gate) => gate.joiner == joiner && gate.attempt < attempt,
        None => false,
    }
}

/// Takes the gate away where it is to go.
fn take_away(gate: &mut Option<Gate>, goes: bool)
    ensures { gate.new ≡ (if goes then None else gate.old) }
{
    if goes {
        *gate = None;
    }
}

/// The joiner of a side's gate, where the side is asked for and the gate is not an older one of the same joiner.
fn busy(is_asked: bool, held: &Option<Gate>, gate: &Gate) -> Option<Id>
    ensures { result ≡ busy_with is_asked (unless (is_older gate.now.joiner gate.now.attempt) held.now) }
{
    match held {
        Some(other) if is_asked && !is_older(held, gate.joiner, gate.attempt) => Some(other.joiner),
        _ => None,
    }
}
