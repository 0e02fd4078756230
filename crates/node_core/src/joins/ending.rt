//! A join ends before the node is ready: it is refused, denied or given up.

ghost use Rattle.std.specs.Prelude.{◌≡◌, IfOk, List, ℕ, Some};
ghost use Rattle.overlay_rules.specs.State.{State};
ghost use Rattle.overlay_rules.specs.Joining.{on_give_up as on_give_up_of, on_join_refuse as on_join_refuse_of, on_deny as on_deny_of, learnt_of};
ghost use Rattle.join_core.specs.declared.joiner.Joiner.{Joiner};
ghost use Rattle.join_core.specs.Ends.{after_halt};
ghost use Rattle.join_core.specs.Outcomes.{released as released_of, given_up_by, ended_by};
ghost use Rattle.node_parts.specs.Change.{known_after};
ghost use Rattle.node_parts.specs.Seen.{seen};
ghost use Rattle.node_parts.specs.Plans.{Plans};

use join_core::{Halted, Joiner};
use node_parts::{Change, Learn, Node, Prepared, sent_to_both};
use ring_math::{Id, OutOfMemory};
use std::alloc::Global;
use wire_msg::{Answer, Message, Note, Notes, Own, Sends, Why};

/// Those who were asked for a lease are told that it is not wanted.
fn released(alloc: Global, halted: &Halted) -> Result<Sends, OutOfMemory>
    ensures { IfOk result (λ messages. messages ≡ released_of halted.now.attempt halted.now.neighbours) }
{
    match &halted.neighbours {
        Some(neighbours) => {
            let release = Message::Release {
                attempt: halted.attempt,
            };
            let messages = sent_to_both(alloc, neighbours.0, neighbours.1, &release);
            drop(release);
            messages
        }
        None => Ok(Sends::new(alloc)),
    }
}

/// A GiveUp command.
#[inline(never)]
pub(crate) fn on_give_up(node: &Node, alloc: Global, number: u64) -> Result<Prepared, OutOfMemory>
    ensures { (known : List ℕ) → IfOk result (λ p. Plans (seen node.now known) p (on_give_up_of (seen node.now known) number)) }
{
    let mut joiner = node.seat.joiner().copy(alloc)?;
    match joiner.give_up() {
        Some(halted) => given_up(node, alloc, joiner, number, &halted),
        None => Prepared::closing(
            alloc,
            Change::nothing(),
            Sends::new(alloc),
            number,
            Answer::NothingToGiveUp,
        ),
    }
}

/// The join under way is given up by this command, and both are closed.
fn given_up(
    node: &Node,
    alloc: Global,
    joiner: Joiner,
    number: u64,
    halted: &Halted,
) -> Result<Prepared, OutOfMemory>
    ensures { (known : List ℕ) (old : Joiner) → joiner ≡ after_halt (Some halted.now) old →
        IfOk result (λ p. Plans (seen node.now known) p (given_up_by (seen node.now known) number (Some halted.now))) }
{
    let messages = released(alloc, halted)?;
    let mut notes = Notes::new(alloc);
    let answer = Answer::Stopped {
        node: node.me,
        own: Own::GivenUp,
    };
    notes.push(Note::Closed {
        number: halted.number,
        answer,
    })?;
    notes.push(Note::Closed {
        number,
        answer: Answer::GaveUp,
    })?;
    let change = Change::joins(alloc, joiner, Learn::Nothing)?;
    Ok(Prepared {
        messages,
        notes,
        change,
    })
}

/// A JoinRefuse.
#[inline(never)]
pub(crate) fn on_join_refuse(
    node: &Node,
    alloc: Global,
    from: Id,
    attempt: u32,
    why: Why,
) -> Result<Prepared, OutOfMemory>
    ensures { (known : List ℕ) → IfOk result (λ p. Plans (seen node.now known) p (on_join_refuse_of (seen node.now known) from attempt why)) }
{
    let mut joiner = node.seat.joiner().copy(alloc)?;
    match joiner.on_refuse(attempt) {
        Some(halted) => ended(alloc, joiner, Learn::Nothing, from, why, &halted),
        None => Ok(Prepared::quiet(alloc, Change::nothing())),
    }
}

/// A Deny.
#[inline(never)]
pub(crate) fn on_deny(
    node: &Node,
    alloc: Global,
    from: Id,
    attempt: u32,
    why: Why,
) -> Result<Prepared, OutOfMemory>
    ensures { (known : List ℕ) → IfOk result (λ p. Plans (seen node.now known) p (on_deny_of (seen node.now known) from attempt why)) }
{
    let mut joiner = node.seat.joiner().copy(alloc)?;
    match joiner.on_deny(attempt) {
        Some(halted) => ended(alloc, joiner, taught_by(&why), from, why, &halted),
        None => Ok(Prepared::quiet(alloc, Change::nothing())),
    }
}

/// What a denial teaches.
fn taught_by(why: &Why) -> Learn
    ensures { (s : State) → known_after s.me result s.known ≡ learnt_of s why.now }
{
    match why {
        Why::Moved { left, right } => Learn::Two(*left, *right),
        Why::Busy { .. } | Why::NotReady => Learn::Nothing,
    }
}

/// The join under way is denied by this node, and the next attempt waits.
fn ended(
    alloc: Global,
    joiner: Joiner,
    learn: Learn,
    from: Id,
    why: Why,
    halted: &Halted,
) -> Result<Prepared, OutOfMemory>
    ensures { (s : State) (old : Joiner) → joiner ≡ after_halt (Some halted.now) old →
        IfOk result (λ p. Plans s p (ended_by s (known_after s.me learn s.known) from why (Some halted.now))) }
{
    let messages = released(alloc, halted)?;
    let change = Change::joins(alloc, joiner, learn)?;
    let answer = Answer::Denied { node: from, why };
    Prepared::closing(alloc, change, messages, halted.number, answer)
}
