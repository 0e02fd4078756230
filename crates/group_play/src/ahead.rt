//! A look at the next messages that are on their way, and at where the seats of their receivers may stand.
//!
//! What a delivery needs lies far apart: a seat, its part, the part's children and what came to it. What is looked at for the first
//! time is waited for. But a settle delivers messages in the order in which they were sent, so the next ones are looked at together,
//! in short loops, none of which needs what another of its turns looks at: then much is waited for at once. No promise rests on this.

use crate::seats::Seats;
use ring_math::{Id, OutOfMemory, SPREAD, cw};
use scribe_core::{GroupMessage, GroupSent};
use std::alloc::Global;

/// How many messages are looked at together.
const TOGETHER: usize = 16;

/// How many bits of a number that is spread choose its hint.
const HINT_BITS: u32 = 16;

/// What was seen of a message.
#[derive(Clone, Copy)]
struct Sight {
    /// Where the seat may stand to which it comes.
    guess: Option<usize>,
    /// What was seen of the message itself, and first of the part there. Nothing is done with it.
    is_graft: bool,
    child: Id,
    number: u64,
}

/// What was seen of the messages that were looked at last, and hints of where seats stand.
#[derive(Drop)]
pub(crate) struct Ahead {
    /// The first of these messages, and the first behind them.
    from: usize,
    upto: usize,
    sights: [Sight; TOGETHER],
    /// For each value of so many bits the place of the seat that was last looked up by a number that is spread to it. To look
    /// one up takes a hash, and to see that a hint is right takes none.
    hints: Vec<u32>,
}

/// Which hint a number goes by.
fn hint_of(number: u128) -> usize {
    let low = (number & u128::from(u64::MAX)) as u64;
    let folded = low ^ (number >> u64::BITS) as u64;
    (folded.wrapping_mul(SPREAD) >> (u64::BITS - HINT_BITS)) as usize
}

/// The number by which the seat is looked up to which a message comes.
fn slot_of(sent: &GroupSent) -> u128 {
    cw(sent.receiver, sent.group.key())
}

impl Sight {
    fn none() -> Sight {
        Sight {
            guess: None,
            is_graft: false,
            child: Id(0),
            number: 0,
        }
    }

    /// Whether a seat that is looked up as the message's would be stands where it is guessed.
    fn is_right(&self, sent: &GroupSent, seats: &Seats) -> bool {
        let Some(place) = self.guess else {
            return false;
        };
        match seats.items.get(place) {
            // Both are looked at, whatever the first says.
            Some(seat) => (seat.node == sent.receiver) & (seat.group.key() == sent.group.key()),
            None => false,
        }
    }

    /// Looks the seat up, and leaves a hint of where it stands.
    fn look_up(&mut self, hints: &mut [u32], sent: &GroupSent, seats: &Seats) {
        self.guess = seats.last.get(&slot_of(sent)).copied();
        if !self.is_right(sent, seats) {
            self.guess = None;
        }
        if let Some(place) = self.guess
            && let Ok(place) = u32::try_from(place)
            && let Some(hint) = hints.get_mut(hint_of(slot_of(sent)))
        {
            *hint = place;
        }
    }

    /// Looks at the part that stands where the seat is guessed.
    fn look_at_part(&mut self, seats: &Seats) {
        let Some(place) = self.guess else {
            return;
        };
        let Some(part) = seats.parts.get(place) else {
            return;
        };
        if let Some(child) = part.children.first() {
            self.child = *child;
        }
        if let Some(number) = part.seen.first() {
            self.number = *number;
        }
    }
}

impl Ahead {
    /// Nothing was looked at yet. It takes no memory.
    pub(crate) fn new(alloc: Global) -> Ahead {
        Ahead {
            from: 0,
            upto: 0,
            sights: [Sight::none(); TOGETHER],
            hints: Vec::new(alloc),
        }
    }

    /// Where the seat may stand to which a message comes. If that was not looked at, it is now, and with it the messages behind, of
    /// which so many are to be delivered with it.
    pub(crate) fn guess(
        &mut self,
        message: usize,
        left: u32,
        sent: &[GroupSent],
        seats: &Seats,
    ) -> Result<Option<usize>, OutOfMemory> {
        if message < self.from || self.upto <= message {
            self.hints.resize(1 << HINT_BITS, 0)?;
            let Some(sent) = sent.get(message..) else {
                return Ok(None);
            };
            let count = TOGETHER.min(left as usize).min(sent.len());
            self.from = message;
            self.upto = message.saturating_add(count);
            if let Some(sights) = self.sights.get_mut(..count) {
                look(sights, &mut self.hints, sent, seats);
            }
        }
        Ok(self.sights[message.saturating_sub(self.from) % TOGETHER].guess)
    }
}

/// It is a call of its own, since what is seen would else be taken for unused, and not be looked at.
#[inline(never)]
fn look(sights: &mut [Sight], hints: &mut [u32], sent: &[GroupSent], seats: &Seats) {
    for (sight, sent) in sights.iter_mut().zip(sent) {
        let hint = hints.get(hint_of(slot_of(sent)));
        sight.guess = hint.map(|hint| *hint as usize);
        sight.is_graft = matches!(sent.message, GroupMessage::Graft);
    }
    for (sight, sent) in sights.iter_mut().zip(sent) {
        if !sight.is_right(sent, seats) {
            sight.look_up(hints, sent, seats);
        }
    }
    for sight in sights.iter_mut() {
        sight.look_at_part(seats);
    }
}
