//! An action that has begun.

ghost use Rattle.std.specs.Prelude.{◌≡◌, ◌≤◌, ◌++◌, List, IfSome, IfNone};
ghost use Rattle.overlay_rules.specs.Played.{Action as Act, drawn};
ghost use Rattle.schedule.specs.Begun.{begun_acts, Gives, IsDelivery};
ghost use Rattle.schedule.specs.Turns.{turned};

use crate::shuffle_words::ShuffleWords;
use crate::turn::Turn;

/// What is left of the action that began last.
#[derive(Clone, Copy)]
pub(crate) enum Begun {
    Nothing,
    /// One delivery of a message.
    Deliver(u64),
    /// So many more deliveries of a message, and then of so many that are then the oldest.
    Settle { message: u64, again: u8, left: u32 },
    /// Deliveries by the words of a seed, from the place `next` on and before `end`.
    Shuffle { seed: u64, next: u32, end: u32 },
}

impl Begun {
    /// The next turn of the action, None where it has no more.
    pub(crate) fn turn(
        &mut self,
        words: &mut ShuffleWords,
        copies: u8,
        sent: u64,
        oldest: Option<u64>,
    ) -> Option<Turn>
        requires { 1 ≤ copies }
        ensures some { IfSome result (λ turn. Gives (begun_acts self.old) copies sent oldest (begun_acts self.new) turn) }
        ensures none { IfNone result ((acts : List Act) → turned (begun_acts self.old ++ acts) copies sent oldest ≡ turned acts copies sent oldest) }
    {
        match self {
            Begun::Nothing => None,
            Begun::Deliver(message) => {
                let turn = delivery(*message, sent);
                *self = Begun::Nothing;
                Some(turn)
            }
            Begun::Settle {
                message,
                again,
                left,
            } => {
                if *again > 0 {
                    *again -= 1;
                    return Some(delivery(*message, sent));
                }
                if *left == 0 {
                    return None;
                }
                let oldest = oldest?;
                *message = oldest;
                *again = copies - 1;
                *left -= 1;
                Some(Turn::Deliver(oldest))
            }
            Begun::Shuffle { seed, next, end } => {
                if *next >= *end {
                    return None;
                }
                let word = words.word(*seed, *next);
                *next += 1;
                Some(delivery(drawn(word, sent), sent))
            }
        }
    }
}

/// The delivery of a message, where so many were sent.
fn delivery(message: u64, sent: u64) -> Turn
    ensures { IsDelivery message sent result }
{
    if message < sent {
        Turn::Deliver(message)
    } else {
        Turn::Skip
    }
}

/// The message that a random word means, of so many.
fn drawn(word: u32, sent: u64) -> u64
    ensures { result ≡ drawn word sent }
{
    if sent == 0 { 0 } else { u64::from(word) % sent }
}
