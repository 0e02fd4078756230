//! A place in a schedule.

ghost use Rattle.std.specs.Prelude.{◌≡◌, ◌≤◌, ◌∷◌, ◌++◌, [], ℕ, List, Some, Option, IfSome, IfNone, IsTrue, IsNone, ◌↔◌, false};
ghost use Rattle.overlay_rules.specs.Played.{Action as Act};
ghost use Rattle.schedule.specs.Begun.{Gives, HasCopies};
ghost use Rattle.schedule.specs.Cursors.{spot_at_start, left_at, turn_at, step_of, event_of, IsAtPlace};
ghost use Rattle.schedule.specs.Schedule.{act_of};
ghost use Rattle.schedule.specs.Turns.{turned};

use crate::begun::Begun;
use crate::shuffle_words::ShuffleWords;
use crate::turn::Turn;
use scenario_reader::{Scenario, What};
use std::marker::Model;

/// How far a scenario is played: the actions that have begun, what is left of the last of them, and how often a settle
/// delivers. A copy is cheap, since the words of a shuffle stand apart.
#[derive(Drop)]
pub struct Cursor {
    place: usize,
    begun: Begun,
    copies: u8,
}

impl Model for Cursor {
    ghost use Rattle.std.specs.Prelude.{◌≤◌};
    ghost use Rattle.schedule.specs.Begun.{begun_acts};
    ghost use Rattle.schedule.specs.Cursors.{Spot};

    ghost Value = { Spot };

    ghost view = { λ a. record { place = a.place; begun = begun_acts a.begun; copies = a.copies } };

    ghost invariant = { λ a. 1 ≤ a.copies };
}

impl Cursor {
    /// Nothing has begun.
    pub fn new() -> Cursor
        ensures { result ≡ spot_at_start }
    {
        Cursor {
            place: 0,
            begun: Begun::Nothing,
            copies: 1,
        }
    }

    /// The same place. It takes no memory.
    pub fn copy(&self) -> Cursor
        ensures { result ≡ self.now }
    {
        Cursor {
            place: self.place,
            begun: self.begun,
            copies: self.copies,
        }
    }

    /// The next turn, where so many messages were sent and this is the oldest that was never delivered. The scenario is
    /// that of the calls before on this cursor. Any words serve, and those of the calls before are the fastest.
    #[inline(always)]
    pub fn next(
        &mut self,
        scenario: &Scenario,
        words: &mut ShuffleWords,
        sent: u64,
        oldest: Option<u64>,
    ) -> Turn
        ensures turn { step_of scenario.now.actions result ≡ Some (turn_at scenario.now.actions self.old sent oldest).step }
        ensures left { left_at scenario.now.actions self.new ≡ (turn_at scenario.now.actions self.old sent oldest).left }
        ensures copies { self.new.copies ≡ (turn_at scenario.now.actions self.old sent oldest).copies }
        ensures place { IsAtPlace self.old self.new result }
    {
        let actions = scenario.actions();
        loop {
            if let Some(turn) = self.go_on(words, sent, oldest) {
                return turn;
            }
            if self.place >= actions.len() {
                return Turn::Finished;
            }
            let place = self.place;
            self.place += 1;
            if !self.begin(&actions[place].what) {
                return Turn::Action(place);
            }
        }
    }

    /// The next turn of the action that began last, None where it has no more.
    fn go_on(&mut self, words: &mut ShuffleWords, sent: u64, oldest: Option<u64>) -> Option<Turn>
        ensures place { self.new.place ≡ self.old.place }
        ensures copies { self.new.copies ≡ self.old.copies }
        ensures some { IfSome result (λ turn. Gives self.old.begun self.old.copies sent oldest self.new.begun turn) }
        ensures none { IfNone result ((acts : List Act) → turned (self.old.begun ++ acts) self.old.copies sent oldest ≡ turned acts self.old.copies sent oldest) }
        ensures nothing { IfNone result (self.new.begun ≡ []) }
    {
        let turn = self.begun.turn(words, self.copies, sent, oldest);
        if turn.is_none() {
            self.begun = Begun::Nothing;
        }
        turn
    }

    /// Begins an action, unless it is an event alone: a command or noise.
    fn begin(&mut self, what: &What) -> bool
        requires nothing { self.old.begun ≡ [] }
        requires copies { HasCopies what.now }
        ensures place { self.new.place ≡ self.old.place }
        ensures event { IsTrue result ↔ IsNone (event_of what.now) }
        ensures begun { IsTrue result → (acts : List Act) (sent : ℕ) (oldest : Option ℕ) → turned (act_of what.now ∷ acts) self.old.copies sent oldest ≡ turned (self.new.begun ++ acts) self.new.copies sent oldest }
        ensures same { result ≡ false → self.new ≡ self.old }
    {
        match what {
            What::Command { .. } | What::Noise { .. } => return false,
            What::Deliver(message) => self.begun = Begun::Deliver(*message),
            What::Settle(count) => {
                self.begun = Begun::Settle {
                    message: 0,
                    again: 0,
                    left: *count,
                }
            }
            What::Shuffle { seed, count } => {
                self.begun = Begun::Shuffle {
                    seed: *seed,
                    next: 0,
                    end: *count,
                }
            }
            What::Dup(copies) => self.copies = *copies,
        }
        true
    }
}
