//! How far a long run is, told on a terminal.

use crate::message::Grouped;
use outside::Turnstile;
use scenario_reader::{Action, Scenario, What};
use std::fmt;
use std::io::IsTerminal;
use std::sync::atomic::{AtomicU64, Ordering};
use std::time::Instant;

/// Nothing is told for so many milliseconds.
const PATIENCE: u64 = 1_000;

/// From then on it is told after so many milliseconds again.
const INTERVAL: u64 = 500;

/// The clock is read after so many turns. None takes a hundredth of a second.
const TURNS: u64 = 64;

/// How far a run is.
#[derive(Clone, Copy)]
enum Stage {
    Reading { bytes: u64 },
    /// The turns of a play, and how many it has at most, 0 if that is not known.
    Playing { turns: u64, most: u64 },
    /// The turns of all threads of a run together, which is how often one of them looked for a message.
    Running { turns: u64 },
}

impl fmt::Display for Stage {
    fn fmt<W: fmt::Write>(&self, f: &mut fmt::Formatter<W>) -> fmt::Result {
        match *self {
            Stage::Reading { bytes } => write!(f, "{} bytes read", Grouped(bytes)),
            Stage::Playing { turns, most: 0 } => write!(f, "{} turns played", Grouped(turns)),
            Stage::Playing { turns, most } => {
                write!(
                    f,
                    "{} of at most {} turns played",
                    Grouped(turns),
                    Grouped(most)
                )
            }
            Stage::Running { turns } => write!(f, "{} turns of all threads", Grouped(turns)),
        }
    }
}

/// Tells on standard error how far a run is, in one line that is written anew. It is a turnstile that holds nobody up.
#[derive(Drop)]
pub(crate) struct Progress<'a> {
    rt: &'a HostRuntime,
    /// None if nothing is told: standard error is no terminal, or the clock can't be read.
    begun: Option<Instant>,
    /// Whether the input is typed. Then it is not told how much of it was read.
    is_typed: bool,
    /// So many milliseconds from the beginning it is told again.
    due: AtomicU64,
    /// Whether there is a line to be wiped, 1 or 0.
    told: AtomicU64,
    /// The most turns that the play has, 0 if that is not known.
    most: AtomicU64,
    /// Whether the nodes are threads, each of which counts its own turns.
    is_run: bool,
    /// The turns of all threads so far.
    turns: AtomicU64,
}

impl Progress<'_> {
    pub(crate) fn new(rt: &HostRuntime, is_run: bool) -> Progress<'_> {
        let begun = if rt.stderr().is_terminal() {
            Instant::now(rt).ok()
        } else {
            None
        };
        Progress {
            rt,
            begun,
            is_typed: rt.stdin().is_terminal(),
            due: AtomicU64::new(PATIENCE),
            told: AtomicU64::new(0),
            most: AtomicU64::new(0),
            is_run,
            turns: AtomicU64::new(0),
        }
    }

    /// Whether anything is told.
    pub(crate) fn is_told(&self) -> bool {
        self.begun.is_some()
    }

    /// Learns which scenario is to be played.
    pub(crate) fn expect(&self, scenario: &Scenario) {
        self.most.store(most_turns(scenario), Ordering::SeqCst);
    }

    /// Tells that so many bytes were read, if that is due.
    pub(crate) fn tell_read(&self, bytes: usize) {
        if self.is_typed {
            self.begin_anew();
        } else {
            self.tell(Stage::Reading {
                bytes: bytes as u64,
            });
        }
    }

    /// From here on again nothing is told for a while.
    fn begin_anew(&self) {
        if let Some(gone) = self.gone() {
            self.due
                .store(gone.saturating_add(PATIENCE), Ordering::SeqCst);
        }
    }

    /// Wipes the line, if there is one.
    pub(crate) fn wipe(&self) {
        if self.told.swap(0, Ordering::SeqCst) == 1 {
            let _ = eprint!(self.rt; "\r\x1b[K");
        }
    }

    /// Tells how far the run is, if that is due.
    fn tell(&self, stage: Stage) {
        let Some(gone) = self.gone() else {
            return;
        };
        if self.takes_due(gone) {
            self.told.store(1, Ordering::SeqCst);
            let _ = eprint!(self.rt; "\r\x1b[Kpastry: {stage}");
        }
    }

    /// Whether it is time to tell. Of several threads that ask, one tells.
    fn takes_due(&self, gone: u64) -> bool {
        let due = self.due.load(Ordering::SeqCst);
        let next = gone.saturating_add(INTERVAL);
        gone >= due
            && self
                .due
                .compare_exchange(due, next, Ordering::SeqCst, Ordering::SeqCst)
                .is_ok()
    }

    /// Counts one turn of a thread, and tells how many there were, if that is due.
    fn count_turn(&self) {
        if !self.is_told() {
            return;
        }
        let turns = self.turns.fetch_add(1, Ordering::SeqCst);
        if turns % TURNS == 0 {
            self.tell(Stage::Running { turns });
        }
    }

    /// How many milliseconds have gone by; None if nothing is told.
    fn gone(&self) -> Option<u64> {
        let begun = self.begun?;
        let gone = begun.elapsed(self.rt).ok()?;
        u64::try_from(gone.as_millis()).ok()
    }
}

/// The most turns that a play of a scenario has: a settle ends early if no message is left.
fn most_turns(scenario: &Scenario) -> u64 {
    let others = scenario
        .actions()
        .iter()
        .filter(|action| is_one_turn(action));
    u64::from(scenario.tally().deliveries).saturating_add(others.count() as u64)
}

/// Whether an action is one turn and no delivery: a command or noise.
fn is_one_turn(action: &Action) -> bool {
    matches!(&action.what, What::Command { .. } | What::Noise { .. })
}

impl Turnstile for Progress<'_> {
    fn pass(&self, _node: usize, turn: u64) {
        if self.is_run {
            self.count_turn();
        } else if turn % TURNS == 0 {
            self.tell(Stage::Playing {
                turns: turn,
                most: self.most.load(Ordering::SeqCst),
            });
        }
    }
}
