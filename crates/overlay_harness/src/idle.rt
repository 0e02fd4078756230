//! The threads of a round that have nothing to do, and how each is woken.
//!
//! No promise rests on this: it only spares rounds, and looks into empty mailboxes.

use ring_math::OutOfMemory;
use std::alloc::Global;
use std::sync::Wait;
use std::sync::atomic::{AtomicBool, AtomicUsize, Ordering};
use std::thread::Parker;
use std::time::Duration;

/// How long a thread pauses that nobody wakes, in milliseconds. It is needed where a thread could not be started, so that its node
/// is served behind another's.
const PAUSE: u64 = 5;

/// The thread of one node in a round.
#[derive(Drop)]
struct Seat {
    parker: Parker,
    /// It found its mailbox empty, and nobody sent to it since: it counts as idle, and who sends to it takes that back.
    rests: AtomicBool,
}

/// How many threads of a round are idle: they rest until a frame comes, or have left.
#[derive(Drop)]
pub(crate) struct IdleThreads {
    seats: Vec<Seat>,
    count: AtomicUsize,
}

impl IdleThreads {
    /// For so many threads, none of which is idle.
    pub(crate) fn new(alloc: Global, threads: usize) -> Result<IdleThreads, OutOfMemory> {
        let mut seats = Vec::with_capacity(alloc, threads)?;
        for _ in 0..threads {
            seats.push(Seat {
                parker: Parker::new(),
                rests: AtomicBool::new(false),
            })?;
        }
        Ok(IdleThreads {
            seats,
            count: AtomicUsize::new(0),
        })
    }

    /// To be called before each round. By then all threads of the round before have left.
    pub(crate) fn begin_round(&self) {
        self.count.store(0, Ordering::SeqCst);
    }

    /// Whether no thread of the round has anything to do.
    pub(crate) fn are_all(&self) -> bool {
        self.count.load(Ordering::SeqCst) >= self.seats.len()
    }

    /// The thread found its mailbox empty. The answer is whether it rested already. If not, it has to look once more before it
    /// pauses: who put a frame into its mailbox before did not know that it rests, and who does so later wakes it.
    pub(crate) fn rest(&self, place: usize) -> bool {
        let Some(seat) = self.seats.get(place) else {
            return false;
        };
        let rested = seat.rests.load(Ordering::SeqCst);
        if !rested {
            self.count_one();
            seat.rests.store(true, Ordering::SeqCst);
        }
        rested
    }

    /// Pauses until somebody wakes the thread, or for a while.
    pub(crate) fn pause<R: Wait>(&self, rt: &R, place: usize) {
        if let Some(seat) = self.seats.get(place) {
            seat.parker.park_timeout(rt, Duration::from_millis(PAUSE));
        }
    }

    /// A frame was put into the thread's mailbox. If it rests, it is no longer idle, and is woken.
    pub(crate) fn rouse(&self, place: usize) {
        if let Some(seat) = self.seats.get(place)
            && self.takes_back(seat)
        {
            seat.parker.unpark();
        }
    }

    /// The thread found a frame, so it is no longer idle.
    pub(crate) fn go_on(&self, place: usize) {
        if let Some(seat) = self.seats.get(place) {
            self.takes_back(seat);
        }
    }

    /// Whether the thread rested. Then it counts as idle no longer.
    fn takes_back(&self, seat: &Seat) -> bool {
        let rested = seat.rests.swap(false, Ordering::SeqCst);
        if rested {
            self.count.fetch_sub(1, Ordering::SeqCst);
        }
        rested
    }

    /// The thread ends, and is idle from now on, whatever comes.
    pub(crate) fn leave(&self, place: usize) {
        let Some(seat) = self.seats.get(place) else {
            return;
        };
        if !seat.rests.swap(false, Ordering::SeqCst) {
            self.count_one();
        }
    }

    /// Counts one thread more as idle. By the last, the others are woken, so that the round ends at once.
    fn count_one(&self) {
        self.count.fetch_add(1, Ordering::SeqCst);
        if self.are_all() {
            for seat in &self.seats {
                seat.parker.unpark();
            }
        }
    }
}
