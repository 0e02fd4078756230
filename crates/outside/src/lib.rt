//! The outside world: where bytes come from, where they go to, and where a thread may be held up.
//!
//! A program reads from a [`Source`] and writes to a [`Sink`]. Each keeps a count of its faults, which never falls, and
//! a fault is answered only where that count rose. Where a source tells what it has left and a sink tells what it took,
//! the contracts say which bytes moved; over a file or a terminal nothing is told, and they speak of counts alone.
//! `FromReader` and `ToWriter` are all that stands between these contracts and the operating system.
#![tactic(auto)]

mod adapters;
mod calls;
mod feed;
mod memory;
mod reading;
mod steady;
mod traits;
mod turnstile;
mod writing;

pub use adapters::{FromReader, ToWriter};
pub use memory::{MemorySink, MemorySource};
pub use reading::{ReadFault, read_to_limit};
pub use steady::{SteadySink, SteadySource};
pub use traits::{Piece, Sink, Source, Taken};
pub use turnstile::{FreePass, Turnstile};
pub use writing::{WriteFault, write_all};

#[cfg(test)]
mod tests;
