//! The rules of the overlay: what a node's step does, which histories there can be, and what is right in one.
//! The rules are definitions, in `specs/`. Here are the types that they share with the code.
#![tactic(auto)]

mod entry;
mod flat;
mod gate;
mod laws;
mod request;

pub use entry::{Entries, Entry, EntryRef, Event, EventRef, Record};
pub use flat::{CompactEvent, send_all};
pub use gate::{Gate, Verdict};
pub use laws::command_law;
pub use request::{Asked, Pending, Way};
