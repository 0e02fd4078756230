//! Turns of a schedule.

/// What is the next to happen.
#[derive(Clone, Copy, PartialEq, Eq, Debug)]
pub enum Turn {
    /// The action at this place comes, a command or noise. Places are counted from 0.
    Action(usize),
    /// The message of this number is delivered.
    Deliver(u64),
    /// A delivery names no message that was sent.
    Skip,
    /// No action is left.
    Finished,
}
