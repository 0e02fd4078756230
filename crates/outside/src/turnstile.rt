//! Where a thread may be held up.

/// What each thread passes at each of its turns. A test holds threads up here, to have them meet in one order; what is
/// promised of a run holds whatever a turnstile does.
pub trait Turnstile {
    /// The thread of the node at this place, counted from 0, comes to its turn of this number.
    fn pass(&self, node: usize, turn: u64);
}

/// The turnstile that holds nobody up.
#[derive(Clone, Copy, Debug, Default)]
pub struct FreePass;

impl Turnstile for FreePass {
    fn pass(&self, _node: usize, _turn: u64) {}
}
