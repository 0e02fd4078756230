//! Groups played: each node's part in each group, step by step, and the one record that a script's actions give.
//!
//! The overlay below is a world that no longer changes. A step changes one node's part in one group, and costs what its messages
//! cost: the bytes of a publication are shared, and nothing else of a part is copied. After `OutOfMemory` a play is given up, so no
//! step has to be undone.
#![tactic(auto)]

mod ahead;
mod groups;
mod messages;
mod part;
mod play;
mod rules;
mod seats;
mod spot;
mod turn;
mod way;

pub use play::play_groups;
