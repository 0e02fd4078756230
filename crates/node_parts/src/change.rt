//! What a step will change, as data.
#![tactic(auto)]

use crate::lease::Lease;
use coverage::Reach;
use join_core::Joiner;
use overlay_rules::Pending;
use replica_handover::Taking;
use ring_math::{Bytes, FileId, FileIds, Id, Ids};
use wire_msg::{Notes, Sends};

/// What becomes of the phase.
#[derive(Drop)]
pub enum SeatChange {
    Keep,
    /// A join begins, goes on or ends. Leases are asked for with no lists yet; of a join that is done nothing is changed.
    To(Box<Joiner>),
    /// What neighbours hand over is kept, on each side that had nothing.
    Granted(Box<Taking>),
    /// It has joined by this attempt, with these links.
    Ready { attempt: u32, left: Id, right: Id },
}

/// What becomes of a gate.
#[derive(Drop)]
pub enum GateChange {
    Keep,
    Clear,
    Set(Box<Lease>),
}

/// What is learnt, in order.
#[derive(Drop)]
pub enum Learn {
    Nothing,
    One(Id),
    Two(Id, Id),
    All(Ids),
}

/// What becomes of the files.
#[derive(Drop)]
pub enum StoreChange {
    Keep,
    /// Bytes or a tombstone for a file, unless there is neither an entry for it nor room for one.
    Set { file: FileId, slot: Option<Bytes> },
    /// These become tombstones, in order.
    Bury(FileIds),
}

/// What becomes of the inserts that wait for replicas.
#[derive(Drop)]
pub enum PastChange {
    Keep,
    /// This one waits, in the place of another of its command.
    Add(Box<Pending>),
    /// The one at this place is over.
    TakeOut { place: usize },
    /// The one at this place awaits only these.
    Hear { place: usize, awaited: Ids },
    /// Those in the gap of this joiner are over.
    Leave { reach: Box<Reach>, joiner: Id },
    /// Those of this file are over.
    End { file: FileId },
}

/// What becomes of the numbers that wait.
#[derive(Clone, Copy, Debug, PartialEq, Eq)]
pub enum Wait {
    Keep,
    Add { number: u64 },
    Take { number: u64 },
}

/// What a step changes of the parts of a node. Its fields are there for the rows that plan a step and for `commit`, which makes
/// it; who drives nodes hands a change on as it is.
#[derive(Drop)]
pub struct Parts {
    pub seat: SeatChange,
    pub left_gate: GateChange,
    pub right_gate: GateChange,
    pub learn: Learn,
    pub store: StoreChange,
    pub past: PastChange,
}

/// What a step changes of a node besides the numbers that wait. Most steps change nothing there, and in most others somebody is
/// learnt and nothing else is done, which is said without a box.
#[derive(Drop)]
pub enum Rest {
    Keep,
    /// This node is learnt.
    Learnt(Id),
    /// A join that probes goes on: the sender has answered.
    Answered { sender: Id },
    /// So it does, and these are learnt.
    Heard { sender: Id, learnt: Ids },
    Parts(Box<Parts>),
}

/// What a step changes of a node. A change is moved often and is to be small, so what few steps change is boxed. Its fields are
/// there for the rows that plan a step and for `commit`, as those of `Parts`.
#[derive(Drop)]
pub struct Change {
    pub rest: Rest,
    pub waiting: Wait,
}

/// What a step sends, notes and changes.
#[derive(Drop)]
pub struct Prepared {
    pub messages: Sends,
    pub notes: Notes,
    pub change: Change,
}
