//! Where an envelope may stand, in a list of envelopes by stamp and then by sender.

ghost use Rattle.std.specs.Prelude.{◌≡◌, ◌≢◌, ◌<◌, ◌≤◌, ◌+◌, ◌*◌, ◌/◌, ◌%◌, ◌^◌, ◌++◌, ◌∷◌, [], Some, List, ℕ, length, map, slice_get, slice_index_or, IfOk, IfSome, OnOk};
ghost use Rattle.wire_msg.specs.Words.{Envelope as PlainEnvelope, plain_envelope};
ghost use Rattle.weave.specs.ByStamp.{envelopes_at};
ghost use Rattle.weave.specs.Table.{HasNoneSuch, IsTableOf, half_sum, mark_of};

use crate::search::{high_half, low_half};
use ring_math::{Id, OutOfMemory, SPREAD, reserve_ahead};
use std::alloc::Global;
use wire_msg::Envelope;

/// How many envelopes have a lower stamp, for each stamp below the last row, and a mark of each envelope's addresses. The stamps that
/// nodes give each other rise by ones, so that each has a row mostly, and a row has few envelopes. Whose mark differs differs itself, so
/// all but one of them are passed over without a look at them mostly.
#[derive(Drop)]
pub(crate) struct Starts {
    pub(crate) rows: Vec<u32>,
    pub(crate) marks: Vec<u16>,
    pub(crate) last_row: u32,
}

/// Where envelopes of one stamp stand.
#[derive(Clone, Copy)]
struct Stretch {
    from: usize,
    upto: usize,
}

impl Starts {
    /// No envelope. Stamps from the last row on share it, and of these nothing is told.
    pub(crate) fn new(alloc: Global, last_row: usize) -> Starts
        ensures { IsTableOf result [] }
    {
        Starts {
            rows: Vec::new(alloc),
            marks: Vec::new(alloc),
            last_row: low_part(last_row),
        }
    }

    /// One envelope more, at the end.
    pub(crate) fn add(&mut self, envelope: &Envelope) -> Result<(), OutOfMemory>
        ensures { OnOk result ((vs : List PlainEnvelope) → IsTableOf self.old vs → IsTableOf self.new (vs ++ plain_envelope envelope.now ∷ [])) }
    {
        let row = envelope.stamp.min(self.last_row as u64) as usize;
        self.reach(row)?;
        reserve_ahead(&mut self.marks, 1)?;
        self.marks.push_reserved(mark_of(envelope));
        Ok(())
    }

    /// These envelopes more, at the end.
    pub(crate) fn add_all(&mut self, envelopes: &[Envelope]) -> Result<(), OutOfMemory>
        ensures { OnOk result ((vs : List PlainEnvelope) → IsTableOf self.old vs → IsTableOf self.new (vs ++ map plain_envelope envelopes.now)) }
    {
        for envelope in envelopes {
            self.add(envelope)?;
        }
        Ok(())
    }

    /// Rows up to this one have begun.
    #[inline(always)]
    fn reach(&mut self, row: usize) -> Result<(), OutOfMemory>
        requires { row ≤ self.old.last_row }
        ensures table { OnOk result ((vs : List PlainEnvelope) → IsTableOf self.old vs → IsTableOf self.new vs) }
        ensures begun { OnOk result (row < length self.new.rows.items) }
        ensures last { self.new.last_row ≡ self.old.last_row }
    {
        if self.rows.len() <= row {
            self.begin_rows(row)?;
        }
        Ok(())
    }

    /// Rows that are wanting, up to this one, begin where the next envelope stands.
    fn begin_rows(&mut self, row: usize) -> Result<(), OutOfMemory>
        requires wanting { length self.old.rows.items ≤ row }
        requires last { row ≤ self.old.last_row }
        ensures table { OnOk result ((vs : List PlainEnvelope) → IsTableOf self.old vs → IsTableOf self.new vs) }
        ensures begun { OnOk result (row < length self.new.rows.items) }
        ensures last { self.new.last_row ≡ self.old.last_row }
    {
        let begin = low_part(self.marks.len());
        let more = row + 1 - self.rows.len();
        reserve_ahead(&mut self.rows, more)?;
        self.rows.resize(row + 1, begin)?;
        Ok(())
    }

    /// The place of the first envelope of this stamp that has this mark, unless nothing is told of the stamp, or none has.
    pub(crate) fn guess(&self, stamp: u64, mark: u16) -> Option<usize>
        ensures { (vs : List PlainEnvelope) → IsTableOf self.now vs → IfSome result (HasNoneSuch vs stamp mark) }
    {
        let near = self.near(stamp);
        let marks = self.marks.get(near.from..near.upto)?;
        let behind = first_in(marks, mark);
        if behind == marks.len() {
            return None;
        }
        Some(near.from + behind)
    }

    /// Where the envelopes of this stamp stand, or nowhere, if nothing is told of it. Those before have lower stamps.
    fn near(&self, stamp: u64) -> Stretch
        ensures { (vs : List PlainEnvelope) → IsTableOf self.now vs → (k : ℕ) (v : PlainEnvelope) → k < result.from → slice_get vs k ≡ Some v → v.stamp < stamp }
    {
        if stamp >= self.last_row as u64 {
            return Stretch { from: 0, upto: 0 };
        }
        let row = stamp as usize;
        Stretch {
            from: self.start(row),
            upto: self.start(row + 1),
        }
    }

    /// What is seen first of the marks of a stamp's envelopes.
    pub(crate) fn glimpse(&self, stamp: u64) -> u64 {
        let place = self.near(stamp).from;
        self.marks.get(place).map_or(0, |mark| u64::from(*mark))
    }

    /// Where a row begins, or the end if none did.
    fn start(&self, row: usize) -> usize
        ensures { (vs : List PlainEnvelope) → IsTableOf self.now vs → row < self.now.last_row → (k : ℕ) (v : PlainEnvelope) → k < result → slice_get vs k ≡ Some v → v.stamp < row }
    {
        let count = self.marks.len();
        match self.rows.get(row) {
            Some(start) => count.min(*start as usize),
            None => count,
        }
    }
}

/// The number, or the most that 32 bits count.
fn low_part(number: usize) -> u32
    ensures { result ≤ number }
{
    u32::try_from(number).unwrap_or(u32::MAX)
}

/// The place of the first mark that is this one, or how many there are.
fn first_in(marks: &[u16], mark: u16) -> usize
    ensures within { result ≤ length marks.now }
    ensures before { (k : ℕ) → k < result → slice_index_or marks.now k 0 ≢ mark }
{
    for place in 0..marks.len() {
        if marks[place] == mark {
            return place;
        }
    }
    marks.len()
}

/// Sixteen bits that depend on all of an envelope's addresses.
pub(crate) fn mark_of(envelope: &Envelope) -> u16
    ensures { result ≡ mark_of (plain_envelope envelope.now) }
{
    let sum = half_sum(envelope.sender).wrapping_add(half_sum(envelope.receiver).wrapping_mul(3));
    (sum.wrapping_mul(SPREAD) >> 48) as u16
}

/// The sum of an identifier's halves, as far as it goes into one.
fn half_sum(id: Id) -> u64
    ensures { result ≡ half_sum id }
{
    low_half(id).wrapping_add(high_half(id))
}

/// How many stamps have a row for each envelope: not each entry sends a message, and not each message is among those sought in.
const ROWS_EACH: usize = 4;

/// Where envelopes stand that are by stamp and then by sender.
pub(crate) fn starts_of(alloc: Global, envelopes: &[&Envelope]) -> Result<Starts, OutOfMemory>
    ensures { IfOk result (λ starts. IsTableOf starts (envelopes_at envelopes.now)) }
{
    let mut starts = Starts::new(alloc, envelopes.len().saturating_mul(ROWS_EACH));
    for envelope in envelopes {
        starts.add(envelope)?;
    }
    Ok(starts)
}
