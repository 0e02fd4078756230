//! How many commands were closed in which way.

ghost use Rattle.std.specs.Prelude.{◌≡◌, ◌++◌, map, OnOk};
ghost use Rattle.std.specs.Option.{option_copied};
ghost use Rattle.delivery_report.specs.Tally.{reply_outcome, answer_outcome, outcome_of, is_same, count_of, tally_of, tally_line};

use ring_math::OutOfMemory;
use text_writer::Text;
use wire_msg::{Answer, Reply};

/// How many commands were closed in which way.
#[derive(Clone, Copy)]
pub struct Tally {
    pub joined: u64,
    pub denied: u64,
    pub stored: u64,
    pub found: u64,
    pub missing: u64,
    pub unanswered: u64,
    pub other: u64,
}

/// A way in which a command was closed.
#[derive(Clone, Copy, PartialEq, Eq)]
pub(crate) enum Outcome {
    Joined,
    /// Refused by a node, or ended by the joiner itself.
    Denied,
    Stored,
    Found,
    Missing,
    Unanswered,
    Other,
}

/// Counts commands by how they were closed.
pub fn tally_of(closings: &[Option<&Answer>]) -> Tally
    ensures { result ≡ tally_of (map option_copied closings.now) }
{
    Tally {
        joined: count_of(closings, Outcome::Joined),
        denied: count_of(closings, Outcome::Denied),
        stored: count_of(closings, Outcome::Stored),
        found: count_of(closings, Outcome::Found),
        missing: count_of(closings, Outcome::Missing),
        unanswered: count_of(closings, Outcome::Unanswered),
        other: count_of(closings, Outcome::Other),
    }
}

fn count_of(closings: &[Option<&Answer>], outcome: Outcome) -> u64
    ensures { result ≡ count_of (map option_copied closings.now) outcome }
{
    closings
        .iter()
        .filter(|closing| is_same(outcome_of(**closing), outcome))
        .count() as u64
}

fn is_same(one: Outcome, other: Outcome) -> bool
    ensures { result ≡ is_same one other }
{
    one == other
}

fn outcome_of(closing: Option<&Answer>) -> Outcome
    ensures { result ≡ outcome_of (option_copied closing.entry) }
{
    match closing {
        Some(answer) => answer_outcome(answer),
        None => Outcome::Unanswered,
    }
}

fn answer_outcome(answer: &Answer) -> Outcome
    ensures { result ≡ answer_outcome answer.now }
{
    match answer {
        Answer::Reply(reply) => reply_outcome(reply),
        Answer::Joined { .. } => Outcome::Joined,
        Answer::Denied { .. } | Answer::Stopped { .. } => Outcome::Denied,
        Answer::GaveUp | Answer::NothingToGiveUp => Outcome::Other,
    }
}

fn reply_outcome(reply: &Reply) -> Outcome
    ensures { result ≡ reply_outcome reply.now }
{
    match reply {
        Reply::Stored { .. } => Outcome::Stored,
        Reply::Found { .. } => Outcome::Found,
        Reply::NotFound { .. } => Outcome::Missing,
        _ => Outcome::Other,
    }
}

impl Tally {
    /// The tally line.
    pub(crate) fn write(&self, text: &mut Text) -> Result<(), OutOfMemory>
        ensures { OnOk result (text.new ≡ text.old ++ tally_line self.now) }
    {
        text.number_after(b"tally joined ", self.joined)?;
        text.number_after(b" denied ", self.denied)?;
        text.number_after(b" stored ", self.stored)?;
        text.number_after(b" found ", self.found)?;
        text.number_after(b" missing ", self.missing)?;
        text.number_after(b" unanswered ", self.unanswered)?;
        text.number_after(b" other ", self.other)?;
        text.put(b"\n")
    }
}
