//! What a record comes to.

ghost use Rattle.std.specs.Prelude.{◌≡◌, ◌++◌, ◌+◌, ◌<◌, ◌||◌, ℕ, false, not, IfOk, OnOk, count_by, length, slice_index_or};
ghost use Rattle.scribe_core.specs.Played.{is_delivery_of, was_delivered};
ghost use Rattle.scribe_core.specs.Record.{sent_in};
ghost use Rattle.scribe_core.specs.Seen.{event_seen};
ghost use Rattle.group_report.specs.Counts.{counts_of, is_hearing, summary_line};

use ring_math::OutOfMemory;
use scribe_core::{GroupEventRef, GroupNote, GroupRecord};
use std::alloc::Global;
use text_writer::Text;

/// What a record comes to.
#[derive(Clone, Copy)]
pub(crate) struct Counts {
    pub(crate) entries: u64,
    pub(crate) sent: u64,
    /// The sent messages that no entry delivered.
    pub(crate) undelivered: u64,
    /// The publications that members heard.
    pub(crate) heard: u64,
}

/// Writes the summary line of a record.
pub(crate) fn put_summary(
    alloc: Global,
    text: &mut Text,
    steps: &GroupRecord,
) -> Result<(), OutOfMemory>
    ensures { OnOk result (text.new ≡ text.old ++ summary_line (counts_of steps.now)) }
{
    let counts = counts_of(alloc, steps)?;
    counts.write(text)
}

impl Counts {
    /// The summary line.
    fn write(&self, text: &mut Text) -> Result<(), OutOfMemory>
        ensures { OnOk result (text.new ≡ text.old ++ summary_line self.now) }
    {
        text.number_after(b"groups entries ", self.entries)?;
        text.number_after(b" sent ", self.sent)?;
        text.number_after(b" undelivered ", self.undelivered)?;
        text.number_after(b" heard ", self.heard)?;
        text.put(b"\n")
    }
}

fn counts_of(alloc: Global, steps: &GroupRecord) -> Result<Counts, OutOfMemory>
    ensures { IfOk result (λ counts. counts ≡ counts_of steps.now) }
{
    let delivered = delivered_messages(alloc, steps)?;
    Ok(Counts {
        entries: steps.len() as u64,
        sent: delivered.len() as u64,
        undelivered: unmarked(&delivered),
        heard: hearings_in(steps.notes()),
    })
}

/// For each message that was sent, whether an entry delivered it.
fn delivered_messages(alloc: Global, steps: &GroupRecord) -> Result<Vec<bool>, OutOfMemory>
    ensures sent { IfOk result (λ marks. length marks.items ≡ length (sent_in steps.now)) }
    ensures marked { IfOk result (λ marks. (m : ℕ) → m < length marks.items → slice_index_or marks.items m false ≡ was_delivered steps.now m) }
{
    let mut marks = vec![in alloc; false; steps.sent().len()]?;
    for place in 0..steps.len() {
        let entry = steps.at(place);
        mark(&mut marks, &entry.event);
        // Named, since the prover has to see what type a command is.
        if let GroupEventRef::Command {
            command: _command,
            ..
        } = entry.event
        {}
    }
    Ok(marks)
}

/// Marks the message that an event delivers, if it was sent.
fn mark(marks: &mut Vec<bool>, event: &GroupEventRef<'_>)
    ensures count { length marks.new.items ≡ length marks.old.items }
    ensures marks { (m : ℕ) → m < length marks.old.items →
        slice_index_or marks.new.items m false ≡ (slice_index_or marks.old.items m false || is_delivery_of m (event_seen event.now)) }
{
    if let GroupEventRef::Deliver { message } = event {
        if *message < marks.len() as u64 {
            marks[*message as usize] = true;
        }
    }
}

fn unmarked(marks: &[bool]) -> u64
    ensures { result ≡ count_by not marks.now }
{
    marks.iter().filter(|mark| !**mark).count() as u64
}

/// How many publications were heard.
fn hearings_in(notes: &[GroupNote]) -> u64
    ensures { result ≡ count_by is_hearing notes.now }
{
    notes.iter().filter(|note| is_hearing(note)).count() as u64
}

fn is_hearing(note: &GroupNote) -> bool
    ensures { result ≡ is_hearing note.now }
{
    match note {
        GroupNote::Heard { .. } => true,
        GroupNote::Subscribed { .. }
        | GroupNote::Left { .. }
        | GroupNote::Published { .. }
        | GroupNote::Refused { .. } => false,
    }
}
