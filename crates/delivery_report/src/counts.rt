//! What the summary counts.

ghost use Rattle.std.specs.Prelude.{◌≡◌, ◌+◌, ◌++◌, ◌<◌, ◌||◌, ℕ, false, not, length, slice_index_or, count_by, IfOk, OnOk};
ghost use Rattle.std.specs.List.{list_any};
ghost use Rattle.overlay_rules.specs.Record.{Setting, IsRecord, sent_in};
ghost use Rattle.overlay_rules.specs.Played.{is_delivery_of};
ghost use Rattle.overlay_rules.specs.Seen.{event_seen};
ghost use Rattle.delivery_report.specs.Report.{is_delivery, is_joining_note, summary_of, summary_line};

use overlay_rules::{Entries, EventRef, Record};
use ring_math::OutOfMemory;
use std::alloc::Global;
use text_writer::Text;
use wire_msg::{Answer, Note};

/// What the summary counts.
#[derive(Clone, Copy)]
pub(crate) struct Summary {
    pub(crate) entries: u64,
    pub(crate) sent: u64,
    /// The sent messages that no entry delivered.
    pub(crate) undelivered: u64,
    pub(crate) deliveries: u64,
    pub(crate) skipped: u64,
    /// The nodes that are ready at the end.
    pub(crate) ready: u64,
}

/// Writes the summary line of a record. The only error is that memory was refused.
pub fn put_summary(alloc: Global, text: &mut Text, steps: &Record) -> Result<(), OutOfMemory>
    ensures { (g : Setting) → IsRecord g steps.now.entries → OnOk result (text.new ≡ text.old ++ summary_line (summary_of g steps.now.entries steps.now.skipped)) }
{
    let summary = summary_of(alloc, steps)?;
    summary.write(text)
}

/// Counts in a record. The founder is ready from the start, and each other node from its joining on.
pub(crate) fn summary_of(alloc: Global, steps: &Record) -> Result<Summary, OutOfMemory>
    ensures { (g : Setting) → IsRecord g steps.now.entries → IfOk result (λ summary. summary ≡ summary_of g steps.now.entries steps.now.skipped) }
{
    let entries = &steps.entries;
    let delivered = delivered_messages(alloc, entries)?;
    let noted = count_notes(entries.notes());
    // No memory holds notes past the last number, but no type says so.
    let ready = noted.joinings.checked_add(1).ok_or(OutOfMemory)?;
    Ok(Summary {
        entries: entries.len() as u64,
        sent: delivered.len() as u64,
        undelivered: count_unset(&delivered),
        deliveries: noted.deliveries,
        skipped: steps.skipped,
        ready,
    })
}

/// For each message that was sent, whether an entry delivered it.
fn delivered_messages(alloc: Global, entries: &Entries) -> Result<Vec<bool>, OutOfMemory>
    ensures sent { IfOk result (λ marks. length marks.items ≡ length (sent_in entries.now)) }
    ensures marked { IfOk result (λ marks. (k : ℕ) → k < length marks.items → slice_index_or marks.items k false ≡ list_any (λ e. is_delivery_of k e.event) entries.now) }
{
    let mut marks = Vec::new(alloc);
    marks.resize(entries.sent().len(), false)?;
    for place in 0..entries.len() {
        let entry = entries.at(place);
        mark(&mut marks, &entry.event);
        // Named, since the prover has to see what type a command is.
        if let EventRef::Command {
            command: _command,
            ..
        } = entry.event
        {}
    }
    Ok(marks)
}

/// Sets the mark of the message that an event delivered.
fn mark(marks: &mut [bool], event: &EventRef)
    ensures { (k : ℕ) → k < length marks.old → slice_index_or marks.new k false ≡ (slice_index_or marks.old k false || is_delivery_of k (event_seen event.now)) }
{
    if let EventRef::Deliver { message } = event
        && *message < marks.len() as u64
    {
        marks[*message as usize] = true;
    }
}

fn count_unset(marks: &[bool]) -> u64
    ensures { result ≡ count_by not marks.now }
{
    marks.iter().filter(|mark| !**mark).count() as u64
}

/// What the summary counts among notes.
#[derive(Clone, Copy)]
struct Noted {
    deliveries: u64,
    joinings: u64,
}

fn count_notes(notes: &[Note]) -> Noted
    ensures deliveries { result.deliveries ≡ count_by is_delivery notes.now }
    ensures joinings { result.joinings ≡ count_by is_joining_note notes.now }
{
    let mut deliveries: u64 = 0;
    let mut joinings: u64 = 0;
    for note in notes {
        match note {
            Note::Delivered { .. } => deliveries += 1,
            Note::Closed {
                answer: Answer::Joined { .. },
                ..
            } => joinings += 1,
            _ => {}
        }
    }
    Noted {
        deliveries,
        joinings,
    }
}

impl Summary {
    /// The summary line.
    pub(crate) fn write(&self, text: &mut Text) -> Result<(), OutOfMemory>
        ensures { OnOk result (text.new ≡ text.old ++ summary_line self.now) }
    {
        text.number_after(b"summary entries ", self.entries)?;
        text.number_after(b" sent ", self.sent)?;
        text.number_after(b" undelivered ", self.undelivered)?;
        text.number_after(b" deliveries ", self.deliveries)?;
        text.number_after(b" skipped ", self.skipped)?;
        text.number_after(b" ready ", self.ready)?;
        text.put(b"\n")
    }
}
