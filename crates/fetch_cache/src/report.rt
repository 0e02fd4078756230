//! The report of a scenario that was played with access points.

ghost use Rattle.std.specs.Prelude.{◌≡◌, ◌++◌, ◌∷◌, [], ◌+◌, ◌<◌, ℕ, None, length, map, count_by, is_some, if◌then◌else◌, slice_index_or, IfOk, OnOk};
ghost use Rattle.std.specs.Option.{option_or, option_copied};
ghost use Rattle.overlay_rules.specs.Record.{IsRecord};
ghost use Rattle.schedule.specs.Schedule.{setting_of};
ghost use Rattle.fetch_cache.specs.Turns.{fetched};
ghost use Rattle.fetch_cache.specs.Text.{hit_of, point_line, point_lines, is_miss, points_line, points_text};

use crate::PointRun;
use crate::fetch::fetched;
use crate::hit::Hit;
use delivery_report::{
    NodeNames, closings_of, command_count, command_line, delivery_lines, put_bytes, put_summary,
};
use overlay_rules::{Entries, EventRef};
use ring_math::{Bytes, OutOfMemory};
use scenario_reader::Scenario;
use std::alloc::Global;
use text_writer::Text;
use wire_msg::{Answer, Command, Frame};

/// The report of a scenario that was played with access points: that of its record, with `cached` and the bytes as the answer
/// of a fetch that hit, and a last line with the number of hits, and of misses, which are the fetches that came to their nodes.
/// The only error is that memory was refused.
pub fn report_points(
    alloc: Global,
    scenario: &Scenario,
    run: &PointRun,
) -> Result<Frame, OutOfMemory>
    requires { IsRecord (setting_of scenario.now) run.now.steps.entries }
    ensures { IfOk result (λ text. text ≡ points_text scenario.now run.now.steps run.now.hits) }
{
    let names = NodeNames::of(alloc, scenario.nodes())?;
    let entries = &run.steps.entries;
    let hits = run.hits.as_slice();
    let closings = closings_of(alloc, command_count(scenario), entries)?;
    let mut text = Text::new(alloc);
    point_lines(alloc, &mut text, &names, hits, &closings)?;
    delivery_lines(&mut text, &names, entries)?;
    put_summary(alloc, &mut text, &run.steps)?;
    points_line(&mut text, hits.len() as u64, misses_in(entries))?;
    Ok(text.into_frame())
}

/// A line for each command, in the order of their numbers.
fn point_lines(
    alloc: Global,
    text: &mut Text,
    names: &NodeNames,
    hits: &[Hit],
    closings: &[Option<&Answer>],
) -> Result<(), OutOfMemory>
    ensures { OnOk result (text.new ≡ text.old ++ point_lines names.now hits.now 1 (map option_copied closings.now)) }
{
    let hits = hits_by_number(alloc, hits, closings.len())?;
    for (place, closing) in closings.iter().enumerate() {
        point_line(text, names, place as u64 + 1, hits[place], *closing)?;
    }
    Ok(())
}

fn point_line(
    text: &mut Text,
    names: &NodeNames,
    number: u64,
    hit: Option<&Bytes>,
    closing: Option<&Answer>,
) -> Result<(), OutOfMemory>
    ensures { OnOk result (text.new ≡ text.old ++ point_line names.now number (option_copied hit.entry) (option_copied closing.entry)) }
{
    let Some(bytes) = hit else {
        return command_line(text, names, number, closing);
    };
    text.number(number)?;
    text.put(b" cached ")?;
    put_bytes(text, bytes.as_slice())?;
    text.put(b"\n")
}

/// The bytes that each of so many commands hit, in the order of their numbers.
fn hits_by_number(
    alloc: Global,
    hits: &[Hit],
    commands: usize,
) -> Result<Vec<Option<&Bytes>>, OutOfMemory>
    ensures count { IfOk result (λ slots. length slots.items ≡ commands) }
    ensures hits { IfOk result (λ slots. (k : ℕ) → k < commands → option_copied (slice_index_or slots.items k None) ≡ hit_of (k + 1) hits.now) }
{
    let mut slots = Vec::new(alloc);
    slots.resize(commands, None)?;
    take_in_all(&mut slots, hits);
    Ok(slots)
}

fn take_in_all<'a>(slots: &mut [Option<&'a Bytes>], hits: &'a [Hit])
    ensures { (k : ℕ) → k < length slots.old →
        option_copied (slice_index_or slots.new k None) ≡ option_or (option_copied (slice_index_or slots.old k None)) (hit_of (k + 1) hits.now) }
{
    for hit in hits {
        take_in(slots, hit);
    }
}

/// Keeps the bytes for the command that hit them, unless it has some.
fn take_in<'a>(slots: &mut [Option<&'a Bytes>], hit: &'a Hit)
    ensures { (k : ℕ) → k < length slots.old →
        option_copied (slice_index_or slots.new k None) ≡ option_or (option_copied (slice_index_or slots.old k None)) (hit_of (k + 1) (hit.now ∷ [])) }
{
    if hit.number > 0 && hit.number <= slots.len() as u64 {
        let place = hit.number as usize - 1;
        if slots[place].is_none() {
            slots[place] = Some(&hit.bytes);
        }
    }
}

/// How many fetches came to their nodes.
fn misses_in(entries: &Entries) -> u64
    ensures { result ≡ count_by is_miss entries.now }
{
    let mut misses: u64 = 0;
    for place in 0..entries.len() {
        let entry = entries.at(place);
        if let EventRef::Command { command, .. } = entry.event {
            misses += fetches(command);
        }
    }
    misses
}

/// How many files a command fetches, 1 or 0.
fn fetches(command: &Command) -> u64
    ensures { result ≡ (if is_some (fetched command.now) then 1 else 0) }
{
    match fetched(command) {
        Some(_) => 1,
        None => 0,
    }
}

fn points_line(text: &mut Text, hits: u64, misses: u64) -> Result<(), OutOfMemory>
    ensures { OnOk result (text.new ≡ text.old ++ points_line hits misses) }
{
    text.number_after(b"points hits ", hits)?;
    text.number_after(b" misses ", misses)?;
    text.put(b"\n")
}
