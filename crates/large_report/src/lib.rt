//! What is written of a large file that was stored and fetched: the summary line of its record, and what became of its
//! pieces.
#![tactic(auto)]

ghost use Rattle.std.specs.Prelude.{◌≡◌, ◌++◌, map, IfOk, OnOk};
ghost use Rattle.std.specs.Option.{option_copied};
ghost use Rattle.overlay_rules.specs.Record.{IsRecord};
ghost use Rattle.schedule.specs.Schedule.{setting_of};
ghost use Rattle.delivery_report.specs.Answers.{found_by};
ghost use Rattle.fragments.specs.Pieces.{fragment_count};
ghost use Rattle.large_report.specs.Large.{retrieved, is_whole, size_text, answers_text, whole_text, counts_line, large_line, large_text};

use delivery_report::{closings_of, command_count, found_bytes, put_summary, tally_of};
use fragments::join_fault;
use overlay_rules::Record;
use ring_math::{Bytes, MOST_BYTES, OutOfMemory};
use scenario_reader::Scenario;
use std::alloc::Global;
use text_writer::Text;
use wire_msg::{Answer, Frame};

/// The two lines of a [large scenario](fragments::large_scenario) with a file of so many bytes, and its record: the summary
/// line, and a line with the size, how many fragments that makes, how many commands were answered Stored and Found, and
/// whether the index and the fragments were found and are joined without a fault. The only error is that memory was refused.
pub fn report_large(
    alloc: Global,
    scenario: &Scenario,
    size: u32,
    steps: &Record,
) -> Result<Frame, OutOfMemory>
    requires { IsRecord (setting_of scenario.now) steps.now.entries }
    ensures { IfOk result (λ text. text ≡ large_text scenario.now size steps.now) }
{
    let closings = closings_of(alloc, command_count(scenario), &steps.entries)?;
    let mut text = Text::new(alloc);
    put_summary(alloc, &mut text, steps)?;
    put_large_line(alloc, &mut text, size, &closings)?;
    Ok(text.into_frame())
}

fn put_large_line(
    alloc: Global,
    text: &mut Text,
    size: u32,
    closings: &[Option<&Answer>],
) -> Result<(), OutOfMemory>
    ensures { OnOk result (text.new ≡ text.old ++ large_line size (map option_copied closings.now)) }
{
    let fragments = fragment_count(size);
    let tally = tally_of(closings);
    let whole = is_whole(&retrieved(alloc, fragments, closings)?);
    let fragments = u64::from(fragments);
    put_counts(
        text,
        u64::from(size),
        fragments,
        tally.stored,
        tally.found,
        whole,
    )
}

fn put_counts(
    text: &mut Text,
    size: u64,
    fragments: u64,
    stored: u64,
    found: u64,
    whole: bool,
) -> Result<(), OutOfMemory>
    ensures { OnOk result (text.new ≡ text.old ++ counts_line size fragments stored found whole) }
{
    put_size(text, size, fragments)?;
    put_answers(text, stored, found)?;
    text.put(whole_text(whole))
}

fn put_size(text: &mut Text, size: u64, fragments: u64) -> Result<(), OutOfMemory>
    ensures { OnOk result (text.new ≡ text.old ++ size_text size fragments) }
{
    text.number_after(b"large size ", size)?;
    text.number_after(b" fragments ", fragments)
}

fn put_answers(text: &mut Text, stored: u64, found: u64) -> Result<(), OutOfMemory>
    ensures { OnOk result (text.new ≡ text.old ++ answers_text stored found) }
{
    text.number_after(b" stored ", stored)?;
    text.number_after(b" found ", found)
}

fn whole_text(whole: bool) -> &'static [u8]
    ensures { result.now ≡ whole_text whole }
{
    if whole {
        b" whole yes\n"
    } else {
        b" whole no\n"
    }
}

/// How many fragments so many bytes have.
fn fragment_count(size: u32) -> u32
    ensures { result ≡ fragment_count size }
{
    size.div_ceil(MOST_BYTES as u32)
}

/// What the last commands found, which fetch the index and then so many fragments.
fn retrieved(
    alloc: Global,
    fragments: u32,
    closings: &[Option<&Answer>],
) -> Result<Vec<Option<Bytes>>, OutOfMemory>
    ensures { IfOk result (λ found. found.items ≡ retrieved fragments (map option_copied closings.now)) }
{
    let first = closings.len().saturating_sub(fragments as usize + 1);
    each_found(alloc, &closings[first..])
}

/// What each of these commands found.
fn each_found(
    alloc: Global,
    closings: &[Option<&Answer>],
) -> Result<Vec<Option<Bytes>>, OutOfMemory>
    ensures { IfOk result (λ found. found.items ≡ map found_by (map option_copied closings.now)) }
{
    let mut found = Vec::new(alloc);
    for closing in closings {
        found.push(found_by(alloc, *closing)?)?;
    }
    Ok(found)
}

/// The bytes that a command found, shared.
fn found_by(alloc: Global, closing: Option<&Answer>) -> Result<Option<Bytes>, OutOfMemory>
    ensures { IfOk result (λ found. found ≡ found_by (option_copied closing.entry)) }
{
    let Some(answer) = closing else {
        return Ok(None);
    };
    match found_bytes(answer) {
        Some(bytes) => Ok(Some(bytes.copy(alloc)?)),
        None => Ok(None),
    }
}

/// Whether the first found is an index and the others are joined by it without a fault.
fn is_whole(found: &[Option<Bytes>]) -> bool
    ensures { result ≡ is_whole found.now }
{
    match found.split_first() {
        Some((Some(index), fragments)) => join_fault(index.as_slice(), fragments).is_none(),
        _ => false,
    }
}

#[cfg(test)]
mod tests;
