//! The lines that are actions and no commands.

ghost use Rattle.std.specs.Prelude.{◌≡◌, ◌+◌, ◌*◌, ◌<◌, ◌≤◌, ◌∷◌, [], true, IsSome, MatchResult};
ghost use Rattle.wire_codec.specs.Reading.{refusal};
ghost use Rattle.scenario_reader.specs.declared.fault.LineFault.TheVariants as fault;
ghost use Rattle.scenario_reader.specs.Checks.{is_frame, passes_deliveries, settle_passes};
ghost use Rattle.scenario_reader.specs.Grammar.{read_form};
ghost use Rattle.scenario_reader.specs.Outcome.{Gives};
ghost use Rattle.scenario_reader.specs.Words.{plain_word};

use crate::action::{Action, What};
use crate::builder::ScenarioBuilder;
use crate::fault::LineFault;
use crate::form::Form;
use crate::limits::{MOST_DELIVERIES, MOST_REPEATS};
use crate::operands::{bytes_at, check_founded, node_at, number_at};
use crate::words::Word;
use std::alloc::Global;
use wire_codec::is_frame;
use wire_msg::Frame;

/// The most deliveries of one settle or shuffle, and of a scenario.

/// Reads `settle N`.
pub(crate) fn read_settle(
    draft: &mut ScenarioBuilder,
    alloc: Global,
    line: u32,
    count: &Word<'_>,
) -> Result<(), LineFault>
    ensures { Gives (read_form draft.old line Form.Settle (plain_word count.now ∷ [])) result draft.new }
{
    let amount = number_at(line, count)?;
    check_founded(draft, line)?;
    if settle_passes(draft, amount) {
        let place = count.place;
        return Err(LineFault::Limit { line, place });
    }
    let what = What::Settle(amount as u32);
    draft.add_action(alloc, Action { line, what })?;
    Ok(())
}

/// Whether a settle of so many deliveries passes a limit.
fn settle_passes(draft: &ScenarioBuilder, amount: u64) -> bool
    ensures { result ≡ settle_passes draft.now amount }
{
    amount > MOST_DELIVERIES || passes_deliveries(draft, amount * u64::from(draft.tally().copies))
}

/// Reads `deliver N`.
pub(crate) fn read_deliver(
    draft: &mut ScenarioBuilder,
    alloc: Global,
    line: u32,
    number: &Word<'_>,
) -> Result<(), LineFault>
    ensures { Gives (read_form draft.old line Form.Deliver (plain_word number.now ∷ [])) result draft.new }
{
    let message = number_at(line, number)?;
    check_founded(draft, line)?;
    if passes_deliveries(draft, 1) {
        let place = number.place;
        return Err(LineFault::Limit { line, place });
    }
    let what = What::Deliver(message);
    draft.add_action(alloc, Action { line, what })?;
    Ok(())
}

/// Reads `shuffle SEED N`.
pub(crate) fn read_shuffle(
    draft: &mut ScenarioBuilder,
    alloc: Global,
    line: u32,
    seed: &Word<'_>,
    count: &Word<'_>,
) -> Result<(), LineFault>
    ensures { Gives (read_form draft.old line Form.Shuffle (plain_word seed.now ∷ plain_word count.now ∷ [])) result draft.new }
{
    let seed = number_at(line, seed)?;
    let amount = number_at(line, count)?;
    check_founded(draft, line)?;
    if amount > MOST_DELIVERIES || passes_deliveries(draft, amount) {
        let place = count.place;
        return Err(LineFault::Limit { line, place });
    }
    let what = What::Shuffle {
        seed,
        count: amount as u32,
    };
    draft.add_action(alloc, Action { line, what })?;
    Ok(())
}

/// Whether so many deliveries more pass the limit of all.
fn passes_deliveries(draft: &ScenarioBuilder, count: u64) -> bool
    requires { count ≤ 255 * MOST_DELIVERIES }
    ensures { result ≡ passes_deliveries draft.now count }
{
    u64::from(draft.tally().deliveries) + count > MOST_DELIVERIES
}

/// Reads `dup N`.
pub(crate) fn read_dup(
    draft: &mut ScenarioBuilder,
    alloc: Global,
    line: u32,
    copies: &Word<'_>,
) -> Result<(), LineFault>
    ensures { Gives (read_form draft.old line Form.Dup (plain_word copies.now ∷ [])) result draft.new }
{
    let amount = number_at(line, copies)?;
    check_founded(draft, line)?;
    if amount < 1 || amount > MOST_REPEATS {
        let place = copies.place;
        return Err(LineFault::Limit { line, place });
    }
    let what = What::Dup(amount as u8);
    draft.add_action(alloc, Action { line, what })?;
    Ok(())
}

/// Reads `noise NAME HEX`.
pub(crate) fn read_noise(
    draft: &mut ScenarioBuilder,
    alloc: Global,
    line: u32,
    name: &Word<'_>,
    content: &Word<'_>,
) -> Result<(), LineFault>
    ensures { Gives (read_form draft.old line Form.Noise (plain_word name.now ∷ plain_word content.now ∷ [])) result draft.new }
{
    let bytes = bytes_at(alloc, line, content)?;
    let node = node_at(draft, line, name)?;
    check_founded(draft, line)?;
    check_noise(line, content, &bytes)?;
    let what = What::Noise {
        node,
        bytes: Frame::from(bytes),
    };
    draft.add_action(alloc, Action { line, what })?;
    Ok(())
}

/// Refuses bytes that are a frame.
fn check_noise(line: u32, word: &Word<'_>, bytes: &[u8]) -> Result<(), LineFault>
    ensures { MatchResult result (λ _. IsSome (refusal bytes.now)) (λ e. (is_frame bytes.now ≡ true) × (e ≡ fault.Frame line word.now.place)) }
{
    if is_frame(bytes) {
        let place = word.place;
        return Err(LineFault::Frame { line, place });
    }
    Ok(())
}
