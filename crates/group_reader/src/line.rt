//! The lines of part two.

ghost use Rattle.std.specs.Prelude.{◌≡◌, ◌+◌, ◌≤◌, ◌∷◌, [], false, true, Contains, IfErr, IfOk, Some, None, length, map, nat_lt};
ghost use Rattle.scenario_reader.specs.declared.fault.LineFault.TheVariants as fault;
ghost use Rattle.scenario_reader.specs.declared.limits.TheConstants.{MOST_DELIVERIES, MOST_LINE_BYTES};
ghost use Rattle.scenario_reader.specs.Plain.{ids};
ghost use Rattle.scenario_reader.specs.Spelling.{is_name};
ghost use Rattle.scenario_reader.specs.Words.{plain_word};
ghost use Rattle.group_reader.specs.Grammar.{node_at, node_id, read_form, read_line, read_words};
ghost use Rattle.group_reader.specs.Outcome.{Gives};

use crate::builder::ScriptBuilder;
use crate::form::{Form, form_with};
use ring_math::Id;
use scenario_reader::{
    LineFault, MOST_DELIVERIES, MOST_LINE_BYTES, Name, Word, bytes_at, content_of,
    first_outside_text, is_comment, number_at, words_in,
};
use scribe_core::GroupCommand;
use std::alloc::Global;

/// Reads a line into a draft.
pub(crate) fn read_line(
    draft: &mut ScriptBuilder,
    alloc: Global,
    line: u32,
    text: &[u8],
) -> Result<(), LineFault>
    ensures { Gives (read_line draft.old line text.now) result draft.new }
{
    if text.len() > MOST_LINE_BYTES {
        return Err(LineFault::TooLong { line });
    }
    if let Some(place) = first_outside_text(text) {
        let place = place as u32;
        return Err(LineFault::NotText { line, place });
    }
    let words = words_in(alloc, text)?;
    read_words(draft, alloc, line, &words)
}

/// Reads the words of a line into a draft.
fn read_words(
    draft: &mut ScriptBuilder,
    alloc: Global,
    line: u32,
    words: &[Word<'_>],
) -> Result<(), LineFault>
    requires { length words.now ≤ 9001 }
    ensures { Gives (read_words draft.old line (map plain_word words.now)) result draft.new }
{
    let Some((first, operands)) = words.split_first() else {
        return Ok(());
    };
    if is_comment(first.text) {
        return Ok(());
    }
    match form_with(first.text) {
        Some(form) => read_form(draft, alloc, line, form, operands),
        None => Err(LineFault::Word {
            line,
            place: first.place,
        }),
    }
}

/// Reads a line of a form, with these words behind the first.
fn read_form(
    draft: &mut ScriptBuilder,
    alloc: Global,
    line: u32,
    form: Form,
    words: &[Word<'_>],
) -> Result<(), LineFault>
    requires { length words.now ≤ MOST_LINE_BYTES }
    ensures { Gives (read_form draft.old line form (map plain_word words.now)) result draft.new }
{
    match (form, words) {
        (Form::Subscribe, [name, group]) => read_subscribe(draft, line, name, group),
        (Form::Leave, [name, group]) => read_leave(draft, line, name, group),
        (Form::Publish, [name, group, content]) => {
            read_publish(draft, alloc, line, name, group, content)
        }
        (Form::Settle, [count]) => read_settle(draft, line, count),
        (Form::Deliver, [message]) => read_deliver(draft, line, message),
        _ => Err(LineFault::Count {
            line,
            found: words.len() as u32 + 1,
        }),
    }
}

/// Reads `subscribe NAME GROUP`.
fn read_subscribe(
    draft: &mut ScriptBuilder,
    line: u32,
    name: &Word<'_>,
    group: &Word<'_>,
) -> Result<(), LineFault>
    ensures { Gives (read_form draft.old line Form.Subscribe (plain_word name.now ∷ plain_word group.now ∷ [])) result draft.new }
{
    let node = node_at(draft, line, name)?;
    let group = group_at(line, group)?;
    draft.add_command(line, node, group, GroupCommand::Subscribe)?;
    Ok(())
}

/// Reads `leave NAME GROUP`.
fn read_leave(
    draft: &mut ScriptBuilder,
    line: u32,
    name: &Word<'_>,
    group: &Word<'_>,
) -> Result<(), LineFault>
    ensures { Gives (read_form draft.old line Form.Leave (plain_word name.now ∷ plain_word group.now ∷ [])) result draft.new }
{
    let node = node_at(draft, line, name)?;
    let group = group_at(line, group)?;
    draft.add_command(line, node, group, GroupCommand::Leave)?;
    Ok(())
}

/// Reads `publish NAME GROUP HEX`.
fn read_publish(
    draft: &mut ScriptBuilder,
    alloc: Global,
    line: u32,
    name: &Word<'_>,
    group: &Word<'_>,
    content: &Word<'_>,
) -> Result<(), LineFault>
    ensures { Gives (read_form draft.old line Form.Publish (plain_word name.now ∷ plain_word group.now ∷ plain_word content.now ∷ [])) result draft.new }
{
    let bytes = bytes_at(alloc, line, content)?;
    let node = node_at(draft, line, name)?;
    let group = group_at(line, group)?;
    let bytes = content_of(alloc, line, content, &bytes)?;
    draft.add_command(line, node, group, GroupCommand::Publish { bytes })?;
    Ok(())
}

/// Reads `settle N`.
fn read_settle(draft: &mut ScriptBuilder, line: u32, count: &Word<'_>) -> Result<(), LineFault>
    ensures { Gives (read_form draft.old line Form.Settle (plain_word count.now ∷ [])) result draft.new }
{
    let amount = number_at(line, count)?;
    if passes(draft, amount) {
        let place = count.place;
        return Err(LineFault::Limit { line, place });
    }
    draft.add_settle(line, amount as u32)?;
    Ok(())
}

/// Reads `deliver N`.
fn read_deliver(draft: &mut ScriptBuilder, line: u32, message: &Word<'_>) -> Result<(), LineFault>
    ensures { Gives (read_form draft.old line Form.Deliver (plain_word message.now ∷ [])) result draft.new }
{
    let number = number_at(line, message)?;
    if passes(draft, 1) {
        let place = message.place;
        return Err(LineFault::Limit { line, place });
    }
    draft.add_delivery(line, number)?;
    Ok(())
}

/// Whether so many deliveries more pass the limit.
fn passes(draft: &ScriptBuilder, count: u64) -> bool
    ensures answer { result ≡ nat_lt MOST_DELIVERIES (draft.now.deliveries + count) }
    ensures limit { draft.now.deliveries ≤ MOST_DELIVERIES }
{
    count > MOST_DELIVERIES - draft.deliveries()
}

/// The identifier of the node that a word names.
fn node_at(draft: &ScriptBuilder, line: u32, word: &Word<'_>) -> Result<Id, LineFault>
    ensures ok { IfOk result (λ id. node_id draft.now word.now.text.now ≡ Some id) }
    ensures declared { IfOk result (λ id. Contains (ids draft.now.scenario.nodes) id) }
    ensures err { IfErr result (λ e. (node_id draft.now word.now.text.now ≡ None) × (e ≡ fault.Name line word.now.place)) }
{
    match draft.node(word.text) {
        Some(id) => Ok(id),
        None => Err(LineFault::Name {
            line,
            place: word.place,
        }),
    }
}

/// The name that a word spells.
fn group_at(line: u32, word: &Word<'_>) -> Result<Name, LineFault>
    ensures ok { IfOk result (λ name. (is_name word.now.text.now ≡ true) × (name ≡ word.now.text.now)) }
    ensures err { IfErr result (λ e. (is_name word.now.text.now ≡ false) × (e ≡ fault.Name line word.now.place)) }
{
    match Name::new(word.text) {
        Some(name) => Ok(name),
        None => Err(LineFault::Name {
            line,
            place: word.place,
        }),
    }
}
