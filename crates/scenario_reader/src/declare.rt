//! The lines that declare.

ghost use Rattle.std.specs.Prelude.{◌≡◌, ◌≢◌, ◌<◌, ◌∷◌, ◌⊎◌, [], true, false, Some, All, IfErr, IfNone, IfOk, length, nat_lt};
ghost use Rattle.ring_math.specs.declared.limits.TheConstants.{MOST_BYTES};
ghost use Rattle.scenario_reader.specs.declared.fault.LineFault.TheVariants as fault;
ghost use Rattle.scenario_reader.specs.Checks.{is_twice, leftmost};
ghost use Rattle.scenario_reader.specs.Forms.{parts_of};
ghost use Rattle.scenario_reader.specs.Grammar.{read_form};
ghost use Rattle.scenario_reader.specs.Meanings.{identifier_in};
ghost use Rattle.scenario_reader.specs.Outcome.{Gives};
ghost use Rattle.scenario_reader.specs.Plain.{ids, node_names};
ghost use Rattle.scenario_reader.specs.Words.{plain_word};

use crate::builder::ScenarioBuilder;
use crate::fault::LineFault;
use crate::form::Form;
use crate::limits::{MOST_FILES, MOST_NAME_BYTES, MOST_NODES};
use crate::operands::{
    bytes_at, check_identifier, check_length, check_name, identifier_at, node_at, salt_at,
};
use crate::words::Word;
use ring_math::{Bytes, BytesFault, Id, file_id};
use std::alloc::Global;

/// Reads `node NAME ID`.
pub(crate) fn read_node(
    draft: &mut ScenarioBuilder,
    alloc: Global,
    line: u32,
    name: &Word<'_>,
    id: &Word<'_>,
) -> Result<(), LineFault>
    ensures { Gives (read_form draft.old line Form.Node (plain_word name.now ∷ plain_word id.now ∷ [])) result draft.new }
{
    check_identifier(line, id)?;
    check_name(line, name)?;
    let identifier = identifier_at(draft, line, name.text, id)?;
    if let Some(place) = place_of_twice(draft, name, id, identifier) {
        return Err(LineFault::Twice { line, place });
    }
    if draft.node_count() >= MOST_NODES {
        let place = name.place;
        return Err(LineFault::Limit { line, place });
    }
    draft.add_node(alloc, name.text, identifier, line)?;
    Ok(())
}

/// The place of the leftmost word of a node's line that names another node.
fn place_of_twice(
    draft: &ScenarioBuilder,
    name: &Word<'_>,
    id: &Word<'_>,
    identifier: Id,
) -> Option<u32>
    requires { identifier_in draft.now name.now.text.now id.now.text.now ≡ Some identifier }
    ensures value { result ≡ leftmost (is_twice draft.now name.now.text.now) (parts_of Form.Node) (plain_word name.now ∷ plain_word id.now ∷ []) }
    ensures new_name { IfNone result (All (λ other. other ≢ name.now.text.now) (node_names draft.now.nodes)) }
    ensures new_id { IfNone result (All (λ other. other ≢ identifier) (ids draft.now.nodes)) }
{
    if draft.id_named(name.text).is_some() {
        return Some(name.place);
    }
    if draft.has_id(identifier) {
        return Some(id.place);
    }
    None
}

/// The words of `file FILE NAME OWNER SALT BYTES` behind the first.
#[derive(Clone, Copy)]
pub(crate) struct FileWords<'a> {
    pub(crate) file: Word<'a>,
    pub(crate) name: Word<'a>,
    pub(crate) owner: Word<'a>,
    pub(crate) salt: Word<'a>,
    pub(crate) content: Word<'a>,
}

/// Reads `file FILE NAME OWNER SALT BYTES`.
pub(crate) fn read_file(
    draft: &mut ScenarioBuilder,
    alloc: Global,
    line: u32,
    words: &FileWords<'_>,
) -> Result<(), LineFault>
    ensures { Gives (read_form draft.old line Form.File (plain_word words.now.file ∷ plain_word words.now.name ∷ plain_word words.now.owner ∷ plain_word words.now.salt ∷ plain_word words.now.content ∷ [])) result draft.new }
{
    let name = bytes_at(alloc, line, &words.name)?;
    let owner = bytes_at(alloc, line, &words.owner)?;
    let salt = salt_at(line, &words.salt)?;
    let content = bytes_at(alloc, line, &words.content)?;
    check_name(line, &words.file)?;
    if draft.has_file(words.file.text) {
        let place = words.file.place;
        return Err(LineFault::Twice { line, place });
    }
    if draft.file_count() >= MOST_FILES {
        let place = words.file.place;
        return Err(LineFault::Limit { line, place });
    }
    check_length(line, &words.name, &name, MOST_NAME_BYTES)?;
    check_length(line, &words.owner, &owner, MOST_NAME_BYTES)?;
    let bytes = content_of(alloc, line, &words.content, &content)?;
    let file = file_id(&name, &owner, &salt);
    draft.add_file(alloc, words.file.text, file, bytes, line)?;
    Ok(())
}

/// The bytes of a file. `Limit` comes where they are more than a file may have, and `OutOfMemory` where memory was refused.
pub fn content_of(
    alloc: Global,
    line: u32,
    word: &Word<'_>,
    content: &[u8],
) -> Result<Bytes, LineFault>
    ensures ok { IfOk result (λ bytes. (nat_lt MOST_BYTES (length content.now) ≡ false) × (bytes ≡ content.now)) }
    ensures err { IfErr result (λ e. (e ≡ fault.OutOfMemory) ⊎ ((nat_lt MOST_BYTES (length content.now) ≡ true) × (e ≡ fault.Limit line word.now.place))) }
{
    match Bytes::copy_of(alloc, content) {
        Ok(bytes) => Ok(bytes),
        Err(BytesFault::OutOfMemory) => Err(LineFault::OutOfMemory),
        Err(BytesFault::TooLong { .. }) => Err(LineFault::Limit {
            line,
            place: word.place,
        }),
    }
}

/// Reads `first NAME`.
pub(crate) fn read_first(
    draft: &mut ScenarioBuilder,
    line: u32,
    name: &Word<'_>,
) -> Result<(), LineFault>
    ensures { Gives (read_form draft.old line Form.First (plain_word name.now ∷ [])) result draft.new }
{
    let founder = node_at(draft, line, name)?;
    if draft.has_founder() {
        return Err(LineFault::SecondFounder { line });
    }
    draft.set_founder(founder);
    Ok(())
}
