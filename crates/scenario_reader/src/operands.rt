//! What the words of a line spell and name, and which faults they have.

ghost use Rattle.std.specs.Prelude.{◌≡◌, ◌⊎◌, ◌<◌, ◌≤◌, true, false, None, Some, Contains, IfErr, IfOk, IsSome, MatchResult, length, nat_lt};
ghost use Rattle.scenario_reader.specs.declared.fault.LineFault.TheVariants as fault;
ghost use Rattle.scenario_reader.specs.declared.limits.TheConstants.{MOST_DELIVERIES};
ghost use Rattle.scenario_reader.specs.Checks.{is_undeclared};
ghost use Rattle.scenario_reader.specs.Meanings.{file_key, identifier_in, key_in, node_id};
ghost use Rattle.scenario_reader.specs.Plain.{file_named, ids};
ghost use Rattle.scenario_reader.specs.Rules.{IsFile, IsFileOf};
ghost use Rattle.scenario_reader.specs.Tallies.{tally_of};
ghost use Rattle.scenario_reader.specs.Spelling.{behind_at, bytes_of, is_dash, is_identifier, is_key, is_name, number_of, salt_of};

use crate::builder::ScenarioBuilder;
use crate::fault::LineFault;
use crate::node::FileLine;
use crate::spelling::{behind_at, is_dash, is_name, number};
use crate::words::Word;
use hex::FromHexError;
use ring_math::{Id, id_from_hex, id_of_name, key_of};
use std::alloc::Global;

/// The number that a word spells in decimal. `Number` comes where it spells none, or one above 18,446,744,073,709,551,615.
pub fn number_at(line: u32, word: &Word<'_>) -> Result<u64, LineFault>
    ensures { MatchResult result (λ n. number_of word.now.text.now ≡ Some n) (λ e. (number_of word.now.text.now ≡ None) × (e ≡ fault.Number line word.now.place)) }
{
    match number(word.text) {
        Some(number) => Ok(number),
        None => Err(LineFault::Number {
            line,
            place: word.place,
        }),
    }
}

/// The bytes that a word spells in hexadecimal digits, none where it is `-`. `Hex` comes where it spells none, and
/// `OutOfMemory` where memory was refused.
pub fn bytes_at(alloc: Global, line: u32, word: &Word<'_>) -> Result<Vec<u8>, LineFault>
    ensures ok { IfOk result (λ bytes. bytes_of word.now.text.now ≡ Some bytes.items) }
    ensures err { IfErr result (λ e. (e ≡ fault.OutOfMemory) ⊎ ((bytes_of word.now.text.now ≡ None) × (e ≡ fault.Hex line word.now.place))) }
{
    if is_dash(word.text) {
        return Ok(Vec::new(alloc));
    }
    match hex::decode(alloc, word.text) {
        Ok(bytes) => Ok(bytes),
        Err(FromHexError::OutOfMemory) => Err(LineFault::OutOfMemory),
        Err(_) => Err(LineFault::Hex {
            line,
            place: word.place,
        }),
    }
}

/// The eight bytes that a word spells in hexadecimal digits. `Hex` comes where it spells no eight.
pub fn salt_at(line: u32, word: &Word<'_>) -> Result<[u8; 8], LineFault>
    ensures { MatchResult result (λ salt. salt_of word.now.text.now ≡ Some salt) (λ e. (salt_of word.now.text.now ≡ None) × (e ≡ fault.Hex line word.now.place)) }
{
    let mut salt = [0; 8];
    match hex::decode_to_slice(word.text, &mut salt) {
        Ok(()) => Ok(salt),
        Err(_) => Err(LineFault::Hex {
            line,
            place: word.place,
        }),
    }
}

/// Refuses a key that is neither 32 hexadecimal digits nor begins with `@`, by `Hex`.
pub fn check_key(line: u32, word: &Word<'_>) -> Result<(), LineFault>
    ensures { MatchResult result (λ _. is_key word.now.text.now ≡ true) (λ e. (is_key word.now.text.now ≡ false) × (e ≡ fault.Hex line word.now.place)) }
{
    if !is_key(word.text) {
        let place = word.place;
        return Err(LineFault::Hex { line, place });
    }
    Ok(())
}

/// Refuses an identifier of a node that is no key and not `-`.
pub(crate) fn check_identifier(line: u32, word: &Word<'_>) -> Result<(), LineFault>
    ensures { MatchResult result (λ _. is_identifier word.now.text.now ≡ true) (λ e. (is_identifier word.now.text.now ≡ false) × (e ≡ fault.Hex line word.now.place)) }
{
    if !is_dash(word.text) && !is_key(word.text) {
        let place = word.place;
        return Err(LineFault::Hex { line, place });
    }
    Ok(())
}

fn is_key(text: &[u8]) -> bool
    ensures { result ≡ is_key text.now }
{
    behind_at(text).is_some() || id_from_hex(text).is_ok()
}

/// The key that a word spells, or that of the file that it names.
pub(crate) fn key_at(draft: &ScenarioBuilder, line: u32, word: &Word<'_>) -> Result<Id, LineFault>
    requires { is_key word.now.text.now ≡ true }
    ensures ok { IfOk result (λ key. (is_undeclared draft.now (behind_at word.now.text.now) ≡ false) × (key_in draft.now word.now.text.now ≡ Some key)) }
    ensures err { IfErr result (λ e. (is_undeclared draft.now (behind_at word.now.text.now) ≡ true) × (e ≡ fault.Name line word.now.place)) }
{
    match behind_at(word.text) {
        Some(name) => match draft.file_key(name) {
            Some(key) => Ok(key),
            None => Err(LineFault::Name {
                line,
                place: word.place,
            }),
        },
        None => Ok(id_from_hex(word.text).unwrap()),
    }
}

/// The identifier of a node of this name: what a word spells, the key of the file that it names, or for `-` that of the name.
pub(crate) fn identifier_at(
    draft: &ScenarioBuilder,
    line: u32,
    name: &[u8],
    word: &Word<'_>,
) -> Result<Id, LineFault>
    requires { is_identifier word.now.text.now ≡ true }
    ensures ok { IfOk result (λ id. (is_undeclared draft.now (behind_at word.now.text.now) ≡ false) × (identifier_in draft.now name.now word.now.text.now ≡ Some id)) }
    ensures err { IfErr result (λ e. (is_undeclared draft.now (behind_at word.now.text.now) ≡ true) × (e ≡ fault.Name line word.now.place)) }
{
    if is_dash(word.text) {
        return Ok(id_of_name(name));
    }
    key_at(draft, line, word)
}

/// Refuses a name that is not spelled as one, by `Name`.
pub fn check_name(line: u32, word: &Word<'_>) -> Result<(), LineFault>
    ensures { MatchResult result (λ _. is_name word.now.text.now ≡ true) (λ e. (is_name word.now.text.now ≡ false) × (e ≡ fault.Name line word.now.place)) }
{
    if !is_name(word.text) {
        let place = word.place;
        return Err(LineFault::Name { line, place });
    }
    Ok(())
}

/// The identifier of the node that a word names.
pub(crate) fn node_at(draft: &ScenarioBuilder, line: u32, word: &Word<'_>) -> Result<Id, LineFault>
    ensures ok { IfOk result (λ id. node_id draft.now word.now.text.now ≡ Some id) }
    ensures declared { IfOk result (λ id. Contains (ids draft.now.nodes) id) }
    ensures err { IfErr result (λ e. (node_id draft.now word.now.text.now ≡ None) × (e ≡ fault.Name line word.now.place)) }
{
    match draft.id_named(word.text) {
        Some(id) => Ok(id),
        None => Err(LineFault::Name {
            line,
            place: word.place,
        }),
    }
}

/// The file that a word names.
pub(crate) fn file_at<'a>(
    draft: &'a ScenarioBuilder,
    line: u32,
    word: &Word<'_>,
) -> Result<&'a FileLine, LineFault>
    ensures ok { IfOk result (λ file. file_named draft.now.files word.now.text.now ≡ Some file.now) }
    ensures declared { IfOk result (λ file. IsFile draft.now.files file.now.file) }
    ensures with_bytes { IfOk result (λ file. IsFileOf draft.now.files file.now.file file.now.bytes) }
    ensures err { IfErr result (λ e. (file_named draft.now.files word.now.text.now ≡ None) × (e ≡ fault.Name line word.now.place)) }
{
    match draft.file_named(word.text) {
        Some(file) => Ok(file),
        None => Err(LineFault::Name {
            line,
            place: word.place,
        }),
    }
}

/// Refuses bytes that are more than a limit, by `Limit`.
pub fn check_length(line: u32, word: &Word<'_>, bytes: &[u8], most: usize) -> Result<(), LineFault>
    ensures { MatchResult result (λ _. nat_lt most (length bytes.now) ≡ false) (λ e. (nat_lt most (length bytes.now) ≡ true) × (e ≡ fault.Limit line word.now.place)) }
{
    if bytes.len() > most {
        let place = word.place;
        return Err(LineFault::Limit { line, place });
    }
    Ok(())
}

/// Refuses an action that no founder stands before.
pub(crate) fn check_founded(draft: &ScenarioBuilder, line: u32) -> Result<(), LineFault>
    ensures founded { MatchResult result (λ _. IsSome draft.now.founder) (λ e. (draft.now.founder ≡ None) × (e ≡ fault.NoFounder line)) }
    ensures deliveries { (tally_of draft.now.actions).deliveries ≤ MOST_DELIVERIES }
{
    if !draft.has_founder() {
        return Err(LineFault::NoFounder { line });
    }
    Ok(())
}
