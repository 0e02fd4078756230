//! The commands that lines say.

ghost use Rattle.std.specs.Prelude.{◌≡◌, ◌≤◌, ◌<◌, ◌+◌, ◌∷◌, [], true, false, Some, None, MatchOption, length, map};
ghost use Rattle.ring_math.specs.declared.limits.TheConstants.{MOST_BYTES};
ghost use Rattle.scenario_reader.specs.declared.limits.TheConstants.{MOST_LINE_BYTES};
ghost use Rattle.scenario_reader.specs.Checks.{is_outside};
ghost use Rattle.scenario_reader.specs.Spelling.{bytes_of};
ghost use Rattle.scenario_reader.specs.Words.{plain_word};
ghost use Rattle.node_lines.specs.declared.refusal.Refusal.TheVariants as refusal;
ghost use Rattle.node_lines.specs.declared.refusal.TellFault.TheVariants as fault;
ghost use Rattle.node_lines.specs.Commands.{bytes_in, command_of, copies_in, fetch_of, file_in, giveup_of, id_in, insert_of, join_of, lookup_of, or_refused, reclaim_of, salt_in};
ghost use Rattle.node_lines.specs.Lines.{Reads};

use crate::refusal::{Refusal, TellFault};
use ring_math::{Bytes, BytesFault, FileId, Id, file_id, id_from_hex};
use scenario_reader::{Form, LineFault, MOST_NAME_BYTES, Word, bytes_at, number, salt_at};
use std::alloc::Global;
use wire_msg::{Command, Copies, Frame, MOST_COPIES};

/// The command of this form, whose first word stands at this place, with these words behind it.
pub(crate) fn command_of(
    alloc: Global,
    place: u32,
    form: Option<Form>,
    words: &[Word<'_>],
) -> Result<Command, TellFault>
    requires { length words.now ≤ MOST_LINE_BYTES }
    ensures { Reads (command_of place form (map plain_word words.now)) result }
{
    match form {
        Some(Form::Join) => join_of(words),
        Some(Form::Lookup) => lookup_of(words),
        Some(Form::Insert) => insert_of(alloc, words),
        Some(Form::Fetch) => fetch_of(words),
        Some(Form::Reclaim) => reclaim_of(words),
        Some(Form::GiveUp) => giveup_of(words),
        _ => Err(TellFault::Refused(Refusal::Word { place })),
    }
}

fn join_of(words: &[Word<'_>]) -> Result<Command, TellFault>
    requires { length words.now ≤ MOST_LINE_BYTES }
    ensures { Reads (join_of (map plain_word words.now)) result }
{
    match words {
        [via] => Ok(Command::Join { via: id_in(via)? }),
        _ => Err(wrong_count(words)),
    }
}

fn lookup_of(words: &[Word<'_>]) -> Result<Command, TellFault>
    requires { length words.now ≤ MOST_LINE_BYTES }
    ensures { Reads (lookup_of (map plain_word words.now)) result }
{
    match words {
        [key] => Ok(Command::Lookup { key: id_in(key)? }),
        _ => Err(wrong_count(words)),
    }
}

fn insert_of(alloc: Global, words: &[Word<'_>]) -> Result<Command, TellFault>
    requires { length words.now ≤ MOST_LINE_BYTES }
    ensures { Reads (insert_of (map plain_word words.now)) result }
{
    match words {
        [name, owner, salt, content, copies] => {
            insert_with(alloc, name, owner, salt, content, copies)
        }
        _ => Err(wrong_count(words)),
    }
}

/// Reads the words of an insert.
fn insert_with(
    alloc: Global,
    name: &Word<'_>,
    owner: &Word<'_>,
    salt: &Word<'_>,
    content: &Word<'_>,
    copies: &Word<'_>,
) -> Result<Command, TellFault>
    ensures { Reads (insert_of (plain_word name.now ∷ plain_word owner.now ∷ plain_word salt.now ∷ plain_word content.now ∷ plain_word copies.now ∷ [])) result }
{
    let name = bytes_in(alloc, MOST_NAME_BYTES, name)?;
    let owner = bytes_in(alloc, MOST_NAME_BYTES, owner)?;
    let salt = salt_in(salt)?;
    let bytes = content_in(alloc, content)?;
    let copies = copies_in(copies)?;
    Ok(Command::Insert {
        file: file_id(name.as_slice(), owner.as_slice(), &salt),
        copies,
        bytes,
    })
}

fn fetch_of(words: &[Word<'_>]) -> Result<Command, TellFault>
    requires { length words.now ≤ MOST_LINE_BYTES }
    ensures { Reads (fetch_of (map plain_word words.now)) result }
{
    match words {
        [file] => Ok(Command::Fetch {
            file: file_in(file)?,
        }),
        _ => Err(wrong_count(words)),
    }
}

fn reclaim_of(words: &[Word<'_>]) -> Result<Command, TellFault>
    requires { length words.now ≤ MOST_LINE_BYTES }
    ensures { Reads (reclaim_of (map plain_word words.now)) result }
{
    match words {
        [file] => Ok(Command::Reclaim {
            file: file_in(file)?,
        }),
        _ => Err(wrong_count(words)),
    }
}

fn giveup_of(words: &[Word<'_>]) -> Result<Command, TellFault>
    requires { length words.now ≤ MOST_LINE_BYTES }
    ensures { Reads (giveup_of (map plain_word words.now)) result }
{
    match words {
        [] => Ok(Command::GiveUp),
        _ => Err(wrong_count(words)),
    }
}

/// The words behind the first are not so many as are wanted.
pub(crate) fn wrong_count(words: &[Word<'_>]) -> TellFault
    requires { length words.now ≤ MOST_LINE_BYTES }
    ensures { result ≡ fault.Refused (refusal.Count (length words.now + 1)) }
{
    TellFault::Refused(Refusal::Count {
        found: words.len() as u32 + 1,
    })
}

/// The identifier that a word spells.
pub(crate) fn id_in(word: &Word<'_>) -> Result<Id, TellFault>
    ensures { Reads (id_in (plain_word word.now)) result }
{
    match id_from_hex(word.text) {
        Ok(id) => Ok(id),
        Err(_) => Err(no_hex(word)),
    }
}

/// The identifier of a file that a word spells.
fn file_in(word: &Word<'_>) -> Result<FileId, TellFault>
    ensures { Reads (file_in (plain_word word.now)) result }
{
    let mut file = [0; 20];
    match hex::decode_to_slice(word.text, &mut file) {
        Ok(()) => Ok(FileId(file)),
        Err(_) => Err(no_hex(word)),
    }
}

fn no_hex(word: &Word<'_>) -> TellFault
    ensures { result ≡ fault.Refused (refusal.Hex word.now.place) }
{
    TellFault::Refused(Refusal::Hex { place: word.place })
}

/// The eight bytes that a word spells.
fn salt_in(word: &Word<'_>) -> Result<[u8; 8], TellFault>
    ensures { Reads (salt_in (plain_word word.now)) result }
{
    match salt_at(1, word) {
        Ok(salt) => Ok(salt),
        Err(_) => Err(no_hex(word)),
    }
}

/// The bytes that a word spells.
pub(crate) fn bytes_of(alloc: Global, word: &Word<'_>) -> Result<Frame, TellFault>
    ensures { Reads (or_refused (refusal.Hex word.now.place) (bytes_of word.now.text.now)) result }
{
    match bytes_at(alloc, 1, word) {
        Ok(bytes) => Ok(Frame::from(bytes)),
        Err(LineFault::OutOfMemory) => Err(TellFault::OutOfMemory),
        Err(_) => Err(no_hex(word)),
    }
}

/// The bytes that a word spells, no more than so many.
fn bytes_in(alloc: Global, most: usize, word: &Word<'_>) -> Result<Frame, TellFault>
    ensures { Reads (bytes_in most (plain_word word.now)) result }
{
    let bytes = bytes_of(alloc, word)?;
    if bytes.as_slice().len() > most {
        return Err(over_limit(word));
    }
    Ok(bytes)
}

fn over_limit(word: &Word<'_>) -> TellFault
    ensures { result ≡ fault.Refused (refusal.Limit word.now.place) }
{
    TellFault::Refused(Refusal::Limit { place: word.place })
}

/// The bytes of a file.
fn content_in(alloc: Global, word: &Word<'_>) -> Result<Bytes, TellFault>
    ensures { Reads (bytes_in MOST_BYTES (plain_word word.now)) result }
{
    let bytes = bytes_of(alloc, word)?;
    match Bytes::copy_of(alloc, bytes.as_slice()) {
        Ok(bytes) => Ok(bytes),
        Err(BytesFault::OutOfMemory) => Err(TellFault::OutOfMemory),
        Err(BytesFault::TooLong { .. }) => Err(over_limit(word)),
    }
}

/// How many copies a word asks for.
fn copies_in(word: &Word<'_>) -> Result<Copies, TellFault>
    ensures { Reads (copies_in (plain_word word.now)) result }
{
    let Some(count) = number(word.text) else {
        return Err(TellFault::Refused(Refusal::Number { place: word.place }));
    };
    match copies_of(count) {
        Some(copies) => Ok(copies),
        None => Err(over_limit(word)),
    }
}

/// So many copies, None exactly where no insert may ask for so many.
fn copies_of(count: u64) -> Option<Copies>
    ensures { MatchOption result (is_outside 1 MOST_COPIES count ≡ true) (λ copies. (is_outside 1 MOST_COPIES count ≡ false) × (copies ≡ count)) }
{
    if count > u64::from(MOST_COPIES) {
        return None;
    }
    Copies::new(count as u8)
}
