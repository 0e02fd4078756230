//! The words of a line, and the lines of a text.

ghost use Rattle.std.specs.Prelude.{◌≡◌, ◌*◌, ◌++◌, ◌∷◌, ◌<◌, ℕ, true, length, slice_index, IfErr, IsTrue, List, MatchOption, OnOk};
ghost use Rattle.std.specs.List.{list_all};
ghost use Rattle.trace_text.specs.Answers.{Finds, Fails};
ghost use Rattle.trace_text.specs.Digits.{is_lower_digit, lacks, AreDigitsOf, IsIdText, IsNumberText};

use crate::fault::Refusal;
use crate::lanes::read_digits;
use memchr::memchr;
use ring_math::{Id, id_from_hex};
use scenario_reader::number;

/// What stands before the first byte of this kind, and what stands behind it.
pub(crate) fn split_once(byte: u8, text: &[u8]) -> Option<(&[u8], &[u8])>
    ensures { MatchOption result (lacks byte text.now ≡ true) (λ parts. (text.now ≡ parts.0.now ++ byte ∷ parts.1.now) × (lacks byte parts.0.now ≡ true)) }
{
    match memchr(byte, text) {
        Some(end) => Some((&text[..end], &text[end + 1..])),
        None => None,
    }
}

fn is_lower_digit(byte: u8) -> bool
    ensures { result ≡ is_lower_digit byte }
{
    byte >= b'0' && byte <= b'9' || byte >= b'a' && byte <= b'f'
}

/// Whether these bytes are digits of hexadecimal in lower case.
fn are_lower_digits(text: &[u8]) -> bool
    ensures { result ≡ list_all is_lower_digit text.now }
{
    text.iter().all(|byte| is_lower_digit(*byte))
}

/// The identifier that a word is.
pub(crate) fn id_in(text: &[u8]) -> Result<Id, Refusal>
    ensures { Finds (λ id. id) (IsIdText text.now) result }
{
    if !are_lower_digits(text) {
        return Err(Refusal::NotAllowed);
    }
    match id_from_hex(text) {
        Ok(id) => Ok(id),
        Err(_) => Err(Refusal::NotAllowed),
    }
}

/// The number that a word is.
pub(crate) fn number_in(text: &[u8]) -> Result<u64, Refusal>
    ensures { Finds (λ n. n) (IsNumberText text.now) result }
{
    match number(text) {
        Some(n) => Ok(n),
        None => Err(Refusal::NotAllowed),
    }
}

/// Puts the bytes whose digits a word is into the buffer, in the place of what was there.
pub(crate) fn bytes_in(buffer: &mut Vec<u8>, text: &[u8]) -> Result<(), Refusal>
    ensures read { OnOk result (AreDigitsOf text.now buffer.new.items) }
    ensures refused { IfErr result (λ e. Fails (AreDigitsOf text.now) e) }
{
    if text.len() % 2 != 0 {
        return Err(Refusal::NotAllowed);
    }
    buffer.resize(text.len() / 2, 0)?;
    if read_digits(text, buffer) {
        Ok(())
    } else {
        Err(Refusal::NotAllowed)
    }
}
