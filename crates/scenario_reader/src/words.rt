//! The words of a line.

ghost use Rattle.std.specs.Prelude.{◌≡◌, ℕ, ◌+◌, ◌<◌, ◌≤◌, ◌∷◌, true, false, [], get_or, length, map, vec_len, IfNone, IfOk, IfSome};
ghost use Rattle.std.specs.List.{prefix_len, slice_split};
ghost use Rattle.scenario_reader.specs.declared.limits.TheConstants.{MOST_LINE_BYTES};
ghost use Rattle.scenario_reader.specs.Words.{is_space, plain_word, words_from, words_of};

use memchr::memchr;
use ring_math::OutOfMemory;
use std::alloc::Global;

/// A word of a line, and the place of its first byte.
#[derive(Clone, Copy)]
pub struct Word<'a> {
    pub place: u32,
    pub text: &'a [u8],
}

/// The words of a line, which spaces separate. The only error is that memory was refused.
pub fn words_in<'a>(alloc: Global, line: &'a [u8]) -> Result<Vec<Word<'a>>, OutOfMemory>
    requires { length line.now ≤ MOST_LINE_BYTES }
    ensures words { IfOk result (λ words. map plain_word words.items ≡ words_of line.now) }
    ensures few { IfOk result (λ words. vec_len words ≤ MOST_LINE_BYTES) }
{
    let mut words = Vec::new(alloc);
    let mut place: u32 = 0;
    let mut rest = line;
    while let Some((spaces, text, behind)) = next_word(rest) {
        place += spaces as u32;
        words.push(Word { place, text })?;
        place += text.len() as u32;
        rest = behind;
    }
    Ok(words)
}

/// The first word of a text, how many spaces stand before it, and what stands behind it.
fn next_word(text: &[u8]) -> Option<(usize, &[u8], &[u8])>
    ensures none { IfNone result ((place : ℕ) → words_from place (slice_split is_space text.now) ≡ []) }
    ensures some { IfSome result (λ found. (place : ℕ) → words_from place (slice_split is_space text.now) ≡ record { place = place + found.0; text = found.1.now } ∷ words_from (place + found.0 + length found.1.now) (slice_split is_space found.2.now)) }
    ensures sizes { IfSome result (λ found. (0 < length found.1.now) × (found.0 + length found.1.now + length found.2.now ≡ length text.now)) }
{
    let spaces = leading_spaces(text);
    let within = spaces <= text.len();
    prove!(within);
    let from = &text[spaces..];
    if from.is_empty() {
        return None;
    }
    let len = word_len(from);
    Some((spaces, &from[..len], &from[len..]))
}

/// How many spaces stand at the front.
fn leading_spaces(text: &[u8]) -> usize
    ensures { result ≡ prefix_len is_space text.now }
{
    text.iter().take_while(|byte| **byte == b' ').count()
}

/// How many bytes stand before the first space.
fn word_len(text: &[u8]) -> usize
    ensures within { result ≤ length text.now }
    ensures before { (k : ℕ) → k < result → is_space (get_or text.now k 0) ≡ false }
    ensures ends { result < length text.now → is_space (get_or text.now result 0) ≡ true }
{
    memchr(b' ', text).unwrap_or(text.len())
}
