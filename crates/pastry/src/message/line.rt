//! Lines of an input, and their words.

use scenario_reader::{Part, form_with};

/// A word of a line, and the place of its first byte, counted from 0.
#[derive(Clone, Copy)]
pub(crate) struct Word<'a> {
    pub(crate) place: usize,
    pub(crate) text: &'a [u8],
}

/// The line of a text with this number, from 1 on, without its end; empty if there is none.
pub(crate) fn line_of(text: &[u8], number: u32) -> &[u8] {
    let mut lines = text.split(|byte| *byte == b'\n');
    lines
        .nth((number as usize).saturating_sub(1))
        .unwrap_or(&[])
}

/// The lines of a text before the one with this number, with their ends.
pub(crate) fn lines_before(text: &[u8], number: u32) -> &[u8] {
    let mut length: usize = 0;
    let lines = text.split(|byte| *byte == b'\n');
    for line in lines.take((number as usize).saturating_sub(1)) {
        length = length.saturating_add(line.len()).saturating_add(1);
    }
    text.get(..length).unwrap_or(text)
}

/// The word of a line with this number; the first has number 0.
pub(crate) fn word_numbered(line: &[u8], number: usize) -> Option<Word<'_>> {
    let mut place: usize = 0;
    let mut before = number;
    for text in line.split(|byte| *byte == b' ') {
        if !text.is_empty() {
            if before == 0 {
                return Some(Word { place, text });
            }
            before = before.saturating_sub(1);
        }
        place = place.saturating_add(text.len()).saturating_add(1);
    }
    None
}

/// The first word of a line; empty if it has none.
pub(crate) fn first_word(line: &[u8]) -> &[u8] {
    match word_numbered(line, 0) {
        Some(word) => word.text,
        None => &[],
    }
}

/// The word of a line that begins at a place.
pub(crate) fn word_at(line: &[u8], place: u32) -> Word<'_> {
    let place = place as usize;
    let mut words = line.get(place..).unwrap_or(&[]).split(|byte| *byte == b' ');
    Word {
        place,
        text: words.next().unwrap_or(&[]),
    }
}

/// How many words a text has.
fn count_words(text: &[u8]) -> usize {
    let words = text.split(|byte| *byte == b' ');
    words.filter(|word| !word.is_empty()).count()
}

/// What the word of a line at a place stands for; None if lines with this first word have no such word.
pub(crate) fn part_at(line: &[u8], place: u32) -> Option<Part> {
    let before = count_words(line.get(..place as usize)?);
    let form = form_with(first_word(line))?;
    form.parts().get(before.checked_sub(1)?).copied()
}

/// Whether a line begins with this word.
fn begins_with(line: &[u8], word: &[u8]) -> bool {
    first_word(line) == word
}

/// The number of the first line of a text that begins with this word.
pub(crate) fn line_with(text: &[u8], word: &[u8]) -> Option<u32> {
    let mut lines = text.split(|byte| *byte == b'\n');
    let place = lines.position(|line| begins_with(line, word))?;
    u32::try_from(place.saturating_add(1)).ok()
}

/// Whether a line begins with these two words.
fn declares(line: &[u8], word: &[u8], name: &[u8]) -> bool {
    match word_numbered(line, 1) {
        Some(second) => begins_with(line, word) && second.text == name,
        None => false,
    }
}

/// The number of the first line of a text that begins with these two words.
pub(crate) fn line_declaring(text: &[u8], word: &[u8], name: &[u8]) -> Option<u32> {
    let mut lines = text.split(|byte| *byte == b'\n');
    let place = lines.position(|line| declares(line, word, name))?;
    u32::try_from(place.saturating_add(1)).ok()
}
