//! Where a line that has too few words, or too many, departs from its form.

use crate::message::form::{Written, name_in};
use crate::message::line::word_numbered;
use crate::message::shown::Shown;
use scenario_reader::Form;
use std::fmt;

/// What is expected where a line departs from its form: the word of this name, or the end of the line.
#[derive(Drop)]
pub(crate) struct Due<'a> {
    pub(crate) name: Option<&'static str>,
    pub(crate) first: &'a [u8],
    pub(crate) form: Form,
}

impl fmt::Display for Due<'_> {
    fn fmt<W: fmt::Write>(&self, f: &mut fmt::Formatter<W>) -> fmt::Result {
        let Due { first, form, .. } = *self;
        let name = self.name.unwrap_or("the end of the line");
        write!(f, "{name}, as in {}", Written { first, form })
    }
}

/// What is found where a line departs from its form.
#[derive(Clone, Copy)]
pub(crate) enum Departure<'a> {
    End,
    Comment,
    Word(&'a [u8]),
}

impl fmt::Display for Departure<'_> {
    fn fmt<W: fmt::Write>(&self, f: &mut fmt::Formatter<W>) -> fmt::Result {
        match *self {
            Departure::End => f.write_str("the end of the line"),
            Departure::Comment => f.write_str("a comment, which is to stand on a line of its own"),
            Departure::Word(word) => write!(f, "{}", Shown(word)),
        }
    }
}

/// The place behind the last word of a line and a space.
fn place_behind(line: &[u8]) -> usize {
    let spaces = line.iter().rev().take_while(|byte| **byte == b' ').count();
    line.len().saturating_sub(spaces).saturating_add(1)
}

/// Where a line departs from its form, by the first word that is missing, begins a comment or is one too many: its place, the
/// name of the word that is expected there, if one is, and what is found.
pub(crate) fn departure_in(
    line: &[u8],
    form: Form,
) -> (usize, Option<&'static str>, Departure<'_>) {
    let due = form.parts().len();
    for number in 0..due.saturating_add(1) {
        let name = name_in(form, number);
        match word_numbered(line, number.saturating_add(1)) {
            Some(word) if word.text.starts_with(b"#") => {
                return (word.place, name, Departure::Comment);
            }
            Some(word) if number >= due => return (word.place, name, Departure::Word(word.text)),
            Some(_) => {}
            None => return (place_behind(line), name, Departure::End),
        }
    }
    (place_behind(line), None, Departure::End)
}
