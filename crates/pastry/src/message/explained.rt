//! A fault of a scenario in plain words, with the line that has it.

use crate::message::before::Before;
use crate::message::expected::{Expected, Lack};
use crate::message::line::{first_word, line_of, part_at, word_at, word_numbered};
use crate::message::odd_byte::OddByte;
use crate::message::remark::{Found, Remark, remark_on};
use crate::message::shown::{Excerpt, Grouped, Shown};
use crate::message::word_count::{Due, departure_in};
use scenario_reader::{LineFault, MOST_LINE_BYTES, MOST_LINES, Part, form_with};
use std::fmt;

const FIRST_WORDS: &str =
    "node, file, first, join, lookup, insert, fetch, reclaim, giveup, settle, deliver, shuffle, dup or noise";

/// What is expected of a word if its line is not at hand.
const SOME_WORD: &str = "what docs/SCENARIOS.md has here";

/// A fault of a text, and what the lines before have to do with it.
#[derive(Drop)]
pub(crate) struct Explained<'a> {
    pub(crate) fault: &'a LineFault,
    pub(crate) text: &'a [u8],
    pub(crate) before: Before,
}

/// A place of a line. The line is counted from 1, the place from 0.
#[derive(Clone, Copy)]
pub(crate) struct Spot<'a> {
    pub(crate) number: u32,
    pub(crate) line: &'a [u8],
    pub(crate) place: usize,
}

impl Spot<'_> {
    /// Writes what is expected here and what is found, with the line and a caret.
    pub(crate) fn explain<W: fmt::Write, E: fmt::Display, F: fmt::Display>(
        &self,
        f: &mut fmt::Formatter<W>,
        expected: &E,
        found: &F,
    ) -> fmt::Result {
        let Spot {
            number,
            line,
            place,
        } = *self;
        let column = place.saturating_add(1);
        let excerpt = Excerpt { line, place };
        write!(
            f,
            "line {number}, column {column}: expected {expected}, found {found}{excerpt}"
        )
    }
}

/// In which way a word with this fault is not what is expected.
fn lack_in(fault: &LineFault, part: Part, remark: Remark) -> Lack {
    match fault {
        LineFault::Number { .. } if matches!(remark, Remark::TooLarge) => Lack::Size,
        LineFault::Name { .. } if !matches!(part, Part::NewNode | Part::NewFile) => {
            Lack::Declaration
        }
        LineFault::Twice { .. } => Lack::Novelty,
        LineFault::Limit { .. } => Lack::Room,
        LineFault::Frame { .. } => Lack::Noise,
        _ => Lack::Spelling,
    }
}

/// A second founder, and the line that names the first.
#[derive(Clone, Copy)]
struct SecondFounder(Option<u32>);

impl fmt::Display for SecondFounder {
    fn fmt<W: fmt::Write>(&self, f: &mut fmt::Formatter<W>) -> fmt::Result {
        f.write_str("a second")?;
        match self.0 {
            Some(line) => write!(f, ", after that of line {line}"),
            None => Ok(()),
        }
    }
}

impl Explained<'_> {
    fn spot(&self, number: u32, place: usize) -> Spot<'_> {
        Spot {
            number,
            line: line_of(self.text, number),
            place,
        }
    }

    /// The place of the first word of a line.
    fn first_spot(&self, number: u32) -> Spot<'_> {
        match word_numbered(line_of(self.text, number), 0) {
            Some(word) => self.spot(number, word.place),
            None => self.spot(number, 0),
        }
    }

    /// A word is not what is expected.
    fn explain_word<W: fmt::Write>(
        &self,
        f: &mut fmt::Formatter<W>,
        number: u32,
        place: u32,
    ) -> fmt::Result {
        let line = line_of(self.text, number);
        let word = word_at(line, place);
        let Some(part) = part_at(line, place) else {
            return self
                .spot(number, word.place)
                .explain(f, &SOME_WORD, &Shown(word.text));
        };
        let remark = remark_on(self.fault, part, word.text, &self.before);
        let lack = lack_in(self.fault, part, remark);
        let place = word.place.saturating_add(remark.place());
        let word = word.text;
        self.spot(number, place)
            .explain(f, &Expected { part, lack }, &Found { word, remark })
    }

    /// A line has too few words, or too many.
    fn explain_count<W: fmt::Write>(&self, f: &mut fmt::Formatter<W>, number: u32) -> fmt::Result {
        let line = line_of(self.text, number);
        let first = first_word(line);
        let Some(form) = form_with(first) else {
            return self.spot(number, 0).explain(f, &SOME_WORD, &Shown(first));
        };
        let (place, name, found) = departure_in(line, form);
        self.spot(number, place)
            .explain(f, &Due { name, first, form }, &found)
    }

    /// An action comes before the founder is named, or the input ends.
    fn explain_founder<W: fmt::Write>(
        &self,
        f: &mut fmt::Formatter<W>,
        number: u32,
    ) -> fmt::Result {
        let action = first_word(line_of(self.text, number));
        let mut lines = self.text.split(|byte| *byte == b'\n');
        if !action.is_empty() {
            self.first_spot(number).explain(
                f,
                &"a line \"first NAME\" before the first action",
                &Shown(action),
            )
        } else if self.text.is_empty() {
            f.write_str("expected a scenario, found an empty input")
        } else if lines.any(|line| form_with(first_word(line)).is_some()) {
            f.write_str(
                "expected a line \"first NAME\" and then actions, found neither in the input",
            )
        } else {
            f.write_str("expected a scenario, found nothing but comments and empty lines")
        }
    }
}

impl fmt::Display for Explained<'_> {
    fn fmt<W: fmt::Write>(&self, f: &mut fmt::Formatter<W>) -> fmt::Result {
        match *self.fault {
            LineFault::TooLong { line } => {
                let most = Grouped(MOST_LINE_BYTES as u64);
                let found = Grouped(line_of(self.text, line).len() as u64);
                write!(
                    f,
                    "line {line}: expected at most {most} bytes in a line, found {found}"
                )
            }
            LineFault::Limit { line, place: 0 } => {
                let most = Grouped(u64::from(MOST_LINES));
                write!(
                    f,
                    "line {line}: expected at most {most} lines, found another"
                )
            }
            LineFault::NotText { line, place } => {
                let spot = self.spot(line, place as usize);
                let byte = OddByte::at(spot.line, spot.place);
                spot.explain(f, &byte.expected(), &byte)
            }
            LineFault::Word { line, .. } => {
                let word = Shown(first_word(line_of(self.text, line)));
                self.first_spot(line).explain(f, &FIRST_WORDS, &word)
            }
            LineFault::Count { line, .. } => self.explain_count(f, line),
            LineFault::NoFounder { line } => self.explain_founder(f, line),
            LineFault::SecondFounder { line } => {
                let found = SecondFounder(self.before.line);
                self.first_spot(line)
                    .explain(f, &"one line \"first NAME\"", &found)
            }
            LineFault::Number { line, place }
            | LineFault::Hex { line, place }
            | LineFault::Name { line, place }
            | LineFault::Twice { line, place }
            | LineFault::Limit { line, place }
            | LineFault::Frame { line, place } => self.explain_word(f, line, place),
            LineFault::OutOfMemory => f.write_str("too little memory"),
        }
    }
}
