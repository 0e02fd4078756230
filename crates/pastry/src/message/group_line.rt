//! A fault of a script of groups in plain words, with the line that has it. What stands before the line `groups` is a scenario,
//! and its faults are told as such.

use crate::message::before::Before;
use crate::message::explained::{Explained, Spot};
use crate::message::line::{first_word, line_of, lines_before, word_at, word_numbered};
use crate::message::shown::{Grouped, Shown};
use ring_math::MOST_BYTES;
use scenario_reader::{LineFault, MOST_DELIVERIES, MOST_LETTERS};
use std::alloc::Global;
use std::fmt;

const MARK: &[u8] = b"groups";

const FIRST_WORDS: &str = "subscribe, leave, publish, settle or deliver";

/// What a word of a line behind the mark stands for.
#[derive(Clone, Copy)]
enum GroupPart {
    Node,
    Group,
    Content,
    DeliveryCount,
    MessageNumber,
}

/// What the words behind a first word stand for; None if no line begins with it.
fn parts_behind(first: &[u8]) -> Option<&'static [GroupPart]> {
    match first {
        b"subscribe" | b"leave" => Some(&[GroupPart::Node, GroupPart::Group]),
        b"publish" => Some(&[GroupPart::Node, GroupPart::Group, GroupPart::Content]),
        b"settle" => Some(&[GroupPart::DeliveryCount]),
        b"deliver" => Some(&[GroupPart::MessageNumber]),
        _ => None,
    }
}

impl GroupPart {
    /// The word in capitals, as docs/GROUPS.md has it.
    fn name(self) -> &'static str {
        match self {
            GroupPart::Node => "NAME",
            GroupPart::Group => "GROUP",
            GroupPart::Content => "HEX",
            GroupPart::DeliveryCount | GroupPart::MessageNumber => "N",
        }
    }
}

/// What is expected of a word that stands for this.
#[derive(Clone, Copy)]
struct ExpectedPart {
    part: GroupPart,
    is_limit: bool,
}

impl fmt::Display for ExpectedPart {
    fn fmt<W: fmt::Write>(&self, f: &mut fmt::Formatter<W>) -> fmt::Result {
        match self.part {
            GroupPart::Node => f.write_str("a node that the scenario declares"),
            GroupPart::Group => write!(
                f,
                "a group of 1 to {MOST_LETTERS} letters, digits or underscores"
            ),
            GroupPart::Content if self.is_limit => {
                write!(f, "at most {} bytes", Grouped(MOST_BYTES as u64))
            }
            GroupPart::Content => f.write_str("bytes in pairs of hexadecimal digits, or -"),
            GroupPart::DeliveryCount | GroupPart::MessageNumber if self.is_limit => write!(
                f,
                "at most {} deliveries over all lines behind the line \"groups\"",
                Grouped(MOST_DELIVERIES)
            ),
            GroupPart::DeliveryCount => f.write_str("a number of deliveries"),
            GroupPart::MessageNumber => f.write_str("the number of a message"),
        }
    }
}

/// A form of line with its first word, in quotes.
#[derive(Drop)]
struct GroupForm<'a>(&'a [u8]);

impl fmt::Display for GroupForm<'_> {
    fn fmt<W: fmt::Write>(&self, f: &mut fmt::Formatter<W>) -> fmt::Result {
        f.write_str("as many words as \"")?;
        for byte in self.0 {
            f.write_char(char::from(*byte))?;
        }
        for part in parts_behind(self.0).unwrap_or(&[]) {
            write!(f, " {}", part.name())?;
        }
        f.write_char('"')
    }
}

/// The number of a fault's line; 0 if it has none.
fn line_at_fault(fault: &LineFault) -> u32 {
    match *fault {
        LineFault::TooLong { line }
        | LineFault::NotText { line, .. }
        | LineFault::Word { line, .. }
        | LineFault::Count { line, .. }
        | LineFault::Number { line, .. }
        | LineFault::Hex { line, .. }
        | LineFault::Name { line, .. }
        | LineFault::Twice { line, .. }
        | LineFault::NoFounder { line }
        | LineFault::SecondFounder { line }
        | LineFault::Limit { line, .. }
        | LineFault::Frame { line, .. } => line,
        LineFault::OutOfMemory => 0,
    }
}

/// The number of the first line that is the mark.
fn line_of_mark(text: &[u8]) -> Option<u32> {
    let mut lines = text.split(|byte| *byte == b'\n');
    let place = lines.position(|line| line == MARK)?;
    u32::try_from(place.saturating_add(1)).ok()
}

/// A fault of a script of groups.
#[derive(Drop)]
pub(crate) struct ExplainedScript<'a> {
    fault: &'a LineFault,
    text: &'a [u8],
    mark: Option<u32>,
    before: Before,
}

impl<'a> ExplainedScript<'a> {
    pub(crate) fn new(alloc: Global, fault: &'a LineFault, text: &'a [u8]) -> ExplainedScript<'a> {
        let mark = line_of_mark(text);
        let before = Before::new(alloc, fault, text);
        ExplainedScript {
            fault,
            text,
            mark,
            before,
        }
    }

    fn spot(&self, number: u32, place: usize) -> Spot<'_> {
        Spot {
            number,
            line: line_of(self.text, number),
            place,
        }
    }

    /// A fault of the scenario before the mark, or one that no form of line has to do with.
    fn explain_scenario<W: fmt::Write>(&self, f: &mut fmt::Formatter<W>) -> fmt::Result {
        let text = match self.mark {
            Some(mark) if line_at_fault(self.fault) <= mark => lines_before(self.text, mark),
            _ => self.text,
        };
        let explained = Explained {
            fault: self.fault,
            text,
            before: self.before,
        };
        write!(f, "{explained}")
    }

    /// The first word of a line behind the mark is none of the table's.
    fn explain_first<W: fmt::Write>(&self, f: &mut fmt::Formatter<W>, number: u32) -> fmt::Result {
        let line = line_of(self.text, number);
        let place = match word_numbered(line, 0) {
            Some(word) => word.place,
            None => 0,
        };
        self.spot(number, place)
            .explain(f, &FIRST_WORDS, &Shown(first_word(line)))
    }

    /// A word of a line behind the mark is not what is expected.
    fn explain_word<W: fmt::Write>(
        &self,
        f: &mut fmt::Formatter<W>,
        number: u32,
        place: u32,
        is_limit: bool,
    ) -> fmt::Result {
        let line = line_of(self.text, number);
        let parts = parts_behind(first_word(line)).unwrap_or(&[]);
        let found = word_at(line, place);
        let spot = self.spot(number, found.place);
        for (number, part) in parts.iter().enumerate() {
            if let Some(word) = word_numbered(line, number.saturating_add(1)) {
                if word.place == found.place {
                    let part = *part;
                    return spot.explain(f, &ExpectedPart { part, is_limit }, &Shown(found.text));
                }
            }
        }
        spot.explain(f, &"what docs/GROUPS.md has here", &Shown(found.text))
    }
}

impl fmt::Display for ExplainedScript<'_> {
    fn fmt<W: fmt::Write>(&self, f: &mut fmt::Formatter<W>) -> fmt::Result {
        let is_behind = match self.mark {
            Some(mark) => line_at_fault(self.fault) > mark,
            None => false,
        };
        match *self.fault {
            LineFault::Word { line, .. } if is_behind => self.explain_first(f, line),
            LineFault::Word { line, place: 0 }
                if self.mark.is_none() && line_of(self.text, line).is_empty() => {
                write!(
                    f,
                    "line {line}: expected a line \"groups\" behind the scenario, found the end of the input"
                )
            }
            LineFault::Count { line, .. } if is_behind => {
                let first = first_word(line_of(self.text, line));
                self.spot(line, 0)
                    .explain(f, &GroupForm(first), &Shown(line_of(self.text, line)))
            }
            LineFault::Number { line, place }
            | LineFault::Hex { line, place }
            | LineFault::Name { line, place }
                if is_behind => { self.explain_word(f, line, place, false) }
            LineFault::Limit { line, place } if is_behind && place > 0 => {
                self.explain_word(f, line, place, true)
            }
            _ => self.explain_scenario(f),
        }
    }
}
