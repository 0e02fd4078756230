//! What is said of the word that was found.

use crate::message::before::Before;
use crate::message::shown::{Grouped, Shown};
use scenario_reader::{LineFault, Part};
use std::fmt;

/// Why a word is not what is expected. Where one byte is at fault, its place in the word.
#[derive(Clone, Copy)]
pub(crate) enum Remark {
    Nothing,
    /// It begins a comment.
    Comment,
    LeadingZero,
    NoNumber { place: usize },
    TooLarge,
    TooSmall,
    NoDigit { place: usize },
    NoLetter { place: usize },
    Digits { count: usize },
    OddDigits { count: usize },
    Letters { count: usize },
    Bytes { count: usize },
    /// One more than there may be.
    OneMore,
    /// An earlier line declares the same name.
    NameOf { line: u32 },
    /// An earlier line declares a node with the same identifier.
    IdentifierOf { line: u32 },
    /// With those of the lines before, too many deliveries are asked for.
    Deliveries { before: u64, here: u64 },
}

fn of_number(word: &[u8]) -> Remark {
    match word.iter().position(|byte| !byte.is_ascii_digit()) {
        Some(place) => Remark::NoNumber { place },
        None if word.starts_with(b"0") => Remark::LeadingZero,
        None => Remark::TooLarge,
    }
}

fn of_digits(part: Part, word: &[u8]) -> Remark {
    let count = word.len();
    let place = word.iter().position(|byte| !byte.is_ascii_hexdigit());
    match (place, part) {
        (Some(place), _) => Remark::NoDigit { place },
        (None, Part::NewIdentifier | Part::Key | Part::Salt) => Remark::Digits { count },
        (None, _) => Remark::OddDigits { count },
    }
}

fn of_name(part: Part, word: &[u8]) -> Remark {
    if !matches!(part, Part::NewNode | Part::NewFile) {
        return Remark::Nothing;
    }
    let is_letter = |byte: &u8| byte.is_ascii_alphanumeric() || *byte == b'_';
    match word.iter().position(|byte| !is_letter(byte)) {
        Some(place) => Remark::NoLetter { place },
        None => Remark::Letters { count: word.len() },
    }
}

fn of_limit(part: Part, word: &[u8], before: &Before) -> Remark {
    match part {
        Part::NewNode | Part::NewFile => Remark::OneMore,
        Part::NameBytes | Part::OwnerBytes | Part::Content => Remark::Bytes {
            count: word.len() / 2,
        },
        _ if word == b"0".as_slice() => Remark::TooSmall,
        _ => match before.deliveries {
            Some(asked) => Remark::Deliveries {
                before: asked.before,
                here: asked.here,
            },
            None => Remark::TooLarge,
        },
    }
}

/// What is said of a word that stands for this and has this fault.
pub(crate) fn remark_on(fault: &LineFault, part: Part, word: &[u8], before: &Before) -> Remark {
    let is_comment = word.starts_with(b"#");
    match fault {
        LineFault::Number { .. } | LineFault::Hex { .. } | LineFault::Name { .. } if is_comment => {
            Remark::Comment
        }
        LineFault::Number { .. } => of_number(word),
        LineFault::Hex { .. } => of_digits(part, word),
        LineFault::Name { .. } => of_name(part, word),
        LineFault::Limit { .. } => of_limit(part, word, before),
        LineFault::Twice { .. } => match before.line {
            Some(line) if matches!(part, Part::NewIdentifier) => Remark::IdentifierOf { line },
            Some(line) => Remark::NameOf { line },
            None => Remark::Nothing,
        },
        _ => Remark::Nothing,
    }
}

impl Remark {
    /// Where in the word the fault is.
    pub(crate) fn place(self) -> usize {
        match self {
            Remark::NoNumber { place } | Remark::NoDigit { place } | Remark::NoLetter { place } =>
                place,
            _ => 0,
        }
    }
}

/// A word that was found, and what is said of it.
#[derive(Drop)]
pub(crate) struct Found<'a> {
    pub(crate) word: &'a [u8],
    pub(crate) remark: Remark,
}

/// The plural's ending for so many.
fn ending(count: usize) -> &'static str {
    if count == 1 { "" } else { "s" }
}

impl Found<'_> {
    /// Writes how many there are of what a word has.
    fn write_count<W: fmt::Write>(
        f: &mut fmt::Formatter<W>,
        count: usize,
        what: &str,
    ) -> fmt::Result {
        let ending = ending(count);
        write!(f, ", which has {} {what}{ending}", Grouped(count as u64))
    }

    /// Writes that a byte of a word is no such thing.
    fn write_stranger<W: fmt::Write>(
        &self,
        f: &mut fmt::Formatter<W>,
        place: usize,
        what: &str,
    ) -> fmt::Result {
        let stranger = Shown(
            self.word
                .get(place..)
                .unwrap_or(&[])
                .get(..1)
                .unwrap_or(&[]),
        );
        write!(f, ", in which {stranger} is no {what}")
    }

    fn write_deliveries<W: fmt::Write>(
        f: &mut fmt::Formatter<W>,
        before: u64,
        here: u64,
    ) -> fmt::Result {
        let (before, here) = (Grouped(before), Grouped(here));
        write!(
            f,
            ", which asks for {here} after the {before} of earlier lines"
        )
    }
}

impl fmt::Display for Found<'_> {
    fn fmt<W: fmt::Write>(&self, f: &mut fmt::Formatter<W>) -> fmt::Result {
        if matches!(self.remark, Remark::Comment) {
            return f.write_str("a comment, which is to stand on a line of its own");
        }
        write!(f, "{}", Shown(self.word))?;
        match self.remark {
            Remark::Nothing | Remark::Comment => Ok(()),
            Remark::LeadingZero => f.write_str(", which begins with 0"),
            Remark::NoNumber { .. } => f.write_str(", which is no number"),
            Remark::TooLarge => f.write_str(", which is too large"),
            Remark::TooSmall => f.write_str(", which is too small"),
            Remark::NoDigit { place } => self.write_stranger(f, place, "hexadecimal digit"),
            Remark::NoLetter { place } => {
                self.write_stranger(f, place, "letter, digit or underscore")
            }
            Remark::Digits { count } => Found::write_count(f, count, "digit"),
            Remark::OddDigits { count } => {
                Found::write_count(f, count, "digit")?;
                f.write_str(", an odd number")
            }
            Remark::Letters { count } => Found::write_count(f, count, "character"),
            Remark::Bytes { count } => Found::write_count(f, count, "byte"),
            Remark::OneMore => f.write_str(", which is one more"),
            Remark::NameOf { line } => write!(f, ", which line {line} declares"),
            Remark::IdentifierOf { line } => write!(f, ", which the node of line {line} has"),
            Remark::Deliveries { before, here } => Found::write_deliveries(f, before, here),
        }
    }
}
