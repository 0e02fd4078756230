//! Why words of the command line are refused.

use std::fmt;

/// What the command says of words that it refuses, as one line, without its usage and with ranges in words.
#[derive(Drop)]
pub(crate) struct Cause<'a>(pub(crate) &'a str);

/// Writes a line. A control character stands by its number.
fn write_plain<W: fmt::Write>(f: &mut fmt::Formatter<W>, line: &str) -> fmt::Result {
    for letter in line.chars() {
        if letter.is_control() {
            write!(f, "\\u{{{:x}}}", letter as u32)?;
        } else {
            f.write_char(letter)?;
        }
    }
    Ok(())
}

/// Writes what stands before a line that follows another: a tip is a sentence of its own.
fn write_gap<W: fmt::Write>(f: &mut fmt::Formatter<W>, line: &str) -> fmt::Result {
    if line.starts_with("tip: ") {
        f.write_str("; ")
    } else {
        f.write_char(' ')
    }
}

/// Writes a text as one line.
fn write_line<W: fmt::Write>(f: &mut fmt::Formatter<W>, text: &str) -> fmt::Result {
    let mut is_begun = false;
    for line in text.split('\n') {
        let line = line.trim_start();
        if !line.is_empty() {
            if is_begun {
                write_gap(f, line)?;
            }
            write_plain(f, line)?;
            is_begun = true;
        }
    }
    Ok(())
}

impl fmt::Display for Cause<'_> {
    fn fmt<W: fmt::Write>(&self, f: &mut fmt::Formatter<W>) -> fmt::Result {
        let text = self.0.strip_prefix("error: ").unwrap_or(self.0);
        let text = match text.split_once("\n\nUsage: ") {
            Some((text, _)) => text,
            None => text,
        };
        // A range stands behind the last colon, and no word that was given does.
        match text.rsplit_once("': ") {
            Some((word, why)) => {
                write_line(f, word)?;
                f.write_str("': ")?;
                write_range(f, why)
            }
            None => write_line(f, text),
        }
    }
}

/// Writes why a number is refused: `2 to 256` for `2..=256`.
fn write_range<W: fmt::Write>(f: &mut fmt::Formatter<W>, why: &str) -> fmt::Result {
    match why.split_once("..=") {
        Some((least, most)) => {
            write_line(f, least)?;
            f.write_str(" to ")?;
            write_line(f, most)
        }
        None => write_line(f, why),
    }
}
