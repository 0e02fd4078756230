//! Words, numbers and lines as messages show them.

use std::fmt;

/// At most so many bytes of a word are shown.
const MOST_OF_A_WORD: usize = 40;

/// At most so many bytes of a line are shown, and of these so many before the place that is pointed at.
const MOST_OF_A_LINE: usize = 72;

const MOST_BEFORE: usize = 48;

/// A word in quotes, cut where it is long. Quotes in it are escaped, and a byte that is no text stands by its number.
#[derive(Drop)]
pub(crate) struct Shown<'a>(pub(crate) &'a [u8]);

impl fmt::Display for Shown<'_> {
    fn fmt<W: fmt::Write>(&self, f: &mut fmt::Formatter<W>) -> fmt::Result {
        f.write_str("\"")?;
        for byte in self.0.iter().take(MOST_OF_A_WORD) {
            match *byte {
                b'"' => f.write_str("\\\"")?,
                b'\\' => f.write_str("\\\\")?,
                b' '..=b'~' => f.write_char(char::from(*byte))?,
                other => write!(f, "\\x{other:02x}")?,
            }
        }
        f.write_str(if self.0.len() > MOST_OF_A_WORD {
            "\".."
        } else {
            "\""
        })
    }
}

/// The values of the groups of three digits that a number may have.
const GROUPS: [u64; 7] = [
    1_000_000_000_000_000_000,
    1_000_000_000_000_000,
    1_000_000_000_000,
    1_000_000_000,
    1_000_000,
    1_000,
    1,
];

/// A number with a comma before each three digits.
#[derive(Clone, Copy)]
pub(crate) struct Grouped(pub(crate) u64);

impl fmt::Display for Grouped {
    fn fmt<W: fmt::Write>(&self, f: &mut fmt::Formatter<W>) -> fmt::Result {
        let mut is_begun = false;
        for value in GROUPS {
            let group = self.0.checked_div(value).unwrap_or(0) % 1_000;
            if is_begun {
                write!(f, ",{group:03}")?;
            } else if group > 0 || value == 1 {
                write!(f, "{group}")?;
                is_begun = true;
            }
        }
        Ok(())
    }
}

/// A line under a message, with a caret below a place. Of a long line what stands about the place is shown. A byte that is no
/// text is shown as `?`.
#[derive(Drop)]
pub(crate) struct Excerpt<'a> {
    pub(crate) line: &'a [u8],
    pub(crate) place: usize,
}

impl Excerpt<'_> {
    /// How many bytes of the line are left out at its front.
    fn left_out(&self) -> usize {
        if self.line.len() <= MOST_OF_A_LINE {
            0
        } else {
            self.place.saturating_sub(MOST_BEFORE)
        }
    }
}

impl fmt::Display for Excerpt<'_> {
    fn fmt<W: fmt::Write>(&self, f: &mut fmt::Formatter<W>) -> fmt::Result {
        let left_out = self.left_out();
        let (dots, spaces) = if left_out > 0 { ("..", "  ") } else { ("", "") };
        let rest = self.line.get(left_out..).unwrap_or(&[]);
        write!(f, "\n    {dots}")?;
        for byte in rest.iter().take(MOST_OF_A_LINE) {
            f.write_char(match *byte {
                b' '..=b'~' => char::from(*byte),
                _ => '?',
            })?;
        }
        let behind = if rest.len() > MOST_OF_A_LINE {
            ".."
        } else {
            ""
        };
        write!(f, "{behind}\n    {spaces}")?;
        for _ in left_out..self.place {
            f.write_char(' ')?;
        }
        f.write_char('^')
    }
}
