//! Bytes that stand in no scenario, by their names.

use std::fmt;

/// A byte of a line that is no printable ASCII.
#[derive(Clone, Copy)]
pub(crate) enum OddByte {
    Tab,
    /// A carriage return at the end of a line.
    LineEnd,
    CarriageReturn,
    ByteOrderMark,
    Other(u8),
}

impl OddByte {
    /// The byte of a line at a place.
    pub(crate) fn at(line: &[u8], place: usize) -> OddByte {
        match line.get(place..).unwrap_or(&[]) {
            [b'\t', ..] => OddByte::Tab,
            [b'\r'] => OddByte::LineEnd,
            [b'\r', ..] => OddByte::CarriageReturn,
            [0xef, 0xbb, 0xbf, ..] | [0xff, 0xfe, ..] | [0xfe, 0xff, ..] => OddByte::ByteOrderMark,
            [byte, ..] => OddByte::Other(*byte),
            [] => OddByte::Other(0),
        }
    }

    /// What is expected in its place.
    pub(crate) fn expected(self) -> &'static str {
        match self {
            OddByte::Tab => "words with spaces between them",
            OddByte::LineEnd => "a line that ends with a line feed alone",
            OddByte::CarriageReturn | OddByte::Other(_) => "printable ASCII characters",
            OddByte::ByteOrderMark => "ASCII text from the first byte on",
        }
    }
}

impl fmt::Display for OddByte {
    fn fmt<W: fmt::Write>(&self, f: &mut fmt::Formatter<W>) -> fmt::Result {
        match *self {
            OddByte::Tab => f.write_str("a tab"),
            OddByte::LineEnd => f.write_str("a carriage return before it (CRLF)"),
            OddByte::CarriageReturn => f.write_str("a carriage return"),
            OddByte::ByteOrderMark => f.write_str("a byte order mark (BOM)"),
            OddByte::Other(byte) => write!(f, "the byte {byte:02x}"),
        }
    }
}
