//! What is expected of a word.

use crate::message::shown::Grouped;
use ring_math::{DIGITS, MOST_BYTES};
use scenario_reader::{
    MOST_DELIVERIES, MOST_FILES, MOST_LETTERS, MOST_NAME_BYTES, MOST_NODES, MOST_REPEATS, Part,
};
use std::fmt;
use wire_msg::MOST_COPIES;

/// Two digits for each of a salt's eight bytes.
const SALT_DIGITS: usize = 2 * 8;

/// In which way a word is not what is expected.
#[derive(Clone, Copy)]
pub(crate) enum Lack {
    /// It is spelled in another way.
    Spelling,
    /// It is a number that is too large to be read.
    Size,
    /// It names what no earlier line declares.
    Declaration,
    /// An earlier line declares the same.
    Novelty,
    /// With it a limit is passed.
    Room,
    /// It spells a message.
    Noise,
}

/// What is expected of a word that stands for this, and lacks that.
#[derive(Clone, Copy)]
pub(crate) struct Expected {
    pub(crate) part: Part,
    pub(crate) lack: Lack,
}

/// What a word stands for.
fn noun(part: Part) -> &'static str {
    match part {
        Part::NewNode | Part::NewFile => "a name",
        Part::NewIdentifier => "an identifier",
        Part::NameBytes => "a file's NAME",
        Part::OwnerBytes => "a file's OWNER",
        Part::Salt => "a file's SALT",
        Part::Content => "a file's BYTES",
        Part::OldNode => "a node",
        Part::OldFile => "a file",
        Part::Key => "a key",
        Part::CopyCount => "a number of copies",
        Part::SettleCount | Part::ShuffleCount => "a number of deliveries",
        Part::MessageNumber => "the number of a message",
        Part::Seed => "a seed",
        Part::DupCount => "a number of times",
        Part::NoiseBytes => "noise",
    }
}

impl Expected {
    fn write_spelling<W: fmt::Write>(&self, f: &mut fmt::Formatter<W>) -> fmt::Result {
        f.write_str(noun(self.part))?;
        match self.part {
            Part::NewNode | Part::NewFile => {
                write!(f, " of 1 to {MOST_LETTERS} letters, digits or underscores")
            }
            Part::NewIdentifier => write!(f, " of {DIGITS} hexadecimal digits, - or @FILE"),
            Part::Key => write!(f, " of {DIGITS} hexadecimal digits, or @FILE"),
            Part::Salt => write!(f, " of {SALT_DIGITS} hexadecimal digits"),
            Part::NameBytes | Part::OwnerBytes | Part::Content | Part::NoiseBytes => {
                f.write_str(" in pairs of hexadecimal digits, or -")
            }
            _ => Ok(()),
        }
    }

    fn write_size<W: fmt::Write>(&self, f: &mut fmt::Formatter<W>) -> fmt::Result {
        match self.part {
            Part::Seed | Part::MessageNumber => {
                write!(f, "{} of at most {}", noun(self.part), Grouped(u64::MAX))
            }
            _ => self.write_limit(f),
        }
    }

    fn write_limit<W: fmt::Write>(&self, f: &mut fmt::Formatter<W>) -> fmt::Result {
        let noun = noun(self.part);
        match self.part {
            Part::NewNode => write!(f, "at most {MOST_NODES} nodes"),
            Part::NewFile => write!(f, "at most {MOST_FILES} files"),
            Part::NameBytes | Part::OwnerBytes => {
                write!(f, "{noun} of at most {MOST_NAME_BYTES} bytes")
            }
            Part::Content => write!(f, "{noun} of at most {} bytes", Grouped(MOST_BYTES as u64)),
            Part::CopyCount => write!(f, "{noun} from 1 to {MOST_COPIES}"),
            Part::DupCount => write!(f, "{noun} from 1 to {MOST_REPEATS}"),
            Part::SettleCount | Part::ShuffleCount | Part::MessageNumber => {
                let most = Grouped(MOST_DELIVERIES);
                write!(f, "at most {most} deliveries over all lines")
            }
            _ => f.write_str(noun),
        }
    }

    fn write_declaration<W: fmt::Write>(&self, f: &mut fmt::Formatter<W>) -> fmt::Result {
        f.write_str(match self.part {
            Part::NewIdentifier | Part::Key => "a file behind @ that an earlier line declares",
            Part::OldFile => "a file that an earlier line declares",
            _ => "a node that an earlier line declares",
        })
    }

    fn write_novelty<W: fmt::Write>(&self, f: &mut fmt::Formatter<W>) -> fmt::Result {
        f.write_str(match self.part {
            Part::NewIdentifier => "an identifier that no earlier node has",
            Part::NewFile => "a name that no earlier file has",
            _ => "a name that no earlier node has",
        })
    }
}

impl fmt::Display for Expected {
    fn fmt<W: fmt::Write>(&self, f: &mut fmt::Formatter<W>) -> fmt::Result {
        match self.lack {
            Lack::Spelling => self.write_spelling(f),
            Lack::Size => self.write_size(f),
            Lack::Declaration => self.write_declaration(f),
            Lack::Novelty => self.write_novelty(f),
            Lack::Room => self.write_limit(f),
            Lack::Noise => f.write_str("noise that is no message"),
        }
    }
}
