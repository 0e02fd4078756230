//! A form of line as it is written: its first word, and the words behind it in capitals, as docs/SCENARIOS.md has them.

use scenario_reader::{Form, Part};
use std::fmt;

/// The name of a word with this number among those behind the first, from 0 on.
fn name_of(part: Part, number: usize) -> &'static str {
    match part {
        Part::OldNode if number > 0 => "VIA",
        Part::NewNode | Part::OldNode | Part::NameBytes => "NAME",
        Part::NewIdentifier => "ID",
        Part::NewFile | Part::OldFile => "FILE",
        Part::OwnerBytes => "OWNER",
        Part::Salt => "SALT",
        Part::Content => "BYTES",
        Part::Key => "KEY",
        Part::CopyCount => "K",
        Part::SettleCount | Part::ShuffleCount | Part::MessageNumber | Part::DupCount => "N",
        Part::Seed => "SEED",
        Part::NoiseBytes => "HEX",
    }
}

/// The name of the word that stands at this number behind the first, from 0 on.
pub(crate) fn name_in(form: Form, number: usize) -> Option<&'static str> {
    let part = form.parts().get(number)?;
    Some(name_of(*part, number))
}

/// A form of line with its first word, in quotes.
#[derive(Drop)]
pub(crate) struct Written<'a> {
    pub(crate) first: &'a [u8],
    pub(crate) form: Form,
}

impl fmt::Display for Written<'_> {
    fn fmt<W: fmt::Write>(&self, f: &mut fmt::Formatter<W>) -> fmt::Result {
        f.write_char('"')?;
        for byte in self.first {
            f.write_char(char::from(*byte))?;
        }
        for (number, part) in self.form.parts().iter().enumerate() {
            write!(f, " {}", name_of(*part, number))?;
        }
        f.write_char('"')
    }
}
