//! Names of nodes and files.

ghost use Rattle.std.specs.Prelude.{◌≡◌, IsTrue, SomeIff};
ghost use Rattle.scenario_reader.specs.Spelling.{is_name};

use crate::limits::MOST_LETTERS;
use crate::spelling::is_name;
use std::marker::Model;

/// A name of a node or a file: 1 to [`MOST_LETTERS`] letters, digits or underscores.
#[derive(Drop)]
pub struct Name {
    letters: [u8; MOST_LETTERS],
    len: u8,
}

impl Model for Name {
    ghost use Rattle.std.specs.Prelude.{ℕ, List, take, ◌≤◌, IsTrue};
    ghost use Rattle.scenario_reader.specs.declared.limits.TheConstants.{MOST_LETTERS};
    ghost use Rattle.scenario_reader.specs.Spelling.{is_name};

    ghost Value = { List ℕ };

    ghost view = { λ a. take a.len a.letters };

    ghost invariant = { λ a. (a.len ≤ MOST_LETTERS) × IsTrue (is_name (take a.len a.letters)) };
}

impl Name {
    /// The name with these bytes, None exactly where they are not spelled as one.
    pub fn new(bytes: &[u8]) -> Option<Name>
        ensures { SomeIff result (IsTrue (is_name bytes.now)) bytes.now }
    {
        if !is_name(bytes) {
            return None;
        }
        let mut letters = [0; MOST_LETTERS];
        letters[..bytes.len()].copy_from_slice(bytes);
        Some(Name {
            letters,
            len: bytes.len() as u8,
        })
    }

    /// The same name.
    pub fn copy(&self) -> Name
        ensures { result ≡ self.now }
    {
        Name {
            letters: self.letters,
            len: self.len,
        }
    }

    pub fn as_slice(&self) -> &[u8]
        ensures value { result.now ≡ self.now }
        ensures spelled { IsTrue (is_name self.now) }
    {
        &self.letters[..self.len as usize]
    }
}
