//! Commands whose inserts are over.

ghost use Rattle.std.specs.Prelude.{◌≡◌, ◌++◌, ◌∷◌, [], OnOk, OnErr};

use ring_math::{Id, OutOfMemory};
use std::alloc::Global;
use std::marker::Model;

/// Commands by their origin and number, in the order in which their inserts came.
#[derive(Drop)]
pub struct Asks {
    items: Vec<(Id, u64)>,
}

impl Model for Asks {
    ghost use Rattle.std.specs.Prelude.{ℕ, List};

    ghost Value = { List (ℕ × ℕ) };

    ghost view = { λ a. a.items.items };
}

impl Asks {
    pub fn new(alloc: Global) -> Asks
        ensures { result ≡ [] }
    {
        Asks {
            items: Vec::new(alloc),
        }
    }

    pub fn as_slice(&self) -> &[(Id, u64)]
        ensures { result.now ≡ self.now }
    {
        &self.items
    }

    pub fn push(&mut self, item: (Id, u64)) -> Result<(), OutOfMemory>
        ensures ok { OnOk result (self.new ≡ self.old ++ item ∷ []) }
        ensures err { OnErr result (self.new ≡ self.old) }
    {
        self.items.push(item)?;
        Ok(())
    }
}
