//! Fetches that access points answered.

ghost use Rattle.std.specs.Prelude.{◌≡◌, ◌++◌, ◌∷◌, [], OnOk, OnErr};

use ring_math::{Bytes, OutOfMemory};
use std::alloc::Global;
use std::marker::Model;

/// A fetch that hit: the number of the command, and the bytes that its node's access point remembered.
#[derive(Drop)]
pub struct Hit {
    pub number: u64,
    pub bytes: Bytes,
}

/// Hits, in the order in which they came.
#[derive(Drop)]
pub struct Hits {
    items: Vec<Hit>,
}

impl Model for Hits {
    ghost use Rattle.std.specs.Prelude.{List};
    ghost use Rattle.fetch_cache.specs.declared.hit.Hit.{Hit};

    ghost Value = { List Hit };

    ghost view = { λ a. a.items.items };
}

impl Hits {
    /// None yet. It takes no memory.
    pub(crate) fn new(alloc: Global) -> Hits
        ensures { result ≡ [] }
    {
        Hits {
            items: Vec::new(alloc),
        }
    }

    pub(crate) fn push(&mut self, hit: Hit) -> Result<(), OutOfMemory>
        ensures ok { OnOk result (self.new ≡ self.old ++ hit ∷ []) }
        ensures err { OnErr result (self.new ≡ self.old) }
    {
        self.items.push(hit)?;
        Ok(())
    }

    /// The hits, in the order in which they came.
    pub fn as_slice(&self) -> &[Hit]
        ensures { result.now ≡ self.now }
    {
        &self.items
    }
}
