//! Bytes of any number.

ghost use Rattle.std.specs.Prelude.{◌≡◌, ◌++◌, ◌∷◌, [], IfOk, OnOk, OnErr};

use ring_math::OutOfMemory;
use std::alloc::Global;
use std::marker::Model;

/// A string of bytes: one frame, or a text.
#[derive(Drop)]
pub struct Frame {
    items: Vec<u8>,
}

impl Model for Frame {
    ghost use Rattle.std.specs.Prelude.{ℕ, List};

    ghost Value = { List ℕ };

    ghost view = { λ a. a.items.items };
}

impl Frame {
    /// No byte yet. It takes no memory.
    pub fn new(alloc: Global) -> Frame
        ensures { result ≡ [] }
    {
        Frame {
            items: Vec::new(alloc),
        }
    }

    pub fn copy_of(alloc: Global, bytes: &[u8]) -> Result<Frame, OutOfMemory>
        ensures { IfOk result (λ frame. frame ≡ bytes.now) }
    {
        let items = bytes.to_vec(alloc)?;
        Ok(Frame { items })
    }

    pub fn as_slice(&self) -> &[u8]
        ensures { result.now ≡ self.now }
    {
        &self.items
    }

    pub fn push(&mut self, item: u8) -> Result<(), OutOfMemory>
        ensures ok { OnOk result (self.new ≡ self.old ++ item ∷ []) }
        ensures err { OnErr result (self.new ≡ self.old) }
    {
        self.items.push(item)?;
        Ok(())
    }
}

/// The bytes that were written into a vector. It takes no memory.
impl From<Vec<u8>> for Frame {
    ghost from_gives = { λ bytes frame. frame ≡ bytes.items };

    fn from(bytes: Vec<u8>) -> Frame {
        Frame { items: bytes }
    }
}
