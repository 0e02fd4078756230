//! What a scenario declares.

use crate::name::Name;
use crate::named::Named;
use ring_math::{Bytes, FileId, Id};

/// A node that a scenario declares.
#[derive(Drop)]
pub struct NodeLine {
    pub name: Name,
    pub id: Id,
    pub line: u32,
}

/// A file that a scenario declares.
#[derive(Drop)]
pub struct FileLine {
    pub name: Name,
    pub file: FileId,
    pub bytes: Bytes,
    pub line: u32,
}

impl Named for NodeLine {
    ghost name_of = { λ node. node.name };

    fn name(&self) -> &[u8] {
        self.name.as_slice()
    }
}

impl Named for FileLine {
    ghost name_of = { λ file. file.name };

    fn name(&self) -> &[u8] {
        self.name.as_slice()
    }
}
