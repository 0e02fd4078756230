//! Lists with a limit: bytes of a file, identifiers and files that one message names. A list that is done is shared: a
//! copy is one owner more of the same memory.

ghost use Rattle.std.specs.Prelude.{◌≡◌, ◌<◌, ◌≤◌, ◌+◌, ◌++◌, ◌∷◌, [], ◌↔◌, IsTrue, length, IfOk, IfErr, Err, All, Contains};
ghost use Rattle.ring_math.specs.Members.{InRing};
ghost use Rattle.std.specs.Bool.{OnTrue, OnFalse};

use crate::file::FileId;
use crate::id::Id;
use crate::limits::{MOST_BYTES, MOST_ENTRIES, MOST_MEMBERS};
use crate::memory::OutOfMemory;
use std::alloc::{AllocError, Global};
use std::marker::Model;
use std::sync::{Arc, ArcSlice};

/// The bytes of a file, at most [`MOST_BYTES`].
#[derive(Drop)]
pub struct Bytes {
    items: ArcSlice<u8>,
}

impl Model for Bytes {
    ghost use Rattle.std.specs.Prelude.{ℕ, List, length, ◌≤◌};
    ghost use Rattle.std.specs.Arc.{arc_slice_items};
    ghost use Rattle.ring_math.specs.declared.limits.TheConstants.{MOST_BYTES};

    ghost Value = { List ℕ };

    ghost view = { λ a. arc_slice_items a.items };

    ghost invariant = { λ a. length (arc_slice_items a.items) ≤ MOST_BYTES };
}

/// Each byte is below 256: a law, which does nothing.
pub(crate) fn bytes_law(bytes: &[u8])
    ensures { All (λ byte. byte < 256) bytes.now }
{}

/// Why bytes were not copied.
#[derive(Clone, Copy, PartialEq, Eq, Debug)]
pub enum BytesFault {
    /// There are more than [`MOST_BYTES`].
    TooLong { found: usize },
    /// Memory was refused.
    OutOfMemory,
}

impl From<AllocError> for BytesFault {
    ghost use Rattle.ring_math.specs.declared.lists.BytesFault.TheVariants.{OutOfMemory};

    ghost from_gives = { λ _ fault. fault ≡ OutOfMemory };

    fn from(_error: AllocError) -> BytesFault {
        BytesFault::OutOfMemory
    }
}

impl Bytes {
    /// A copy of these bytes. `TooLong` comes exactly where there are more than [`MOST_BYTES`], before memory is taken, and
    /// `OutOfMemory` only of others.
    pub fn copy_of(alloc: Global, bytes: &[u8]) -> Result<Bytes, BytesFault>
        ensures copied { IfOk result (λ copy. copy ≡ bytes.now) }
        ensures too_long { MOST_BYTES < length bytes.now → result ≡ Err (BytesFault.TooLong (length bytes.now)) }
        ensures fits { length bytes.now ≤ MOST_BYTES → IfErr result (λ fault. fault ≡ BytesFault.OutOfMemory) }
    {
        if bytes.len() > MOST_BYTES {
            return Err(BytesFault::TooLong { found: bytes.len() });
        }
        let items = ArcSlice::from_slice(alloc, bytes)?;
        Ok(Bytes { items })
    }

    /// The bytes, in order.
    pub fn as_slice(&self) -> &[u8]
        ensures value { result.now ≡ self.now }
        ensures limit { length self.now ≤ MOST_BYTES }
    {
        self.items.as_slice()
    }

    /// A file has at most [`MOST_BYTES`] bytes: a law, which does nothing.
    pub fn range_law(&self)
        ensures length { length self.now ≤ MOST_BYTES }
        ensures bytes { All (λ byte. byte < 256) self.now }
    {
        bytes_law(self.items.as_slice());
    }

    /// The same bytes, shared.
    pub fn copy(&self, _alloc: Global) -> Result<Bytes, OutOfMemory>
        ensures { IfOk result (λ bytes. bytes ≡ self.now) }
    {
        let items = self.items.clone()?;
        Ok(Bytes { items })
    }
}

/// Identifiers while they are being listed, at most [`MOST_MEMBERS`]. It takes no memory until it is done.
#[derive(Drop)]
pub struct IdsBuilder {
    ids: [Id; MOST_MEMBERS],
    len: usize,
}

impl Model for IdsBuilder {
    ghost use Rattle.std.specs.Prelude.{ℕ, List, take, ◌≤◌, Contains};
    ghost use Rattle.ring_math.specs.Members.{InRing};
    ghost use Rattle.ring_math.specs.declared.limits.TheConstants.{MOST_MEMBERS};

    ghost Value = { List ℕ };

    ghost view = { λ a. take a.len a.ids };

    ghost invariant = { λ a. (a.len ≤ MOST_MEMBERS) × InRing (Contains (take a.len a.ids)) };
}

impl IdsBuilder {
    /// No identifier yet.
    pub fn new() -> IdsBuilder
        ensures { result ≡ [] }
    {
        IdsBuilder {
            ids: [Id(0); MOST_MEMBERS],
            len: 0,
        }
    }

    /// Adds an identifier at the end. It takes no memory, and answers false, with nothing changed, exactly where [`MOST_MEMBERS`] are held.
    pub fn push(&mut self, id: Id) -> bool
        ensures answer { IsTrue result ↔ (length self.old < MOST_MEMBERS) }
        ensures pushed { OnTrue result (self.new ≡ self.old ++ id ∷ []) }
        ensures full { OnFalse result (self.new ≡ self.old) }
    {
        if self.len == MOST_MEMBERS {
            return false;
        }
        self.ids[self.len] = id;
        self.len += 1;
        true
    }

    /// Adds an identifier at the end, where fewer than [`MOST_MEMBERS`] are held. It takes no memory.
    pub fn append(&mut self, id: Id)
        requires { length self.old < MOST_MEMBERS }
        ensures { self.new ≡ self.old ++ id ∷ [] }
    {
        let _pushed = self.push(id);
    }

    /// Adds these at the end, in their order, where there is room for all. It takes no memory, and is faster than adding one after
    /// another.
    pub fn extend(&mut self, ids: &[Id])
        requires room { length self.old + length ids.now ≤ MOST_MEMBERS }
        requires in_ring { InRing (Contains ids.now) }
        ensures { self.new ≡ self.old ++ ids.now }
    {
        let end = self.len + ids.len();
        let room = &mut self.ids[..];
        room[self.len..end].copy_from_slice(ids);
        self.len = end;
    }

    /// The identifiers, in the order in which they were added.
    pub fn as_slice(&self) -> &[Id]
        ensures value { result.now ≡ self.now }
        ensures limit { length self.now ≤ MOST_MEMBERS }
    {
        &self.ids[..self.len]
    }

    /// Each is below 2^128: a law, which does nothing, as that of one identifier.
    pub fn range_law(&self)
        ensures { InRing (Contains self.now) }
    {
        let _len = self.len;
    }

    /// The list that these make.
    pub fn finish(self, alloc: Global) -> Result<Ids, OutOfMemory>
        ensures { IfOk result (λ ids. ids ≡ self) }
    {
        let list = Arc::new(alloc, self)?;
        Ok(Ids { list })
    }
}

/// At most [`MOST_MEMBERS`] identifiers, in an order that means something.
#[derive(Drop)]
pub struct Ids {
    list: Arc<IdsBuilder>,
}

impl Model for Ids {
    ghost use Rattle.std.specs.Prelude.{ℕ, List};
    ghost use Rattle.std.specs.Arc.{arc_value};

    ghost Value = { List ℕ };

    ghost view = { λ a. arc_value a.list };
}

impl Ids {
    /// The identifiers, in the order in which they were added.
    pub fn as_slice(&self) -> &[Id]
        ensures value { result.now ≡ self.now }
        ensures limit { length self.now ≤ MOST_MEMBERS }
    {
        self.list.as_slice()
    }

    /// Each is below 2^128: a law, which does nothing, as that of one identifier.
    pub fn range_law(&self)
        ensures { InRing (Contains self.now) }
    {
        self.list.range_law();
    }

    /// The same identifiers, shared.
    pub fn copy(&self, _alloc: Global) -> Result<Ids, OutOfMemory>
        ensures { IfOk result (λ ids. ids ≡ self.now) }
    {
        let list = self.list.clone()?;
        Ok(Ids { list })
    }
}

/// Identifiers of files, at most [`MOST_ENTRIES`], in an order that means something. A list without any has no memory, so that
/// nodes that hold no files, as while they join, count no owners of it.
#[derive(Drop)]
pub struct FileIds {
    items: Option<ArcSlice<FileId>>,
}

impl Model for FileIds {
    ghost use Rattle.std.specs.Prelude.{ℕ, List, length, ◌≤◌};
    ghost use Rattle.std.specs.Arc.{arc_slice_items};
    ghost use Rattle.ring_math.specs.Shared.{items_in};
    ghost use Rattle.ring_math.specs.declared.limits.TheConstants.{MOST_ENTRIES};

    ghost Value = { List (List ℕ) };

    ghost view = { λ a. items_in arc_slice_items a.items };

    ghost invariant = { λ a. length (items_in arc_slice_items a.items) ≤ MOST_ENTRIES };
}

impl FileIds {
    /// These files, in this order.
    pub fn of(files: Vec<FileId>) -> Result<FileIds, OutOfMemory>
        requires { length files.items ≤ MOST_ENTRIES }
        ensures { IfOk result (λ list. list ≡ files.items) }
    {
        if files.is_empty() {
            return Ok(FileIds { items: None });
        }
        let items = ArcSlice::from_vec(files)?;
        Ok(FileIds { items: Some(items) })
    }

    /// A copy of these files, which takes memory for no more.
    pub fn copy_of(alloc: Global, files: &[FileId]) -> Result<FileIds, OutOfMemory>
        requires { length files.now ≤ MOST_ENTRIES }
        ensures { IfOk result (λ list. list ≡ files.now) }
    {
        if files.is_empty() {
            return Ok(FileIds { items: None });
        }
        let items = ArcSlice::from_slice(alloc, files)?;
        Ok(FileIds { items: Some(items) })
    }

    /// The files, in order.
    pub fn as_slice(&self) -> &[FileId]
        ensures value { result.now ≡ self.now }
        ensures limit { length self.now ≤ MOST_ENTRIES }
    {
        match &self.items {
            Some(items) => items.as_slice(),
            None => &[],
        }
    }

    /// The same files, shared.
    pub fn copy(&self, _alloc: Global) -> Result<FileIds, OutOfMemory>
        ensures { IfOk result (λ list. list ≡ self.now) }
    {
        let Some(items) = &self.items else {
            return Ok(FileIds { items: None });
        };
        let items = items.clone()?;
        Ok(FileIds { items: Some(items) })
    }
}
