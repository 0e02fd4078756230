//! The access point of a node.

ghost use Rattle.std.specs.Prelude.{◌≡◌, MatchOption, IfOk, OnOk};
ghost use Rattle.std.specs.Map.{lookup};
ghost use Rattle.std.specs.NonZero.{non_zero_usize_get};
ghost use Rattle.fetch_cache.specs.Points.{point_at_start, same_file, asked, told};

use lru::LruCache;
use ring_math::{Bytes, FileId, Id, OutOfMemory};
use std::alloc::Global;
use std::marker::Model;
use std::num::NonZeroUsize;

/// What the access point of a node remembers: files that were found there, by the bytes of their identifiers.
#[derive(Drop)]
pub(crate) struct Point {
    node: Id,
    cache: LruCache<[u8; 20], Bytes>,
}

impl Model for Point {
    ghost use Rattle.fetch_cache.specs.Points.{Point as PlainPoint};

    ghost Value = { PlainPoint };

    ghost view = { λ a. record { node = a.node; room = a.cache.cap; pairs = a.cache.entries } };
}

impl Point {
    /// Nothing is remembered yet, of so many files at most.
    pub(crate) fn new(alloc: Global, node: Id, room: NonZeroUsize) -> Result<Point, OutOfMemory>
        ensures { IfOk result (λ point. point ≡ point_at_start (non_zero_usize_get room) node) }
    {
        let cache = LruCache::sparse(alloc, room)?;
        Ok(Point { node, cache })
    }

    pub(crate) fn node(&self) -> Id
        ensures { result ≡ self.now.node }
    {
        self.node
    }

    /// The bytes that are remembered of a file, shared; the file is then the one that was used last.
    pub(crate) fn ask(&mut self, alloc: Global, file: &FileId) -> Result<Option<Bytes>, OutOfMemory>
        ensures bytes { IfOk result (λ found. found ≡ lookup (same_file file.now) self.old.pairs) }
        ensures point { IfOk result (λ found. MatchOption found (self.new ≡ self.old) (λ bytes. self.new ≡ asked file.now self.old)) }
    {
        let Some(found) = self.cache.peek(&file.0) else {
            return Ok(None);
        };
        let bytes = found.copy(alloc)?;
        self.cache.promote(&file.0);
        Ok(Some(bytes))
    }

    /// Remembers what was found of a file, which is then the one that was used last.
    pub(crate) fn tell(&mut self, file: &FileId, bytes: Bytes) -> Result<(), OutOfMemory>
        ensures { OnOk result (self.new ≡ told file.now bytes self.old) }
    {
        self.cache.put(file.0, bytes)?;
        Ok(())
    }
}
