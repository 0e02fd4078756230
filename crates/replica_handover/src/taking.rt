//! What a joiner takes over, and whether it has all of it.

ghost use Rattle.std.specs.Prelude.{◌≡◌, IfOk, None, option_copied};
ghost use Rattle.replica_handover.specs.Taken.{kept, kept_or, is_done, is_complete};

use file_store::FileStore;
use ring_math::{FileIds, OutOfMemory};
use std::alloc::Global;
use std::marker::Model;

/// What a neighbour hands over with its lease: the files of its manifest, and its tombstones.
#[derive(Drop)]
pub struct Pledge {
    manifest: FileIds,
    tombs: FileIds,
}

impl Model for Pledge {
    ghost use Rattle.coverage.specs.GapFiles.{Lists};

    ghost Value = { Lists };

    ghost view = { λ a. record { manifest = a.manifest; tombs = a.tombs } };
}

impl Pledge {
    pub fn new(manifest: FileIds, tombs: FileIds) -> Pledge
        ensures { result ≡ record { manifest = manifest; tombs = tombs } }
    {
        Pledge { manifest, tombs }
    }

    /// The files with bytes.
    pub fn manifest(&self) -> &FileIds
        ensures { result.now ≡ self.now.manifest }
    {
        &self.manifest
    }

    /// The tombstones.
    pub fn tombs(&self) -> &FileIds
        ensures { result.now ≡ self.now.tombs }
    {
        &self.tombs
    }

    /// The same lists, shared.
    pub fn copy(&self, alloc: Global) -> Result<Pledge, OutOfMemory>
        ensures { IfOk result (λ copy. copy ≡ self.now) }
    {
        let manifest = self.manifest.copy(alloc)?;
        let tombs = self.tombs.copy(alloc)?;
        Ok(Pledge { manifest, tombs })
    }
}

/// The pledges that a joiner waits for, one of each side. The first of a side is kept.
#[derive(Drop)]
pub struct Taking {
    left: Option<Pledge>,
    right: Option<Pledge>,
}

impl Model for Taking {
    ghost use Rattle.replica_handover.specs.Taken.{Taken};

    ghost Value = { Taken };

    ghost view = { λ a. record { left = a.left; right = a.right } };
}

impl Taking {
    /// Neither side has pledged yet.
    pub fn new() -> Taking
        ensures { result ≡ record { left = None; right = None } }
    {
        Taking {
            left: None,
            right: None,
        }
    }

    /// What these sides pledged.
    pub fn of(left: Option<Pledge>, right: Option<Pledge>) -> Taking
        ensures { result ≡ record { left = left; right = right } }
    {
        Taking { left, right }
    }

    /// Keeps the lists of the left side, unless it has some. It takes no memory.
    pub fn expect_left(&mut self, manifest: FileIds, tombs: FileIds)
        ensures { self.new ≡ record self.old { left = kept self.old.left (record { manifest = manifest; tombs = tombs }) } }
    {
        if self.left.is_none() {
            self.left = Some(Pledge { manifest, tombs });
        }
    }

    /// Keeps the lists of the right side, unless it has some. It takes no memory.
    pub fn expect_right(&mut self, manifest: FileIds, tombs: FileIds)
        ensures { self.new ≡ record self.old { right = kept self.old.right (record { manifest = manifest; tombs = tombs }) } }
    {
        if self.right.is_none() {
            self.right = Some(Pledge { manifest, tombs });
        }
    }

    /// Keeps what these sides pledged, each unless it has some. It takes no memory.
    pub fn keep(&mut self, given: Taking)
        ensures { self.new ≡ record { left = kept_or self.old.left given.left; right = kept_or self.old.right given.right } }
    {
        let Taking { left, right } = given;
        keep_side(&mut self.left, left);
        keep_side(&mut self.right, right);
    }

    /// What the left side pledged.
    pub fn left(&self) -> Option<&Pledge>
        ensures { option_copied result ≡ self.now.left }
    {
        self.left.as_ref()
    }

    /// What the right side pledged.
    pub fn right(&self) -> Option<&Pledge>
        ensures { option_copied result ≡ self.now.right }
    {
        self.right.as_ref()
    }

    /// Whether both sides are kept, each file of a manifest has an entry, and each file of a tombs list is a tombstone.
    pub fn complete(&self, store: &FileStore) -> bool
        ensures { result ≡ is_complete store.now.files self.now }
    {
        is_kept(&self.left, store) && is_kept(&self.right, store)
    }

    /// The same pledges, which share their lists.
    pub fn copy(&self, alloc: Global) -> Result<Taking, OutOfMemory>
        ensures { IfOk result (λ copy. copy ≡ self.now) }
    {
        let left = copy_of(alloc, &self.left)?;
        let right = copy_of(alloc, &self.right)?;
        Ok(Taking { left, right })
    }
}

/// What a side pledged first is kept.
fn keep_side(side: &mut Option<Pledge>, new: Option<Pledge>)
    ensures { side.new ≡ kept_or side.old new }
{
    if side.is_none() {
        *side = new;
    }
}

/// Whether the side has pledged, and the store has all of it.
fn is_kept(side: &Option<Pledge>, store: &FileStore) -> bool
    ensures { result ≡ is_done store.now.files side.now }
{
    match side {
        Some(pledge) => store.has_lists(pledge.manifest().as_slice(), pledge.tombs().as_slice()),
        None => false,
    }
}

fn copy_of(alloc: Global, side: &Option<Pledge>) -> Result<Option<Pledge>, OutOfMemory>
    ensures { IfOk result (λ copy. copy ≡ side.now) }
{
    match side {
        Some(pledge) => Ok(Some(pledge.copy(alloc)?)),
        None => Ok(None),
    }
}
