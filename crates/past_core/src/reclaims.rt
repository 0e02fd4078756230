//! Reclaims at the root of their file.

ghost use Rattle.std.specs.Prelude.{◌≡◌, ℕ, [], IfOk, OnErr};
ghost use Rattle.ring_math.specs.Files.{slot_of};
ghost use Rattle.file_store.specs.Answers.{bury_of};
ghost use Rattle.overlay_rules.specs.State.{State};
ghost use Rattle.overlay_rules.specs.Roots.{reclaimed};
ghost use Rattle.past_core.specs.Reclaims.{reclaim_outcome, after_reclaim};

use crate::asks::Asks;
use crate::past::Past;
use file_store::{Bury, FileStore};
use ring_math::{FileId, OutOfMemory};
use std::alloc::Global;

/// What the root does with a reclaim.
#[derive(Drop)]
pub struct ReclaimStep {
    pub what: ReclaimWhat,
    /// The commands whose inserts of the file waited, in order; none but with `Reclaimed`.
    pub ended: Asks,
}

#[derive(Clone, Copy, Debug, PartialEq, Eq)]
pub enum ReclaimWhat {
    /// There is no entry for the file.
    NotFound,
    /// A tombstone stands for it.
    Already,
    /// Bytes were held, and a tombstone takes their place.
    Reclaimed,
}

impl Past {
    /// What the root answers to a reclaim, and the inserts that it ends. It changes nothing. Memory can be refused only
    /// where bytes are held.
    pub fn what_reclaim(
        &self,
        alloc: Global,
        store: &FileStore,
        file: &FileId,
    ) -> Result<ReclaimStep, OutOfMemory>
        ensures row { (s : State) (origin number : ℕ) →
            let before : State = record s { pending = self.now.asks; files = store.now.files } in
            IfOk result (λ step. reclaimed before origin number file.now (slot_of store.now.files file.now)
            ≡ reclaim_outcome (after_reclaim before file.now step.what) origin number file.now step) }
        ensures held { IfOk result (λ step. step.what ≡ ReclaimWhat.Reclaimed → bury_of store.now.files file.now ≡ Bury.Buried) }
        ensures refused { OnErr result (bury_of store.now.files file.now ≡ Bury.Buried) }
    {
        match store.would_bury(file) {
            Bury::Already => Ok(nothing_ended(alloc, ReclaimWhat::Already)),
            Bury::Laid | Bury::Full => Ok(nothing_ended(alloc, ReclaimWhat::NotFound)),
            Bury::Buried => Ok(ReclaimStep {
                what: ReclaimWhat::Reclaimed,
                ended: self.ended_by(alloc, file)?,
            }),
        }
    }

    /// Turns the file into a tombstone where bytes are held for it, and takes away its inserts that wait.
    ///
    /// After `OutOfMemory`, which comes only where bytes are held, the same files stand and the same inserts wait as
    /// before.
    pub fn on_reclaim(
        &mut self,
        alloc: Global,
        store: &mut FileStore,
        file: FileId,
    ) -> Result<ReclaimStep, OutOfMemory>
        ensures row { (s : State) (origin number : ℕ) → IfOk result (λ step.
            reclaimed (record s { pending = self.old.asks; files = store.old.files }) origin number file (slot_of store.old.files file)
            ≡ reclaim_outcome (record s { pending = self.new.asks; files = store.new.files }) origin number file step) }
        ensures refused { OnErr result (bury_of store.old.files file ≡ Bury.Buried) }
        ensures as_before { OnErr result ((self.new.asks ≡ self.old.asks) × (store.new.files ≡ store.old.files)) }
    {
        let step = self.what_reclaim(alloc, store, &file)?;
        if let ReclaimWhat::Reclaimed = step.what {
            self.end(&file);
            store.set(file, None);
        }
        Ok(step)
    }
}

fn nothing_ended(alloc: Global, what: ReclaimWhat) -> ReclaimStep
    ensures what { result.what ≡ what }
    ensures ended { result.ended ≡ [] }
{
    ReclaimStep {
        what,
        ended: Asks::new(alloc),
    }
}
