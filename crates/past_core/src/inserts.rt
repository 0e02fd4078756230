//! Inserts at the root of their file.

ghost use Rattle.std.specs.Prelude.{◌≡◌, ◌-◌, ◌∷◌, [], ℕ, true, IfOk, OnOk, OnErr, length};
ghost use Rattle.ring_math.specs.Files.{slot_of};
ghost use Rattle.leaf_set.specs.Leaves.{StandsFor, in_order};
ghost use Rattle.file_store.specs.Answers.{put_of};
ghost use Rattle.overlay_rules.specs.State.{State};
ghost use Rattle.overlay_rules.specs.Roots.{inserted, targets_of as targets_in};
ghost use Rattle.past_core.specs.Inserts.{insert_outcome, after_insert, files_where, with_added, pending_of, IsKept};
ghost use Rattle.past_core.specs.Weighed.{weighed, held_by};

use crate::nearest::targets_of;
use crate::past::Past;
use file_store::{FileStore, Put};
use leaf_set::LeafSet;
use overlay_rules::Pending;
use ring_math::{Bytes, FileId, Id, Ids, IdsBuilder, OutOfMemory};
use std::alloc::Global;
use wire_msg::Copies;

/// A command's insert, at the root of its file.
#[derive(Drop)]
pub struct InsertAsk {
    pub origin: Id,
    pub number: u64,
    pub file: FileId,
    pub copies: Copies,
    pub bytes: Bytes,
}

/// What the root does.
#[derive(Drop)]
pub struct InsertStep {
    /// The file was not held, and is put.
    pub accepted: bool,
    pub what: InsertWhat,
}

/// What the root answers.
#[derive(Drop)]
pub enum InsertWhat {
    /// A tombstone stands for the file.
    Gone,
    /// Other bytes are held for the file.
    Collision,
    /// So many leaves are known, fewer than the copies beside the root's own.
    TooFew { known: u16 },
    /// There is no entry for the file, and no room for one.
    Full,
    /// No replica is asked for: the root alone holds the file.
    Stored { holders: Ids },
    /// These nodes are to hold replicas, nearest to the key first, and are awaited.
    Replicate { targets: Ids },
}

/// What the root answers to an insert, in the order of `InsertWhat`, and whether it puts the file. It changes nothing.
/// Memory can be refused only where the answer is `Stored` or `Replicate`.
pub fn what_insert(
    alloc: Global,
    store: &FileStore,
    leafs: &LeafSet,
    file: &FileId,
    copies: Copies,
    bytes: &Bytes,
) -> Result<InsertStep, OutOfMemory>
    ensures row { (s : State) (origin number : ℕ) → s.me ≡ leafs.now.me → StandsFor leafs.now s.known →
        let before : State = record s { files = store.now.files } in
        IfOk result (λ step. inserted before origin number file.now copies bytes.now (slot_of store.now.files file.now)
        ≡ insert_outcome (after_insert before origin number file.now bytes.now step) origin number file.now bytes.now step) }
    ensures accepted { IfOk result (λ step. step.accepted ≡ true → put_of store.now.files file.now bytes.now ≡ Put.New) }
    ensures refused { (s : State) (origin number : ℕ) → s.me ≡ leafs.now.me → StandsFor leafs.now s.known →
        OnErr result (IsKept (record s { files = store.now.files }) origin number file.now copies bytes.now (slot_of store.now.files file.now)) }
{
    match weigh(store, leafs, file, copies, bytes) {
        Weighed::Refused(what) => Ok(InsertStep {
            accepted: false,
            what,
        }),
        Weighed::Held => replicated(alloc, leafs, file, copies, false),
        Weighed::New => replicated(alloc, leafs, file, copies, true),
    }
}

/// What an insert meets, before any memory is taken.
#[derive(Drop)]
enum Weighed {
    Refused(InsertWhat),
    /// The same bytes are held.
    Held,
    /// The file is to be put.
    New,
}

fn weigh(
    store: &FileStore,
    leafs: &LeafSet,
    file: &FileId,
    copies: Copies,
    bytes: &Bytes,
) -> Weighed
    ensures { result ≡ weighed (put_of store.now.files file.now bytes.now) (length (in_order leafs.now)) (copies - 1) }
{
    let known = leafs.count();
    let replicas = copies.get() as usize - 1;
    match store.would_put(file, bytes) {
        Put::Gone => Weighed::Refused(InsertWhat::Gone),
        Put::Differs => Weighed::Refused(InsertWhat::Collision),
        _ if known < replicas => Weighed::Refused(InsertWhat::TooFew {
            known: known as u16,
        }),
        Put::Full => Weighed::Refused(InsertWhat::Full),
        Put::Same => Weighed::Held,
        Put::New => Weighed::New,
    }
}

/// The file is held, or is put now: it is stored, or replicas are asked for.
fn replicated(
    alloc: Global,
    leafs: &LeafSet,
    file: &FileId,
    copies: Copies,
    accepted: bool,
) -> Result<InsertStep, OutOfMemory>
    ensures accepted { IfOk result (λ step. step.accepted ≡ accepted) }
    ensures what { (s : State) → s.me ≡ leafs.now.me → StandsFor leafs.now s.known →
        IfOk result (λ step. step.what ≡ held_by s.me (targets_in s file.now copies)) }
{
    let targets = targets_of(alloc, leafs, file, copies)?;
    let what = if targets.as_slice().is_empty() {
        let holders = alone(alloc, leafs.me())?;
        InsertWhat::Stored { holders }
    } else {
        InsertWhat::Replicate { targets }
    };
    Ok(InsertStep { accepted, what })
}

/// The list of one node.
fn alone(alloc: Global, node: Id) -> Result<Ids, OutOfMemory>
    ensures { IfOk result (λ ids. ids ≡ node ∷ []) }
{
    let mut ids = IdsBuilder::new();
    ids.push(node);
    ids.finish(alloc)
}

impl Past {
    /// Does what the root does with an insert: it puts the file where it has no entry, and the insert waits for the
    /// replicas that are asked for, in place of what waited for the same command.
    ///
    /// After `OutOfMemory`, which comes only in the place of `Stored` and `Replicate`, the same files stand and the same
    /// inserts wait as before.
    pub fn on_insert(
        &mut self,
        alloc: Global,
        store: &mut FileStore,
        known: &LeafSet,
        me: Id,
        ask: &InsertAsk,
    ) -> Result<InsertStep, OutOfMemory>
        requires { known.now.me ≡ me }
        ensures row { (s : State) → s.me ≡ me → StandsFor known.now s.known → IfOk result (λ step.
            inserted (record s { pending = self.old.asks; files = store.old.files }) ask.now.origin ask.now.number
            ask.now.file ask.now.copies ask.now.bytes (slot_of store.old.files ask.now.file)
            ≡ insert_outcome (record s { pending = self.new.asks; files = store.new.files }) ask.now.origin ask.now.number
            ask.now.file ask.now.bytes step) }
        ensures refused { (s : State) → s.me ≡ me → StandsFor known.now s.known → OnErr result (IsKept
            (record s { pending = self.old.asks; files = store.old.files }) ask.now.origin ask.now.number
            ask.now.file ask.now.copies ask.now.bytes (slot_of store.old.files ask.now.file)) }
        ensures as_before { OnErr result ((self.new.asks ≡ self.old.asks) × (store.new.files ≡ store.old.files)) }
    {
        let accepted = match weigh(store, known, &ask.file, ask.copies, &ask.bytes) {
            Weighed::Refused(what) => {
                return Ok(InsertStep {
                    accepted: false,
                    what,
                });
            }
            Weighed::Held => false,
            Weighed::New => true,
        };
        let step = replicated(alloc, known, &ask.file, ask.copies, accepted)?;
        self.keep(alloc, store, ask, &step)?;
        Ok(step)
    }

    /// Puts the file where it is accepted, and adds the insert where replicas are asked for.
    fn keep(
        &mut self,
        alloc: Global,
        store: &mut FileStore,
        ask: &InsertAsk,
        step: &InsertStep,
    ) -> Result<(), OutOfMemory>
        requires { step.now.accepted ≡ true → put_of store.old.files ask.now.file ask.now.bytes ≡ Put.New }
        ensures asks { OnOk result (self.new.asks ≡ with_added self.old.asks (pending_of ask.now.origin ask.now.number ask.now.file step.now.what)) }
        ensures files { OnOk result (store.new.files ≡ files_where step.now.accepted store.old.files ask.now.file ask.now.bytes) }
        ensures as_before { OnErr result ((self.new.asks ≡ self.old.asks) × (store.new.files ≡ store.old.files)) }
    {
        let pending = waiting_for(alloc, ask, &step.what)?;
        self.reserve(1)?;
        if step.accepted {
            store.put(alloc, ask.file, &ask.bytes)?;
        }
        if let Some(pending) = pending {
            self.add(pending);
        }
        Ok(())
    }
}

/// The insert that waits, where replicas are asked for.
fn waiting_for(
    alloc: Global,
    ask: &InsertAsk,
    what: &InsertWhat,
) -> Result<Option<Pending>, OutOfMemory>
    ensures { IfOk result (λ pending. pending ≡ pending_of ask.now.origin ask.now.number ask.now.file what.now) }
{
    let InsertWhat::Replicate { targets } = what else {
        return Ok(None);
    };
    let awaited = targets.copy(alloc)?;
    let targets = targets.copy(alloc)?;
    Ok(Some(Pending {
        origin: ask.origin,
        number: ask.number,
        file: ask.file,
        targets,
        awaited,
    }))
}
