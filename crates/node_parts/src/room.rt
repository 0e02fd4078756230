//! Room for a change is made. What the node stands for stays.

ghost use Rattle.std.specs.Prelude.{◌≡◌, OnOk};
ghost use Rattle.overlay_rules.specs.State.{State};
ghost use Rattle.node_parts.specs.Fits.{Fits, RestFits, PartsFit, StoreFits, asks_more, waits_more};
ghost use Rattle.node_parts.specs.Seen.{Stands};

use crate::change::{Change, Parts, PastChange, Rest, StoreChange, Wait};
use crate::node::Node;
use file_store::FileStore;
use ring_math::OutOfMemory;

fn make_store_room(store: &mut FileStore, change: &StoreChange) -> Result<(), OutOfMemory>
    ensures files { store.new.files ≡ store.old.files }
    ensures ok { OnOk result (StoreFits store.new change.now) }
{
    match change {
        StoreChange::Keep => Ok(()),
        StoreChange::Set { .. } => store.reserve(1),
        StoreChange::Bury(tombs) => store.reserve_for(tombs.as_slice()),
    }
}

fn more_asks(change: &PastChange) -> usize
    ensures { result ≡ asks_more change.now }
{
    match change {
        PastChange::Add(_) => 1,
        _ => 0,
    }
}

fn more_waiting(change: &Wait) -> usize
    ensures { result ≡ waits_more change.now }
{
    match change {
        Wait::Add { .. } => 1,
        _ => 0,
    }
}

impl Node {
    /// Makes room for a change. The node stands for what it stood for, whatever the answer.
    #[inline(always)]
    pub fn make_room(&mut self, change: &Change) -> Result<(), OutOfMemory>
        ensures me { self.new.me ≡ self.old.me }
        ensures stands { (s : State) → Stands self.old s → Stands self.new s }
        ensures fits { OnOk result (Fits self.new change.now) }
    {
        self.make_rest_room(&change.rest)?;
        self.waiting.reserve(more_waiting(&change.waiting))?;
        Ok(())
    }

    /// Makes room for all but a number that waits.
    #[inline(always)]
    fn make_rest_room(&mut self, rest: &Rest) -> Result<(), OutOfMemory>
        ensures me { self.new.me ≡ self.old.me }
        ensures stands { (s : State) → Stands self.old s → Stands self.new s }
        ensures fits { OnOk result (RestFits self.new rest.now) }
    {
        match rest {
            Rest::Parts(parts) => self.make_parts_room(parts),
            Rest::Keep | Rest::Learnt(_) | Rest::Answered { .. } | Rest::Heard { .. } => Ok(()),
        }
    }

    /// Makes room in the files and in the inserts that wait.
    fn make_parts_room(&mut self, parts: &Parts) -> Result<(), OutOfMemory>
        ensures me { self.new.me ≡ self.old.me }
        ensures stands { (s : State) → Stands self.old s → Stands self.new s }
        ensures fits { OnOk result (PartsFit self.new parts.now) }
    {
        make_store_room(&mut self.store, &parts.store)?;
        self.past.reserve(more_asks(&parts.past))
    }
}
