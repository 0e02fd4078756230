//! What a node knows of others: its leaf set and its prefix table.

ghost use Rattle.std.specs.Prelude.{◌≡◌, ◌≢◌, List, [], ◌∷◌, ◌||◌, None, IsOk, IfOk};
ghost use Rattle.std.specs.Bool.{OnTrue, OnFalse};
ghost use Rattle.ring_math.specs.Names.{Id};
ghost use Rattle.ring_math.specs.Sides.{learn as learn_of, learn_all as learn_all_of};
ghost use Rattle.leaf_set.specs.Leaves.{StandsFor as LeafSetStandsFor};
ghost use Rattle.route_table.specs.Entries.{is_new, StandsFor as TableStandsFor};
ghost use Rattle.lookup_core.specs.declared.knowledge.News.TheVariants as News;
ghost use Rattle.lookup_core.specs.Kept.{StandsFor, is_taken, members_in, news_of};

use leaf_set::LeafSet;
use ring_math::{Id, Ids, IdsBuilder, OutOfMemory};
use route_table::{RouteTable, Standing};
use std::alloc::Global;
use std::marker::Model;

/// What learning identifiers would change.
#[derive(Clone, Copy, Debug, PartialEq, Eq)]
pub enum News {
    /// Neither the leaf set nor the prefix table.
    Nothing,
    /// Entries of the prefix table alone.
    Entry,
    /// The leaf set, and perhaps the prefix table too.
    Leaf,
}

/// The leaf set and the prefix table of a node. It never learns the node itself.
#[derive(Drop)]
pub struct Knowledge {
    leafs: LeafSet,
    table: RouteTable,
    /// The node and its leaves, where they were listed and no leaf has changed since.
    listed: Option<Ids>,
}

impl Model for Knowledge {
    ghost use Rattle.std.specs.Prelude.{◌≡◌, IfSome};
    ghost use Rattle.lookup_core.specs.Kept.{Kept, members_in};

    ghost Value = { Kept };

    ghost view = { λ a. record { leafs = a.leafs; table = a.table } };

    ghost invariant = { λ a. IfSome a.listed (λ ids. ids ≡ members_in a.leafs) };
}

impl Knowledge {
    /// The knowledge of a node that knows nobody. It takes all the memory that its leaf set and its table ever have.
    pub fn new(alloc: Global, me: Id) -> Result<Knowledge, OutOfMemory>
        ensures me { IfOk result (λ knowledge. knowledge.leafs.me ≡ me) }
        ensures stands { IfOk result (λ knowledge. StandsFor knowledge []) }
    {
        let table = RouteTable::new(alloc, me)?;
        Ok(Knowledge {
            leafs: LeafSet::new(me),
            table,
            listed: None,
        })
    }

    /// The same knowledge in memory of its own.
    pub fn copy(&self, alloc: Global) -> Result<Knowledge, OutOfMemory>
        ensures { IfOk result (λ copy. copy ≡ self.now) }
    {
        let table = self.table.copy(alloc)?;
        Ok(Knowledge {
            leafs: self.leafs.copy(),
            table,
            listed: None,
        })
    }

    /// The node whose knowledge it is.
    pub fn me(&self) -> Id
        ensures { result ≡ self.now.leafs.me }
    {
        self.leafs.me()
    }

    /// The leaf set.
    pub fn leafs(&self) -> &LeafSet
        ensures { result.now ≡ self.now.leafs }
    {
        &self.leafs
    }

    /// The prefix table.
    pub fn table(&self) -> &RouteTable
        ensures { result.now ≡ self.now.table }
    {
        &self.table
    }

    /// The node and then its leaves in leaf order. The only error is that memory for the list was refused.
    pub fn members(&self, alloc: Global) -> Result<Ids, OutOfMemory>
        ensures { IfOk result (λ ids. ids ≡ members_in self.now.leafs) }
    {
        match &self.listed {
            Some(ids) => ids.copy(alloc),
            None => members_of(alloc, &self.leafs),
        }
    }

    /// Lists these, unless they are. Who asks for them before a leaf changes shares that list. The only error is that memory for it
    /// was refused, and then none is listed.
    pub fn list_members(&mut self, alloc: Global) -> Result<(), OutOfMemory>
        ensures { self.new ≡ self.old }
    {
        if self.listed.is_none() {
            self.listed = Some(members_of(alloc, &self.leafs)?);
        }
        Ok(())
    }

    /// Learns an identifier, and answers whether a side or the table changed. It takes no memory. It is a call of its own, so that
    /// the identifier comes to it in registers, wherever it lay.
    #[inline(never)]
    pub fn take_in(&mut self, id: Id) -> bool
        ensures me { self.new.leafs.me ≡ self.old.leafs.me }
        ensures stands { (known : List Id) → StandsFor self.old known → StandsFor self.new (learn_of self.old.leafs.me known id) }
        ensures answer { result ≡ (is_taken self.old.leafs self.new.leafs id || is_new self.old.table id) }
    {
        // Most of what a node is told it knows, and an entry changes nothing when it is learnt again: so that is asked first.
        if self.table.holds(id) {
            return false;
        }
        let in_table = self.table.learn(id);
        let on_side = self.leafs.learn(id);
        outdate(&mut self.listed, on_side);
        on_side || in_table
    }

    /// Learns an identifier, and answers whether a side or the table changed. It always answers Ok, and takes no memory.
    pub fn learn(&mut self, _alloc: Global, id: Id) -> Result<bool, OutOfMemory>
        ensures ok { IsOk result }
        ensures me { self.new.leafs.me ≡ self.old.leafs.me }
        ensures stands { (known : List Id) → StandsFor self.old known → StandsFor self.new (learn_of self.old.leafs.me known id) }
        ensures answer { IfOk result (λ changed. changed ≡ (is_taken self.old.leafs self.new.leafs id || is_new self.old.table id)) }
    {
        Ok(self.take_in(id))
    }

    /// What learning an identifier would change.
    fn news_in(&self, id: Id) -> News
        ensures news { result ≡ news_of self.now (id ∷ []) }
        ensures leafs { result ≢ News.Leaf → (known ids : List Id) → StandsFor self.now known →
            LeafSetStandsFor self.now.leafs (learn_all_of self.now.leafs.me known ids) →
            LeafSetStandsFor self.now.leafs (learn_of self.now.leafs.me (learn_all_of self.now.leafs.me known ids) id) }
        ensures table { result ≡ News.Nothing → (known : List Id) → TableStandsFor self.now.table known →
            TableStandsFor self.now.table (learn_of self.now.table.me known id) }
    {
        match self.table.standing(id) {
            Standing::Entry => News::Nothing,
            _ if self.leafs.lacks(id) => News::Leaf,
            Standing::Free => News::Entry,
            Standing::Elsewhere => News::Nothing,
        }
    }

    /// What learning these would change: whom it has and whom it has no place for change nothing. It is a call of its own, since it
    /// needs all the registers that there are.
    #[inline(never)]
    pub fn news(&self, ids: &[Id]) -> News
        ensures news { result ≡ news_of self.now ids.now }
        ensures leafs { result ≢ News.Leaf → (known : List Id) → StandsFor self.now known →
            LeafSetStandsFor self.now.leafs (learn_all_of self.now.leafs.me known ids.now) }
        ensures same { result ≡ News.Nothing → (known : List Id) → StandsFor self.now known →
            StandsFor self.now (learn_all_of self.now.leafs.me known ids.now) }
    {
        let mut news = News::Nothing;
        for id in ids {
            match self.news_in(*id) {
                News::Leaf => return News::Leaf,
                News::Entry => news = News::Entry,
                News::Nothing => {}
            }
        }
        news
    }

    /// Learns these in order. It takes no memory.
    pub fn learn_all(&mut self, ids: &[Id])
        ensures me { self.new.leafs.me ≡ self.old.leafs.me }
        ensures stands { (known : List Id) → StandsFor self.old known → StandsFor self.new (learn_all_of self.old.leafs.me known ids.now) }
    {
        for id in ids {
            let _changed = self.take_in(*id);
        }
    }
}

/// A list of the leaves is of no use any more, if they have changed.
fn outdate(listed: &mut Option<Ids>, have_changed: bool)
    ensures then { OnTrue have_changed (listed.new ≡ None) }
    ensures same { OnFalse have_changed (listed.new ≡ listed.old) }
{
    if have_changed {
        *listed = None;
    }
}

/// The node whose leaf set it is, and then the leaves in leaf order.
fn members_of(alloc: Global, leafs: &LeafSet) -> Result<Ids, OutOfMemory>
    ensures { IfOk result (λ ids. ids ≡ members_in leafs.now) }
{
    let mut ids = IdsBuilder::new();
    ids.append(leafs.me());
    leafs.copy_to(&mut ids);
    ids.finish(alloc)
}
