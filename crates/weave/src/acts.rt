//! The entries of histories, in the woven order.

ghost use Rattle.std.specs.Prelude.{◌≡◌, ◌++◌, true, IfOk, OnOk, All, map};
ghost use Rattle.overlay_rules.specs.Record.{all_differ};
ghost use Rattle.weave_laws.specs.Cells.{nodes_of};
ghost use Rattle.weave_laws.specs.Woven.{IsWovenOrder};
ghost use Rattle.weave.specs.Cells.{AreKept};
ghost use Rattle.weave.specs.Placed.{AreEntriesOf, IsWithin, act_at, acts_from, acts_in, all_placed, placed};
ghost use Rattle.weave.specs.Strands.{entry_seen};

use crate::strand::Strand;
use node_cell::CellEntry;
use ring_math::{Id, OutOfMemory};
use std::alloc::Global;

/// Where an entry stands: in the history of this number, at this place. Its stamp stands beside it, by which entries are sorted.
/// A sort moves each of them several times, so they are small.
#[derive(Clone, Copy)]
pub(crate) struct Act {
    pub(crate) stamp: u64,
    pub(crate) history: u32,
    pub(crate) place: u32,
}

impl Act {
    /// The node to which it came.
    pub(crate) fn node<S: Strand>(&self, strands: &[S]) -> Id
        requires { IsWithin (map S.history strands.now) self.now }
        ensures { result ≡ (act_at (map S.history strands.now) self.now).node }
    {
        strands[self.history as usize].node()
    }

    /// The entry itself, if it is not gone.
    pub(crate) fn entry<'a, S: Strand>(&self, strands: &'a [S]) -> Option<&'a CellEntry>
        requires { IsWithin (map S.history strands.now) self.now }
        ensures { entry_seen result ≡ (act_at (map S.history strands.now) self.now).entry }
    {
        strands[self.history as usize].entry(self.place as usize)
    }
}

/// All entries of the histories, in the woven order. The histories are put in the order of their nodes.
pub(crate) fn woven_order<S: Strand>(
    alloc: Global,
    strands: &mut [S],
) -> Result<Vec<Act>, OutOfMemory>
    requires differ { all_differ (nodes_of (map S.history strands.old)) ≡ true }
    requires kept { AreKept (map S.history strands.old) }
    ensures order { IfOk result (λ acts. IsWovenOrder (map S.history strands.old) (acts_in (map (placed (map S.history strands.new)) acts.items))) }
    ensures entries { IfOk result (λ acts. AreEntriesOf (map S.history strands.old) (map (placed (map S.history strands.new)) acts.items)) }
    ensures within { IfOk result (λ acts. All (IsWithin (map S.history strands.new)) acts.items) }
{
    strands.sort_by_key(alloc, |strand| strand.node().0)?;
    let mut acts = all_acts(alloc, strands)?;
    // Each history is in order, and they stand by node, which a stable sort keeps where stamps are equal: it finds the histories
    // and merges them.
    acts.sort_by_key(|act| act.stamp)?;
    Ok(acts)
}

/// All entries, one history behind the other.
fn all_acts<S: Strand>(alloc: Global, strands: &[S]) -> Result<Vec<Act>, OutOfMemory>
    ensures acts { IfOk result (λ acts. map (placed (map S.history strands.now)) acts.items ≡ all_placed (map S.history strands.now)) }
    ensures within { IfOk result (λ acts. All (IsWithin (map S.history strands.now)) acts.items) }
{
    let mut acts = Vec::with_capacity(alloc, count_of(strands))?;
    for history in 0..small(strands.len())? {
        add_history(&mut acts, history, &strands[history as usize])?;
    }
    Ok(acts)
}

/// How many entries there are, for which room is made at once: a list that grows by parts waits for memory at each.
fn count_of<S: Strand>(strands: &[S]) -> usize {
    let mut count: usize = 0;
    for strand in strands {
        count = count.saturating_add(strand.count());
    }
    count
}

/// The entries of the history of this number.
fn add_history<S: Strand>(acts: &mut Vec<Act>, history: u32, strand: &S) -> Result<(), OutOfMemory>
    ensures { OnOk result (acts.new.items ≡ acts.old.items ++ acts_from history 0 (S.history strand.now).entries) }
{
    let count = small(strand.count())?;
    acts.reserve(count as usize)?;
    for place in 0..count {
        acts.push_reserved(Act {
            stamp: stamp_of(strand.entry(place as usize)),
            history,
            place,
        });
    }
    Ok(())
}

fn stamp_of(entry: Option<&CellEntry>) -> u64
    ensures { result ≡ (entry_seen entry.entry).stamp }
{
    match entry {
        Some(entry) => entry.stamp,
        None => 0,
    }
}

/// A number in half its room. What has more than that is more than memory holds.
fn small(number: usize) -> Result<u32, OutOfMemory>
    ensures { IfOk result (λ same. same ≡ number) }
{
    match u32::try_from(number) {
        Ok(same) => Ok(same),
        Err(_) => Err(OutOfMemory),
    }
}
