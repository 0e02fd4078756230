//! The woven record of cells.

ghost use Rattle.std.specs.Prelude.{◌≡◌, [], true, IfOk, IfErr, IfSome, OnOk, All, Contains, map};
ghost use Rattle.ring_math.specs.Names.{Id};
ghost use Rattle.std.specs.List.{AllZip};
ghost use Rattle.wire_msg.specs.Words.{plain_envelope};
ghost use Rattle.overlay_rules.specs.Flat.{event_kept};
ghost use Rattle.overlay_rules.specs.declared.entry.Event.TheVariants as Event;
ghost use Rattle.overlay_rules.specs.Record.{Legal, all_differ, sent_in};
ghost use Rattle.weave_laws.specs.AtNode.{IsPartOf};
ghost use Rattle.weave_laws.specs.Cells.{Comes, nodes_of};
ghost use Rattle.weave_laws.specs.Woven.{AreInOrder, IsEntryOf, IsEventOf, IsWoven};
ghost use Rattle.weave.specs.ByStamp.{AreByStamp};
ghost use Rattle.weave.specs.Cells.{AreKept, AreOneRing, HaveOwnNodes, histories, setting_of};
ghost use Rattle.weave.specs.Follow.{FollowSendings};
ghost use Rattle.weave.specs.Growing.{HasOneMore, IsEmptied, IsTabled, KeepsOthers};
ghost use Rattle.weave.specs.Placed.{IsWithin, act_at, acts_in, placed, sent_by};
ghost use Rattle.weave.specs.Stray.{IsDueTo};
ghost use Rattle.weave.specs.Table.{HasNoneBefore};
ghost use Rattle.weave.specs.Stops.{IsHaltAt, StopsAt};
ghost use Rattle.weave.specs.declared.stop.Stop.TheVariants as Stop;

use crate::acts::{Act, woven_order};
use crate::ahead::{Ahead, TOGETHER};
use crate::fault::WeaveFault;
use crate::given::given_by;
use crate::search::place_among;
use crate::starts::{Starts, mark_of};
use crate::stop::{Stop, fault_at};
use crate::strand::{Strand, lent_by};
use node_cell::{CellInput, NodeCell};
use overlay_rules::{CompactEvent, Entries, Event, Record};
use ring_math::{Id, OutOfMemory};
use std::alloc::Global;
use wire_msg::{Command, Envelope, Note};

/// All entries of the cells by stamp, and then by node. A message that came in is numbered as the first equal one that was sent.
/// `Stray` comes exactly where one was sent in no history, or `OutOfMemory` in its place. Where exactly one cell was made as the
/// founder, and no command number stands in two histories, the record is legal, and each history is its part at that node.
pub fn weave(alloc: Global, cells: &[NodeCell]) -> Result<Record, WeaveFault>
    requires { HaveOwnNodes cells.now }
    ensures woven { IfOk result (λ steps. IsWoven (histories cells.now) steps) }
    ensures legal { (founder : _) → AreOneRing cells.now founder → IfOk result (λ steps. Legal (setting_of cells.now founder) steps.entries) }
    ensures parts { (founder : _) → AreOneRing cells.now founder → IfOk result (λ steps. All (IsPartOf steps.entries) (histories cells.now)) }
    ensures due { IfErr result (IsDueTo (histories cells.now)) }
{
    let mut strands = lent_by(alloc, cells)?;
    woven(alloc, &mut strands)
}

/// The record that [`weave`] gives, of cells that are not needed any more: what their entries sent and noted is not copied into it,
/// but moved.
pub fn into_woven(alloc: Global, cells: Vec<NodeCell>) -> Result<Record, WeaveFault>
    requires { HaveOwnNodes cells.items }
    ensures woven { IfOk result (λ steps. IsWoven (histories cells.items) steps) }
    ensures legal { (founder : _) → AreOneRing cells.items founder → IfOk result (λ steps. Legal (setting_of cells.items founder) steps.entries) }
    ensures parts { (founder : _) → AreOneRing cells.items founder → IfOk result (λ steps. All (IsPartOf steps.entries) (histories cells.items)) }
    ensures due { IfErr result (IsDueTo (histories cells.items)) }
{
    let mut strands = given_by(alloc, cells)?;
    woven(alloc, &mut strands)
}

/// The woven record of histories of different nodes.
fn woven<S: Strand>(alloc: Global, strands: &mut [S]) -> Result<Record, WeaveFault>
    requires differ { all_differ (nodes_of (map S.history strands.old)) ≡ true }
    requires kept { AreKept (map S.history strands.old) }
    ensures woven { IfOk result (IsWoven (map S.history strands.old)) }
    ensures due { IfErr result (IsDueTo (map S.history strands.old)) }
{
    let acts = woven_order(alloc, strands)?;
    let entries = entries_of(alloc, &acts, strands)?;
    Ok(Record {
        entries,
        skipped: 0,
    })
}

/// The entries of a record that these become.
fn entries_of<S: Strand>(
    alloc: Global,
    acts: &[Act],
    strands: &mut [S],
) -> Result<Entries, WeaveFault>
    requires follow { FollowSendings (map (placed (map S.history strands.old)) acts.now) }
    requires order { AreInOrder (acts_in (map (placed (map S.history strands.old)) acts.now)) }
    requires within { All (IsWithin (map S.history strands.old)) acts.now }
    ensures ok { let ps = map (placed (map S.history strands.old)) acts.now in
        IfOk result (λ entries. AllZip (IsEntryOf (sent_by (acts_in ps))) (acts_in ps) entries) }
    ensures err { let ps = map (placed (map S.history strands.old)) acts.now in IfErr result (StopsAt (sent_by (acts_in ps)) ps) }
{
    let mut weaving = Weaving::new(alloc, acts.len())?;
    for act in acts {
        weaving.look_ahead(acts, strands)?;
        match weaving.add(alloc, act, strands) {
            Ok(()) => {}
            Err(stop) => return Err(fault_at(alloc, act, strands, stop)),
        }
    }
    Ok(weaving.entries)
}

/// The entries so far, and what is needed for one more.
#[derive(Drop)]
pub(crate) struct Weaving {
    pub(crate) entries: Entries,
    /// Where a message may stand among all that these sent.
    pub(crate) starts: Starts,
    /// Where what the next entries take in may stand.
    pub(crate) ahead: Ahead,
    /// What the next entry sends and notes. Between two entries both are empty.
    pub(crate) messages: Vec<Envelope>,
    pub(crate) notes: Vec<Note>,
}

impl Weaving {
    /// No entry, of so many that are to come. There is room for as many messages, since each comes in once, if none is lost and none
    /// repeated.
    fn new(alloc: Global, count: usize) -> Result<Weaving, OutOfMemory>
        ensures entries { IfOk result (λ weaving. weaving.entries ≡ []) }
        ensures emptied { IfOk result IsEmptied }
        ensures tabled { IfOk result IsTabled }
    {
        Ok(Weaving {
            entries: Entries::with_room(alloc, count, count)?,
            starts: Starts::new(alloc, count),
            ahead: Ahead::new(),
            messages: Vec::new(alloc),
            notes: Vec::new(alloc),
        })
    }

    /// Looks at the next entries of these, if all that were looked at last are woven, and takes room for what they send and note.
    fn look_ahead<S: Strand>(&mut self, acts: &[Act], strands: &[S]) -> Result<(), OutOfMemory>
        ensures entries { self.new.entries ≡ self.old.entries }
        ensures emptied { IsEmptied self.old → IsEmptied self.new }
        ensures tabled { IsTabled self.old → IsTabled self.new }
    {
        let number = self.entries.len();
        if number % TOGETHER != 0 {
            return Ok(());
        }
        let Some(next) = acts.get(number..) else {
            return Ok(());
        };
        let load = self
            .ahead
            .look(next, strands, self.entries.sent(), &self.starts);
        self.messages.reserve(load.sent)?;
        self.notes.reserve(load.noted)?;
        Ok(())
    }

    /// The entry that one of a history becomes. What it took in is sought among what the entries before it sent, where the record
    /// has just got it. Its messages and notes share the bytes that the history has, or are those of the history.
    fn add<S: Strand>(&mut self, alloc: Global, act: &Act, strands: &mut [S]) -> Result<(), Stop>
        requires sorted { AreByStamp (sent_in self.old.entries) }
        requires emptied { IsEmptied self.old }
        requires tabled { IsTabled self.old }
        requires within { IsWithin (map S.history strands.old) act.now }
        ensures ok { OnOk result (HasOneMore (act_at (map S.history strands.old) act.now) self.old.entries self.new.entries) }
        ensures emptied { OnOk result (IsEmptied self.new) }
        ensures tabled { OnOk result (IsTabled self.new) }
        ensures others { OnOk result (KeepsOthers act.now (map S.history strands.old) (map S.history strands.new)) }
        ensures err { IfErr result (IsHaltAt (sent_in self.old.entries) (placed (map S.history strands.old) act.now)) }
        ensures same { IfErr result (λ stop. stop ≡ Stop.Stray → map S.history strands.new ≡ map S.history strands.old) }
    {
        let event = self.event_of(alloc, act, strands)?;
        hand_out(alloc, act, strands, &mut self.messages, &mut self.notes)?;
        self.starts.add_all(&self.messages)?;
        self.entries
            .append(event, &mut self.messages, &mut self.notes)?;
        Ok(())
    }

    /// The event that what an entry took in becomes, as the next of the record.
    fn event_of<S: Strand>(
        &self,
        alloc: Global,
        act: &Act,
        strands: &[S],
    ) -> Result<CompactEvent, Stop>
        requires sorted { AreByStamp (sent_in self.now.entries) }
        requires tabled { IsTabled self.now }
        requires within { IsWithin (map S.history strands.now) act.now }
        ensures ok { let own = act_at (map S.history strands.now) act.now in
            IfOk result (λ event. IsEventOf (sent_in self.now.entries) own.node own.entry.input (event_kept event)) }
        ensures err { IfErr result (IsHaltAt (sent_in self.now.entries) (placed (map S.history strands.now) act.now)) }
    {
        let node = act.node(strands);
        // What is gone would be as noise; none of these is.
        let Some(entry) = act.entry(strands) else {
            return noise_of(alloc, node);
        };
        match &entry.input {
            CellInput::Command { number, command } => command_of(alloc, node, *number, command),
            CellInput::Comes(envelope) => self.delivery_of(envelope),
            CellInput::Noise => noise_of(alloc, node),
        }
    }

    /// The delivery of a message that came.
    fn delivery_of(&self, envelope: &Envelope) -> Result<CompactEvent, Stop>
        requires sorted { AreByStamp (sent_in self.now.entries) }
        requires tabled { IsTabled self.now }
        ensures ok { (x : Id) →
            IfOk result (λ event. IsEventOf (sent_in self.now.entries) x (Comes (plain_envelope envelope.now)) (event_kept event)) }
        ensures err { IfErr result (λ stop. stop ≡ Stop.Stray × (Contains (sent_in self.now.entries) (plain_envelope envelope.now) → ⊥)) }
    {
        match place_among(self.entries.sent(), self.guess_of(envelope), envelope) {
            Some(message) => Ok(CompactEvent::Deliver {
                message: message as u64,
            }),
            None => Err(Stop::Stray),
        }
    }

    /// A place before which no envelope is equal to this one, which the next entry takes in. If it was not seen ahead, an entry just
    /// before may have sent it.
    fn guess_of(&self, envelope: &Envelope) -> Option<usize>
        requires { IsTabled self.now }
        ensures { IfSome result (HasNoneBefore (sent_in self.now.entries) (plain_envelope envelope.now)) }
    {
        match self.ahead.guess(self.entries.len(), envelope) {
            Some(place) => Some(place),
            None => self.starts.guess(envelope.stamp, mark_of(envelope)),
        }
    }
}

// Most events deliver a message. The others are made by calls of their own, since a call clears its locals as it begins, and these
// have large ones.

/// The event that a command of the node's user becomes.
#[inline(never)]
fn command_of(alloc: Global, node: Id, number: u64, command: &Command) -> Result<CompactEvent, Stop>
    ensures ok { IfOk result (λ kept. event_kept kept ≡ Event.Command node number command.now) }
    ensures err { IfErr result (λ stop. stop ≡ Stop.OutOfMemory) }
{
    let command = command.copy(alloc)?;
    let event = Event::Command {
        node,
        number,
        command,
    };
    Ok(CompactEvent::of(event, alloc)?)
}

/// The event that noise becomes.
#[inline(never)]
fn noise_of(alloc: Global, node: Id) -> Result<CompactEvent, Stop>
    ensures ok { IfOk result (λ kept. event_kept kept ≡ Event.Noise node) }
    ensures err { IfErr result (λ stop. stop ≡ Stop.OutOfMemory) }
{
    Ok(CompactEvent::of(Event::Noise { node }, alloc)?)
}

/// What an entry of one of the histories sent and noted comes into these lists, which are empty.
fn hand_out<S: Strand>(
    alloc: Global,
    act: &Act,
    strands: &mut [S],
    messages: &mut Vec<Envelope>,
    notes: &mut Vec<Note>,
) -> Result<(), OutOfMemory>
    requires within { IsWithin (map S.history strands.old) act.now }
    requires messages { messages.old.items ≡ [] }
    requires notes { notes.old.items ≡ [] }
    ensures messages { OnOk result (map plain_envelope messages.new.items ≡ (act_at (map S.history strands.old) act.now).entry.sent) }
    ensures notes { OnOk result (notes.new.items ≡ (act_at (map S.history strands.old) act.now).entry.notes) }
    ensures others { OnOk result (KeepsOthers act.now (map S.history strands.old) (map S.history strands.new)) }
{
    let strand = &mut strands[act.history as usize];
    strand.hand_out(alloc, act.place as usize, messages, notes)?;
    Ok(())
}
