//! Nodes, each to be found by its identifier. All that this crate asks of node_core is asked here. What only hands on a step or its
//! change is inlined, as in node_core.

ghost use Rattle.std.specs.Prelude.{◌≡◌, ◌==◌, ◌<◌, ℕ, true, IfOk, IfSome, IfNone, Contains, count_by, length, slice_index, vec_len};
ghost use Rattle.std.specs.Prelude.{option_copied};
ghost use Rattle.ring_math.specs.Files.{slot_of};
ghost use Rattle.coverage.specs.declared.Hop.{Hop as PlainHop};
ghost use Rattle.coverage.specs.declared.Reach.{Reach as PlainReach};
ghost use Rattle.file_store.specs.Answers.{bytes_in};
ghost use Rattle.overlay_rules.specs.State.{State, is_ready, start};
ghost use Rattle.overlay_rules.specs.Step.{step};
ghost use Rattle.overlay_rules.specs.Record.{IsSetting, all_differ, world_at_start, state_at};
ghost use Rattle.node_parts.specs.Makes.{Makes};
ghost use Rattle.node_parts.specs.Plans.{Prepares};
ghost use Rattle.node_parts.specs.Seen.{Stands};
ghost use Rattle.node_parts.specs.Sound.{IsSound};
ghost use Rattle.node_parts.specs.Views.{hop_of, reach_of};
ghost use Rattle.node_core.specs.Inputs.{plain_input};
ghost use Rattle.world_model.specs.Cells.{AllStand, AreDifferent, Finds, FitsAt, ids_of, id_at};

use coverage::{Hop, Reach};
use node_core::{Change, Input, Node, Prepared};
use ring_math::{FileId, GUESS_BITS, Id, OutOfMemory, guess_of};
use std::alloc::Global;
use std::collections::BTreeMap;
use std::marker::Model;

/// Nodes with different identifiers, in the order of their setting.
#[derive(Drop)]
pub struct Cells {
    nodes: Vec<Node>,
    /// The place of each identifier.
    places: BTreeMap<u128, usize>,
    /// For each value of the first bits the place of a node whose identifier begins with it, if there is one. It is the right
    /// one mostly, and it is looked at before it is taken, so that few identifiers are sought in the map.
    guesses: Vec<usize>,
}

impl Model for Cells {
    ghost use Rattle.std.specs.Prelude.{List};
    ghost use Rattle.node_parts.specs.declared.node.Node.{Node};
    ghost use Rattle.world_model.specs.Cells.{Finds, ids_of};

    ghost Value = { List Node };

    ghost view = { λ a. a.nodes.items };

    ghost invariant = { λ a. Finds a.places (ids_of a.nodes.items) };
}

impl Cells {
    /// The nodes as they begin: the founder is ready, the others are to join.
    pub fn new(alloc: Global, ids: &[Id], founder: Id) -> Result<Cells, OutOfMemory>
        requires { IsSetting (record { nodes = ids.now; founder = founder }) }
        ensures ids { IfOk result (λ nodes. ids_of nodes ≡ ids.now) }
        ensures stand { IfOk result (λ nodes. AllStand nodes (world_at_start (record { nodes = ids.now; founder = founder })).states) }
    {
        let nodes = nodes_of(alloc, ids, founder)?;
        let places = places_of(alloc, ids)?;
        let guesses = guesses_of(alloc, ids)?;
        Ok(Cells {
            nodes,
            places,
            guesses,
        })
    }

    /// Where the node of an identifier stands.
    pub fn place(&self, id: Id) -> usize
        requires { Contains (ids_of self.now) id }
        ensures within { result < length (ids_of self.now) }
        ensures id { slice_index (ids_of self.now) result ≡ id }
    {
        match self.guessed(id) {
            Some(place) => place,
            None => *self.places.get(&id.0).unwrap(),
        }
    }

    /// Where the node of an identifier stands, None exactly where there is none.
    pub fn find(&self, id: Id) -> Option<usize>
        ensures some { IfSome result (λ place. (place < length (ids_of self.now)) × (slice_index (ids_of self.now) place ≡ id)) }
        ensures none { IfNone result (¬ Contains (ids_of self.now) id) }
    {
        match self.guessed(id) {
            Some(place) => Some(place),
            None => self.places.get(&id.0).copied(),
        }
    }

    /// Where the node of an identifier stands, if that was guessed.
    fn guessed(&self, id: Id) -> Option<usize>
        ensures { IfSome result (λ place. (place < length (ids_of self.now)) × (slice_index (ids_of self.now) place ≡ id)) }
    {
        let place = *self.guesses.get(guess_of(id))?;
        let node = self.nodes.get(place)?;
        if node.id() == id { Some(place) } else { None }
    }

    /// How many nodes are ready.
    pub fn ready(&self) -> usize
        ensures { (states : ℕ → State) → AllStand self.now states → result ≡ count_by (λ x. is_ready (states x).phase) (ids_of self.now) }
    {
        ready_among(&self.nodes)
    }

    /// The identifier of the node at a place.
    pub fn id(&self, place: usize) -> Id
        requires { place < length (ids_of self.now) }
        ensures { result ≡ id_at self.now place }
    {
        let node = &self.nodes[place];
        node.id()
    }

    /// The next hop of a key at a node, None exactly where it is not ready.
    pub fn next_hop(&self, place: usize, key: Id) -> Option<Hop>
        requires { place < length (ids_of self.now) }
        ensures { (states : ℕ → State) → AllStand self.now states → result ≡ hop_of (states (id_at self.now place)) key }
    {
        let node = &self.nodes[place];
        node.next_hop(key)
    }

    /// What coverage depends on at a node, None exactly where it is not ready.
    pub fn reach(&self, place: usize) -> Option<Reach>
        requires { place < length (ids_of self.now) }
        ensures { (states : ℕ → State) → AllStand self.now states → result ≡ reach_of (states (id_at self.now place)) }
    {
        let node = &self.nodes[place];
        node.reach()
    }

    /// The bytes of a file at a node, None exactly where it holds none.
    pub fn holds(&self, place: usize, file: &FileId) -> Option<&[u8]>
        requires { place < length (ids_of self.now) }
        ensures { (states : ℕ → State) → AllStand self.now states → option_copied result ≡ bytes_in (slot_of (states (id_at self.now place)).files file.now) }
    {
        let node = &self.nodes[place];
        node.holds(file)
    }

    /// All of a step that can be refused. The nodes stand for what they stood for.
    #[inline(always)]
    pub fn prepare(
        &mut self,
        place: usize,
        alloc: Global,
        input: &Input<'_>,
    ) -> Result<Prepared, OutOfMemory>
        requires { place < length (ids_of self.old) }
        ensures ids { ids_of self.new ≡ ids_of self.old }
        ensures stand { (states : ℕ → State) → AllStand self.old states → AllStand self.new states }
        ensures fits { IfOk result (λ p. FitsAt self.new place p.change) }
        ensures plans { (states : ℕ → State) → AllStand self.old states →
            IfOk result (λ p. Prepares (states (id_at self.old place)) p (step (states (id_at self.old place)) (plain_input input.now))) }
        ensures sound { (states : ℕ → State) → AllStand self.old states → IsSound (step (states (id_at self.old place)) (plain_input input.now)).state }
    {
        prepare_at(&mut self.nodes, place, alloc, input)
    }

    /// The change comes to pass, which takes no memory. It is to be the one that `prepare` answered last at this place.
    #[inline(always)]
    pub fn commit(&mut self, place: usize, change: Change)
        requires within { place < length (ids_of self.old) }
        requires fits { FitsAt self.old place change }
        ensures ids { ids_of self.new ≡ ids_of self.old }
        ensures stand { (states : ℕ → State) (t : State) → AllStand self.old states → Makes change (states (id_at self.old place)) t → IsSound t →
            AllStand self.new (state_at states (id_at self.old place) t) }
    {
        commit_at(&mut self.nodes, place, change);
    }
}

/// How many of these nodes are ready.
fn ready_among(nodes: &[Node]) -> usize
    ensures { (states : ℕ → State) → AllStand nodes.now states → result ≡ count_by (λ x. is_ready (states x).phase) (ids_of nodes.now) }
{
    let mut ready: usize = 0;
    for place in 0..nodes.len() {
        let node = &nodes[place];
        if node.is_ready() {
            ready += 1;
        }
    }
    ready
}

/// The nodes as they begin, in this order.
fn nodes_of(alloc: Global, ids: &[Id], founder: Id) -> Result<Vec<Node>, OutOfMemory>
    ensures ids { IfOk result (λ nodes. ids_of nodes.items ≡ ids.now) }
    ensures stand { IfOk result (λ nodes. AllStand nodes.items (world_at_start (record { nodes = ids.now; founder = founder })).states) }
{
    let mut nodes = Vec::with_capacity(alloc, ids.len())?;
    for id in ids {
        nodes.push(node_of(alloc, *id, founder)?)?;
    }
    Ok(nodes)
}

fn node_of(alloc: Global, id: Id, founder: Id) -> Result<Node, OutOfMemory>
    ensures me { IfOk result (λ node. node.me ≡ id) }
    ensures stands { IfOk result (λ node. Stands node (start id (id == founder))) }
{
    if id == founder {
        Node::founder(alloc, id)
    } else {
        Node::fresh(alloc, id)
    }
}

/// The place of each identifier.
fn places_of(alloc: Global, ids: &[Id]) -> Result<BTreeMap<u128, usize>, OutOfMemory>
    requires { all_differ ids.now ≡ true }
    ensures { IfOk result (λ places. Finds places ids.now) }
{
    let mut places = BTreeMap::new(alloc);
    for place in 0..ids.len() {
        let id = &ids[place];
        places.insert(id.0, place)?;
    }
    Ok(places)
}

/// The guesses for these identifiers: of those that begin alike the last is guessed.
fn guesses_of(alloc: Global, ids: &[Id]) -> Result<Vec<usize>, OutOfMemory> {
    let mut guesses = vec![in alloc; 0; 1 << GUESS_BITS]?;
    for (place, id) in ids.iter().enumerate() {
        if let Some(guess) = guesses.get_mut(guess_of(*id)) {
            *guess = place;
        }
    }
    Ok(guesses)
}

#[inline(always)]
fn prepare_at(
    nodes: &mut Vec<Node>,
    place: usize,
    alloc: Global,
    input: &Input<'_>,
) -> Result<Prepared, OutOfMemory>
    requires { place < vec_len nodes.old }
    ensures ids { ids_of nodes.new.items ≡ ids_of nodes.old.items }
    ensures stand { (states : ℕ → State) → AllStand nodes.old.items states → AllStand nodes.new.items states }
    ensures fits { IfOk result (λ p. FitsAt nodes.new.items place p.change) }
    ensures plans { (states : ℕ → State) → AllStand nodes.old.items states →
        IfOk result (λ p. Prepares (states (id_at nodes.old.items place)) p (step (states (id_at nodes.old.items place)) (plain_input input.now))) }
    ensures sound { (states : ℕ → State) → AllStand nodes.old.items states →
        IsSound (step (states (id_at nodes.old.items place)) (plain_input input.now)).state }
{
    let node = &mut nodes[place];
    node.prepare(alloc, input)
}

#[inline(always)]
fn commit_at(nodes: &mut Vec<Node>, place: usize, change: Change)
    requires within { place < vec_len nodes.old }
    requires fits { FitsAt nodes.old.items place change }
    requires different { AreDifferent nodes.old.items }
    ensures ids { ids_of nodes.new.items ≡ ids_of nodes.old.items }
    ensures stand { (states : ℕ → State) (t : State) → AllStand nodes.old.items states → Makes change (states (id_at nodes.old.items place)) t → IsSound t →
        AllStand nodes.new.items (state_at states (id_at nodes.old.items place) t) }
{
    let node = &mut nodes[place];
    node.commit(change);
}
