//! What no clause says: that events succeed with ample memory, and whole rows in order, message by message.

ghost use Rattle.std.specs.Prelude.{◌≡◌, Contains};
ghost use Rattle.std.specs.Bool.{OnTrue};
ghost use Rattle.overlay_rules.specs.declared.entry.Event.TheVariants as event;
ghost use Rattle.overlay_rules.specs.Record.{IsSetting};
ghost use Rattle.overlay_rules.specs.Seen.{event_seen};
ghost use Rattle.step_facts.specs.Receivers.{ViaIs};
ghost use Rattle.world_model.specs.Numbers.{IsNewest, IsNumberedBelow};
ghost use Rattle.world_model.specs.Recorded.{setting_of};

use crate::{Cells, Entries, EventRef, World};
use coverage::Hop;
use ring_math::{Bytes, FileId, Id};
use std::alloc::Global;
use std::test::Fail;
use wire_msg::{Answer, Command, Copies, Envelope, Message, Note, Own, Reply};

const A: Id = Id(0x10 << 120);

const B: Id = Id(0x90 << 120);

const C: Id = Id(0x30 << 120);

/// The key of the file that is named f, without owner and salt.
const F: Id = Id(0xbac4a3851efa3aee0b8da32d7ef30356);

/// A world, its nodes at hand, and the number of the last command.
#[derive(Drop)]
struct Trial {
    world: World,
    nodes: Vec<Id>,
    number: u64,
    ghost same: { world.nodes ≡ nodes.items },
}

/// What a node is told; the file is that named f.
#[derive(Clone, Copy)]
enum Told {
    Join(Id),
    Lookup(Id),
    GiveUp,
    Insert,
    Fetch,
}

/// What happens in a row.
#[derive(Clone, Copy)]
enum Turn {
    Tell(Id, Told),
    Settle(usize),
    Deliver(u64),
}

fn is_known(nodes: &[Id], node: Id) -> bool
    ensures { OnTrue result (Contains nodes.now node) }
{
    nodes.contains(&node)
}

/// Whether a command that joins goes by one of these nodes, those of the world.
fn goes_by_known(world: &World, nodes: &[Id], node: Id, number: u64, command: &Command) -> bool
    requires { world.now.nodes ≡ nodes.now }
    ensures { OnTrue result (ViaIs (setting_of world.now) (event.Command node number command.now)) }
{
    match command {
        Command::Join { via } => is_known(nodes, *via),
        Command::Lookup { .. }
        | Command::Insert { .. }
        | Command::Fetch { .. }
        | Command::GiveUp
        | Command::Reclaim { .. } => true,
    }
}

fn is_below(event: &EventRef<'_>, number: u64) -> bool
    ensures { OnTrue result (IsNumberedBelow number (event_seen event.now)) }
{
    match event {
        EventRef::Command { number: other, .. } => *other < number,
        EventRef::Deliver { .. } | EventRef::Noise { .. } => true,
    }
}

fn is_newest(entries: &Entries, number: u64) -> bool
    ensures { OnTrue result (IsNewest number entries.now) }
{
    for place in 0..entries.len() {
        let event = entries.at(place).event;
        // The command is named, since the prover has to see its type.
        if let EventRef::Command {
            command: _command,
            ..
        } = event
        {}
        if !is_below(&event, number) {
            return false;
        }
    }
    true
}

/// The file that is named f, without owner and salt.
fn file() -> FileId {
    FileId([
        0xba, 0xc4, 0xa3, 0x85, 0x1e, 0xfa, 0x3a, 0xee, 0x0b, 0x8d, 0xa3, 0x2d, 0x7e, 0xf3, 0x03,
        0x56, 0x28, 0xe3, 0x85, 0x2a,
    ])
}

fn insert(alloc: Global) -> Result<Command, Fail> {
    Ok(Command::Insert {
        file: file(),
        copies: Copies::new(1).ok_or("one copy is allowed")?,
        bytes: Bytes::copy_of(alloc, b"abc")?,
    })
}

fn command_of(alloc: Global, told: &Told) -> Result<Command, Fail> {
    match told {
        Told::Join(via) => Ok(Command::Join { via: *via }),
        Told::Lookup(key) => Ok(Command::Lookup { key: *key }),
        Told::GiveUp => Ok(Command::GiveUp),
        Told::Insert => insert(alloc),
        Told::Fetch => Ok(Command::Fetch { file: file() }),
    }
}

/// A world in which this happened.
fn played(alloc: Global, nodes: &[Id], founder: Id, turns: &[Turn]) -> Result<Trial, Fail>
    requires { IsSetting (record { nodes = nodes.now; founder = founder }) }
{
    let mut trial = Trial {
        world: World::new(alloc, nodes, founder)?,
        nodes: nodes.to_vec(alloc)?,
        number: 0,
    };
    trial.play(alloc, turns)?;
    Ok(trial)
}

impl Trial {
    fn command(&mut self, alloc: Global, node: Id, command: &Command) -> Result<(), Fail> {
        let number = self.number.saturating_add(1);
        self.number = number;
        if !is_known(&self.nodes, node) || !is_newest(self.world.entries(), number) {
            return Err("no such node, or no new number")?;
        }
        if !goes_by_known(&self.world, &self.nodes, node, number, command) {
            return Err("no such node to join by")?;
        }
        self.world.command(alloc, node, number, command)?;
        Ok(())
    }

    fn deliver(&mut self, alloc: Global, message: u64) -> Result<bool, Fail> {
        let was_sent = self.world.deliver(alloc, message)?;
        Ok(was_sent)
    }

    fn settle(&mut self, alloc: Global, count: usize) -> Result<(), Fail> {
        for _ in 0..count {
            if let Some(message) = self.world.oldest_undelivered() {
                self.deliver(alloc, message)?;
            }
        }
        Ok(())
    }

    fn turn(&mut self, alloc: Global, turn: &Turn) -> Result<(), Fail> {
        match turn {
            Turn::Tell(node, told) => {
                let command = command_of(alloc, told)?;
                self.command(alloc, *node, &command)
            }
            Turn::Settle(count) => self.settle(alloc, *count),
            Turn::Deliver(message) => {
                self.deliver(alloc, *message)?;
                Ok(())
            }
        }
    }

    fn play(&mut self, alloc: Global, turns: &[Turn]) -> Result<(), Fail> {
        for turn in turns {
            self.turn(alloc, turn)?;
        }
        Ok(())
    }

    /// Whether so many entries stand, so many messages were sent, and each was delivered.
    fn has_settled(&self, entries: usize, sent: u64) -> bool {
        self.world.entries().len() == entries
            && self.world.sent_len() == sent
            && self.world.oldest_undelivered().is_none()
    }

    /// The kinds of all messages, in order, with their receivers.
    fn has_sent(&self, kinds: &[(&str, Id)]) -> bool {
        are_of_kinds(self.world.entries().sent(), kinds)
    }

    /// Whether each envelope of the n-th entry has stamp n.
    fn is_stamped(&self) -> bool {
        let entries = self.world.entries();
        for place in 0..entries.len() {
            if !are_stamped(entries.at(place).messages, place as u64 + 1) {
                return false;
            }
        }
        true
    }

    /// Whether the command with this number was closed so.
    fn is_closed(&self, number: u64, answer: &str) -> bool {
        are_closing(self.world.entries().notes(), number, answer)
    }

    /// Where a node sends what is for a key.
    fn hop(&self, node: Id, key: Id) -> Option<Hop> {
        if is_known(&self.nodes, node) {
            self.world.next_hop(node, key)
        } else {
            None
        }
    }

    /// Whether all nodes stand in one ring.
    fn is_one_ring(&self) -> bool {
        for from in &self.nodes {
            for to in &self.nodes {
                if self.hop(*from, *to) != Some(hop_in_ring(*from, *to)) {
                    return false;
                }
            }
        }
        true
    }
}

/// A node covers its own key, and sends what is for another's to that one.
fn hop_in_ring(from: Id, to: Id) -> Hop {
    if from == to { Hop::Here } else { Hop::To(to) }
}

fn are_of_kinds(envelopes: &[Envelope], kinds: &[(&str, Id)]) -> bool {
    for place in 0..envelopes.len() {
        if !is_of_kind(&envelopes[place], kinds, place) {
            return false;
        }
    }
    envelopes.len() == kinds.len()
}

fn is_of_kind(envelope: &Envelope, kinds: &[(&str, Id)], place: usize) -> bool {
    match kinds.get(place) {
        Some((name, receiver)) => {
            kind(&envelope.message) == *name && envelope.receiver == *receiver
        }
        None => false,
    }
}

fn are_stamped(envelopes: &[Envelope], stamp: u64) -> bool {
    envelopes.iter().all(|envelope| envelope.stamp == stamp)
}

fn are_closing(notes: &[Note], number: u64, answer: &str) -> bool {
    notes.iter().any(|note| is_closing(note, number, answer))
}

fn is_closing(note: &Note, number: u64, name: &str) -> bool {
    match note {
        Note::Closed {
            number: other,
            answer,
        } => *other == number && closing(answer) == name,
        _ => false,
    }
}

fn kind(message: &Message) -> &'static str {
    match message {
        Message::JoinRequest { .. } => "JoinRequest",
        Message::JoinReply { .. } => "JoinReply",
        Message::Probe { .. } => "Probe",
        Message::ProbeReply { .. } => "ProbeReply",
        Message::LeaseRequest { .. } => "LeaseRequest",
        Message::Grant { .. } => "Grant",
        Message::Deny { .. } => "Deny",
        Message::Handover { .. } => "Handover",
        Message::Release { .. } => "Release",
        Message::Confirm { .. } => "Confirm",
        Message::Announce => "Announce",
        Message::Lookup { .. } => "Lookup",
        Message::LookupReply { .. } => "LookupReply",
        Message::Insert { .. } => "Insert",
        Message::InsertReply { .. } => "InsertReply",
        Message::Fetch { .. } => "Fetch",
        Message::FetchReply { .. } => "FetchReply",
        _ => "another",
    }
}

fn closing(answer: &Answer) -> &'static str {
    match answer {
        Answer::Reply(reply) => replied(reply),
        Answer::Joined { .. } => "joined",
        Answer::Denied { .. } => "denied",
        Answer::Stopped {
            own: Own::GivenUp,
            ..
        } => "given up",
        Answer::Stopped { .. } => "stopped",
        Answer::GaveUp => "gave up",
        Answer::NothingToGiveUp => "nothing to give up",
    }
}

fn replied(reply: &Reply) -> &'static str {
    match reply {
        Reply::Delivered { .. } => "delivered",
        Reply::Stored { .. } => "stored",
        Reply::Found { .. } => "found",
        Reply::Busy { .. } => "busy",
        Reply::NotReady { .. } => "not ready",
        _ => "another reply",
    }
}

#[test]
fn a_lone_node_is_joined(rt: HostRuntime) -> Result<(), Fail> {
    let turns = [Turn::Tell(C, Told::Join(A)), Turn::Settle(20)];
    let mut trial = played(rt.alloc(), &[A, C], A, &turns)?;
    assert!(rt; trial.is_closed(1, "joined") && trial.is_one_ring() && trial.is_stamped());
    assert!(rt;
        trial.has_sent(&[
            ("JoinRequest", A),
            ("JoinReply", C),
            ("Probe", A),
            ("ProbeReply", C),
            ("LeaseRequest", A),
            ("Grant", C),
            ("Confirm", A),
            ("Announce", A),
        ])
    );
    // Nothing was sent with this number.
    assert!(rt; !trial.deliver(rt.alloc(), 8)?);
    assert!(rt; trial.has_settled(9, 8));
    Ok(())
}

/// The first join is that of a lone node.
#[test]
fn a_second_node_joins(rt: HostRuntime) -> Result<(), Fail> {
    let turns = [
        Turn::Tell(B, Told::Join(A)),
        Turn::Settle(20),
        Turn::Tell(C, Told::Join(B)),
        Turn::Settle(40),
    ];
    let mut trial = played(rt.alloc(), &[A, B, C], A, &turns)?;
    assert!(rt;
        trial.has_settled(25, 23) && trial.is_closed(1, "joined") && trial.is_closed(2, "joined")
    );
    assert!(rt; trial.is_one_ring());
    // The request for a lease comes to A again: A refuses it, and C drops that.
    trial.play(rt.alloc(), &[Turn::Deliver(15), Turn::Settle(5)])?;
    assert!(rt; trial.has_settled(27, 24) && trial.is_one_ring());
    assert!(rt;
        trial.has_sent(&[
            ("JoinRequest", A),
            ("JoinReply", B),
            ("Probe", A),
            ("ProbeReply", B),
            ("LeaseRequest", A),
            ("Grant", B),
            ("Confirm", A),
            ("Announce", A),
            ("JoinRequest", B),
            ("JoinRequest", A),
            ("JoinReply", C),
            ("Probe", B),
            ("Probe", A),
            ("ProbeReply", C),
            ("ProbeReply", C),
            ("LeaseRequest", A),
            ("LeaseRequest", B),
            ("Grant", C),
            ("Grant", C),
            ("Confirm", A),
            ("Confirm", B),
            ("Announce", B),
            ("Announce", A),
            ("Deny", C),
        ])
    );
    Ok(())
}

/// Message 6 is the release of the first attempt; message 11 asks A for a lease for the second.
#[test]
fn a_release_of_an_older_attempt_changes_nothing(rt: HostRuntime) -> Result<(), Fail> {
    let turns = [
        Turn::Tell(C, Told::Join(A)),
        Turn::Settle(5),
        Turn::Tell(C, Told::GiveUp),
        Turn::Tell(C, Told::Join(A)),
        Turn::Deliver(7),
        Turn::Deliver(8),
        Turn::Deliver(9),
        Turn::Deliver(10),
        Turn::Deliver(11),
    ];
    let mut trial = played(rt.alloc(), &[A, C], A, &turns)?;
    assert!(rt; trial.hop(A, C) == Some(Hop::Gap(C)));
    trial.play(rt.alloc(), &[Turn::Deliver(6)])?;
    assert!(rt; trial.hop(A, C) == Some(Hop::Gap(C)));
    let others = [
        Turn::Settle(20),
        Turn::Tell(A, Told::Lookup(C)),
        Turn::Settle(20),
    ];
    trial.play(rt.alloc(), &others)?;
    assert!(rt;
        trial.has_settled(22, 18) && trial.is_closed(1, "given up") && trial.is_closed(2, "gave up")
    );
    assert!(rt; trial.is_closed(3, "joined") && trial.is_closed(4, "delivered"));
    Ok(())
}

/// Message 6 is the lookup, before the grant's confirmation comes.
#[test]
fn a_lookup_in_a_gap_is_busy(rt: HostRuntime) -> Result<(), Fail> {
    let turns = [
        Turn::Tell(C, Told::Join(A)),
        Turn::Settle(5),
        Turn::Tell(A, Told::Lookup(C)),
        Turn::Deliver(6),
        Turn::Settle(20),
        Turn::Tell(A, Told::Lookup(C)),
        Turn::Settle(20),
    ];
    let trial = played(rt.alloc(), &[A, C], A, &turns)?;
    assert!(rt; trial.has_settled(14, 11) && trial.is_closed(1, "joined"));
    assert!(rt; trial.is_closed(2, "busy") && trial.is_closed(3, "delivered"));
    Ok(())
}

/// Message 6 is the grant, and message 7 the file.
#[test]
fn a_file_is_handed_over(rt: HostRuntime) -> Result<(), Fail> {
    let turns = [
        Turn::Tell(A, Told::Insert),
        Turn::Settle(5),
        Turn::Tell(F, Told::Join(A)),
        Turn::Settle(5),
        Turn::Tell(A, Told::Fetch),
        Turn::Deliver(8),
        Turn::Deliver(6),
        Turn::Tell(F, Told::Fetch),
        Turn::Settle(20),
        Turn::Tell(A, Told::Fetch),
        Turn::Settle(20),
    ];
    let trial = played(rt.alloc(), &[A, F], A, &turns)?;
    assert!(rt;
        trial.has_settled(19, 14) && trial.is_closed(1, "stored") && trial.is_closed(2, "joined")
    );
    assert!(rt;
        trial.is_closed(3, "busy") && trial.is_closed(4, "not ready") && trial.is_closed(5, "found")
    );
    Ok(())
}

#[test]
fn noise_is_one_entry(rt: HostRuntime) -> Result<(), Fail> {
    let turns = [Turn::Tell(C, Told::Join(A))];
    let mut trial = played(rt.alloc(), &[A, C], A, &turns)?;
    if is_known(&trial.nodes, C) {
        trial.world.noise(rt.alloc(), C)?;
    }
    assert!(rt; trial.world.sent_len() == 1 && trial.world.oldest_undelivered() == Some(0));
    let record = trial.world.finish(3);
    assert!(rt; record.entries.len() == 2 && record.skipped == 3);
    Ok(())
}

#[test]
fn nodes_are_found(rt: HostRuntime) -> Result<(), Fail> {
    let cells = Cells::new(rt.alloc(), &[A, C], A)?;
    assert!(rt; cells.find(C) == Some(1) && cells.find(B).is_none());
    assert!(rt; cells.ready() == 1);
    Ok(())
}
