//! Every kind of message and command once, with ample memory.

use super::given::{
    A, B, C, FILE, Given, ORIGIN, abc, ack, copies, fetch, grant, handover, insert, join_reply,
    lease, lookup, probe_reply, reclaim, replica,
};
use super::said::{command, take, tell};
use crate::Node;
use std::alloc::Global;
use std::test::Fail;
use wire_msg::{Command, Message, Reply, Why};

/// Requests at a root that stands alone.
fn requests(root: &mut Node, alloc: Global) -> Result<(), Fail> {
    let noted = [("Delivered", 1, ""), ("Answered", 1, "Delivered")];
    tell(
        root,
        alloc,
        B,
        lookup(1, 0),
        &[("LookupReply", ORIGIN)],
        &noted,
    )?;
    let noted = [("Answered", 2, "NotFound")];
    tell(root, alloc, B, fetch(2), &[("FetchReply", ORIGIN)], &noted)?;
    let noted = [("Accepted", 0, ""), ("Answered", 3, "Stored")];
    tell(
        root,
        alloc,
        B,
        insert(alloc, 3, 1)?,
        &[("InsertReply", ORIGIN)],
        &noted,
    )?;
    let noted = [("Answered", 4, "Found")];
    tell(root, alloc, B, fetch(4), &[("FetchReply", ORIGIN)], &noted)?;
    let noted = [("Answered", 5, "TooFew")];
    tell(
        root,
        alloc,
        B,
        insert(alloc, 5, 2)?,
        &[("InsertReply", ORIGIN)],
        &noted,
    )
}

/// The root learns of another node, which is to hold a replica.
fn replicas(root: &mut Node, alloc: Global) -> Result<(), Fail> {
    tell(root, alloc, B, Message::Announce, &[], &[])?;
    tell(
        root,
        alloc,
        B,
        insert(alloc, 6, 2)?,
        &[("Replicate", B)],
        &[],
    )?;
    let noted = [("Answered", 6, "Stored")];
    tell(root, alloc, B, ack(6), &[("InsertReply", ORIGIN)], &noted)?;
    tell(
        root,
        alloc,
        B,
        replica(alloc, 7)?,
        &[("ReplicaAck", B)],
        &[],
    )?;
    tell(root, alloc, B, handover(alloc, b"x")?, &[], &[])
}

/// A joiner asks for the place beside the root, and takes its request back.
fn joins(root: &mut Node, alloc: Global) -> Result<(), Fail> {
    let request = Message::JoinRequest {
        joiner: C,
        attempt: 1,
        hops: 0,
    };
    tell(root, alloc, C, request, &[("JoinReply", C)], &[])?;
    tell(
        root,
        alloc,
        C,
        Message::Probe { attempt: 1 },
        &[("ProbeReply", C)],
        &[],
    )?;
    tell(
        root,
        alloc,
        C,
        lease(1, A),
        &[("Grant", C), ("Handover", C)],
        &[],
    )?;
    let noted = [("Answered", 8, "Busy")];
    tell(root, alloc, B, fetch(8), &[("FetchReply", ORIGIN)], &noted)?;
    tell(root, alloc, C, Message::Release { attempt: 1 }, &[], &[])
}

/// The file goes, and then the place.
fn leaves(root: &mut Node, alloc: Global) -> Result<(), Fail> {
    let noted = [("Reclaimed", 0, ""), ("Answered", 9, "Reclaimed")];
    tell(
        root,
        alloc,
        B,
        reclaim(9),
        &[("ReclaimReply", ORIGIN)],
        &noted,
    )?;
    tell(root, alloc, C, lease(2, A), &[("Grant", C)], &[])?;
    tell(root, alloc, C, Message::Confirm { attempt: 2 }, &[], &[])?;
    tell(root, alloc, B, fetch(10), &[("Fetch", C)], &[])
}

/// A join that is refused, and one that is denied.
fn refusals(joiner: &mut Node, alloc: Global) -> Result<(), Fail> {
    let why = Why::NotReady;
    let noted = [("Closed", 1, "Denied")];
    command(
        joiner,
        alloc,
        1,
        Command::Join { via: B },
        &[("JoinRequest", B)],
        &[],
    )?;
    tell(
        joiner,
        alloc,
        B,
        Message::JoinRefuse { attempt: 1, why },
        &[],
        &noted,
    )?;
    command(
        joiner,
        alloc,
        2,
        Command::Join { via: A },
        &[("JoinRequest", A)],
        &[],
    )?;
    tell(
        joiner,
        alloc,
        A,
        join_reply(alloc, 2)?,
        &[("Probe", A)],
        &[],
    )?;
    tell(
        joiner,
        alloc,
        A,
        probe_reply(alloc, 2)?,
        &[("LeaseRequest", A)],
        &[],
    )?;
    let noted = [("Closed", 2, "Denied")];
    tell(
        joiner,
        alloc,
        A,
        Message::Deny { attempt: 2, why },
        &[("Release", A)],
        &noted,
    )
}

/// Each request of a node that is not ready is refused by itself.
fn commands(joiner: &mut Node, alloc: Global) -> Result<(), Fail> {
    let lookup = Command::Lookup { key: A };
    command(
        joiner,
        alloc,
        3,
        lookup,
        &[("LookupReply", C)],
        &[("Answered", 3, "NotReady")],
    )?;
    let insert = Command::Insert {
        file: FILE,
        copies: copies(1)?,
        bytes: abc(alloc)?,
    };
    command(
        joiner,
        alloc,
        4,
        insert,
        &[("InsertReply", C)],
        &[("Answered", 4, "NotReady")],
    )?;
    let fetch = Command::Fetch { file: FILE };
    command(
        joiner,
        alloc,
        5,
        fetch,
        &[("FetchReply", C)],
        &[("Answered", 5, "NotReady")],
    )?;
    let reclaim = Command::Reclaim { file: FILE };
    command(
        joiner,
        alloc,
        6,
        reclaim,
        &[("ReclaimReply", C)],
        &[("Answered", 6, "NotReady")],
    )
}

/// The replies come back, and each closes its number once.
fn replies(joiner: &mut Node, alloc: Global) -> Result<(), Fail> {
    let reply = Reply::NotReady { node: C };
    let message = Message::LookupReply { number: 3, reply };
    tell(joiner, alloc, C, message, &[], &[("Closed", 3, "NotReady")])?;
    let reply = Reply::NotReady { node: C };
    let message = Message::InsertReply { number: 4, reply };
    tell(joiner, alloc, C, message, &[], &[("Closed", 4, "NotReady")])?;
    let reply = Reply::NotReady { node: C };
    let message = Message::FetchReply { number: 5, reply };
    tell(joiner, alloc, C, message, &[], &[("Closed", 5, "NotReady")])?;
    let reply = Reply::NotReady { node: C };
    let message = Message::ReclaimReply { number: 6, reply };
    tell(joiner, alloc, C, message, &[], &[("Closed", 6, "NotReady")])?;
    let reply = Reply::NotReady { node: C };
    tell(
        joiner,
        alloc,
        C,
        Message::ReclaimReply { number: 6, reply },
        &[],
        &[],
    )
}

/// The join that succeeds.
fn success(joiner: &mut Node, alloc: Global) -> Result<(), Fail> {
    command(
        joiner,
        alloc,
        7,
        Command::GiveUp,
        &[],
        &[("Closed", 7, "NothingToGiveUp")],
    )?;
    command(
        joiner,
        alloc,
        8,
        Command::Join { via: A },
        &[("JoinRequest", A)],
        &[],
    )?;
    tell(
        joiner,
        alloc,
        A,
        join_reply(alloc, 3)?,
        &[("Probe", A)],
        &[],
    )?;
    tell(
        joiner,
        alloc,
        A,
        probe_reply(alloc, 3)?,
        &[("LeaseRequest", A)],
        &[],
    )?;
    let sent = [("Confirm", A), ("Announce", A)];
    tell(
        joiner,
        alloc,
        A,
        grant(alloc, 3)?,
        &sent,
        &[("Closed", 8, "Joined")],
    )
}

fn all_at_a_root(root: &mut Node, alloc: Global) -> Result<(), Fail> {
    requests(root, alloc)?;
    replicas(root, alloc)?;
    joins(root, alloc)?;
    leaves(root, alloc)?;
    take(root, alloc, &Given::Noise, "noise", &[], &[])
}

fn all_at_a_joiner(joiner: &mut Node, alloc: Global) -> Result<(), Fail> {
    refusals(joiner, alloc)?;
    commands(joiner, alloc)?;
    replies(joiner, alloc)?;
    success(joiner, alloc)
}

fn a_root_takes(alloc: Global) -> Result<(), Fail> {
    let mut root = Node::founder(alloc, A)?;
    all_at_a_root(&mut root, alloc)
}

fn a_joiner_takes(alloc: Global) -> Result<(), Fail> {
    let mut joiner = Node::fresh(alloc, C)?;
    all_at_a_joiner(&mut joiner, alloc)
}

#[test]
fn every_kind_is_taken(rt: HostRuntime) -> Result<(), Fail> {
    a_root_takes(rt.alloc())?;
    a_joiner_takes(rt.alloc())
}
