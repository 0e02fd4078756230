//! Files and tombstones that go to a joiner, and copies on two nodes.

use super::given::{
    A, B, C, FILE, ORIGIN, ack, fetch, grant_with_file, grant_with_tomb, handover, insert,
    join_reply, lease, lookup, probe_reply, reclaim,
};
use super::said::{command, hold, tell, told};
use crate::{Node, Output};
use ring_math::Id;
use std::alloc::Global;
use std::test::Fail;
use wire_msg::{Command, Message, Reply};

/// C asks A for its place, by attempt 1 and as command 1.
fn asks(joiner: &mut Node, alloc: Global) -> Result<(), Fail> {
    command(
        joiner,
        alloc,
        1,
        Command::Join { via: A },
        &[("JoinRequest", A)],
        &[],
    )?;
    tell(
        joiner,
        alloc,
        A,
        join_reply(alloc, 1)?,
        &[("Probe", A)],
        &[],
    )?;
    tell(
        joiner,
        alloc,
        A,
        probe_reply(alloc, 1)?,
        &[("LeaseRequest", A)],
        &[],
    )
}

/// The message makes C ready.
fn joins(joiner: &mut Node, alloc: Global, message: Message) -> Result<(), Fail> {
    let sent = [("Confirm", A), ("Announce", A)];
    tell(joiner, alloc, A, message, &sent, &[("Closed", 1, "Joined")])
}

fn file_last(joiner: &mut Node, alloc: Global) -> Result<(), Fail> {
    asks(joiner, alloc)?;
    tell(joiner, alloc, A, grant_with_file(alloc, 1)?, &[], &[])?;
    joins(joiner, alloc, handover(alloc, b"abc")?)?;
    let noted = [("Answered", 2, "Found")];
    tell(
        joiner,
        alloc,
        A,
        fetch(2),
        &[("FetchReply", ORIGIN)],
        &noted,
    )
}

#[test]
fn a_file_is_handed_over(rt: HostRuntime) -> Result<(), Fail> {
    let mut joiner = Node::fresh(rt.alloc(), C)?;
    file_last(&mut joiner, rt.alloc())
}

fn file_first(joiner: &mut Node, alloc: Global) -> Result<(), Fail> {
    asks(joiner, alloc)?;
    tell(joiner, alloc, A, handover(alloc, b"abc")?, &[], &[])?;
    joins(joiner, alloc, grant_with_file(alloc, 1)?)
}

#[test]
fn a_file_comes_before_its_grant(rt: HostRuntime) -> Result<(), Fail> {
    let mut joiner = Node::fresh(rt.alloc(), C)?;
    file_first(&mut joiner, rt.alloc())
}

fn tombstone(joiner: &mut Node, alloc: Global) -> Result<(), Fail> {
    asks(joiner, alloc)?;
    joins(joiner, alloc, grant_with_tomb(alloc, 1)?)?;
    let noted = [("Answered", 2, "Gone")];
    tell(
        joiner,
        alloc,
        A,
        fetch(2),
        &[("FetchReply", ORIGIN)],
        &noted,
    )
}

#[test]
fn a_tombstone_is_handed_over(rt: HostRuntime) -> Result<(), Fail> {
    let mut joiner = Node::fresh(rt.alloc(), C)?;
    tombstone(&mut joiner, rt.alloc())
}

/// A knows B and holds the file.
fn holds_the_file(root: &mut Node, alloc: Global) -> Result<(), Fail> {
    let noted = [("Accepted", 0, ""), ("Answered", 1, "Stored")];
    tell(
        root,
        alloc,
        B,
        insert(alloc, 1, 1)?,
        &[("InsertReply", ORIGIN)],
        &noted,
    )?;
    tell(root, alloc, B, Message::Announce, &[], &[])
}

/// Whether the origin is told that these two hold the file.
fn is_stored(output: &Output, root: Id, other: Id) -> bool {
    let [sent] = output.messages.as_slice() else {
        return false;
    };
    match &sent.message {
        Message::InsertReply { reply, .. } => has_holders(reply, root, other),
        _ => false,
    }
}

fn has_holders(reply: &Reply, root: Id, other: Id) -> bool {
    match reply {
        Reply::Stored { holders } => holders.as_slice() == [root, other].as_slice(),
        _ => false,
    }
}

fn stored_by(root: &mut Node, alloc: Global) -> Result<bool, Fail> {
    let output = told(root, alloc, B, ack(2))?;
    Ok(is_stored(&output, A, B))
}

fn two_copies(root: &mut Node, alloc: Global) -> Result<(), Fail> {
    holds_the_file(root, alloc)?;
    tell(
        root,
        alloc,
        B,
        insert(alloc, 2, 2)?,
        &[("Replicate", B)],
        &[],
    )?;
    hold(stored_by(root, alloc)?, "A and B hold the file")?;
    tell(root, alloc, B, ack(2), &[], &[])
}

#[test]
fn two_copies_are_stored(rt: HostRuntime) -> Result<(), Fail> {
    let mut root = Node::founder(rt.alloc(), A)?;
    two_copies(&mut root, rt.alloc())
}

fn reclaims(root: &mut Node, alloc: Global) -> Result<(), Fail> {
    holds_the_file(root, alloc)?;
    tell(
        root,
        alloc,
        B,
        insert(alloc, 2, 2)?,
        &[("Replicate", B)],
        &[],
    )?;
    tell(
        root,
        alloc,
        B,
        insert(alloc, 3, 2)?,
        &[("Replicate", B)],
        &[],
    )?;
    let sent = [
        ("InsertReply", ORIGIN),
        ("InsertReply", ORIGIN),
        ("ReclaimReply", ORIGIN),
    ];
    let noted = [
        ("Reclaimed", 0, ""),
        ("Answered", 2, "Gone"),
        ("Answered", 3, "Gone"),
        ("Answered", 4, "Reclaimed"),
    ];
    tell(root, alloc, B, reclaim(4), &sent, &noted)?;
    hold(root.holds(&FILE).is_none(), "a tombstone stands")
}

/// What waits is over, in order, before the reclaim is replied itself.
#[test]
fn a_reclaim_ends_what_waits(rt: HostRuntime) -> Result<(), Fail> {
    let mut root = Node::founder(rt.alloc(), A)?;
    reclaims(&mut root, rt.alloc())
}

/// C stands beside A.
fn admits(root: &mut Node, alloc: Global) -> Result<(), Fail> {
    tell(root, alloc, C, lease(1, A), &[("Grant", C)], &[])?;
    tell(root, alloc, C, Message::Confirm { attempt: 1 }, &[], &[])
}

/// Whether a lookup of so many hops is passed on with so many.
fn is_passed_on(output: &Output, wanted: u16) -> bool {
    match output.messages.as_slice() {
        [sent] => matches!(&sent.message, Message::Lookup { hops, .. } if *hops == wanted),
        _ => false,
    }
}

fn passes_on(root: &mut Node, alloc: Global, hops: u16, wanted: u16) -> Result<(), Fail> {
    let output = told(root, alloc, B, lookup(1, hops))?;
    hold(is_passed_on(&output, wanted), "hops are counted")
}

fn hops(root: &mut Node, alloc: Global) -> Result<(), Fail> {
    admits(root, alloc)?;
    passes_on(root, alloc, 7, 8)?;
    passes_on(root, alloc, 65_534, 65_535)?;
    passes_on(root, alloc, 65_535, 65_535)
}

/// Who passes on counts hops up to 65,535.
#[test]
fn hops_are_counted(rt: HostRuntime) -> Result<(), Fail> {
    let mut root = Node::founder(rt.alloc(), A)?;
    hops(&mut root, rt.alloc())
}
