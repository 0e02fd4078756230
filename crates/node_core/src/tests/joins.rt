//! Whole joins, message by message, and how a node shows itself.

use super::given::{A, B, C, FILE, ORIGIN, grant, insert, join_reply, probe_reply};
use super::ring::Ring;
use super::said::{command, hold, tell};
use crate::Node;
use coverage::Hop;
use std::alloc::Global;
use std::test::Fail;
use wire_msg::Command;

/// C joins, and A is alone before.
fn lone_join(ring: &mut Ring, alloc: Global) -> Result<(), Fail> {
    ring.found(alloc, A)?;
    ring.add(alloc, C)?;
    ring.join(alloc, C, 1, A)?;
    ring.settle(alloc, 0)
}

fn is_lone_join(ring: &Ring) -> bool {
    let sent = [
        ("JoinRequest", A),
        ("JoinReply", C),
        ("Probe", A),
        ("ProbeReply", C),
        ("LeaseRequest", A),
        ("Grant", C),
        ("Confirm", A),
        ("Announce", A),
    ];
    ring.has_sent(0, &sent) && ring.has_closed(&[(1, "Joined")])
}

fn lone_join_in_order(ring: &mut Ring, alloc: Global) -> Result<(), Fail> {
    lone_join(ring, alloc)?;
    hold(is_lone_join(ring), "the messages of a lone join")?;
    hold(ring.has_links(A, C, C), "the links of A")?;
    hold(ring.has_links(C, A, A), "the links of C")
}

#[test]
fn a_lone_node_is_joined(rt: HostRuntime) -> Result<(), Fail> {
    let mut ring = Ring::new(rt.alloc());
    lone_join_in_order(&mut ring, rt.alloc())
}

/// B joins beside A, and then C between the two.
fn two_joins(ring: &mut Ring, alloc: Global) -> Result<(), Fail> {
    ring.found(alloc, A)?;
    ring.add(alloc, B)?;
    ring.join(alloc, B, 1, A)?;
    ring.settle(alloc, 0)?;
    ring.add(alloc, C)?;
    ring.join(alloc, C, 2, B)?;
    ring.settle(alloc, 8)
}

fn is_second_join(ring: &Ring) -> bool {
    let sent = [
        ("JoinRequest", B),
        ("JoinRequest", A),
        ("JoinReply", C),
        ("Probe", B),
        ("Probe", A),
        ("ProbeReply", C),
        ("ProbeReply", C),
        ("LeaseRequest", A),
        ("LeaseRequest", B),
        ("Grant", C),
        ("Grant", C),
        ("Confirm", A),
        ("Confirm", B),
        ("Announce", B),
        ("Announce", A),
    ];
    ring.has_sent(8, &sent) && ring.has_closed(&[(1, "Joined"), (2, "Joined")])
}

/// The request for a lease comes again: it is too late, and who is ready drops the denial.
fn late_request(ring: &mut Ring, alloc: Global) -> Result<(), Fail> {
    ring.deliver(alloc, 15)?;
    ring.settle(alloc, 23)
}

fn second_join_in_order(ring: &mut Ring, alloc: Global) -> Result<(), Fail> {
    two_joins(ring, alloc)?;
    hold(is_second_join(ring), "the messages of a second join")?;
    hold(ring.has_links(C, A, B), "the links of C")?;
    late_request(ring, alloc)?;
    hold(ring.has_sent(23, &[("Deny", C)]), "a denial")
}

#[test]
fn a_second_node_joins_between_two(rt: HostRuntime) -> Result<(), Fail> {
    let mut ring = Ring::new(rt.alloc());
    second_join_in_order(&mut ring, rt.alloc())
}

fn given_up(node: &mut Node, alloc: Global) -> Result<(), Fail> {
    command(
        node,
        alloc,
        1,
        Command::Join { via: A },
        &[("JoinRequest", A)],
        &[],
    )?;
    tell(node, alloc, A, join_reply(alloc, 1)?, &[("Probe", A)], &[])?;
    tell(
        node,
        alloc,
        A,
        probe_reply(alloc, 1)?,
        &[("LeaseRequest", A)],
        &[],
    )?;
    let noted = [("Closed", 1, "Stopped"), ("Closed", 2, "GaveUp")];
    command(node, alloc, 2, Command::GiveUp, &[("Release", A)], &noted)?;
    tell(node, alloc, A, grant(alloc, 1)?, &[("Release", A)], &[])
}

/// The grant of the attempt that was given up is released too.
#[test]
fn a_join_is_given_up(rt: HostRuntime) -> Result<(), Fail> {
    let mut node = Node::fresh(rt.alloc(), C)?;
    given_up(&mut node, rt.alloc())
}

fn stays(node: &mut Node, alloc: Global) -> Result<(), Fail> {
    command(
        node,
        alloc,
        1,
        Command::GiveUp,
        &[],
        &[("Closed", 1, "NothingToGiveUp")],
    )?;
    command(
        node,
        alloc,
        2,
        Command::Join { via: B },
        &[],
        &[("Closed", 2, "Stopped")],
    )
}

#[test]
fn who_is_ready_does_not_join(rt: HostRuntime) -> Result<(), Fail> {
    let mut node = Node::founder(rt.alloc(), A)?;
    stays(&mut node, rt.alloc())
}

fn holds(node: &mut Node, alloc: Global) -> Result<(), Fail> {
    let noted = [("Accepted", 0, ""), ("Answered", 1, "Stored")];
    tell(
        node,
        alloc,
        B,
        insert(alloc, 1, 1)?,
        &[("InsertReply", ORIGIN)],
        &noted,
    )
}

fn shows_itself(node: &Node) -> Result<(), Fail> {
    hold(node.id() == A, "its identifier")?;
    hold(node.is_ready(), "it is ready")?;
    hold(node.reach().is_some(), "what it covers")?;
    hold(node.next_hop(C) == Some(Hop::Here), "its next hop")?;
    hold(node.holds(&FILE).is_some(), "its file")
}

fn copy_shows_itself(node: &Node, alloc: Global) -> Result<(), Fail> {
    let copy = node.copy(alloc)?;
    shows_itself(&copy)
}

fn holds_and_shows(node: &mut Node, alloc: Global) -> Result<(), Fail> {
    holds(node, alloc)?;
    shows_itself(node)?;
    copy_shows_itself(node, alloc)
}

#[test]
fn a_node_shows_itself(rt: HostRuntime) -> Result<(), Fail> {
    let mut node = Node::founder(rt.alloc(), A)?;
    holds_and_shows(&mut node, rt.alloc())
}
