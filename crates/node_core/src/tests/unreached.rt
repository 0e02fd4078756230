//! Rows that no history reaches by the rules: the answers are those of the rows all the same.

use super::given::{A, B, C, ORIGIN, grant, join_reply, lease, reclaim, replica};
use super::said::{command, tell};
use crate::Node;
use std::alloc::Global;
use std::test::Fail;
use wire_msg::Command;

fn replicas(node: &mut Node, alloc: Global) -> Result<(), Fail> {
    tell(
        node,
        alloc,
        B,
        replica(alloc, 1)?,
        &[("ReplicaAck", B)],
        &[],
    )?;
    let noted = [("Reclaimed", 0, ""), ("Answered", 2, "Reclaimed")];
    tell(
        node,
        alloc,
        B,
        reclaim(2),
        &[("ReclaimReply", ORIGIN)],
        &noted,
    )?;
    tell(node, alloc, B, replica(alloc, 3)?, &[], &[])
}

#[test]
fn a_replica_meets_a_tombstone(rt: HostRuntime) -> Result<(), Fail> {
    let mut node = Node::founder(rt.alloc(), A)?;
    replicas(&mut node, rt.alloc())
}

fn grants(node: &mut Node, alloc: Global) -> Result<(), Fail> {
    tell(node, alloc, A, grant(alloc, 1)?, &[], &[])?;
    command(
        node,
        alloc,
        1,
        Command::Join { via: A },
        &[("JoinRequest", A)],
        &[],
    )?;
    tell(node, alloc, A, grant(alloc, 1)?, &[], &[])?;
    tell(node, alloc, A, join_reply(alloc, 1)?, &[("Probe", A)], &[])?;
    tell(node, alloc, A, grant(alloc, 1)?, &[], &[])
}

/// In Waiting, Asking and Probing.
#[test]
fn a_grant_of_the_own_attempt_is_dropped(rt: HostRuntime) -> Result<(), Fail> {
    let mut node = Node::fresh(rt.alloc(), C)?;
    grants(&mut node, rt.alloc())
}

#[test]
fn who_is_not_ready_denies_a_lease(rt: HostRuntime) -> Result<(), Fail> {
    let mut node = Node::fresh(rt.alloc(), C)?;
    tell(&mut node, rt.alloc(), B, lease(1, C), &[("Deny", B)], &[])
}
