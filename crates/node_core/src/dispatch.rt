//! What a node does with what comes to it: the row of each kind.
//!
//! The rows are not inlined: a call clears its locals as it begins, and each row is to clear its own alone. What leads to them from a
//! message is, since what a step gives is large, and each call that hands it on would clear room for it and copy it once more.
//! Commands are few, so what leads to their rows is as it comes.

ghost use Rattle.std.specs.Prelude.{IfOk, List, ℕ};
ghost use Rattle.overlay_rules.specs.Gatekeeper.{on_lease_request as on_lease_request_of};
ghost use Rattle.overlay_rules.specs.Roots.{on_insert as on_insert_of, on_fetch as on_fetch_of, on_reclaim as on_reclaim_of};
ghost use Rattle.overlay_rules.specs.Routed.{on_lookup as on_lookup_of};
ghost use Rattle.overlay_rules.specs.Step.{step as step_of, on_message as on_message_of, on_command as on_command_of};
ghost use Rattle.wire_msg.specs.Words.{plain};
ghost use Rattle.node_parts.specs.Seen.{seen, Shows};
ghost use Rattle.node_parts.specs.Plans.{Plans, Prepares};
ghost use Rattle.node_parts.specs.declared.change.Wait.TheVariants as waiting;
ghost use Rattle.node_core.specs.Inputs.{plain_input};
ghost use Rattle.node_core.specs.Rows.{IsRow};

use crate::files::fetch::on_fetch;
use crate::files::handover::on_handover;
use crate::files::insert::on_insert;
use crate::files::lookup::on_lookup;
use crate::files::reclaim::on_reclaim;
use crate::files::replicas::{on_replica_ack, on_replicate};
use crate::files::replies::on_reply;
use crate::input::Input;
use crate::joins::asking::{on_join, on_join_request};
use crate::joins::ending::{on_deny, on_give_up, on_join_refuse};
use crate::joins::finishing::{on_announce, on_grant};
use crate::joins::gates::{on_confirm, on_release};
use crate::joins::leasing::on_lease_request;
use crate::joins::probing::{on_join_reply, on_probe, on_probe_reply};
use crate::request::Request;
use gate_core::Gate;
use node_parts::{Change, Node, Prepared};
use ring_math::{Bytes, FileId, Id, OutOfMemory};
use std::alloc::Global;
use wire_msg::{Command, Copies, Message};

/// A lookup that came as a message. This and the like below are calls of their own: what they make for the row would else be cleared
/// at each message of any kind.
#[inline(never)]
fn lookup_came(
    node: &Node,
    alloc: Global,
    origin: Id,
    number: u64,
    key: Id,
    hops: u16,
) -> Result<Prepared, OutOfMemory>
    ensures { IsRow node.now waiting.Keep (λ s. on_lookup_of s origin number key hops) result }
{
    let request = Request::on_its_way(origin, number);
    on_lookup(node, alloc, &request, key, hops)
}

/// An insert that came as a message.
#[inline(never)]
fn insert_came(
    node: &Node,
    alloc: Global,
    origin: Id,
    number: u64,
    hops: u16,
    file: &FileId,
    copies: Copies,
    bytes: &Bytes,
) -> Result<Prepared, OutOfMemory>
    ensures { IsRow node.now waiting.Keep (λ s. on_insert_of s origin number hops file.now copies bytes.now) result }
{
    let request = Request::on_its_way(origin, number);
    on_insert(node, alloc, &request, hops, file, copies, bytes)
}

/// A fetch that came as a message.
#[inline(never)]
fn fetch_came(
    node: &Node,
    alloc: Global,
    origin: Id,
    number: u64,
    hops: u16,
    file: &FileId,
) -> Result<Prepared, OutOfMemory>
    ensures { IsRow node.now waiting.Keep (λ s. on_fetch_of s origin number hops file.now) result }
{
    let request = Request::on_its_way(origin, number);
    on_fetch(node, alloc, &request, hops, file)
}

/// A reclaim that came as a message.
#[inline(never)]
fn reclaim_came(
    node: &Node,
    alloc: Global,
    origin: Id,
    number: u64,
    hops: u16,
    file: &FileId,
) -> Result<Prepared, OutOfMemory>
    ensures { IsRow node.now waiting.Keep (λ s. on_reclaim_of s origin number hops file.now) result }
{
    let request = Request::on_its_way(origin, number);
    on_reclaim(node, alloc, &request, hops, file)
}

/// A request for a lease.
#[inline(never)]
fn lease_asked(
    node: &Node,
    alloc: Global,
    joiner: Id,
    attempt: u32,
    left: Id,
    right: Id,
) -> Result<Prepared, OutOfMemory>
    ensures { (known : List ℕ) → IfOk result (λ p. Plans (seen node.now known) p
        (on_lease_request_of (seen node.now known) (record { joiner = joiner; attempt = attempt; left = left; right = right }))) }
{
    let gate = Gate {
        joiner,
        attempt,
        left,
        right,
    };
    on_lease_request(node, alloc, &gate)
}

#[inline(always)]
fn on_message(
    node: &Node,
    alloc: Global,
    from: Id,
    message: &Message,
) -> Result<Prepared, OutOfMemory>
    ensures { (known : List ℕ) → Shows node.now known →
        IfOk result (λ p. Prepares (seen node.now known) p (on_message_of (seen node.now known) from (plain message.now))) }
{
    match message {
        Message::Lookup {
            origin,
            number,
            key,
            hops,
        } => lookup_came(node, alloc, *origin, *number, *key, *hops),
        Message::Insert {
            origin,
            number,
            hops,
            file,
            copies,
            bytes,
        } => insert_came(node, alloc, *origin, *number, *hops, file, *copies, bytes),
        Message::Fetch {
            origin,
            number,
            hops,
            file,
        } => fetch_came(node, alloc, *origin, *number, *hops, file),
        Message::Reclaim {
            origin,
            number,
            hops,
            file,
        } => reclaim_came(node, alloc, *origin, *number, *hops, file),
        Message::LookupReply { number, reply } => on_reply(node, alloc, *number, reply),
        Message::InsertReply { number, reply } => on_reply(node, alloc, *number, reply),
        Message::FetchReply { number, reply } => on_reply(node, alloc, *number, reply),
        Message::ReclaimReply { number, reply } => on_reply(node, alloc, *number, reply),
        Message::Replicate {
            origin,
            number,
            file,
            bytes,
        } => on_replicate(node, alloc, from, *origin, *number, file, bytes),
        Message::ReplicaAck {
            origin,
            number,
            file,
        } => on_replica_ack(node, alloc, from, *origin, *number, file),
        Message::Handover { file, bytes } => on_handover(node, alloc, file, bytes),
        Message::JoinRequest {
            joiner,
            attempt,
            hops,
        } => on_join_request(node, alloc, *joiner, *attempt, *hops),
        Message::JoinReply { attempt, members } => on_join_reply(node, alloc, *attempt, members),
        Message::JoinRefuse { attempt, why } => on_join_refuse(node, alloc, from, *attempt, *why),
        Message::Probe { attempt } => on_probe(node, alloc, from, *attempt),
        Message::ProbeReply { attempt, members } => on_probe_reply(
            node, alloc, from, *attempt, members,
        ),
        Message::LeaseRequest {
            attempt,
            left,
            right,
        } => lease_asked(node, alloc, from, *attempt, *left, *right),
        Message::Grant {
            attempt,
            manifest,
            tombs,
        } => on_grant(node, alloc, from, *attempt, manifest, tombs),
        Message::Deny { attempt, why } => on_deny(node, alloc, from, *attempt, *why),
        Message::Release { attempt } => on_release(node, alloc, from, *attempt),
        Message::Confirm { attempt } => on_confirm(node, alloc, from, *attempt),
        Message::Announce => Ok(on_announce(alloc, from)),
    }
}

fn on_command(
    node: &Node,
    alloc: Global,
    number: u64,
    command: &Command,
) -> Result<Prepared, OutOfMemory>
    ensures { (known : List ℕ) → Shows node.now known →
        IfOk result (λ p. Plans (seen node.now known) p (on_command_of (seen node.now known) number command.now)) }
{
    let request = Request::own(node.me, number);
    match command {
        Command::Join { via } => on_join(node, alloc, number, *via),
        Command::GiveUp => on_give_up(node, alloc, number),
        Command::Lookup { key } => on_lookup(node, alloc, &request, *key, 0),
        Command::Insert {
            file,
            copies,
            bytes,
        } => on_insert(node, alloc, &request, 0, file, *copies, bytes),
        Command::Fetch { file } => on_fetch(node, alloc, &request, 0, file),
        Command::Reclaim { file } => on_reclaim(node, alloc, &request, 0, file),
    }
}

/// What the step at this input sends, notes and changes. Nothing changes yet.
#[inline(always)]
pub(crate) fn plan(node: &Node, alloc: Global, input: &Input<'_>) -> Result<Prepared, OutOfMemory>
    ensures { (known : List ℕ) → Shows node.now known →
        IfOk result (λ p. Prepares (seen node.now known) p (step_of (seen node.now known) (plain_input input.now))) }
{
    match input {
        Input::Command { number, command } => on_command(node, alloc, *number, command),
        Input::Message { sender, message } => on_message(node, alloc, *sender, message),
        Input::Noise => Ok(Prepared::quiet(alloc, Change::nothing())),
    }
}
