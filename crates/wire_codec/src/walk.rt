//! Walking over the fields of a message, from the place on where they begin to the end of the bytes.

ghost use Rattle.std.specs.Prelude.{◌≤◌, length};
ghost use Rattle.wire_codec.specs.declared.kind.Kind.TheVariants as kind;
ghost use Rattle.wire_codec.specs.Layouts.{end, tagged, behind_reply, why, layout};
ghost use Rattle.wire_codec.specs.Reading.{Reads, walk};

use crate::fault::FrameFault;
use crate::field::{
    attempt_at, byte_within, bytes_at, copies_at, file_at, files_at, hops_at, id_at, ids_at,
    number_at, tombs_at,
};
use crate::kind::{Kind, Version};

/// No byte is left.
pub(crate) fn walk_end(bytes: &[u8], place: usize) -> Result<(), FrameFault>
    ensures { Reads (λ ended. ended) result (walk bytes.now end place) }
{
    if place != bytes.len() {
        return Err(FrameFault::Range { place });
    }
    Ok(())
}

pub(crate) fn walk_why(bytes: &[u8], place: usize) -> Result<(), FrameFault>
    requires { place ≤ length bytes.now }
    ensures { Reads (λ ended. ended) result (walk bytes.now why place) }
{
    let tag = byte_within(bytes, 1, 3, place)?;
    let place = place + 1;
    match tag {
        1 => {
            let (_, place) = id_at(bytes, place)?;
            walk_end(bytes, place)
        }
        2 => {
            let (_, place) = id_at(bytes, place)?;
            let (_, place) = id_at(bytes, place)?;
            walk_end(bytes, place)
        }
        _ => walk_end(bytes, place),
    }
}

/// A reply whose tag is from `lowest` to `highest`.
pub(crate) fn walk_tagged(
    bytes: &[u8],
    lowest: u8,
    highest: u8,
    place: usize,
) -> Result<(), FrameFault>
    requires { place ≤ length bytes.now }
    ensures { Reads (λ ended. ended) result (walk bytes.now (tagged lowest highest behind_reply) place) }
{
    let tag = byte_within(bytes, lowest, highest, place)?;
    let place = place + 1;
    match tag {
        1 | 6 => {
            let (_, place) = id_at(bytes, place)?;
            let (_, place) = hops_at(bytes, place)?;
            walk_end(bytes, place)
        }
        2 => {
            let (_, place) = ids_at(bytes, place)?;
            walk_end(bytes, place)
        }
        3 => {
            let (_, place) = id_at(bytes, place)?;
            let (_, place) = bytes_at(bytes, place)?;
            walk_end(bytes, place)
        }
        7 => {
            let (_, place) = id_at(bytes, place)?;
            let (_, place) = id_at(bytes, place)?;
            walk_end(bytes, place)
        }
        _ => {
            let (_, place) = id_at(bytes, place)?;
            walk_end(bytes, place)
        }
    }
}

/// The number of the request, and the reply to a lookup, an insert or a fetch.
fn walk_reply(bytes: &[u8], version: Version, place: usize) -> Result<(), FrameFault>
    requires { place ≤ length bytes.now }
    ensures { Reads (λ ended. ended) result (walk bytes.now (layout (kind.LookupReply version)) place) }
{
    let (_, place) = number_at(bytes, place)?;
    match version {
        Version::One => walk_tagged(bytes, 1, 9, place),
        Version::Two => walk_tagged(bytes, 10, 11, place),
    }
}

fn walk_reclaim_reply(bytes: &[u8], place: usize) -> Result<(), FrameFault>
    requires { place ≤ length bytes.now }
    ensures { Reads (λ ended. ended) result (walk bytes.now (layout kind.ReclaimReply) place) }
{
    let (_, place) = number_at(bytes, place)?;
    walk_tagged(bytes, 1, 11, place)
}

/// An attempt, and why it failed.
fn walk_refusal(bytes: &[u8], place: usize) -> Result<(), FrameFault>
    requires { place ≤ length bytes.now }
    ensures { Reads (λ ended. ended) result (walk bytes.now (layout kind.Deny) place) }
{
    let (_, place) = attempt_at(bytes, place)?;
    walk_why(bytes, place)
}

fn walk_grant(bytes: &[u8], version: Version, place: usize) -> Result<(), FrameFault>
    requires { place ≤ length bytes.now }
    ensures { Reads (λ ended. ended) result (walk bytes.now (layout (kind.Grant version)) place) }
{
    let (_, place) = attempt_at(bytes, place)?;
    let (_, place) = files_at(bytes, place)?;
    match version {
        Version::One => walk_end(bytes, place),
        Version::Two => {
            let (_, place) = tombs_at(bytes, place)?;
            walk_end(bytes, place)
        }
    }
}

fn walk_lookup(bytes: &[u8], place: usize) -> Result<(), FrameFault>
    requires { place ≤ length bytes.now }
    ensures { Reads (λ ended. ended) result (walk bytes.now (layout kind.Lookup) place) }
{
    let (_, place) = id_at(bytes, place)?;
    let (_, place) = number_at(bytes, place)?;
    let (_, place) = id_at(bytes, place)?;
    let (_, place) = hops_at(bytes, place)?;
    walk_end(bytes, place)
}

fn walk_insert(bytes: &[u8], place: usize) -> Result<(), FrameFault>
    requires { place ≤ length bytes.now }
    ensures { Reads (λ ended. ended) result (walk bytes.now (layout kind.Insert) place) }
{
    let (_, place) = id_at(bytes, place)?;
    let (_, place) = number_at(bytes, place)?;
    let (_, place) = hops_at(bytes, place)?;
    let (_, place) = file_at(bytes, place)?;
    let (_, place) = copies_at(bytes, place)?;
    let (_, place) = bytes_at(bytes, place)?;
    walk_end(bytes, place)
}

/// A fetch or a reclaim.
fn walk_fetch(bytes: &[u8], place: usize) -> Result<(), FrameFault>
    requires { place ≤ length bytes.now }
    ensures { Reads (λ ended. ended) result (walk bytes.now (layout kind.Fetch) place) }
{
    let (_, place) = id_at(bytes, place)?;
    let (_, place) = number_at(bytes, place)?;
    let (_, place) = hops_at(bytes, place)?;
    let (_, place) = file_at(bytes, place)?;
    walk_end(bytes, place)
}

fn walk_join_request(bytes: &[u8], place: usize) -> Result<(), FrameFault>
    requires { place ≤ length bytes.now }
    ensures { Reads (λ ended. ended) result (walk bytes.now (layout kind.JoinRequest) place) }
{
    let (_, place) = id_at(bytes, place)?;
    let (_, place) = attempt_at(bytes, place)?;
    let (_, place) = hops_at(bytes, place)?;
    walk_end(bytes, place)
}

/// An attempt, and members.
fn walk_members(bytes: &[u8], place: usize) -> Result<(), FrameFault>
    requires { place ≤ length bytes.now }
    ensures { Reads (λ ended. ended) result (walk bytes.now (layout kind.JoinReply) place) }
{
    let (_, place) = attempt_at(bytes, place)?;
    let (_, place) = ids_at(bytes, place)?;
    walk_end(bytes, place)
}

/// An attempt alone.
fn walk_attempt(bytes: &[u8], place: usize) -> Result<(), FrameFault>
    requires { place ≤ length bytes.now }
    ensures { Reads (λ ended. ended) result (walk bytes.now (layout kind.Probe) place) }
{
    let (_, place) = attempt_at(bytes, place)?;
    walk_end(bytes, place)
}

fn walk_lease_request(bytes: &[u8], place: usize) -> Result<(), FrameFault>
    requires { place ≤ length bytes.now }
    ensures { Reads (λ ended. ended) result (walk bytes.now (layout kind.LeaseRequest) place) }
{
    let (_, place) = attempt_at(bytes, place)?;
    let (_, place) = id_at(bytes, place)?;
    let (_, place) = id_at(bytes, place)?;
    walk_end(bytes, place)
}

fn walk_handover(bytes: &[u8], place: usize) -> Result<(), FrameFault>
    requires { place ≤ length bytes.now }
    ensures { Reads (λ ended. ended) result (walk bytes.now (layout kind.Handover) place) }
{
    let (_, place) = file_at(bytes, place)?;
    let (_, place) = bytes_at(bytes, place)?;
    walk_end(bytes, place)
}

fn walk_replicate(bytes: &[u8], place: usize) -> Result<(), FrameFault>
    requires { place ≤ length bytes.now }
    ensures { Reads (λ ended. ended) result (walk bytes.now (layout kind.Replicate) place) }
{
    let (_, place) = id_at(bytes, place)?;
    let (_, place) = number_at(bytes, place)?;
    let (_, place) = file_at(bytes, place)?;
    let (_, place) = bytes_at(bytes, place)?;
    walk_end(bytes, place)
}

fn walk_replica_ack(bytes: &[u8], place: usize) -> Result<(), FrameFault>
    requires { place ≤ length bytes.now }
    ensures { Reads (λ ended. ended) result (walk bytes.now (layout kind.ReplicaAck) place) }
{
    let (_, place) = id_at(bytes, place)?;
    let (_, place) = number_at(bytes, place)?;
    let (_, place) = file_at(bytes, place)?;
    walk_end(bytes, place)
}

/// The fields of a kind, up to the end of the bytes.
pub(crate) fn walk_message(bytes: &[u8], kind: Kind, place: usize) -> Result<(), FrameFault>
    requires { place ≤ length bytes.now }
    ensures { Reads (λ ended. ended) result (walk bytes.now (layout kind) place) }
{
    match kind {
        Kind::Lookup => walk_lookup(bytes, place),
        Kind::LookupReply(version) | Kind::InsertReply(version) | Kind::FetchReply(version) => {
            walk_reply(bytes, version, place)
        }
        Kind::Insert => walk_insert(bytes, place),
        Kind::Fetch | Kind::Reclaim => walk_fetch(bytes, place),
        Kind::JoinRequest => walk_join_request(bytes, place),
        Kind::JoinReply | Kind::ProbeReply => walk_members(bytes, place),
        Kind::JoinRefuse | Kind::Deny => walk_refusal(bytes, place),
        Kind::Probe | Kind::Release | Kind::Confirm => walk_attempt(bytes, place),
        Kind::LeaseRequest => walk_lease_request(bytes, place),
        Kind::Grant(version) => walk_grant(bytes, version, place),
        Kind::Handover => walk_handover(bytes, place),
        Kind::Announce => walk_end(bytes, place),
        Kind::Replicate => walk_replicate(bytes, place),
        Kind::ReplicaAck => walk_replica_ack(bytes, place),
        Kind::ReclaimReply => walk_reclaim_reply(bytes, place),
    }
}
