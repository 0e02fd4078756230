//! Reading the parts of a message whose fields depend on a tag or on the version.

ghost use Rattle.std.specs.Prelude.{◌≡◌, ◌≤◌, length, IfOk};
ghost use Rattle.wire_codec.specs.Layouts.{tagged, behind_reply, why, reply, tombs};
ghost use Rattle.wire_codec.specs.Kinds.{fields_of_why, fields_of_reply, fields_of_tombs, tag_of_reply, version_of_reply, version_of_tombs};
ghost use Rattle.wire_codec.specs.Values.{Gives, values_at};

use crate::fault::FrameFault;
use crate::field::{byte_within, bytes_at, hops_at, id_at, ids_at, tombs_at};
use crate::kind::Version;
use crate::owned::{owned_bytes, owned_files, owned_ids};
use ring_math::FileIds;
use std::alloc::Global;
use wire_msg::{Reply, Why};

pub(crate) fn why_at(bytes: &[u8], place: usize) -> Result<Why, FrameFault>
    requires { place ≤ length bytes.now }
    ensures { Gives (λ w. fields_of_why w) result (values_at bytes.now why place) }
{
    let tag = byte_within(bytes, 1, 3, place)?;
    let place = place + 1;
    match tag {
        1 => {
            let (joiner, _) = id_at(bytes, place)?;
            Ok(Why::Busy { joiner })
        }
        2 => {
            let (left, place) = id_at(bytes, place)?;
            let (right, _) = id_at(bytes, place)?;
            Ok(Why::Moved { left, right })
        }
        _ => Ok(Why::NotReady),
    }
}

/// A reply whose tag is from `lowest` to `highest`.
pub(crate) fn reply_tagged(
    alloc: Global,
    bytes: &[u8],
    lowest: u8,
    highest: u8,
    place: usize,
) -> Result<Reply, FrameFault>
    requires within { place ≤ length bytes.now }
    requires tags { (1 ≤ lowest) × (highest ≤ 11) }
    ensures value { Gives (λ r. fields_of_reply r) result (values_at bytes.now (tagged lowest highest behind_reply) place) }
    ensures tag { IfOk result (λ r. (lowest ≤ tag_of_reply r) × (tag_of_reply r ≤ highest)) }
{
    let tag = byte_within(bytes, lowest, highest, place)?;
    let place = place + 1;
    match tag {
        1 => {
            let (node, place) = id_at(bytes, place)?;
            let (hops, _) = hops_at(bytes, place)?;
            Ok(Reply::Delivered { node, hops })
        }
        2 => {
            let (holders, _) = ids_at(bytes, place)?;
            let holders = owned_ids(alloc, holders)?;
            Ok(Reply::Stored { holders })
        }
        3 => {
            let (node, place) = id_at(bytes, place)?;
            let (bytes, _) = bytes_at(bytes, place)?;
            let bytes = owned_bytes(alloc, bytes)?;
            Ok(Reply::Found { node, bytes })
        }
        4 => {
            let (node, _) = id_at(bytes, place)?;
            Ok(Reply::NotFound { node })
        }
        5 => {
            let (node, _) = id_at(bytes, place)?;
            Ok(Reply::Collision { node })
        }
        6 => {
            let (node, place) = id_at(bytes, place)?;
            let (known, _) = hops_at(bytes, place)?;
            Ok(Reply::TooFew { node, known })
        }
        7 => {
            let (node, place) = id_at(bytes, place)?;
            let (joiner, _) = id_at(bytes, place)?;
            Ok(Reply::Busy { node, joiner })
        }
        8 => {
            let (node, _) = id_at(bytes, place)?;
            Ok(Reply::NotReady { node })
        }
        9 => {
            let (node, _) = id_at(bytes, place)?;
            Ok(Reply::Full { node })
        }
        10 => {
            let (node, _) = id_at(bytes, place)?;
            Ok(Reply::Gone { node })
        }
        _ => {
            let (node, _) = id_at(bytes, place)?;
            Ok(Reply::Reclaimed { node })
        }
    }
}

/// The reply to a lookup, an insert or a fetch.
pub(crate) fn reply_at(
    alloc: Global,
    bytes: &[u8],
    version: Version,
    place: usize,
) -> Result<Reply, FrameFault>
    requires { place ≤ length bytes.now }
    ensures value { Gives (λ r. fields_of_reply r) result (values_at bytes.now (reply version) place) }
    ensures version { IfOk result (λ r. version_of_reply r ≡ version) }
{
    match version {
        Version::One => reply_tagged(alloc, bytes, 1, 9, place),
        Version::Two => reply_tagged(alloc, bytes, 10, 11, place),
    }
}

/// The tombs of a Grant, which version 1 has not.
pub(crate) fn tombs_in(
    alloc: Global,
    bytes: &[u8],
    version: Version,
    place: usize,
) -> Result<FileIds, FrameFault>
    requires { place ≤ length bytes.now }
    ensures value { Gives (λ t. fields_of_tombs t) result (values_at bytes.now (tombs version) place) }
    ensures version { IfOk result (λ t. version_of_tombs t ≡ version) }
{
    match version {
        Version::One => Ok(owned_files(alloc, &[])?),
        Version::Two => {
            let (tombs, _) = tombs_at(bytes, place)?;
            Ok(owned_files(alloc, tombs)?)
        }
    }
}
