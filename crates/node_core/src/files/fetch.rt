//! Fetches.

ghost use Rattle.std.specs.Prelude.{◌≡◌, IfOk};
ghost use Rattle.ring_math.specs.Files.{slot_of};
ghost use Rattle.overlay_rules.specs.State.{State};
ghost use Rattle.overlay_rules.specs.Roots.{on_fetch as on_fetch_of, fetched};
ghost use Rattle.node_core.specs.Rows.{IsRow};

use crate::request::{Request, Served, routed};
use node_parts::{Node, Prepared, one_more};
use overlay_rules::Asked;
use ring_math::{FileId, OutOfMemory, key_of};
use std::alloc::Global;
use wire_msg::{Message, Reply};

/// What a root answers to a fetch.
fn answer(node: &Node, alloc: Global, file: &FileId) -> Result<Reply, OutOfMemory>
    ensures { (s : State) → s.me ≡ node.now.me → IfOk result (λ reply. reply ≡ fetched s (slot_of node.now.store.files file.now)) }
{
    Ok(match node.store.slot(file) {
        None => Reply::NotFound { node: node.me },
        Some(None) => Reply::Gone { node: node.me },
        Some(Some(bytes)) => Reply::Found {
            node: node.me,
            bytes: bytes.copy(alloc)?,
        },
    })
}

/// The row of a fetch.
#[inline(never)]
pub(crate) fn on_fetch(
    node: &Node,
    alloc: Global,
    request: &Request,
    hops: u16,
    file: &FileId,
) -> Result<Prepared, OutOfMemory>
    ensures { IsRow node.now request.now.wait (λ s. on_fetch_of s request.now.origin request.now.number hops file.now) result }
{
    match routed(node, key_of(file)) {
        Served::Here => {
            let reply = answer(node, alloc, file)?;
            request.replied(alloc, Asked::Fetch, reply)
        }
        Served::On { node: next } => {
            let message = Message::Fetch {
                origin: request.origin,
                number: request.number,
                hops: one_more(hops),
                file: *file,
            };
            request.passed_on(alloc, next, message)
        }
        Served::Refused { reply } => request.replied(alloc, Asked::Fetch, reply),
    }
}
