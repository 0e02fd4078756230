//! Lookups.

ghost use Rattle.std.specs.Prelude.{[], ◌∷◌, IfOk};
ghost use Rattle.wire_msg.specs.declared.note.Note.TheVariants as note;
ghost use Rattle.wire_msg.specs.declared.reply.Reply.TheVariants as reply;
ghost use Rattle.overlay_rules.specs.State.{State};
ghost use Rattle.overlay_rules.specs.Outcome.{before, replied as replied_of};
ghost use Rattle.overlay_rules.specs.Routed.{on_lookup as on_lookup_of};
ghost use Rattle.node_parts.specs.Change.{waited};
ghost use Rattle.node_parts.specs.Plans.{Plans};
ghost use Rattle.node_core.specs.Rows.{IsRow};

use crate::request::{Request, Served, routed};
use node_parts::{Change, Node, Prepared, one_more};
use overlay_rules::Asked;
use ring_math::{Id, OutOfMemory};
use std::alloc::Global;
use wire_msg::{Message, Note, Notes, Reply, Sends};

/// A lookup that came so far is delivered, and replied.
fn delivered(
    node: Id,
    alloc: Global,
    request: &Request,
    key: Id,
    hops: u16,
) -> Result<Prepared, OutOfMemory>
    ensures { (s : State) → IfOk result (λ p. Plans s p
        (before [] (note.Delivered request.now.origin request.now.number key hops ∷ [])
        (replied_of (waited request.now.wait s) Asked.Lookup request.now.origin request.now.number (reply.Delivered node hops)))) }
{
    let mut notes = Notes::new(alloc);
    notes.push(Note::Delivered {
        origin: request.origin,
        number: request.number,
        key,
        hops,
    })?;
    let first = Prepared {
        messages: Sends::new(alloc),
        notes,
        change: Change::waits(request.wait),
    };
    first.and_replied(
        alloc,
        Asked::Lookup,
        request.origin,
        request.number,
        Reply::Delivered { node, hops },
    )
}

/// The row of a lookup.
#[inline(never)]
pub(crate) fn on_lookup(
    node: &Node,
    alloc: Global,
    request: &Request,
    key: Id,
    hops: u16,
) -> Result<Prepared, OutOfMemory>
    ensures { IsRow node.now request.now.wait (λ s. on_lookup_of s request.now.origin request.now.number key hops) result }
{
    match routed(node, key) {
        Served::Here => delivered(node.me, alloc, request, key, hops),
        Served::On { node: next } => {
            let message = Message::Lookup {
                origin: request.origin,
                number: request.number,
                key,
                hops: one_more(hops),
            };
            request.passed_on(alloc, next, message)
        }
        Served::Refused { reply } => request.replied(alloc, Asked::Lookup, reply),
    }
}
