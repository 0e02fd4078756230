//! Replies that come back to their origin.

ghost use Rattle.std.specs.Prelude.{◌≡◌};
ghost use Rattle.ring_math.specs.Sides.{is_in};
ghost use Rattle.overlay_rules.specs.Replicas.{on_reply as on_reply_of};
ghost use Rattle.node_parts.specs.declared.change.Wait.TheVariants as waiting;
ghost use Rattle.node_core.specs.Rows.{IsRow};

use node_parts::{Change, Node, Prepared, Wait};
use ring_math::OutOfMemory;
use std::alloc::Global;
use wire_msg::{Answer, Reply, Sends};

/// Whether the number waits.
fn is_waiting(waiting: &[u64], number: u64) -> bool
    ensures { result ≡ is_in waiting.now number }
{
    waiting.iter().any(|other| *other == number)
}

/// The row of a reply: it closes its number, if that waits.
#[inline(never)]
pub(crate) fn on_reply(
    node: &Node,
    alloc: Global,
    number: u64,
    reply: &Reply,
) -> Result<Prepared, OutOfMemory>
    ensures { IsRow node.now waiting.Keep (λ s. on_reply_of s number reply.now) result }
{
    if is_waiting(&node.waiting, number) {
        let answer = Answer::Reply(reply.copy(alloc)?);
        Prepared::closing(
            alloc,
            Change::waits(Wait::Take { number }),
            Sends::new(alloc),
            number,
            answer,
        )
    } else {
        Ok(Prepared::quiet(alloc, Change::nothing()))
    }
}
