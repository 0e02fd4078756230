//! Replies compared.

ghost use Rattle.std.specs.Prelude.{◌≡◌};
ghost use Rattle.std.specs.Bool.{Decides};

use crate::lists::{same_bytes, same_ids};
use wire_msg::Reply;

/// Whether two replies are the same.
pub fn same_reply(one: &Reply, other: &Reply) -> bool
    ensures { Decides result (one.now ≡ other.now) }
{
    match (one, other) {
        (
            Reply::Delivered { node, hops },
            Reply::Delivered {
                node: other_node,
                hops: other_hops,
            },
        ) => node == other_node && hops == other_hops,
        (Reply::Stored { holders }, Reply::Stored { holders: others }) => {
            same_ids(holders, others)
        }
        (
            Reply::Found { node, bytes },
            Reply::Found {
                node: other_node,
                bytes: other_bytes,
            },
        ) => node == other_node && same_bytes(bytes, other_bytes),
        (Reply::NotFound { node }, Reply::NotFound { node: other_node }) => node == other_node,
        (Reply::Collision { node }, Reply::Collision { node: other_node }) => node == other_node,
        (
            Reply::TooFew { node, known },
            Reply::TooFew {
                node: other_node,
                known: other_known,
            },
        ) => node == other_node && known == other_known,
        (
            Reply::Busy { node, joiner },
            Reply::Busy {
                node: other_node,
                joiner: other_joiner,
            },
        ) => node == other_node && joiner == other_joiner,
        (Reply::NotReady { node }, Reply::NotReady { node: other_node }) => node == other_node,
        (Reply::Full { node }, Reply::Full { node: other_node }) => node == other_node,
        (Reply::Gone { node }, Reply::Gone { node: other_node }) => node == other_node,
        (Reply::Reclaimed { node }, Reply::Reclaimed { node: other_node }) => node == other_node,
        _ => false,
    }
}
