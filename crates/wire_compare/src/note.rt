//! Notes and answers compared.

ghost use Rattle.std.specs.Prelude.{◌≡◌};
ghost use Rattle.std.specs.Bool.{Decides};

use crate::lists::same_bytes;
use crate::reply::same_reply;
use wire_msg::{Answer, Note};

/// Whether two notes are the same.
pub fn same_note(one: &Note, other: &Note) -> bool
    ensures { Decides result (one.now ≡ other.now) }
{
    match (one, other) {
        (
            Note::Accepted { file, bytes },
            Note::Accepted {
                file: other_file,
                bytes: other_bytes,
            },
        ) => file == other_file && same_bytes(bytes, other_bytes),
        (
            Note::Delivered {
                origin,
                number,
                key,
                hops,
            },
            Note::Delivered {
                origin: other_origin,
                number: other_number,
                key: other_key,
                hops: other_hops,
            },
        ) => origin == other_origin
            && number == other_number
            && key == other_key
            && hops == other_hops,
        (
            Note::Answered {
                origin,
                number,
                reply,
            },
            Note::Answered {
                origin: other_origin,
                number: other_number,
                reply: other_reply,
            },
        ) => origin == other_origin && number == other_number && same_reply(reply, other_reply),
        (
            Note::Closed { number, answer },
            Note::Closed {
                number: other_number,
                answer: other_answer,
            },
        ) => number == other_number && same_answer(answer, other_answer),
        (Note::Reclaimed { file }, Note::Reclaimed { file: other_file }) => file == other_file,
        _ => false,
    }
}

/// Whether two answers are the same.
pub fn same_answer(one: &Answer, other: &Answer) -> bool
    ensures { Decides result (one.now ≡ other.now) }
{
    match (one, other) {
        (Answer::Reply(reply), Answer::Reply(other_reply)) => same_reply(reply, other_reply),
        (
            Answer::Joined { left, right },
            Answer::Joined {
                left: other_left,
                right: other_right,
            },
        ) => left == other_left && right == other_right,
        (
            Answer::Denied { node, why },
            Answer::Denied {
                node: other_node,
                why: other_why,
            },
        ) => node == other_node && why == other_why,
        (
            Answer::Stopped { node, own },
            Answer::Stopped {
                node: other_node,
                own: other_own,
            },
        ) => node == other_node && own == other_own,
        (Answer::GaveUp, Answer::GaveUp) => true,
        (Answer::NothingToGiveUp, Answer::NothingToGiveUp) => true,
        _ => false,
    }
}
