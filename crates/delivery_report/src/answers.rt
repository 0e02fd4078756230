//! How commands were closed.

ghost use Rattle.std.specs.Prelude.{◌≡◌, ◌++◌, decimal, OnOk};
ghost use Rattle.std.specs.Option.{option_copied};
ghost use Rattle.delivery_report.specs.Answers.{name_of, bytes_text, reply_text, why_text, own_text, answer_text, found_in};

use crate::names::Names;
use ring_math::{Bytes, Id, OutOfMemory};
use text_writer::Text;
use wire_msg::{Answer, Own, Reply, Why};

/// The bytes that an answer says were found.
pub fn found_bytes(answer: &Answer) -> Option<&Bytes>
    ensures { option_copied result ≡ found_in answer.now }
{
    match answer {
        Answer::Reply(Reply::Found { bytes, .. }) => Some(bytes),
        _ => None,
    }
}

/// Writes how a command was closed. The only error is that memory was refused.
pub fn put_answer(text: &mut Text, names: &Names, answer: &Answer) -> Result<(), OutOfMemory>
    ensures { OnOk result (text.new ≡ text.old ++ answer_text names.now answer.now) }
{
    match answer {
        Answer::Reply(reply) => put_reply(text, names, reply),
        Answer::Joined { left, right } => {
            with_other(text, names, b"joined between ", *left, b" and ", *right)
        }
        Answer::Denied { node, why } => {
            names.write_after(text, b"denied by ", *node)?;
            text.put(b" ")?;
            put_why(text, names, why)
        }
        Answer::Stopped { node, own } => {
            names.write_after(text, b"denied by ", *node)?;
            text.put(b" ")?;
            put_own(text, own)
        }
        Answer::GaveUp => text.put(b"gave up"),
        Answer::NothingToGiveUp => text.put(b"nothing to give up"),
    }
}

/// Writes the answer to a request. The only error is that memory was refused.
pub fn put_reply(text: &mut Text, names: &Names, reply: &Reply) -> Result<(), OutOfMemory>
    ensures { OnOk result (text.new ≡ text.old ++ reply_text names.now reply.now) }
{
    match reply {
        Reply::Delivered { node, hops } => {
            with_number(text, names, b"delivered by ", *node, b" hops ", *hops)
        }
        Reply::Stored { holders } => {
            text.put(b"stored at")?;
            names.write_all(text, holders.as_slice())
        }
        Reply::Found { node, bytes } => {
            names.write_after(text, b"found by ", *node)?;
            text.put(b" ")?;
            put_bytes(text, bytes.as_slice())
        }
        Reply::NotFound { node } => names.write_after(text, b"missing by ", *node),
        Reply::Collision { node } => names.write_after(text, b"collision by ", *node),
        Reply::TooFew { node, known } => {
            with_number(text, names, b"too few by ", *node, b" known ", *known)
        }
        Reply::Busy { node, joiner } => with_other(
            text,
            names,
            b"busy by ",
            *node,
            b" for ",
            *joiner,
        ),
        Reply::NotReady { node } => names.write_after(text, b"not ready by ", *node),
        Reply::Full { node } => names.write_after(text, b"full by ", *node),
        Reply::Gone { node } => names.write_after(text, b"gone by ", *node),
        Reply::Reclaimed { node } => names.write_after(text, b"reclaimed by ", *node),
    }
}

/// Writes why a joiner was refused. The only error is that memory was refused.
pub fn put_why(text: &mut Text, names: &Names, why: &Why) -> Result<(), OutOfMemory>
    ensures { OnOk result (text.new ≡ text.old ++ why_text names.now why.now) }
{
    match why {
        Why::Busy { joiner } => names.write_after(text, b"busy with ", *joiner),
        Why::Moved { left, right } => with_other(
            text,
            names,
            b"moved to ",
            *left,
            b" and ",
            *right,
        ),
        Why::NotReady => text.put(b"not ready"),
    }
}

fn put_own(text: &mut Text, own: &Own) -> Result<(), OutOfMemory>
    ensures { OnOk result (text.new ≡ text.old ++ own_text own.now) }
{
    text.put(match own {
        Own::GivenUp => b"given up",
        Own::Already => b"already",
        Own::Spent => b"spent",
    })
}

/// A word and a node, then a word and another node.
fn with_other(
    text: &mut Text,
    names: &Names,
    first_word: &[u8],
    first: Id,
    second_word: &[u8],
    second: Id,
) -> Result<(), OutOfMemory>
    ensures { OnOk result (text.new ≡ text.old ++ (first_word.now ++ name_of names.now first ++ second_word.now ++ name_of names.now second)) }
{
    names.write_after(text, first_word, first)?;
    names.write_after(text, second_word, second)
}

/// A word and a node, then a word and a number.
fn with_number(
    text: &mut Text,
    names: &Names,
    word: &[u8],
    node: Id,
    number_word: &[u8],
    number: u16,
) -> Result<(), OutOfMemory>
    ensures { OnOk result (text.new ≡ text.old ++ (word.now ++ name_of names.now node ++ number_word.now ++ decimal number)) }
{
    names.write_after(text, word, node)?;
    text.number_after(number_word, u64::from(number))
}

/// Writes bytes in hexadecimal, a dash where there are none. The only error is that memory was refused.
pub fn put_bytes(text: &mut Text, bytes: &[u8]) -> Result<(), OutOfMemory>
    ensures { OnOk result (text.new ≡ text.old ++ bytes_text bytes.now) }
{
    if bytes.is_empty() {
        text.put(b"-")
    } else {
        text.hex(bytes)
    }
}
