//! What no clause says: whole conversations, answered with ample memory.

use crate::NodeProcess;
use ring_math::Id;
use std::alloc::Global;
use std::test::Fail;
use text_writer::Text;
use wire_msg::Frame;

const A: Id = Id(0x10 << 120);

const B: Id = Id(0x90 << 120);

/// Whether a process of a new node answers these lines so.
fn answers_so(
    alloc: Global,
    me: Id,
    founder: bool,
    lines: &[&[u8]],
    due: &[u8],
) -> Result<bool, Fail> {
    let mut process = NodeProcess::new(alloc, me, founder)?;
    let answers = answers_to(&mut process, alloc, lines)?;
    Ok(answers.as_slice() == due)
}

/// What a process answers to these lines.
fn answers_to(process: &mut NodeProcess, alloc: Global, lines: &[&[u8]]) -> Result<Frame, Fail> {
    let mut text = Text::new(alloc);
    for line in lines {
        process.answer(alloc, line, &mut text)?;
    }
    Ok(text.into_frame())
}

/// The founder looks up a key; its reply comes to it twice; then noise comes.
#[test]
fn a_founder_answers_itself(rt: HostRuntime) -> Result<(), Fail> {
    let reply =
        b"frame 01020000004310000000000000000000000000000000100000000000000000000000000000000000000000000001000000000000000101100000000000000000000000000000000000";
    let due =
        b"send 10000000000000000000000000000000 01020000004310000000000000000000000000000000100000000000000000000000000000000000000000000001000000000000000101100000000000000000000000000000000000\ndelivered 10000000000000000000000000000000 1 of ff000000000000000000000000000000 hops 0\nanswered 10000000000000000000000000000000 1 delivered by 10000000000000000000000000000000 hops 0\ndone 1\nclosed 1 delivered by 10000000000000000000000000000000 hops 0\ndone 2\ndone 3\ndone 4\n";
    let lines: [&[u8]; 4] = [
        b"lookup ff000000000000000000000000000000",
        reply,
        reply,
        b"frame -",
    ];
    assert!(rt; answers_so(rt.alloc(), A, true, &lines, due)?);
    Ok(())
}

/// A node is told to join: it asks the node that it is to join by.
#[test]
fn a_joiner_asks(rt: HostRuntime) -> Result<(), Fail> {
    let due =
        b"send 10000000000000000000000000000000 01070000003e900000000000000000000000000000001000000000000000000000000000000000000000000000019000000000000000000000000000000000000001000\x30\ndone 1\n";
    let lines: [&[u8]; 1] = [b"join 10000000000000000000000000000000"];
    assert!(rt; answers_so(rt.alloc(), B, false, &lines, due)?);
    Ok(())
}

/// Lines that are none, and one that is: the command that is taken in is the first.
#[test]
fn what_is_no_line_is_refused(rt: HostRuntime) -> Result<(), Fail> {
    let due =
        b"refused unknown word at 1\nrefused unknown word at 3\nrefused count of words 1\nrefused no hexadecimal at 8\nrefused no hexadecimal at 7\nrefused no text at 7\nrefused over limit at 36\nrefused no number at 36\nclosed 1 nothing to give up\ndone 1\n";
    let lines: [&[u8]; 9] = [
        b"",
        b"  jump",
        b"join",
        b"lookup 0123",
        b"frame 012",
        b"giveup\t",
        b"insert 61 62 0102030405060708 6364 10",
        b"insert 61 62 0102030405060708 6364 +1",
        b"giveup",
    ];
    assert!(rt; answers_so(rt.alloc(), A, true, &lines, due)?);
    Ok(())
}
