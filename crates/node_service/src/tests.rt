//! What no clause says: whole services, with ample memory, over devices that fail at each of their calls in turn.

ghost use Rattle.std.specs.Prelude.{◌<◌};

use crate::{ServiceFault, serve_node};
use outside::{MemorySink, MemorySource};
use std::alloc::Global;
use std::test::Fail;

/// The founder of a ring of two, which lets the other node in and looks up a key.
const FOUNDER_LINES: &[u8] = b"founder 10000000000000000000000000000000\n\
    frame 01070000003e9000000000000000000000000000000010000000000000000000000000000000000000000000000190000000000000000000000000000000000000010000\n\
    frame 010a0000002c9000000000000000000000000000000010000000000000000000000000000000000000000000000300000001\n\
    frame 010c0000004c90000000000000000000000000000000100000000000000000000000000000000000000000000005000000011000000000000000000000000000000010000000000000000000000000000000\n\
    frame 01110000002c9000000000000000000000000000000010000000000000000000000000000000000000000000000700000001\n\
    frame 01120000002890000000000000000000000000000000100000000000000000000000000000000000000000000007\n\
    lookup 88000000000000000000000000000000\n\
    frame 0102000000439000000000000000000000000000000010000000000000000000000000000000000000000000000b000000000000000101900000000000000000000000000000000001\n";

const FOUNDER_ANSWERS: &[u8] = b"done 0\n\
    send 90000000000000000000000000000000 01080000003d10000000000000000000000000000000900000000000000000000000000000000000000000000002000000010110000000000000000000000000000000\n\
    done 2\n\
    send 90000000000000000000000000000000 010b0000003d10000000000000000000000000000000900000000000000000000000000000000000000000000004000000010110000000000000000000000000000000\n\
    done 4\n\
    send 90000000000000000000000000000000 010d0000002e10000000000000000000000000000000900000000000000000000000000000000000000000000006000000010000\n\
    done 6\n\
    done 8\n\
    done 9\n\
    send 90000000000000000000000000000000 0101000000521000000000000000000000000000000090000000000000000000000000000000000000000000000a100000000000000000000000000000000000000000000001880000000000000000000000000000000001\n\
    done 10\n\
    closed 1 delivered by 90000000000000000000000000000000 hops 1\n\
    done 12\n";

/// The node that joins, and delivers the lookup.
const JOINER_LINES: &[u8] = b"node 90000000000000000000000000000000\n\
    join 10000000000000000000000000000000\n\
    frame 01080000003d10000000000000000000000000000000900000000000000000000000000000000000000000000002000000010110000000000000000000000000000000\n\
    frame 010b0000003d10000000000000000000000000000000900000000000000000000000000000000000000000000004000000010110000000000000000000000000000000\n\
    frame 010d0000002e10000000000000000000000000000000900000000000000000000000000000000000000000000006000000010000\n\
    frame 0101000000521000000000000000000000000000000090000000000000000000000000000000000000000000000a100000000000000000000000000000000000000000000001880000000000000000000000000000000001\n";

const JOINER_ANSWERS: &[u8] = b"done 0\n\
    send 10000000000000000000000000000000 01070000003e9000000000000000000000000000000010000000000000000000000000000000000000000000000190000000000000000000000000000000000000010000\n\
    done 1\n\
    send 10000000000000000000000000000000 010a0000002c9000000000000000000000000000000010000000000000000000000000000000000000000000000300000001\n\
    done 3\n\
    send 10000000000000000000000000000000 010c0000004c90000000000000000000000000000000100000000000000000000000000000000000000000000005000000011000000000000000000000000000000010000000000000000000000000000000\n\
    done 5\n\
    send 10000000000000000000000000000000 01110000002c9000000000000000000000000000000010000000000000000000000000000000000000000000000700000001\n\
    send 10000000000000000000000000000000 01120000002890000000000000000000000000000000100000000000000000000000000000000000000000000007\n\
    closed 1 joined between 10000000000000000000000000000000 and 10000000000000000000000000000000\n\
    done 7\n\
    send 10000000000000000000000000000000 0102000000439000000000000000000000000000000010000000000000000000000000000000000000000000000b000000000000000101900000000000000000000000000000000001\n\
    delivered 10000000000000000000000000000000 1 of 88000000000000000000000000000000 hops 1\n\
    answered 10000000000000000000000000000000 1 delivered by 90000000000000000000000000000000 hops 1\n\
    done 11\n";

/// Whether a service between these two ends so, and the sink then has these bytes.
fn ends_so(
    alloc: Global,
    source: &mut MemorySource,
    sink: &mut MemorySink,
    end: Result<(), ServiceFault>,
    taken: &[u8],
) -> bool {
    serve_node(alloc, source, sink) == end && sink.taken() == taken
}

/// Whether these are the answers to lines that come in pieces of so many bytes.
fn is_answered(alloc: Global, lines: &[u8], per_call: usize, answers: &[u8]) -> Result<bool, Fail>
    requires { 0 < per_call }
{
    let mut source = MemorySource::new(alloc, lines, per_call, &[])?;
    let mut sink = MemorySink::new(alloc, 4_000, 4_000, &[])?;
    Ok(ends_so(alloc, &mut source, &mut sink, Ok(()), answers))
}

/// Two processes, by hand: what the one sends comes to the other.
#[test]
fn two_nodes_talk(rt: HostRuntime) -> Result<(), Fail> {
    assert!(rt; is_answered(rt.alloc(), FOUNDER_LINES, 4_000, FOUNDER_ANSWERS)?);
    assert!(rt; is_answered(rt.alloc(), JOINER_LINES, 7, JOINER_ANSWERS)?);
    Ok(())
}

/// Lines that are refused before a node is named and after, noise, a message that comes twice, and a last line without its end.
#[test]
fn each_line_is_answered(rt: HostRuntime) -> Result<(), Fail> {
    let lines = b"giveup\n\
    \n\
    node 0123\n\
    founder 10000000000000000000000000000000 now\n\
    founder 10000000000000000000000000000000\n\
    node 10000000000000000000000000000000\n\
    frame 00\n\
    lookup ff000000000000000000000000000000\n\
    frame 01020000004310000000000000000000000000000000100000000000000000000000000000000000000000000002000000000000000101100000000000000000000000000000000000\n\
    frame 01020000004310000000000000000000000000000000100000000000000000000000000000000000000000000002000000000000000101100000000000000000000000000000000000\n\
    fetch 00\n\
    giveup";
    let due = b"refused unknown word at 1\n\
    refused unknown word at 1\n\
    refused no hexadecimal at 6\n\
    refused count of words 3\n\
    done 0\n\
    refused unknown word at 1\n\
    done 1\n\
    send 10000000000000000000000000000000 01020000004310000000000000000000000000000000100000000000000000000000000000000000000000000002000000000000000101100000000000000000000000000000000000\n\
    delivered 10000000000000000000000000000000 1 of ff000000000000000000000000000000 hops 0\n\
    answered 10000000000000000000000000000000 1 delivered by 10000000000000000000000000000000 hops 0\n\
    done 2\n\
    closed 1 delivered by 10000000000000000000000000000000 hops 0\n\
    done 3\n\
    done 4\n\
    refused no hexadecimal at 7\n\
    closed 2 nothing to give up\n\
    done 5\n";
    assert!(rt; is_answered(rt.alloc(), lines, 50, due)?);
    Ok(())
}

/// The bytes of a line that is too long, and of the line that names the founder.
fn long_lines(alloc: Global, length: usize) -> Result<Vec<u8>, Fail> {
    let mut lines = b"founder 10000000000000000000000000000000\nframe ".to_vec(alloc)?;
    lines.resize(length, b'0')?;
    lines.extend_from_slice(b"\ngiveup\n")?;
    Ok(lines)
}

/// Whether these are the answers where the line behind the one that names the founder ends at this byte.
fn is_long_answered(alloc: Global, length: usize, answers: &[u8]) -> Result<bool, Fail> {
    let lines = long_lines(alloc, length)?;
    is_answered(alloc, lines.as_slice(), 4_096, answers)
}

/// A line that is too long is read to its end, and the node goes on; one byte less, and it brings bytes, which are noise.
#[test]
fn a_long_line_is_refused(rt: HostRuntime) -> Result<(), Fail> {
    let due = b"done 0\nrefused too long\nclosed 1 nothing to give up\ndone 1\n";
    assert!(rt; is_long_answered(rt.alloc(), 41 + 400_001, due)?);
    let due = b"done 0\ndone 1\nclosed 1 nothing to give up\ndone 2\n";
    assert!(rt; is_long_answered(rt.alloc(), 41 + 400_000, due)?);
    Ok(())
}

/// Whether the least service ends so where these calls of the source and of the sink fail, and these are the bytes that were taken.
fn fails_so(
    alloc: Global,
    reads: &[u64],
    writes: &[u64],
    end: Result<(), ServiceFault>,
    taken: &[u8],
) -> Result<bool, Fail> {
    let lines = b"founder 10000000000000000000000000000000\ngiveup\n";
    let mut source = MemorySource::new(alloc, lines, 41, reads)?;
    let mut sink = MemorySink::new(alloc, 100, 20, writes)?;
    Ok(ends_so(alloc, &mut source, &mut sink, end, taken))
}

/// What the least service answers.
const LEAST_ANSWERS: &[u8] = b"done 0\nclosed 1 nothing to give up\ndone 1\n";

/// Each read of the least service fails in turn: whatever came before it is answered whole.
#[test]
fn each_read_fails(rt: HostRuntime) -> Result<(), Fail> {
    let end = Err(ServiceFault::Read);
    assert!(rt; fails_so(rt.alloc(), &[1], &[], end, b"")?);
    assert!(rt; fails_so(rt.alloc(), &[2], &[], end, b"done 0\n")?);
    assert!(rt; fails_so(rt.alloc(), &[3], &[], end, LEAST_ANSWERS)?);
    assert!(rt; fails_so(rt.alloc(), &[4], &[], Ok(()), LEAST_ANSWERS)?);
    Ok(())
}

/// Each write of the least service fails in turn: what was taken is the beginning of what is due.
#[test]
fn each_write_fails(rt: HostRuntime) -> Result<(), Fail> {
    let end = Err(ServiceFault::Write);
    assert!(rt; fails_so(rt.alloc(), &[], &[1], end, b"")?);
    assert!(rt; fails_so(rt.alloc(), &[], &[2], end, b"done 0\n")?);
    assert!(rt; fails_so(rt.alloc(), &[], &[3], end, b"done 0\nclosed 1 nothing to ")?);
    assert!(rt; fails_so(rt.alloc(), &[], &[4], Ok(()), LEAST_ANSWERS)?);
    Ok(())
}
