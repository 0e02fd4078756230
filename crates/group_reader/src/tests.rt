//! Scripts that are read, and each fault of a line of part two.

use crate::{MOST_SCRIPT_BYTES, read_groups};
use scenario_reader::LineFault;
use std::alloc::Global;
use std::test::Fail;

/// Part one of each script, of two lines.
const PART_ONE: &[u8] = b"node A 10000000000000000000000000000000\nfirst A\n";

#[test]
fn reads_both_parts(rt: HostRuntime) -> Result<(), Fail> {
    let lines =
        b"groups\n# a comment\nsubscribe A g\n publish  A g 6869\nleave A g\nsettle 5\n\ndeliver 0";
    let input = with_lines(rt.alloc(), lines)?;
    let script = read_groups(rt.alloc(), &input)?;
    assert_eq!(rt; script.scenario().nodes().len(), 1);
    assert_eq!(rt; script.actions().len(), 5);
    let mut last = 0;
    for action in script.actions() {
        last = action.line;
    }
    assert_eq!(rt; last, 10);
    Ok(())
}

/// The fault is that of the first line at fault, of that line the first check that fails, and there of the leftmost word. The
/// first line that is exactly `groups` begins part two, and only that.
#[test]
fn refuses_lines(rt: HostRuntime) -> Result<(), Fail> {
    let refused: [(&[u8], LineFault); 26] = [
        (b"", LineFault::Word { line: 3, place: 0 }),
        (b"# groups", LineFault::Word { line: 4, place: 0 }),
        (b" groups\n", LineFault::Word { line: 3, place: 1 }),
        (b"groups \n", LineFault::Word { line: 3, place: 0 }),
        (b"groups\ngroups", LineFault::Word { line: 4, place: 0 }),
        (b"groups\n join A A", LineFault::Word { line: 4, place: 1 }),
        (
            b"groups\nsettle 1\x07",
            LineFault::NotText { line: 4, place: 8 },
        ),
        (
            b"groups\nsubscribe A",
            LineFault::Count { line: 4, found: 2 },
        ),
        (
            b"groups\nleave A g g",
            LineFault::Count { line: 4, found: 4 },
        ),
        (
            b"groups\npublish A g",
            LineFault::Count { line: 4, found: 3 },
        ),
        (b"groups\n\nsettle", LineFault::Count { line: 5, found: 1 }),
        (
            b"groups\ndeliver 1 2",
            LineFault::Count { line: 4, found: 3 },
        ),
        (
            b"groups\nsettle 01",
            LineFault::Number { line: 4, place: 7 },
        ),
        (
            b"groups\ndeliver -",
            LineFault::Number { line: 4, place: 8 },
        ),
        (
            b"groups\ndeliver 18446744073709551616",
            LineFault::Number { line: 4, place: 8 },
        ),
        // Bytes before names, and names from the left.
        (
            b"groups\npublish B ? 123",
            LineFault::Hex { line: 4, place: 12 },
        ),
        (
            b"groups\npublish A g x",
            LineFault::Hex { line: 4, place: 12 },
        ),
        (
            b"groups\npublish B ? 12",
            LineFault::Name { line: 4, place: 8 },
        ),
        (
            b"groups\npublish A ? 12",
            LineFault::Name { line: 4, place: 10 },
        ),
        (
            b"groups\nsubscribe B g",
            LineFault::Name { line: 4, place: 10 },
        ),
        (
            b"groups\nleave A a-b",
            LineFault::Name { line: 4, place: 8 },
        ),
        (
            b"groups\nleave A abcdefghijabcdefghijabcdefghijabc",
            LineFault::Name { line: 4, place: 8 },
        ),
        // A settle counts its number, and a deliver 1.
        (
            b"groups\nsettle 1000001",
            LineFault::Limit { line: 4, place: 7 },
        ),
        (
            b"groups\nsettle 1000000\ndeliver 0",
            LineFault::Limit { line: 5, place: 8 },
        ),
        (
            b"groups\ndeliver 7\nsettle 1000000",
            LineFault::Limit { line: 5, place: 7 },
        ),
        (
            b"lookup A 00\ngroups\nsettle",
            LineFault::Hex { line: 3, place: 9 },
        ),
    ];
    for (lines, fault) in refused {
        let input = with_lines(rt.alloc(), lines)?;
        assert_eq!(rt; read_groups(rt.alloc(), &input).err(), Some(fault));
    }
    Ok(())
}

/// Lines are counted over the whole input, and part two has a limit of lines of its own.
#[test]
fn limits_lines(rt: HostRuntime) -> Result<(), Fail> {
    let mut input = with_lines(rt.alloc(), b"groups\n")?;
    add(&mut input, b"#\n", 10_000)?;
    assert!(rt; read_groups(rt.alloc(), &input).is_ok());
    add(&mut input, b"#", 1)?;
    let fault = LineFault::Limit {
        line: 10_004,
        place: 0,
    };
    assert_eq!(rt; read_groups(rt.alloc(), &input).err(), Some(fault));
    Ok(())
}

/// A publication has at most 4,096 bytes, a line at most 9,000, and a script two times 10,000 such lines with their ends, and the
/// line between its parts.
#[test]
fn limits_bytes(rt: HostRuntime) -> Result<(), Fail> {
    let mut input = with_lines(rt.alloc(), b"groups\npublish A g ")?;
    add(&mut input, b"ab", 4_096)?;
    assert!(rt; read_groups(rt.alloc(), &input).is_ok());
    add(&mut input, b"ab", 1)?;
    let fault = LineFault::Limit { line: 4, place: 12 };
    assert_eq!(rt; read_groups(rt.alloc(), &input).err(), Some(fault));
    add(&mut input, b"ab", 400)?;
    let fault = LineFault::TooLong { line: 4 };
    assert_eq!(rt; read_groups(rt.alloc(), &input).err(), Some(fault));
    assert_eq!(rt; MOST_SCRIPT_BYTES, 180_020_007);
    Ok(())
}

/// Part one and these lines.
fn with_lines(alloc: Global, lines: &[u8]) -> Result<Vec<u8>, Fail> {
    let mut input = Vec::new(alloc);
    input.extend_from_slice(PART_ONE)?;
    input.extend_from_slice(lines)?;
    Ok(input)
}

/// A text so many times behind an input.
fn add(input: &mut Vec<u8>, text: &[u8], times: u32) -> Result<(), Fail> {
    for _time in 0..times {
        input.extend_from_slice(text)?;
    }
    Ok(())
}
