//! Inputs and what they are, by the language.

use crate::action::Action;
use crate::{LineFault, Name, ScenarioBuilder, What, read_scenario};
use ring_math::{Bytes, FileId, Id, file_id, id_of_name, key_of};
use std::test::Fail;
use wire_msg::Command;

#[test]
fn reads_the_least_run(rt: HostRuntime) -> Result<(), Fail> {
    let input =
        b"node A 10000000000000000000000000000000\nfirst A\nlookup A ff000000000000000000000000000000\nsettle 10\n";
    let scenario = read_scenario(rt.alloc(), input)?;
    let id = Id(0x10 << 120);
    assert_eq!(rt; scenario.nodes().len(), 1);
    for node in scenario.nodes() {
        assert_eq!(rt; node.name.as_slice(), b"A".as_slice());
        assert_eq!(rt; node.id, id);
        assert_eq!(rt; node.line, 1);
    }
    assert_eq!(rt; scenario.founder(), id);
    assert_eq!(rt; scenario.files().len(), 0);
    assert_eq!(rt; scenario.actions().len(), 2);
    for action in scenario.actions() {
        match &action.what {
            What::Command {
                number,
                node,
                command: Command::Lookup { key },
            } => {
                assert_eq!(rt; action.line, 3);
                assert_eq!(rt; *number, 1);
                assert_eq!(rt; *node, id);
                assert_eq!(rt; *key, Id(0xff << 120));
            }
            What::Settle(count) => {
                assert_eq!(rt; action.line, 4);
                assert_eq!(rt; *count, 10);
            }
            _ => panic!(rt; "no action of the input"),
        }
    }
    Ok(())
}

#[test]
fn passes_over_blanks_and_comments(rt: HostRuntime) -> Result<(), Fail> {
    let input =
        b"# a node\n\n   \n  node   A  10000000000000000000000000000000  \n #first B\nfirst A";
    let scenario = read_scenario(rt.alloc(), input)?;
    assert_eq!(rt; scenario.founder(), Id(0x10 << 120));
    for node in scenario.nodes() {
        assert_eq!(rt; node.line, 4);
    }
    Ok(())
}

/// The fault is that of the first line at fault, of that line the first check that fails, and there of the leftmost word.
#[test]
fn refuses_the_first_line(rt: HostRuntime) -> Result<(), Fail> {
    let refused: [(&[u8], LineFault); 22] = [
        (b"", LineFault::NoFounder { line: 1 }),
        (b"\n\n", LineFault::NoFounder { line: 3 }),
        (b"node\tA", LineFault::NotText { line: 1, place: 4 }),
        (b"# \x7f", LineFault::NotText { line: 1, place: 2 }),
        (b"nodes A", LineFault::Word { line: 1, place: 0 }),
        (b"\n  Node", LineFault::Word { line: 2, place: 2 }),
        (b"settle", LineFault::Count { line: 1, found: 1 }),
        (b"settle x y z", LineFault::Count { line: 1, found: 4 }),
        (
            b"file f - - 0000000000000000",
            LineFault::Count { line: 1, found: 5 },
        ),
        (b"settle 07", LineFault::Number { line: 1, place: 7 }),
        (b"settle +7", LineFault::Number { line: 1, place: 7 }),
        (
            b"settle 18446744073709551616",
            LineFault::Number { line: 1, place: 7 },
        ),
        (b"shuffle -1 x", LineFault::Number { line: 1, place: 8 }),
        (b"shuffle 1 x", LineFault::Number { line: 1, place: 10 }),
        (b"dup -", LineFault::Number { line: 1, place: 4 }),
        (b"deliver 1.", LineFault::Number { line: 1, place: 8 }),
        (b"insert ? ? K", LineFault::Number { line: 1, place: 11 }),
        (
            b"node A 1000000000000000000000000000000",
            LineFault::Hex { line: 1, place: 7 },
        ),
        (
            b"lookup  -  1000000000000000000000000000000g",
            LineFault::Hex { line: 1, place: 11 },
        ),
        (b"lookup A -", LineFault::Hex { line: 1, place: 9 }),
        (
            b"lookup A 10000000000000000000000000000000",
            LineFault::Name { line: 1, place: 7 },
        ),
        (b"settle 1000001", LineFault::NoFounder { line: 1 }),
    ];
    for (input, fault) in refused {
        assert_eq!(rt; read_scenario(rt.alloc(), input).err(), Some(fault));
    }
    Ok(())
}

/// The same of declarations.
#[test]
fn refuses_declarations(rt: HostRuntime) -> Result<(), Fail> {
    let refused: [(&[u8], LineFault); 20] = [
        // Hexadecimal words before names, from the left.
        (b"file ? 6 - 0 -", LineFault::Hex { line: 3, place: 7 }),
        (b"file ? 66 6g 0 -", LineFault::Hex { line: 3, place: 10 }),
        (b"file ? 66 - 0 -", LineFault::Hex { line: 3, place: 12 }),
        (b"file ? 66 - - -", LineFault::Hex { line: 3, place: 12 }),
        (
            b"file ? 66 - 000000000000000000 -",
            LineFault::Hex { line: 3, place: 12 },
        ),
        (
            b"file ? 66 - 0000000000000000 @f",
            LineFault::Hex { line: 3, place: 29 },
        ),
        (
            b"file ? 66 - 0000000000000000 -",
            LineFault::Name { line: 3, place: 5 },
        ),
        (
            b"node a-b 20000000000000000000000000000000",
            LineFault::Name { line: 3, place: 5 },
        ),
        (
            b"node abcdefghijabcdefghijabcdefghijabc -",
            LineFault::Name { line: 3, place: 5 },
        ),
        // What stands behind an @ was to be declared before, and not in this line.
        (b"node B @g", LineFault::Name { line: 3, place: 7 }),
        (b"node B @", LineFault::Name { line: 3, place: 7 }),
        (b"node a-b @g", LineFault::Name { line: 3, place: 5 }),
        (b"first f", LineFault::Name { line: 3, place: 6 }),
        // Names of their own kind, and identifiers.
        (b"node A -", LineFault::Twice { line: 3, place: 5 }),
        (
            b"node A 10000000000000000000000000000000",
            LineFault::Twice { line: 3, place: 5 },
        ),
        (
            b"node B 10000000000000000000000000000000",
            LineFault::Twice { line: 3, place: 7 },
        ),
        (
            b"node f @f\nnode g @f",
            LineFault::Twice { line: 4, place: 7 },
        ),
        (
            b"node f -\nfile f - - 0000000000000000 -",
            LineFault::Twice { line: 4, place: 5 },
        ),
        (b"first A\nfirst ?", LineFault::Name { line: 4, place: 6 }),
        (b"first A\nfirst A", LineFault::SecondFounder { line: 4 }),
    ];
    for (lines, fault) in refused {
        assert_eq!(rt; fault_behind(&rt, lines)?, Some(fault));
    }
    Ok(())
}

/// The same of actions.
#[test]
fn refuses_actions(rt: HostRuntime) -> Result<(), Fail> {
    let refused: [(&[u8], LineFault); 30] = [
        (b"", LineFault::NoFounder { line: 3 }),
        (b"join A B", LineFault::Name { line: 3, place: 7 }),
        (b"join A A", LineFault::NoFounder { line: 3 }),
        (b"lookup A @f", LineFault::NoFounder { line: 3 }),
        (b"lookup B @g", LineFault::Name { line: 3, place: 7 }),
        (b"lookup A @g", LineFault::Name { line: 3, place: 9 }),
        (b"insert A g 0", LineFault::Name { line: 3, place: 9 }),
        (b"insert A f 0", LineFault::NoFounder { line: 3 }),
        (
            b"first A\ninsert A f 0",
            LineFault::Limit { line: 4, place: 11 },
        ),
        (
            b"first A\ninsert A f 10",
            LineFault::Limit { line: 4, place: 11 },
        ),
        (
            b"first A\ninsert A f 257",
            LineFault::Limit { line: 4, place: 11 },
        ),
        (b"fetch A A", LineFault::Name { line: 3, place: 8 }),
        (b"reclaim A A", LineFault::Name { line: 3, place: 10 }),
        (b"reclaim A f", LineFault::NoFounder { line: 3 }),
        (b"giveup f", LineFault::Name { line: 3, place: 7 }),
        (b"giveup A", LineFault::NoFounder { line: 3 }),
        (b"dup 0", LineFault::NoFounder { line: 3 }),
        (b"first A\ndup 0", LineFault::Limit { line: 4, place: 4 }),
        (b"first A\ndup 5", LineFault::Limit { line: 4, place: 4 }),
        (
            b"first A\nsettle 1000001",
            LineFault::Limit { line: 4, place: 7 },
        ),
        (
            b"first A\nsettle 18446744073709551615",
            LineFault::Limit { line: 4, place: 7 },
        ),
        (
            b"first A\nshuffle 1 1000001",
            LineFault::Limit { line: 4, place: 10 },
        ),
        // The deliveries of all: a settle counts for each copy, a shuffle and a deliver do not.
        (
            b"first A\nsettle 999999\ndeliver 7\nsettle 0\nsettle 1",
            LineFault::Limit { line: 7, place: 7 },
        ),
        (
            b"first A\ndup 4\nsettle 250000\ndup 1\ndeliver 18446744073709551615",
            LineFault::Limit { line: 7, place: 8 },
        ),
        (
            b"first A\ndup 4\nsettle 250001",
            LineFault::Limit { line: 5, place: 7 },
        ),
        (
            b"first A\ndup 4\nshuffle 9 1000000\nshuffle 9 0\nshuffle  9 1",
            LineFault::Limit { line: 7, place: 11 },
        ),
        (b"noise B 0", LineFault::Hex { line: 3, place: 8 }),
        (b"noise B 00", LineFault::Name { line: 3, place: 6 }),
        (
            b"noise A 01120000002810000000000000000000000000000000300000000000000000000000000000000000000000000005",
            LineFault::NoFounder { line: 3 },
        ),
        (
            b"first A\nnoise A 01120000002810000000000000000000000000000000300000000000000000000000000000000000000000000005",
            LineFault::Frame { line: 4, place: 8 },
        ),
    ];
    for (lines, fault) in refused {
        assert_eq!(rt; fault_behind(&rt, lines)?, Some(fault));
    }
    Ok(())
}

/// A frame of the second version: a Grant of attempt 1 with one tombstone.
#[test]
fn refuses_frames_of_version_two(rt: HostRuntime) -> Result<(), Fail> {
    let mut line = b"first A\nnoise A 020d00000044".to_vec(rt.alloc())?;
    let ids = [b'1'; 64];
    line.extend_from_slice(&ids)?;
    line.extend_from_slice(b"0000000000000005")?;
    line.extend_from_slice(b"0000000100000001")?;
    let tomb = [b'a'; 40];
    line.extend_from_slice(&tomb)?;
    assert_eq!(rt;
        fault_behind(&rt, &line)?,
        Some(LineFault::Frame { line: 4, place: 8 })
    );
    line.extend_from_slice(b"00")?;
    assert_eq!(rt; fault_behind(&rt, &line)?, None);
    Ok(())
}

/// The fault of lines behind one that declares node A and one that declares file f.
fn fault_behind(rt: &HostRuntime, lines: &[u8]) -> Result<Option<LineFault>, Fail> {
    let mut input =
        b"node A 10000000000000000000000000000000\nfile f 66 - 0000000000000000 616263\n".to_vec(
            rt.alloc(),
        )?;
    input.extend_from_slice(lines)?;
    Ok(read_scenario(rt.alloc(), &input).err())
}

/// A line that declares a file g, whose name, owner and content have so many bytes.
fn file_line(rt: &HostRuntime, name: usize, owner: usize, content: usize) -> Result<Vec<u8>, Fail> {
    let mut line = b"file g ".to_vec(rt.alloc())?;
    push_hex(&mut line, name)?;
    line.push(b' ')?;
    push_hex(&mut line, owner)?;
    line.extend_from_slice(b" 00000000000000ff ")?;
    push_hex(&mut line, content)?;
    Ok(line)
}

/// So many bytes in hexadecimal digits.
fn push_hex(line: &mut Vec<u8>, count: usize) -> Result<(), Fail> {
    if count == 0 {
        line.push(b'-')?;
    }
    for _ in 0..count {
        line.extend_from_slice(b"aB")?;
    }
    Ok(())
}

#[test]
fn keeps_the_limits_of_files(rt: HostRuntime) -> Result<(), Fail> {
    let cases: [(usize, usize, usize, LineFault); 5] = [
        (64, 64, 4_096, LineFault::NoFounder { line: 4 }),
        (65, 64, 4_096, LineFault::Limit { line: 3, place: 7 }),
        (0, 65, 4_097, LineFault::Limit { line: 3, place: 9 }),
        (0, 0, 4_097, LineFault::Limit { line: 3, place: 28 }),
        (65, 65, 4_097, LineFault::Limit { line: 3, place: 7 }),
    ];
    for (name, owner, content, fault) in cases {
        let line = file_line(&rt, name, owner, content)?;
        assert_eq!(rt; fault_behind(&rt, &line)?, Some(fault));
    }
    let mut lines = b"node A 10000000000000000000000000000000\nfirst A\n".to_vec(rt.alloc())?;
    lines.extend_from_slice(b"noise A ")?;
    push_hex(&mut lines, 4_496)?;
    assert_eq!(rt; read_scenario(rt.alloc(), &lines).err(), None);
    lines.push(b' ')?;
    assert_eq!(rt;
        read_scenario(rt.alloc(), &lines).err(),
        Some(LineFault::TooLong { line: 3 })
    );
    Ok(())
}

/// The 257th node and the 257th file pass a limit, after the other checks.
#[test]
fn keeps_the_limits_of_declarations(rt: HostRuntime) -> Result<(), Fail> {
    let mut nodes = Vec::new(rt.alloc());
    let mut files = Vec::new(rt.alloc());
    for i in 0..256u32 {
        let number = format!(in rt.alloc(); "{i}")?;
        nodes.extend_from_slice(b"node n")?;
        nodes.extend_from_slice(number.as_bytes())?;
        nodes.extend_from_slice(b" -\n")?;
        files.extend_from_slice(b"file n")?;
        files.extend_from_slice(number.as_bytes())?;
        files.extend_from_slice(b" - - 0000000000000000 -\n")?;
    }
    nodes.extend_from_slice(&files)?;
    let refused: [(&[u8], LineFault); 5] = [
        (
            b"node A -",
            LineFault::Limit {
                line: 513,
                place: 5,
            },
        ),
        (
            b"node n0 -",
            LineFault::Twice {
                line: 513,
                place: 5,
            },
        ),
        (
            b"node A @A",
            LineFault::Name {
                line: 513,
                place: 7,
            },
        ),
        (
            b" file A - - 0000000000000000 -",
            LineFault::Limit {
                line: 513,
                place: 6,
            },
        ),
        (
            b"file n255 - - 0000000000000000 -",
            LineFault::Twice {
                line: 513,
                place: 5,
            },
        ),
    ];
    for (line, fault) in refused {
        let mut input = nodes.to_vec(rt.alloc())?;
        input.extend_from_slice(line)?;
        assert_eq!(rt; read_scenario(rt.alloc(), &input).err(), Some(fault));
    }
    nodes.extend_from_slice(b"first n255")?;
    assert_eq!(rt; read_scenario(rt.alloc(), &nodes).err(), None);
    Ok(())
}

/// Every form of line, each as the language says.
#[test]
fn reads_every_form(rt: HostRuntime) -> Result<(), Fail> {
    let input =
        b"file A 61 62 0000000000000001 6aF0\nnode A @A\nnode B -\nfirst B\njoin A B\nlookup A @A\n\
insert A A 9\nfetch B A\nreclaim A A\ngiveup B\nsettle 0\ndeliver 18446744073709551615\nshuffle 7 8\ndup 4\n\
noise B -\nnoise A ff";
    let scenario = read_scenario(rt.alloc(), input)?;
    let file = file_id(b"a", b"b", &[0, 0, 0, 0, 0, 0, 0, 1]);
    let a = key_of(&file);
    let b = id_of_name(b"B");
    assert_eq!(rt; scenario.founder(), b);
    let [first, second] = scenario.nodes() else {
        panic!(rt; "two nodes are declared");
    };
    assert_eq!(rt; first.id, a);
    assert_eq!(rt; second.id, b);
    let [declared] = scenario.files() else {
        panic!(rt; "one file is declared");
    };
    assert_eq!(rt; declared.file, file);
    assert_eq!(rt; declared.bytes.as_slice(), b"j\xf0".as_slice());
    let mut lines = Vec::new(rt.alloc());
    for action in scenario.actions() {
        lines.push(action.line)?;
        assert!(rt; is_that_of_line(&action.what, action.line, a, b, file));
    }
    assert_eq!(rt;
        lines.as_slice(),
        [5, 6, 7, 8, 9, 10, 11, 12, 13, 14, 15, 16].as_slice()
    );
    Ok(())
}

/// Whether an action is that of a line of the test above.
fn is_that_of_line(what: &What, line: u32, a: Id, b: Id, file: FileId) -> bool {
    match what {
        What::Command {
            number,
            node,
            command,
        } => {
            line > 4
                && *number == u64::from(line - 4)
                && *node == if line == 8 || line == 10 { b } else { a }
                && is_command_of_line(command, line, a, b, file)
        }
        What::Settle(count) => line == 11 && *count == 0,
        What::Deliver(message) => line == 12 && *message == u64::MAX,
        What::Shuffle { seed, count } => line == 13 && *seed == 7 && *count == 8,
        What::Dup(copies) => line == 14 && *copies == 4,
        What::Noise { node, bytes } => {
            (line == 15 && *node == b && bytes.as_slice().is_empty())
                || (line == 16 && *node == a && bytes.as_slice() == b"\xff".as_slice())
        }
    }
}

fn is_command_of_line(command: &Command, line: u32, a: Id, b: Id, of: FileId) -> bool {
    match command {
        Command::Join { via } => line == 5 && *via == b,
        Command::Lookup { key } => line == 6 && *key == a,
        Command::Insert {
            file,
            copies,
            bytes,
        } => {
            line == 7 && *file == of && copies.get() == 9 && bytes.as_slice() == b"j\xf0".as_slice()
        }
        Command::Fetch { file } => line == 8 && *file == of,
        Command::Reclaim { file } => line == 9 && *file == of,
        Command::GiveUp => line == 10,
    }
}

#[test]
fn keeps_the_limits_of_lines(rt: HostRuntime) -> Result<(), Fail> {
    let long = vec![in rt.alloc(); b'a'; 9_001]?;
    assert_eq!(rt;
        read_scenario(rt.alloc(), &long[..9_000]).err(),
        Some(LineFault::Word { line: 1, place: 0 })
    );
    assert_eq!(rt;
        read_scenario(rt.alloc(), &long).err(),
        Some(LineFault::TooLong { line: 1 })
    );

    let mut lines = vec![in rt.alloc(); b'\n'; 10_000]?;
    assert_eq!(rt;
        read_scenario(rt.alloc(), &lines).err(),
        Some(LineFault::NoFounder { line: 10_001 })
    );
    lines.extend_from_slice(&long)?;
    assert_eq!(rt;
        read_scenario(rt.alloc(), &lines).err(),
        Some(LineFault::Limit {
            line: 10_001,
            place: 0
        })
    );
    Ok(())
}

#[test]
fn spells_names(rt: HostRuntime) -> Result<(), Fail> {
    let letters = [b'z'; 33];
    assert!(rt; Name::new(&letters).is_none());
    assert!(rt; Name::new(b"").is_none());
    assert!(rt; Name::new(b"a b").is_none());
    let name = Name::new(&letters[..32]).expect(&rt, "32 letters are a name");
    assert_eq!(rt; name.as_slice(), &letters[..32]);
    Ok(())
}

#[test]
fn builds_a_scenario(rt: HostRuntime) -> Result<(), Fail> {
    let mut builder = ScenarioBuilder::new(rt.alloc());
    let id = Id(7);
    builder.add_node(rt.alloc(), b"A", id, 1)?;
    builder.set_founder(id);
    let bytes = Bytes::copy_of(rt.alloc(), b"abc")?;
    builder.add_file(rt.alloc(), b"f", FileId([9; 20]), bytes, 2)?;
    let what = What::Dup(3);
    builder.add_action(rt.alloc(), Action { line: 4, what })?;
    let scenario = builder.finish();
    assert_eq!(rt; scenario.founder(), id);
    for file in scenario.files() {
        assert_eq!(rt; file.name.as_slice(), b"f".as_slice());
        assert_eq!(rt; file.bytes.as_slice(), b"abc".as_slice());
        assert_eq!(rt; file.line, 2);
    }
    assert_eq!(rt; scenario.files().len(), 1);
    for action in scenario.actions() {
        assert!(rt; matches!(action.what, What::Dup(3)));
    }
    assert_eq!(rt; scenario.actions().len(), 1);
    Ok(())
}
