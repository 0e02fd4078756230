//! Turns and made scenarios, by the scenario language. The identifiers and files were computed apart, of the words of ChaCha8
//! and SHA-1.

use crate::begun::Begun;
use crate::{Cursor, ShuffleWords, Turn, make_scenario, turn_law};
use ring_math::id_from_hex;
use scenario_reader::What;
use std::test::Fail;
use wire_msg::Command;

/// Two copies of each delivery, until nothing waits.
#[test]
fn settles_by_copies(rt: HostRuntime) {
    let mut begun = Begun::Settle {
        message: 0,
        again: 0,
        left: 3,
    };
    let turns = [
        (Some(0), Some(Turn::Deliver(0))),
        (Some(1), Some(Turn::Deliver(0))),
        (Some(1), Some(Turn::Deliver(1))),
        (None, Some(Turn::Deliver(1))),
        (None, None),
    ];
    let mut words = ShuffleWords::new();
    for (oldest, turn) in turns {
        assert_eq!(rt; begun.turn(&mut words, 2, 2, oldest), turn);
    }
}

/// The words of seed 0 are 2fef003e, d6405f89, e8b85b7f: the first is passed over where nothing was sent.
#[test]
fn walks_a_made_scenario(rt: HostRuntime) -> Result<(), Fail> {
    let scenario = make_scenario(rt.alloc(), 2, 0)?;
    let mut words = ShuffleWords::new();
    let mut cursor = Cursor::new();
    let turns = [
        (0, None, Turn::Action(0)),
        (0, None, Turn::Skip),
        (4, None, Turn::Deliver(1)),
        (5, None, Turn::Deliver(4)),
    ];
    for (sent, oldest, turn) in turns {
        assert_eq!(rt; cursor.next(&scenario, &mut words, sent, oldest), turn);
    }
    for _ in 3..40 {
        assert_eq!(rt; cursor.next(&scenario, &mut words, 0, None), Turn::Skip);
    }
    assert_eq!(rt;
        cursor.next(&scenario, &mut words, 5, Some(4)),
        Turn::Deliver(4)
    );
    assert_eq!(rt;
        cursor.next(&scenario, &mut words, 5, None),
        Turn::Action(3)
    );
    turn_law();
    Ok(())
}

/// Words are the same in any order, and of another seed they are others.
#[test]
fn words_stand_at_places(rt: HostRuntime) {
    let mut words = ShuffleWords::new();
    let asked = [
        (0, 0, 0x2fef003e),
        (0, 1, 0xd6405f89),
        (0, 1, 0xd6405f89),
        (0, 2, 0xe8b85b7f),
        (0, 0, 0x2fef003e),
    ];
    for (seed, place, word) in asked {
        assert_eq!(rt; words.word(seed, place), word);
    }
    assert!(rt; words.word(1, 1) != 0xd6405f89);
}

#[test]
fn makes_nodes_and_files(rt: HostRuntime) -> Result<(), Fail> {
    let scenario = make_scenario(rt.alloc(), 12, 7)?;
    assert_eq!(rt;
        scenario.founder(),
        id_from_hex(b"0044ba73c39ca672ea9d9d657747b002")?
    );
    assert_eq!(rt; scenario.nodes().len(), 12);
    if let Some(node) = scenario.nodes().last() {
        assert_eq!(rt; node.id, id_from_hex(b"2dfc8bc82186659347efdc3c34d06282")?);
        assert_eq!(rt; node.name.as_slice(), b"n11".as_slice());
        assert_eq!(rt; node.line, 12);
    }
    assert_eq!(rt; scenario.files().len(), 20);
    if let Some(file) = scenario.files().last() {
        assert_eq!(rt;
            file.file.0,
            *b"\x92\xff\xc0\xc7\x16\xd3\x73\x0b\x54\x8d\xb7\x68\x07\x9f\xa2\x2a\xe0\xae\x4a\x22"
        );
        assert!(rt;
            file.bytes
                .as_slice()
                .starts_with(b"\x7d\xb0\x8b\x7f\x8d\x33\xb6\xac")
        );
        assert_eq!(rt; file.line, 32);
    }
    Ok(())
}

/// Eleven joiners make four groups, of eleven lines and the last of eight, before two lines for each insert and each fetch.
#[test]
fn makes_joins_inserts_and_fetches(rt: HostRuntime) -> Result<(), Fail> {
    let scenario = make_scenario(rt.alloc(), 12, 7)?;
    assert_eq!(rt; scenario.actions().len(), 121);
    if let Some(action) = scenario.actions().get(37) {
        assert_eq!(rt; action.line, 71);
        assert!(rt;
            matches!(
                &action.what,
                What::Command {
                    number: 21,
                    command: Command::Join { .. },
                    ..
                }
            )
        );
    }
    if let Some(action) = scenario.actions().get(45) {
        assert!(rt;
            matches!(
                &action.what,
                What::Command {
                    number: 25,
                    command: Command::Insert { .. },
                    ..
                }
            )
        );
    }
    if let Some(action) = scenario.actions().last() {
        assert!(rt; matches!(&action.what, What::Settle(2_000)));
    }
    Ok(())
}
