//! Words and what they ask for, by the usage `pastry MODE [--nodes N] [--seed N] [--room N] [--size Z] [--from ENTRY]
//! [--entries COUNT] [--threads]`.

use crate::{Mode, WordFault, check_words, read_words};
use std::rc::RcStr;
use std::test::Fail;

fn read(rt: &HostRuntime, words: &[&str]) -> Result<Result<Mode, WordFault>, Fail> {
    let mut given = Vec::new(rt.alloc());
    for word in words {
        given.push(RcStr::from_str(rt.alloc(), word)?)?;
    }
    Ok(read_words(rt.alloc(), &given))
}

#[test]
fn reads_plain_words(rt: HostRuntime) -> Result<(), Fail> {
    let big = Mode::Big { nodes: 9, seed: 0 };
    assert_eq!(rt; read(&rt, &["pastry", "play"])?, Ok(Mode::Play));
    assert_eq!(rt; read(&rt, &["pastry", "run"])?, Ok(Mode::Run));
    assert_eq!(rt; read(&rt, &["pastry", "trace"])?, Ok(Mode::Trace));
    assert_eq!(rt; read(&rt, &["pastry", "check"])?, Ok(Mode::Check));
    assert_eq!(rt; read(&rt, &["pastry", "messages"])?, Ok(Mode::Messages));
    assert_eq!(rt; read(&rt, &["pastry", "groups"])?, Ok(Mode::Groups));
    assert_eq!(rt; read(&rt, &["pastry", "node"])?, Ok(Mode::OneNode));
    assert_eq!(rt;
        read(&rt, &["", "big"])?,
        Ok(Mode::Big { nodes: 12, seed: 7 })
    );
    assert_eq!(rt;
        read(&rt, &["p", "big", "--nodes=9", "--seed", "0"])?,
        Ok(big)
    );
    assert_eq!(rt;
        read(
            &rt,
            &["p", "--seed=0", "--nodes", "9", "big", "--room", "1"]
        )?,
        Ok(big)
    );
    assert_eq!(rt;
        read(&rt, &["p", "--size", "835584", "play", "--room=4096"])?,
        Ok(Mode::Play)
    );
    Ok(())
}

#[test]
fn reads_the_room_and_the_size(rt: HostRuntime) -> Result<(), Fail> {
    assert_eq!(rt;
        read(&rt, &["pastry", "points"])?,
        Ok(Mode::Points { room: 16 })
    );
    assert_eq!(rt;
        read(&rt, &["pastry", "points", "--room", "4096"])?,
        Ok(Mode::Points { room: 4096 })
    );
    let large = Mode::Large {
        nodes: 12,
        seed: 7,
        size: 10_000,
    };
    assert_eq!(rt; read(&rt, &["pastry", "large"])?, Ok(large));
    let empty = Mode::Large {
        nodes: 256,
        seed: 0,
        size: 0,
    };
    assert_eq!(rt;
        read(
            &rt,
            &["p", "--size=0", "--nodes", "256", "large", "--seed=0"]
        )?,
        Ok(empty)
    );
    Ok(())
}

#[test]
fn reads_what_is_drawn(rt: HostRuntime) -> Result<(), Fail> {
    assert_eq!(rt;
        read(&rt, &["pastry", "draw"])?,
        Ok(Mode::Draw {
            from: 0,
            entries: 120
        })
    );
    assert_eq!(rt;
        read(&rt, &["p", "--entries=10000", "draw", "--from", "9"])?,
        Ok(Mode::Draw {
            from: 9,
            entries: 10_000
        })
    );
    Ok(())
}

#[test]
fn reads_the_flag(rt: HostRuntime) -> Result<(), Fail> {
    assert_eq!(rt;
        read(&rt, &["pastry", "trace", "--threads"])?,
        Ok(Mode::TraceRun)
    );
    assert_eq!(rt;
        read(&rt, &["p", "--threads", "trace", "--room", "2"])?,
        Ok(Mode::TraceRun)
    );
    assert_eq!(rt; read(&rt, &["p", "play", "--threads"])?, Ok(Mode::Play));
    Ok(())
}

#[test]
fn refuses_other_words(rt: HostRuntime) -> Result<(), Fail> {
    let refused: [&[&str]; 18] = [
        &[],
        &["pastry"],
        &["pastry", "paint"],
        &["pastry", "trace", "--threads=true"],
        &["pastry", "trace", "--threads", "--threads"],
        &["pastry", "draw", "--entries", "10001"],
        &["pastry", "draw", "--from=-1"],
        &["pastry", "Play"],
        &["pastry", "play", "play"],
        &["pastry", "big", "--nodes", "1"],
        &["pastry", "big", "--nodes", "257"],
        &["pastry", "big", "--nodes=9", "--nodes=9"],
        &["pastry", "big", "--seed", "18446744073709551616"],
        &["pastry", "points", "--room", "0"],
        &["pastry", "points", "--room=4097"],
        &["pastry", "large", "--size", "835585"],
        &["pastry", "play", "--help"],
        &["pastry", "play", "--nodes"],
    ];
    for words in refused {
        assert_eq!(rt; read(&rt, words)?, Err(WordFault::Usage));
    }
    Ok(())
}

/// What the command says of words that it refuses, None where it takes them.
fn refusal(rt: &HostRuntime, words: &[&str]) -> Result<Option<String>, Fail> {
    let mut given = Vec::new(rt.alloc());
    for word in words {
        given.push(RcStr::from_str(rt.alloc(), word)?)?;
    }
    match check_words(rt.alloc(), &given) {
        Ok(()) => Ok(None),
        Err(error) => Ok(Some(format!(in rt.alloc(); "{error}")?)),
    }
}

#[test]
fn says_why_words_are_refused(rt: HostRuntime) -> Result<(), Fail> {
    let words = ["pastry", "big", "--nodes", "257"];
    let text = refusal(&rt, &words)?.unwrap_or(String::new(rt.alloc()));
    assert!(rt;
        text.as_str()
            .contains("'257' for '--nodes <nodes>': 257 is not in 2..=256"),
        "{text}"
    );
    let words = ["pastry", "paint"];
    let text = refusal(&rt, &words)?.unwrap_or(String::new(rt.alloc()));
    assert!(rt; text.as_str().contains("'paint'"), "{text}");
    assert!(rt; refusal(&rt, &["pastry", "play"])?.is_none());
    Ok(())
}
