//! Worked schedules of joins, whole and turn by turn: how many entries and skips there are.

use crate::{Player, play};
use scenario_reader::read_scenario;
use std::test::Fail;

/// A join of eight messages, and then a second one of fifteen, by way of the newer node.
#[test]
fn plays_two_joins(rt: HostRuntime) -> Result<(), Fail> {
    let input =
        b"node A 10000000000000000000000000000000\nnode B 90000000000000000000000000000000\nnode C 30000000000000000000000000000000\nfirst A\njoin B A\nsettle 20\njoin C B\nsettle 40\n";
    let scenario = read_scenario(rt.alloc(), input)?;
    let steps = play(rt.alloc(), &scenario)?;
    assert_eq!(rt; steps.entries.len(), 25);
    assert_eq!(rt; steps.skipped, 0);
    Ok(())
}

/// Message 99 was never sent, and each other turn is a delivery of the join.
#[test]
fn skips_an_unsent_message(rt: HostRuntime) -> Result<(), Fail> {
    let input =
        b"node A 10000000000000000000000000000000\nnode B 30000000000000000000000000000000\nfirst A\njoin B A\nsettle 20\ndeliver 99\n";
    let scenario = read_scenario(rt.alloc(), input)?;
    let steps = play(rt.alloc(), &scenario)?;
    assert_eq!(rt; steps.entries.len(), 9);
    assert_eq!(rt; steps.skipped, 1);
    Ok(())
}

#[test]
fn advances_by_turns(rt: HostRuntime) -> Result<(), Fail> {
    let input =
        b"node A 10000000000000000000000000000000\nfirst A\ndeliver 0\nlookup A 00000000000000000000000000000001\n";
    let scenario = read_scenario(rt.alloc(), input)?;
    let mut player = Player::new(rt.alloc(), &scenario)?;
    assert!(rt; player.advance(rt.alloc(), &scenario)?);
    assert_eq!(rt; player.world().entries().len(), 0);
    assert!(rt; player.advance(rt.alloc(), &scenario)?);
    assert_eq!(rt; player.world().entries().len(), 1);
    assert!(rt; !player.advance(rt.alloc(), &scenario)?);
    assert_eq!(rt; player.finish().skipped, 1);
    Ok(())
}
