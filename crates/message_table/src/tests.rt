use super::*;
use outside::FreePass;
use play_engine::played_past;
use scenario_reader::read_scenario;
use std::process::Abort;
use std::test::Fail;

/// Plays a scenario, and compares its table with these lines.
fn is_told(rt: &impl Abort, alloc: Global, scenario: &str, lines: &[&str]) -> Result<(), Fail> {
    let scenario = read_scenario(alloc, scenario.as_bytes())?;
    let player = played_past(alloc, &scenario, &FreePass)?;
    let table = message_table(alloc, &scenario, player.world())?;
    let mut due = Text::new(alloc);
    for line in lines {
        due.put(line.as_bytes())?;
        due.put(b"\n")?;
    }
    let due = due.into_frame();
    assert_eq!(rt; table.as_slice(), due.as_slice());
    Ok(())
}

#[test]
fn the_least_run_is_told(rt: HostRuntime) -> Result<(), Fail> {
    is_told(
        &rt,
        rt.alloc(),
        "node A 10000000000000000000000000000000\nfirst A\nlookup A ff000000000000000000000000000000\nsettle 10\n",
        &[
            "node A 10000000000000000000000000000000",
            "first A",
            "entry 1 at A command 1 line 3 lookup ff000000000000000000000000000000",
            "  message 0 from A to A LookupReply to 1 delivered by A hops 0",
            "  note delivery 1 of ff000000000000000000000000000000 by A hops 0",
            "  note answered of A 1 delivered by A hops 0",
            "entry 2 at A message 0",
            "  note 1 delivered by A hops 0",
            "node A ready between A and A holds -",
        ],
    )
}

#[test]
fn a_join_and_a_file_are_told(rt: HostRuntime) -> Result<(), Fail> {
    is_told(
        &rt,
        rt.alloc(),
        "node A 10000000000000000000000000000000\nnode B 90000000000000000000000000000000\nfile f 66 - 0000000000000000 6162\nfirst A\njoin B A\nsettle 20\ninsert A f 1\nsettle 20\nnoise B 00\n",
        &[
            "node A 10000000000000000000000000000000",
            "node B 90000000000000000000000000000000",
            "file f bac4a3851efa3aee0b8da32d7ef3035628e3852a",
            "first A",
            "entry 1 at B command 1 line 5 join by A",
            "  message 0 from B to A JoinRequest of B attempt 1 hops 0",
            "entry 2 at A message 0",
            "  message 1 from A to B JoinReply attempt 1 members A",
            "entry 3 at B message 1",
            "  message 2 from B to A Probe attempt 1",
            "entry 4 at A message 2",
            "  message 3 from A to B ProbeReply attempt 1 members A",
            "entry 5 at B message 3",
            "  message 4 from B to A LeaseRequest attempt 1 between A and A",
            "entry 6 at A message 4",
            "  message 5 from A to B Grant attempt 1 manifest - tombs -",
            "entry 7 at B message 5",
            "  message 6 from B to A Confirm attempt 1",
            "  message 7 from B to A Announce",
            "  note 1 joined between A and A",
            "entry 8 at A message 6",
            "entry 9 at A message 7",
            "entry 10 at A command 2 line 7 insert f 1",
            "  message 8 from A to B Insert of A 2 file f copies 1 bytes 6162 hops 1",
            "entry 11 at B message 8",
            "  message 9 from B to A InsertReply to 2 stored at B",
            "  note accepted f 6162",
            "  note answered of A 2 stored at B",
            "entry 12 at A message 9",
            "  note 2 stored at B",
            "entry 13 at B noise",
            "node A ready between B and B holds -",
            "node B ready between A and A holds f",
        ],
    )
}
