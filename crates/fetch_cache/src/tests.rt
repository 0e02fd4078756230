//! Fetches that are answered by access points, by the words of scenarios.

use crate::{play_points, report_points};
use scenario_reader::read_scenario;
use std::test::Fail;

/// The second fetch of a file is a hit, and no event.
#[test]
fn a_second_fetch_hits(rt: HostRuntime) -> Result<(), Fail> {
    let input =
        b"node A 10000000000000000000000000000000\nfile f 66 - 0000000000000000 616263\nfirst A\ninsert A f 1\nsettle 5\nfetch A f\nsettle 5\nfetch A f\nsettle 5\n";
    let scenario = read_scenario(rt.alloc(), input)?;
    let run = play_points(rt.alloc(), &scenario, 2)?;
    let text = report_points(rt.alloc(), &scenario, &run)?;
    assert_eq!(rt;
        text.as_slice(),
        b"1 stored at A\n2 found by A 616263\n3 cached 616263\nsummary entries 4 sent 2 undelivered 0 deliveries 0 skipped 0 ready 1\npoints hits 1 misses 1\n".as_slice()
    );
    Ok(())
}

/// A point with room for one file has forgotten the first when the second was found; one with room for two has not.
#[test]
fn the_oldest_file_is_forgotten(rt: HostRuntime) -> Result<(), Fail> {
    let input =
        b"node A 10000000000000000000000000000000\nfile f 66 - 0000000000000000 616263\nfile g 67 - 0000000000000000 6768\nfirst A\ninsert A f 1\ninsert A g 1\nsettle 9\nfetch A f\nsettle 5\nfetch A g\nsettle 5\nfetch A f\nsettle 5\n";
    let scenario = read_scenario(rt.alloc(), input)?;
    let one = play_points(rt.alloc(), &scenario, 1)?;
    assert_eq!(rt; one.hits.as_slice().len(), 0);
    assert_eq!(rt; one.steps.entries.len(), 10);
    let two = play_points(rt.alloc(), &scenario, 2)?;
    assert_eq!(rt; two.hits.as_slice().len(), 1);
    assert_eq!(rt; two.steps.entries.len(), 8);
    Ok(())
}
