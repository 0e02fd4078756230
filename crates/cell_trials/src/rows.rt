//! What no clause says: that the record of a scenario which went through cells is reported as the played one is.

use delivery_report::report;
use play_engine::{ids_of, play};
use scenario_reader::read_scenario;
use std::alloc::Global;
use std::process::Abort;
use weave::through_cells;
use wire_msg::Frame;

/// The report of a scenario whose record went through cells.
fn report_through_cells<R: Abort>(rt: &R, alloc: Global, told: &[u8]) -> Frame {
    let scenario = read_scenario(alloc, told).expect(rt, "it is a scenario");
    let steps = play(alloc, &scenario).expect(rt, "memory for the play");
    let nodes = ids_of(alloc, scenario.nodes()).expect(rt, "memory for the nodes");
    let woven = through_cells(alloc, &nodes, scenario.founder(), &steps).expect(
        rt,
        "memory for the cells",
    );
    woven.entries.said_law();
    report(alloc, &scenario, &woven).expect(rt, "memory for the report")
}

/// The second of two joins goes by way of the newer node.
#[test]
fn a_second_node_joins(rt: HostRuntime) {
    let told =
        b"node A 10000000000000000000000000000000\nnode B 90000000000000000000000000000000\nnode C 30000000000000000000000000000000\nfirst A\njoin B A\nsettle 20\njoin C B\nsettle 40\n";
    let due =
        b"1 joined between A and A\n2 joined between A and B\nsummary entries 25 sent 23 undelivered 0 deliveries 0 skipped 0 ready 3\n";
    let report = report_through_cells(&rt, rt.alloc(), told);
    assert!(rt; report.as_slice() == due.as_slice());
}

/// Two joins are denied by one another.
#[test]
fn joins_cross(rt: HostRuntime) {
    let told =
        b"node A 10000000000000000000000000000000\nnode B 90000000000000000000000000000000\nnode C 30000000000000000000000000000000\nnode D 70000000000000000000000000000000\nfirst A\njoin B A\nsettle 20\njoin C A\njoin D A\nsettle 11\ndeliver 19\ndeliver 21\ndeliver 22\ndeliver 25\ndeliver 20\ndeliver 24\nsettle 40\njoin C A\nsettle 40\n";
    let due =
        b"1 joined between A and A\n2 denied by B busy with D\n3 denied by A busy with C\n4 joined between A and B\nsummary entries 51 sent 47 undelivered 0 deliveries 0 skipped 0 ready 3\n";
    let report = report_through_cells(&rt, rt.alloc(), told);
    assert!(rt; report.as_slice() == due.as_slice());
}

/// A lookup comes to a node that is about to be joined, and later to the joiner.
#[test]
fn a_node_is_busy_and_then_delivers(rt: HostRuntime) {
    let told =
        b"node A 10000000000000000000000000000000\nnode B 30000000000000000000000000000000\nfirst A\njoin B A\nsettle 5\nlookup A 30000000000000000000000000000000\ndeliver 6\nsettle 20\nlookup A 30000000000000000000000000000000\nsettle 20\n";
    let due =
        b"1 joined between A and A\n2 busy by A for B\n3 delivered by B hops 1\ndelivery 3 of 30000000000000000000000000000000 by B hops 1\nsummary entries 14 sent 11 undelivered 0 deliveries 1 skipped 0 ready 2\n";
    let report = report_through_cells(&rt, rt.alloc(), told);
    assert!(rt; report.as_slice() == due.as_slice());
}
