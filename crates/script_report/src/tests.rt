//! Whole scripts, and their reports.

use crate::play_script;
use group_reader::read_groups;
use outside::FreePass;
use std::alloc::Global;
use std::process::Abort;
use std::test::Fail;

/// The founder alone hears what it publishes.
#[test]
fn plays_a_lone_group(rt: HostRuntime) -> Result<(), Fail> {
    let input = b"node A 10000000000000000000000000000000
first A
groups
subscribe A g
publish A g 6869
settle 5
";
    let expected = b"summary entries 0 sent 0 undelivered 0 deliveries 0 skipped 0 ready 1
1 subscribed
2 published
heard 2 by A g 6869
groups entries 2 sent 0 undelivered 0 heard 1
";
    reports(&rt, rt.alloc(), input, expected)
}

/// The group's key is the identifier of the node abc, so B's publication goes to abc and comes back as a Cast. Messages that are
/// delivered again change nothing.
#[test]
fn hears_a_repeated_cast_once(rt: HostRuntime) -> Result<(), Fail> {
    let input = b"node abc -
node B 10000000000000000000000000000000
first abc
join B abc
settle 20
groups
subscribe B abc
publish B abc 6869
settle 20
deliver 1
deliver 2
";
    let expected = b"1 joined between abc and abc
summary entries 9 sent 8 undelivered 0 deliveries 0 skipped 0 ready 2
1 subscribed
2 published
heard 2 by B abc 6869
groups entries 7 sent 3 undelivered 0 heard 1
";
    reports(&rt, rt.alloc(), input, expected)
}

/// Who left hears nothing, and hears again once it is back. The root is no member and hears nothing. A message that was never sent is
/// passed over.
#[test]
fn leaves_and_comes_back(rt: HostRuntime) -> Result<(), Fail> {
    let input = b"node abc -
node B 10000000000000000000000000000000
first abc
join B abc
settle 20
groups
subscribe B abc
settle 9
leave B abc
settle 9
publish abc abc 01
settle 9
subscribe B abc
settle 9
publish abc abc -
settle 9
deliver 99
";
    let expected = b"1 joined between abc and abc
summary entries 9 sent 8 undelivered 0 deliveries 0 skipped 0 ready 2
1 subscribed
2 left
3 published
4 subscribed
5 published
heard 5 by B abc -
groups entries 9 sent 4 undelivered 0 heard 1
";
    reports(&rt, rt.alloc(), input, expected)
}

/// A node that is not ready can neither subscribe nor publish, but it can leave.
#[test]
fn refuses_who_is_not_ready(rt: HostRuntime) -> Result<(), Fail> {
    let input = b"node A 10000000000000000000000000000000
node B 20000000000000000000000000000000
first A
groups
subscribe B g
publish B g 00
leave B g
";
    let expected = b"summary entries 0 sent 0 undelivered 0 deliveries 0 skipped 0 ready 1
1 refused
2 refused
3 left
groups entries 3 sent 0 undelivered 0 heard 0
";
    reports(&rt, rt.alloc(), input, expected)
}

/// Messages 0 and 1 of part two are delivered, one of them twice, and two are left. Part one has left one of its own.
#[test]
fn counts_messages_of_part_two_alone(rt: HostRuntime) -> Result<(), Fail> {
    let input = b"node abc -
node B 10000000000000000000000000000000
first abc
join B abc
settle 20
lookup B 10000000000000000000000000000000
groups
subscribe abc abc
subscribe B abc
deliver 0
publish B abc 01
deliver 1
deliver 1
leave B abc
";
    let expected = b"1 joined between abc and abc
2 unanswered
delivery 2 of 10000000000000000000000000000000 by B hops 0
summary entries 10 sent 9 undelivered 1 deliveries 1 skipped 0 ready 2
1 subscribed
2 subscribed
3 published
4 left
heard 3 by abc abc 01
groups entries 7 sent 4 undelivered 2 heard 1
";
    reports(&rt, rt.alloc(), input, expected)
}

/// A keeps the key for abc, which is joining. So A is refused until C has asked it to be its parent: then it is the top of a tree, and
/// what is published there goes nowhere.
#[test]
fn keeps_a_key_for_a_joiner(rt: HostRuntime) -> Result<(), Fail> {
    let input = b"node A 90000000000000000000000000000000
node C 10000000000000000000000000000000
node abc -
first A
join C A
settle 20
join abc A
settle 9
groups
subscribe A abc
subscribe abc abc
publish A abc 00
subscribe C abc
settle 9
subscribe A abc
publish C abc 01
publish A abc 02
settle 9
";
    let expected = b"1 joined between A and A
2 unanswered
summary entries 19 sent 18 undelivered 1 deliveries 0 skipped 0 ready 2
1 refused
2 refused
3 refused
4 subscribed
5 subscribed
6 published
7 refused
groups entries 9 sent 2 undelivered 0 heard 0
";
    reports(&rt, rt.alloc(), input, expected)
}

/// S passes on to X what the root casts, as X does not know abc, and is no member. When X has left, S leaves the tree too.
#[test]
fn passes_on_between(rt: HostRuntime) -> Result<(), Fail> {
    let input = b"node P a0000000000000000000000000000000
node S b0000000000000000000000000000000
node X 10000000000000000000000000000000
node abc -
first P
join S P
settle 50
join X P
settle 50
join abc P
settle 15
groups
subscribe X abc
settle 9
publish S abc 01
settle 9
leave X abc
settle 9
publish abc abc 02
settle 9
";
    let expected = b"1 joined between P and P
2 joined between S and P
3 joined between P and S
summary entries 41 sent 41 undelivered 3 deliveries 0 skipped 0 ready 4
1 subscribed
2 published
3 left
4 published
heard 2 by X abc 01
groups entries 11 sent 7 undelivered 0 heard 1
";
    reports(&rt, rt.alloc(), input, expected)
}

/// The report of a script is this.
fn reports(rt: &impl Abort, alloc: Global, input: &[u8], expected: &[u8]) -> Result<(), Fail> {
    let script = read_groups(alloc, input)?;
    let played = play_script(alloc, &script, &FreePass)?;
    assert_eq!(rt; played.text.as_slice(), expected);
    Ok(())
}
