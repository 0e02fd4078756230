//! The report of a record.

use crate::report_groups;
use group_reader::read_groups;
use scribe_core::GroupWriter;
use std::test::Fail;

/// Nothing has happened: no command was answered.
#[test]
fn reports_an_empty_record(rt: HostRuntime) -> Result<(), Fail> {
    let input = b"node A 10000000000000000000000000000000\nfirst A\ngroups\nsubscribe A g\n";
    let script = read_groups(rt.alloc(), input)?;
    let nothing = GroupWriter::new(rt.alloc()).finish();
    let text = report_groups(rt.alloc(), &script, &nothing)?;
    let expected = b"groups entries 0 sent 0 undelivered 0 heard 0\n";
    assert_eq!(rt; text.as_slice(), expected.as_slice());
    Ok(())
}
