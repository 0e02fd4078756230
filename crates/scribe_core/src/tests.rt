//! The law has callers: group records that are legal by computation.

use crate::{Group, GroupCommand, GroupEvent, GroupNote, GroupWriter, groups_law};
use overlay_rules::Entries;
use ring_math::Id;
use scenario_reader::Name;
use std::test::Fail;

#[test]
fn holds_of_no_entries(rt: HostRuntime) {
    let entries = Entries::new(rt.alloc());
    let groups = GroupWriter::new(rt.alloc()).finish();
    groups_law(&[Id(7), Id(9)], Id(9), &entries, &groups);
}

#[test]
fn holds_of_a_node_that_is_not_ready(rt: HostRuntime) -> Result<(), Fail> {
    let name = Name::new(b"news").ok_or("no name")?;
    let group = Group::new(rt.alloc(), &name)?;
    let mut writer = GroupWriter::new(rt.alloc());
    writer.note(GroupNote::Refused { number: 1 })?;
    writer.close(GroupEvent::Command {
        node: Id(7),
        number: 1,
        group,
        command: GroupCommand::Subscribe,
    })?;
    let groups = writer.finish();
    let entries = Entries::new(rt.alloc());
    groups_law(&[Id(7), Id(9)], Id(9), &entries, &groups);
    Ok(())
}
