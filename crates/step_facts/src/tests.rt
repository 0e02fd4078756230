//! The fact has a caller: a record that is legal by computation.

use crate::receivers_are_nodes;
use overlay_rules::Entries;
use ring_math::Id;

#[test]
fn holds_of_no_entries(rt: HostRuntime) {
    let entries = Entries::new(rt.alloc());
    receivers_are_nodes(&[Id(7), Id(9)], Id(9), &entries);
}
