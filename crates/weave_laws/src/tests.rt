//! The law has a caller.

use crate::weaving_law;
use overlay_rules::{Entries, Record};
use ring_math::Id;

#[test]
fn holds_of_no_entries(rt: HostRuntime) {
    let steps = Record {
        entries: Entries::new(rt.alloc()),
        skipped: 0,
    };
    weaving_law(&[Id(7), Id(9)], Id(9), &steps);
}
