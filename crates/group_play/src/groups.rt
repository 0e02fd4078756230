//! The groups that are known, each of whose keys is worked out once.

ghost use Rattle.std.specs.Prelude.{◌≡◌, IfOk};

use ring_math::OutOfMemory;
use scenario_reader::Name;
use scribe_core::Group;
use std::alloc::Global;
use std::collections::HashMap;

/// The groups that were asked for, each by the mark of its name. Of groups with one mark, the last is known.
#[derive(Drop)]
pub(crate) struct Groups {
    known: HashMap<u64, Group>,
}

impl Groups {
    /// No group is known. It takes no memory.
    pub(crate) fn new(alloc: Global) -> Groups {
        Groups {
            known: HashMap::new(alloc),
        }
    }

    /// The group of this name, which is known from then on.
    pub(crate) fn group(&mut self, alloc: Global, name: &Name) -> Result<Group, OutOfMemory>
        ensures { IfOk result (λ group. group ≡ name.now) }
    {
        let mark = mark_of(name.as_slice());
        if let Some(group) = self.known.get(&mark)
            && group.as_slice() == name.as_slice()
        {
            return group.copy();
        }
        let group = Group::new(alloc, name)?;
        self.known.insert(mark, group.copy()?)?;
        Ok(group)
    }
}

/// A number that few names share.
fn mark_of(name: &[u8]) -> u64 {
    let mut mark: u64 = 0;
    for byte in name {
        mark = mark.wrapping_mul(31).wrapping_add(u64::from(*byte));
    }
    mark
}
