//! Groups, as they are named in a record.

ghost use Rattle.std.specs.Prelude.{◌≡◌, IfOk};
ghost use Rattle.ring_math.specs.Keys.{id_of};

use ring_math::{Id, OutOfMemory, id_of_name};
use scenario_reader::Name;
use std::alloc::Global;
use std::marker::Model;
use std::rc::Rc;

/// A name, and the key that it gives.
#[derive(Drop)]
pub(crate) struct Keyed {
    key: Id,
    name: Name,
}

impl Model for Keyed {
    ghost use Rattle.std.specs.Prelude.{ℕ, List, ◌≡◌};
    ghost use Rattle.ring_math.specs.Keys.{id_of};

    ghost Value = { List ℕ };

    ghost view = { λ a. a.name };

    ghost invariant = { λ a. a.key ≡ id_of a.name };
}

impl Keyed {
    fn of(name: &Name) -> Keyed
        ensures { result ≡ name.now }
    {
        Keyed {
            key: id_of_name(name.as_slice()),
            name: name.copy(),
        }
    }

    fn key(&self) -> Id
        ensures { result ≡ id_of self.now }
    {
        self.key
    }

    fn as_slice(&self) -> &[u8]
        ensures { result.now ≡ self.now }
    {
        self.name.as_slice()
    }
}

/// A group: its name, and its key, which is worked out once. A copy is one owner more of the same memory, so that what names a
/// group is small, and has its key at hand.
#[derive(Drop)]
pub struct Group {
    keyed: Rc<Keyed>,
}

impl Model for Group {
    ghost use Rattle.std.specs.Prelude.{ℕ, List};
    ghost use Rattle.std.specs.Rc.{rc_value};

    ghost Value = { List ℕ };

    ghost view = { λ a. rc_value a.keyed };
}

impl Group {
    /// The group of this name.
    pub fn new(alloc: Global, name: &Name) -> Result<Group, OutOfMemory>
        ensures { IfOk result (λ group. group ≡ name.now) }
    {
        let keyed = Rc::new(alloc, Keyed::of(name))?;
        Ok(Group { keyed })
    }

    /// The group's key.
    pub fn key(&self) -> Id
        ensures { result ≡ id_of self.now }
    {
        self.keyed.key()
    }

    /// The group's name.
    pub fn as_slice(&self) -> &[u8]
        ensures { result.now ≡ self.now }
    {
        self.keyed.as_slice()
    }

    /// The same group, shared. It takes no memory: the only error is that there are too many owners to count.
    pub fn copy(&self) -> Result<Group, OutOfMemory>
        ensures { IfOk result (λ group. group ≡ self.now) }
    {
        let keyed = self.keyed.clone()?;
        Ok(Group { keyed })
    }
}
