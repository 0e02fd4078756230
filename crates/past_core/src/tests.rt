use super::*;
use coverage::Reach;
use file_store::{Bury, FileStore};
use leaf_set::LeafSet;
use ring_math::{Bytes, FileId, Id};
use std::alloc::Global;
use std::test::Fail;
use wire_msg::Copies;

/// The identifier that begins with this byte.
fn id(first: u8) -> Id {
    Id(u128::from(first) << 120)
}

/// The file whose identifier begins with this byte.
fn file(first: u8) -> FileId {
    let mut bytes = [0; 20];
    bytes[0] = first;
    FileId(bytes)
}

/// The leaf set of 10~, where it knows these.
fn leafs_of(firsts: &[u8]) -> LeafSet {
    let mut leafs = LeafSet::new(id(0x10));
    for first in firsts {
        leafs.learn(id(*first));
    }
    leafs
}

/// An insert of e0~.
#[derive(Drop)]
struct Case<'a> {
    number: u64,
    first: u8,
    copies: u8,
    bytes: &'a [u8],
}

fn ask(alloc: Global, case: &Case) -> Result<InsertAsk, Fail> {
    let Some(copies) = Copies::new(case.copies) else {
        return Err(Fail::from("copies are 1 to 9"));
    };
    Ok(InsertAsk {
        origin: id(0xe0),
        number: case.number,
        file: file(case.first),
        copies,
        bytes: Bytes::copy_of(alloc, case.bytes)?,
    })
}

/// An insert of 20~.
fn of_20(number: u64, copies: u8, bytes: &[u8]) -> Case {
    Case {
        number,
        first: 0x20,
        copies,
        bytes,
    }
}

/// What 10~ keeps. Each question is a function of its own, so that no test holds an answer beside what is asked next.
#[derive(Drop)]
struct Root {
    alloc: Global,
    past: Past,
    store: FileStore,
}

impl Root {
    fn new(alloc: Global) -> Self {
        Root {
            alloc,
            past: Past::new(alloc),
            store: FileStore::new(alloc),
        }
    }

    /// What 10~ does with an insert, where it knows these.
    fn insert(&mut self, firsts: &[u8], case: &Case) -> Result<InsertStep, Fail> {
        let ask = ask(self.alloc, case)?;
        let leafs = leafs_of(firsts);
        let me = leafs.me();
        Ok(
            self.past
                .on_insert(self.alloc, &mut self.store, &leafs, me, &ask)?,
        )
    }

    /// Whether 10~, alone, accepts the file and stores it.
    fn stores(&mut self, case: &Case) -> Result<bool, Fail> {
        let step = self.insert(&[], case)?;
        let holders = [id(0x10)];
        Ok(
            step.accepted
                && matches!(&step.what, InsertWhat::Stored { holders: found } if found.as_slice() == holders.as_slice()),
        )
    }

    /// Whether 10~, alone, answers Stored for bytes that it has accepted before.
    fn has_stored(&mut self, case: &Case) -> Result<bool, Fail> {
        let step = self.insert(&[], case)?;
        Ok(!step.accepted && matches!(step.what, InsertWhat::Stored { .. }))
    }

    fn collides(&mut self, case: &Case) -> Result<bool, Fail> {
        let step = self.insert(&[], case)?;
        Ok(!step.accepted && matches!(step.what, InsertWhat::Collision))
    }

    fn is_gone(&mut self, case: &Case) -> Result<bool, Fail> {
        Ok(matches!(self.insert(&[], case)?.what, InsertWhat::Gone))
    }

    fn is_full(&mut self, firsts: &[u8], case: &Case) -> Result<bool, Fail> {
        Ok(matches!(self.insert(firsts, case)?.what, InsertWhat::Full))
    }

    /// How many leaves 10~ says it knows, where these are too few.
    fn too_few(&mut self, firsts: &[u8], case: &Case) -> Result<Option<u64>, Fail> {
        match self.insert(firsts, case)?.what {
            InsertWhat::TooFew { known } => Ok(Some(u64::from(known))),
            _ => Ok(None),
        }
    }

    /// Whether 10~ asks these for replicas.
    fn asks(&mut self, firsts: &[u8], case: &Case, targets: &[Id]) -> Result<bool, Fail> {
        let step = self.insert(firsts, case)?;
        Ok(
            matches!(&step.what, InsertWhat::Replicate { targets: found } if found.as_slice() == targets),
        )
    }

    fn reclaim(&mut self, first: u8) -> Result<ReclaimWhat, Fail> {
        Ok(
            self.past
                .on_reclaim(self.alloc, &mut self.store, file(first))?
                .what,
        )
    }

    /// Whether an acknowledgement of 20~ by this node answers nothing.
    fn ignores(&mut self, from: u8, number: u64) -> Result<bool, Fail> {
        let holders = self
            .past
            .on_ack(self.alloc, id(from), id(0xe0), number, file(0x20))?;
        Ok(holders.is_none())
    }

    /// Whether an acknowledgement of 20~ by this node is the last, and these hold the file.
    fn completes(&mut self, from: u8, number: u64, holders: &[Id]) -> Result<bool, Fail> {
        let found = self
            .past
            .on_ack(self.alloc, id(from), id(0xe0), number, file(0x20))?;
        Ok(matches!(&found, Some(found) if found.as_slice() == holders))
    }

    /// Whether a reclaim of 20~ ends these inserts, in this order.
    fn reclaim_ends(&mut self, ended: &[(Id, u64)]) -> Result<bool, Fail> {
        let step = self
            .past
            .on_reclaim(self.alloc, &mut self.store, file(0x20))?;
        Ok(step.ended.as_slice() == ended)
    }

    /// Whether the replica is held from now on.
    fn holds(&mut self, bytes: &[u8]) -> Result<bool, Fail> {
        let bytes = Bytes::copy_of(self.alloc, bytes)?;
        Ok(on_replicate(self.alloc, &mut self.store, file(1), &bytes)?)
    }
}

#[test]
fn the_root_alone(rt: HostRuntime) -> Result<(), Fail> {
    let mut root = Root::new(rt.alloc());
    assert!(rt; root.stores(&of_20(1, 1, b"a"))?);
    assert!(rt; root.has_stored(&of_20(2, 1, b"a"))?);
    assert!(rt; root.collides(&of_20(3, 2, b"b"))?);
    assert!(rt; root.too_few(&[0x40], &of_20(4, 3, b"a"))? == Some(1));
    assert!(rt; root.reclaim(0x20)? == ReclaimWhat::Reclaimed);
    assert!(rt; root.is_gone(&of_20(5, 3, b"b"))?);
    assert!(rt; root.reclaim(0x20)? == ReclaimWhat::Already);
    assert!(rt; root.reclaim(0x21)? == ReclaimWhat::NotFound);
    Ok(())
}

// From 2000~ the nearest of the three is 30~, then 40~; 10~ itself is the root.
#[test]
fn two_replicas(rt: HostRuntime) -> Result<(), Fail> {
    let mut root = Root::new(rt.alloc());
    assert!(rt;
        root.asks(
            &[0x40, 0xf0, 0x30],
            &of_20(7, 3, b"a"),
            &[id(0x30), id(0x40)]
        )?
    );
    assert!(rt; root.ignores(0x40, 8)?);
    assert!(rt; root.ignores(0xf0, 7)?);
    assert!(rt; root.ignores(0x40, 7)?);
    assert!(rt; root.ignores(0x40, 7)?);
    let copy = root.past.copy(root.alloc)?;
    assert!(rt; root.completes(0x30, 7, &[id(0x30), id(0x40)])?);
    assert!(rt; root.past.as_slice().is_empty() && copy.as_slice().len() == 1);
    Ok(())
}

#[test]
fn a_repeated_insert_stands_last(rt: HostRuntime) -> Result<(), Fail> {
    let mut root = Root::new(rt.alloc());
    for number in [1, 2, 1] {
        root.insert(&[0x30], &of_20(number, 2, b"a"))?;
    }
    root.insert(
        &[0x30],
        &Case {
            number: 3,
            first: 0x60,
            copies: 2,
            bytes: b"a",
        },
    )?;
    let mut copy = root.past.copy(root.alloc)?;
    assert!(rt; root.reclaim_ends(&[(id(0xe0), 2), (id(0xe0), 1)])?);
    assert!(rt; root.past.as_slice().len() == 1);
    assert!(rt; leaves_one(rt.alloc(), &mut copy)?);
    assert!(rt; copy.as_slice().len() == 2);
    Ok(())
}

/// Whether 10~, with the joiner 50~ in its gap, ends the insert of 60~ and no other. Half way from 10~ to f0~ is 80~, and half way
/// to the joiner is 30~: 20~ stays with 10~, and 60~ is in the gap.
fn leaves_one(alloc: Global, past: &mut Past) -> Result<bool, Fail> {
    let reach = Reach {
        me: id(0x10),
        left: id(0xe0),
        right: id(0xf0),
        left_joiner: None,
        right_joiner: Some(id(0x50)),
    };
    let ended = past.leave_gap(alloc, &reach, id(0x50))?;
    Ok(ended.as_slice() == [(id(0xe0), 3)].as_slice())
}

#[test]
fn replicas_are_held_once(rt: HostRuntime) -> Result<(), Fail> {
    let mut root = Root::new(rt.alloc());
    assert!(rt; root.holds(b"a")?);
    assert!(rt; root.holds(b"a")?);
    assert!(rt; !root.holds(b"b")?);
    assert!(rt; root.store.bury(root.alloc, file(1))? == Bury::Buried);
    assert!(rt; !root.holds(b"a")?);
    assert!(rt; root.store.count() == 0);
    Ok(())
}

// With 4,096 entries an insert of a new file is refused by TooFew first, then by Full.
#[test]
fn a_full_store(rt: HostRuntime) -> Result<(), Fail> {
    let mut root = Root::new(rt.alloc());
    fill(root.alloc, &mut root.store)?;
    assert!(rt; root.store.entries() == 4096);
    let case = Case {
        number: 1,
        first: 0x80,
        copies: 2,
        bytes: b"a",
    };
    assert!(rt; root.too_few(&[], &case)? == Some(0));
    assert!(rt; root.is_full(&[0x30], &case)?);
    assert!(rt; root.past.as_slice().is_empty());
    Ok(())
}

/// Buries 4,096 files.
fn fill(alloc: Global, store: &mut FileStore) -> Result<(), Fail> {
    for high in 0..64u8 {
        for low in 0..64u8 {
            let mut bytes = [0; 20];
            bytes[0] = high;
            bytes[1] = low;
            store.bury(alloc, FileId(bytes))?;
        }
    }
    Ok(())
}
