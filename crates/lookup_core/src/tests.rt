use super::*;
use coverage::{Hop, Reach};
use ring_math::{Id, OutOfMemory};
use std::alloc::Global;
use std::test::Fail;

/// The identifier with these two leading digits, and zeros behind them.
fn at(leading: u8) -> Id {
    Id((leading as u128) << 120)
}

/// The node of these tests.
const ME: Id = Id(0x12 << 120);

fn after(distance: u128) -> Id {
    Id(ME.0.wrapping_add(distance))
}

fn before(distance: u128) -> Id {
    Id(ME.0.wrapping_sub(distance))
}

/// In a small ring each key is in leaf range. Of two leaves at one distance the one counterclockwise of the key is named.
#[test]
fn small_ring(rt: HostRuntime) -> Result<(), Fail> {
    let mut known = Knowledge::new(rt.alloc(), ME)?;
    known.learn_all(&[at(0x40), at(0xc0)]);
    let reach = Reach {
        me: ME,
        left: at(0xc0),
        right: at(0x40),
        left_joiner: None,
        right_joiner: Some(at(0x30)),
    };
    assert_eq!(rt; next_hop(&reach, &known, at(0x13)), Hop::Here);
    assert_eq!(rt; next_hop(&reach, &known, at(0x28)), Hop::Gap(at(0x30)));
    assert_eq!(rt; next_hop(&reach, &known, at(0x3f)), Hop::To(at(0x40)));
    assert_eq!(rt; next_hop(&reach, &known, at(0x80)), Hop::To(at(0x40)));
    assert_eq!(rt; next_hop(&reach, &known, at(0x81)), Hop::To(at(0xc0)));
    Ok(())
}

/// With full sides a key that is far goes by the table: to the entry of its next digit, or to the nearest that is better.
#[test]
fn full_sides(rt: HostRuntime) -> Result<(), Fail> {
    let mut known = Knowledge::new(rt.alloc(), ME)?;
    known.learn_all(&[
        after(1),
        after(2),
        after(3),
        after(4),
        after(5),
        after(6),
        after(7),
        after(8),
    ]);
    known.learn_all(&[
        before(1),
        before(2),
        before(3),
        before(4),
        before(5),
        before(6),
        before(7),
        before(8),
    ]);
    known.learn_all(&[at(0x85), at(0x8f), at(0x90), at(0x2f), ME, at(0x85)]);
    let reach = Reach {
        me: ME,
        left: before(1),
        right: after(1),
        left_joiner: None,
        right_joiner: None,
    };
    assert_eq!(rt; next_hop(&reach, &known, after(6)), Hop::To(after(6)));
    assert_eq!(rt; next_hop(&reach, &known, at(0x88)), Hop::To(at(0x85)));
    assert_eq!(rt; next_hop(&reach, &known, at(0x70)), Hop::To(at(0x85)));
    assert_eq!(rt; next_hop(&reach, &known, at(0x20)), Hop::To(after(8)));
    Ok(())
}

/// Six identifiers in each of 16 clusters over the circle, but the first 16 of them on both sides of the node.
fn clusters() -> [Id; 96] {
    let mut ids = [at(0x12); 96];
    for i in 0..96usize {
        let spread = (i as u128 + 1).wrapping_mul(0x9e3779b97f4a7c15);
        let cluster = (i / 6) as u128;
        ids[i] = if i < 8 {
            after(spread)
        } else if i < 16 {
            before(spread)
        } else {
            Id((cluster << 124).wrapping_add(spread << 40))
        };
    }
    ids
}

/// 96 identifiers at one distance from each other, the node's half-way between two of them.
fn spaced() -> [Id; 96] {
    let mut ids = [ME; 96];
    for i in 0..96usize {
        let place = (i as u128).wrapping_mul(u128::MAX / 96);
        ids[i] = Id(ME.0.wrapping_add(u128::MAX / 192).wrapping_add(place));
    }
    ids
}

/// 96 identifiers on both sides of zero, the nearer ones closer together.
fn around_zero() -> [Id; 96] {
    let mut ids = [ME; 96];
    for i in 0..96usize {
        let far = 1 << (i + 4);
        ids[i] = Id(if i % 2 == 0 { far } else { u128::MAX - far });
    }
    ids
}

/// Keys over the whole circle, and beside each identifier of a list.
fn key(ids: &[Id; 96], i: usize) -> Id {
    if i < 96 {
        let id = ids[i];
        Id(id.0.wrapping_add(1 << 60))
    } else {
        Id((i as u128).wrapping_mul(0x9e3779b97f4a7c15f39cc0605cedc835))
    }
}

/// Whether the arrays and the list name the same next hop of each of 160 keys.
fn agree(alloc: Global, me: Id, ids: &[Id; 96]) -> Result<bool, OutOfMemory> {
    let mut known = Knowledge::new(alloc, me)?;
    known.learn_all(ids);
    let reach = Reach {
        me,
        left: known.leafs().left(0).unwrap_or(me),
        right: known.leafs().right(0).unwrap_or(me),
        left_joiner: None,
        right_joiner: None,
    };
    for i in 0..160usize {
        let key = key(ids, i);
        if next_hop(&reach, &known, key) != slow::next_hop(alloc, &reach, ids, key)? {
            return Ok(false);
        }
    }
    Ok(true)
}

#[test]
fn arrays_and_list_agree(rt: HostRuntime) -> Result<(), Fail> {
    assert!(rt; agree(rt.alloc(), ME, &clusters())?);
    assert!(rt; agree(rt.alloc(), ME, &spaced())?);
    assert!(rt; agree(rt.alloc(), Id(0), &around_zero())?);
    assert!(rt; agree(rt.alloc(), Id(u128::MAX), &around_zero())?);
    Ok(())
}
