use super::*;

/// A node close behind zero, so that its left side lies across it.
const ME: Id = Id(5);

/// The identifier so far clockwise of the node.
fn after(distance: u128) -> Id {
    Id(ME.0.wrapping_add(distance))
}

/// The identifier so far counterclockwise of the node.
fn before(distance: u128) -> Id {
    Id(ME.0.wrapping_sub(distance))
}

/// Twelve are learnt on each side, the farthest first, each twice.
#[test]
fn nearest_eight_of_each_side(rt: HostRuntime) {
    let mut leafs = LeafSet::new(ME);
    for i in 0..12usize {
        let far = 12 - i as u128;
        assert!(rt; leafs.learn(after(10 * far)));
        assert!(rt; leafs.learn(before(20 * far)));
        assert!(rt; !leafs.learn(after(10 * far)));
    }
    for n in 0..8usize {
        assert_eq!(rt; leafs.right(n), Some(after(10 * (n as u128 + 1))));
        assert_eq!(rt; leafs.left(n), Some(before(20 * (n as u128 + 1))));
    }
    assert_eq!(rt; leafs.right(8), None);
    assert_eq!(rt; leafs.left(8), None);
    assert_eq!(rt; leafs.count(), 16);
}

/// An identifier that left a side doesn't come back to it.
#[test]
fn range_and_those_that_left(rt: HostRuntime) {
    let mut leafs = LeafSet::new(ME);
    assert!(rt; leafs.in_range(after(1 << 127)));
    for i in 0..9usize {
        let far = 90 - 10 * i as u128;
        assert!(rt; leafs.learn(after(far)));
        assert!(rt; leafs.learn(before(far)));
    }
    assert!(rt; leafs.in_range(after(80)));
    assert!(rt; !leafs.in_range(after(81)));
    assert!(rt; leafs.in_range(before(80)));
    assert!(rt; !leafs.in_range(before(81)));
    assert!(rt; !leafs.learn(after(90)));
    assert_eq!(rt; leafs.right(7), Some(after(80)));
    assert!(rt; !leafs.learn(ME));
}

/// In a small ring each node stands on both sides, and is said once.
#[test]
fn leaf_order_of_a_small_ring(rt: HostRuntime) {
    let mut leafs = LeafSet::new(ME);
    assert_eq!(rt; leafs.nearest(ME), None);
    assert!(rt; leafs.learn(before(1)));
    assert!(rt; leafs.learn(after(7)));
    assert!(rt; leafs.learn(after(3)));
    assert_eq!(rt; leafs.count(), 3);
    assert_eq!(rt; leafs.left(0), Some(before(1)));
    assert_eq!(rt; leafs.left(1), Some(after(7)));
    let mut out = IdsBuilder::new();
    assert!(rt; out.push(ME));
    leafs.copy_to(&mut out);
    let order = [ME, after(3), after(7), before(1)];
    assert!(rt; out.as_slice() == order.as_slice());
    assert_eq!(rt; leafs.nearest(after(5)), Some(after(3)));
    assert_eq!(rt; leafs.nearest(after(6)), Some(after(7)));
    assert_eq!(rt; leafs.best(after(6), 0, after(7)), None);
    assert_eq!(rt; leafs.best(after(6), 0, ME), Some(after(7)));
}
