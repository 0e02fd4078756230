use super::*;

/// The identifier with these two leading digits, and zeros behind them.
fn at(leading: u8) -> Id {
    Id((leading as u128) << 120)
}

/// A joiner between a node and its right link takes part of that arc.
#[test]
fn joiner_takes_part_of_an_arc(rt: HostRuntime) {
    let reach = Reach {
        me: at(0x00),
        left: at(0x90),
        right: at(0x80),
        left_joiner: None,
        right_joiner: Some(at(0x40)),
    };
    assert!(rt; !covers(&reach, at(0x30)));
    assert!(rt; covers(&reach, at(0x20)));
    assert!(rt; !covers(&reach, at(0x40)));
    assert_eq!(rt; gap(&reach, at(0x20)), None);
    assert_eq!(rt; gap(&reach, at(0x30)), Some(at(0x40)));
    assert_eq!(rt; gap(&reach, at(0x40)), Some(at(0x40)));
    assert_eq!(rt; gap(&reach, at(0x41)), None);
    assert!(rt; is_in_gap(&reach, at(0x40), at(0x30)));
    assert!(rt; !is_in_gap(&reach, at(0x50), at(0x30)));
}

/// Of two nodes on the two halves of the circle, each covers the half-way point clockwise of it.
#[test]
fn half_way_points(rt: HostRuntime) {
    let a = Reach {
        me: at(0x00),
        left: at(0x80),
        right: at(0x80),
        left_joiner: None,
        right_joiner: None,
    };
    assert!(rt; covers(&a, at(0x40)));
    assert!(rt; !covers(&a, at(0xc0)));
}

#[test]
fn first_nearest_place(rt: HostRuntime) {
    assert_eq!(rt; closest_of(&[], at(0x20)), None);
    assert_eq!(rt; closest_of(&[at(0x30), at(0x10)], at(0x20)), Some(1));
    assert_eq!(rt;
        closest_of(&[at(0x90), at(0x10), at(0x10)], at(0x20)),
        Some(1)
    );
}
