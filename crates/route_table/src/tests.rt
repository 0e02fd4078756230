use super::*;
use std::test::Fail;

/// The identifier with these two leading digits, and zeros behind them.
fn at(leading: u8) -> Id {
    Id((leading as u128) << 120)
}

/// The first that belongs to an entry stays there.
#[test]
fn first_of_an_entry_stays(rt: HostRuntime) -> Result<(), Fail> {
    let mut table = RouteTable::new(rt.alloc(), at(0x12))?;
    assert!(rt; table.learn(at(0x34)));
    assert!(rt; !table.learn(at(0x35)));
    assert!(rt; table.learn(at(0x13)));
    assert!(rt; !table.learn(at(0x12)));
    assert_eq!(rt; table.entry(0, 3), Some(at(0x34)));
    assert_eq!(rt; table.entry(1, 3), Some(at(0x13)));
    assert_eq!(rt; table.entry(1, 2), None);
    Ok(())
}

/// An entry is named where it shares enough digits with the key and is nearer than another.
#[test]
fn best_of_three(rt: HostRuntime) -> Result<(), Fail> {
    let mut table = RouteTable::new(rt.alloc(), at(0x12))?;
    assert_eq!(rt; table.best(at(0x38), 0, at(0x12)), None);
    assert!(rt; table.learn(at(0x34)));
    assert!(rt; table.learn(at(0x41)));
    assert!(rt; table.learn(at(0x52)));
    let copy = table.copy(rt.alloc())?;
    assert_eq!(rt; copy.best(at(0x3f), 0, at(0x12)), Some(at(0x41)));
    assert_eq!(rt; copy.best(at(0x3f), 1, at(0x12)), Some(at(0x34)));
    assert_eq!(rt; copy.best(at(0x3f), 2, at(0x12)), None);
    assert_eq!(rt; copy.best(at(0x3f), 0, at(0x41)), None);
    Ok(())
}
