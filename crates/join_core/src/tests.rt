use super::*;
use ring_math::{Id, Ids, IdsBuilder};
use std::alloc::Global;
use std::test::Fail;

/// The identifier that begins with this byte.
fn id(first: u8) -> Id {
    Id(u128::from(first) << 120)
}

fn list(alloc: Global, firsts: &[u8]) -> Result<Ids, Fail> {
    let mut ids = IdsBuilder::new();
    for first in firsts {
        ids.push(id(*first));
    }
    Ok(ids.finish(alloc)?)
}

/// It has joined between 30~ and 50~ as far as their leases, by attempt 1 and command 7.
fn leasing(alloc: Global) -> Result<Joiner, Fail> {
    let mut joiner = Joiner::Waiting { attempt: 1 };
    joiner.begin(7);
    joiner.on_reply(alloc, 1, &list(alloc, &[0x30])?)?;
    joiner.on_probe_reply(
        alloc,
        id(0x30),
        1,
        &list(alloc, &[0x50, 0x30])?,
        id(0x30),
        id(0x50),
    )?;
    joiner.on_probe_reply(
        alloc,
        id(0x50),
        1,
        &list(alloc, &[0x50, 0x30])?,
        id(0x30),
        id(0x50),
    )?;
    Ok(joiner)
}

#[test]
fn the_last_attempt_is_not_begun(rt: HostRuntime) {
    let mut spent = Joiner::Waiting { attempt: u32::MAX };
    assert_eq!(rt; spent.begin(7), Begin::Spent);
    assert_eq!(rt; spent.attempt(), u32::MAX);
    let mut last = Joiner::Waiting {
        attempt: u32::MAX - 1,
    };
    assert_eq!(rt;
        last.begin(7),
        Begin::Started {
            attempt: u32::MAX - 1
        }
    );
    assert_eq!(rt; last.begin(8), Begin::Already);
}

#[test]
fn the_last_join_is_given_up(rt: HostRuntime) {
    let mut joiner = Joiner::Waiting {
        attempt: u32::MAX - 1,
    };
    assert_eq!(rt; joiner.give_up(), None);
    joiner.begin(7);
    let halted = Halted {
        attempt: u32::MAX - 1,
        number: 7,
        neighbours: None,
    };
    assert_eq!(rt; joiner.give_up(), Some(halted));
    assert_eq!(rt; joiner.begin(8), Begin::Spent);
}

// The reply tells of 30~; 30~ tells of 50~, which is probed too.
#[test]
fn a_leaf_that_a_reply_tells_of_is_probed_too(rt: HostRuntime) -> Result<(), Fail> {
    let alloc = rt.alloc();
    let mut joiner = Joiner::Waiting { attempt: 1 };
    joiner.begin(7);
    assert!(rt; joiner.on_reply(alloc, 2, &list(alloc, &[0x30])?)?.is_none());
    assert!(rt; joiner.on_reply(alloc, 1, &list(alloc, &[])?)?.is_none());
    assert!(rt; joiner.is_asking(1) && !joiner.is_asking(2) && !joiner.awaits(id(0x30), 1));
    let probes = joiner.on_reply(alloc, 1, &list(alloc, &[0x30])?)?;
    assert!(rt; joiner.awaits(id(0x30), 1) && !joiner.awaits(id(0x50), 1) && !joiner.is_asking(1));
    assert!(rt; probes.is_some_and(|probes| probes.as_slice() == [id(0x30)].as_slice()));
    let leafs = list(alloc, &[0x50, 0x30])?;
    match joiner.on_probe_reply(alloc, id(0x30), 1, &leafs, id(0x30), id(0x50))? {
        ProbeStep::Probe { more } => assert_eq!(rt; more.as_slice(), [id(0x50)].as_slice()),
        _ => return Err(Fail::from("50~ is to be probed")),
    }
    Ok(())
}

// 30~ and 50~ are probed: after an answer of 30~ it only goes on if no other leaf is named, after one of 50~ then no more.
#[test]
fn it_goes_on_while_another_is_awaited(rt: HostRuntime) -> Result<(), Fail> {
    let alloc = rt.alloc();
    let mut joiner = Joiner::Waiting { attempt: 1 };
    joiner.begin(7);
    assert!(rt; !joiner.goes_on_with(id(0x30), &[], &[]));
    let right = [id(0x50)];
    let left = [id(0x30), id(0x50)];
    joiner.on_reply(alloc, 1, &list(alloc, &[0x50, 0x30])?)?;
    assert!(rt;
        joiner.goes_on_with(id(0x30), &right, &left) && joiner.goes_on_with(id(0x50), &right, &left)
    );
    assert!(rt; !joiner.goes_on_with(id(0x30), &right, &[id(0x40), id(0x30)]));
    assert!(rt; !joiner.goes_on_with(id(0x30), &[id(0x50), id(0x40)], &left));
    joiner.hear(id(0x30));
    assert!(rt; !joiner.awaits(id(0x30), 1) && joiner.awaits(id(0x50), 1));
    assert!(rt; !joiner.goes_on_with(id(0x50), &right, &left));
    Ok(())
}

#[test]
fn both_leases_make_it_ready(rt: HostRuntime) -> Result<(), Fail> {
    let mut joiner = leasing(rt.alloc())?;
    assert_eq!(rt; joiner.on_grant(id(0x30), 0), GrantStep::Older);
    assert_eq!(rt; joiner.on_grant(id(0x30), 2), GrantStep::Dropped);
    assert_eq!(rt; joiner.on_grant(id(0x40), 1), GrantStep::Dropped);
    assert_eq!(rt; joiner.on_grant(id(0x30), 1), GrantStep::Noted);
    assert!(rt; !joiner.granted());
    assert_eq!(rt; joiner.finish(), None);
    assert_eq!(rt; joiner.on_grant(id(0x50), 1), GrantStep::Noted);
    let finished = Finished {
        attempt: 1,
        number: 7,
        left: id(0x30),
        right: id(0x50),
    };
    assert_eq!(rt; joiner.finish(), Some(finished));
    assert_eq!(rt; joiner.on_grant(id(0x30), 1), GrantStep::Settled);
    Ok(())
}

#[test]
fn a_denied_lease_ends_the_join(rt: HostRuntime) -> Result<(), Fail> {
    let mut joiner = leasing(rt.alloc())?;
    let mut copy = joiner.copy(rt.alloc())?;
    assert_eq!(rt; joiner.on_refuse(1), None);
    assert_eq!(rt; joiner.on_deny(0), None);
    let halted = Halted {
        attempt: 1,
        number: 7,
        neighbours: Some((id(0x30), id(0x50))),
    };
    assert_eq!(rt; joiner.on_deny(1), Some(halted));
    assert_eq!(rt; joiner.begin(9), Begin::Started { attempt: 2 });
    assert_eq!(rt; copy.on_grant(id(0x30), 1), GrantStep::Noted);
    Ok(())
}
