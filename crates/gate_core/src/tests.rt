use super::*;
use ring_math::Id;

/// The identifier with these two leading digits, and zeros behind them.
fn at(leading: u8) -> Id {
    Id((leading as u128) << 120)
}

/// 10~ between 90~ and 90~, where nobody joins.
fn pair() -> Links {
    Links {
        left: at(0x90),
        right: at(0x90),
        left_gate: None,
        right_gate: None,
    }
}

#[test]
fn one_joiner_on_each_side(rt: HostRuntime) {
    let mut links = pair();
    let me = at(0x10);
    assert_eq!(rt; links.ask(me, at(0x30), 1, me, at(0x90)), Verdict::Grant);
    assert_eq!(rt; links.ask(me, at(0x30), 1, me, at(0x90)), Verdict::Again);
    let busy = Verdict::Busy { joiner: at(0x30) };
    assert_eq!(rt; links.ask(me, at(0x50), 1, me, at(0x90)), busy);
    let gate = Gate {
        joiner: at(0xe0),
        attempt: 1,
        left: at(0x90),
        right: me,
    };
    assert_eq!(rt; links.ask_for(me, &gate), Verdict::Grant);
    let reach = links.reach(me);
    assert_eq!(rt; reach.left_joiner, Some(at(0xe0)));
    assert_eq!(rt; reach.right_joiner, Some(at(0x30)));
}

#[test]
fn a_joiner_becomes_the_link(rt: HostRuntime) {
    let mut links = pair();
    let me = at(0x10);
    links.ask(me, at(0x30), 1, me, at(0x90));
    links.ask(me, at(0xe0), 1, at(0x90), me);
    assert!(rt; !links.release(at(0x30), 2));
    assert!(rt; links.confirm(me, at(0x30), 1));
    assert_eq!(rt; links.right, at(0x30));
    assert_eq!(rt; links.left, at(0x90));
    let moved = Verdict::Moved {
        left: at(0x90),
        right: at(0x30),
    };
    assert_eq!(rt; links.ask(me, at(0x30), 1, me, at(0x90)), moved);
    assert_eq!(rt; links.reach(me).left_joiner, Some(at(0xe0)));
}

/// A newer attempt takes the joiner's older gate away, though it asks for the other side.
#[test]
fn an_older_gate_goes(rt: HostRuntime) {
    let mut links = pair();
    let me = at(0x10);
    links.ask(me, at(0x30), 1, me, at(0x90));
    assert_eq!(rt;
        links.ask(me, at(0xe0), 1, me, at(0x90)),
        Verdict::Busy { joiner: at(0x30) }
    );
    assert_eq!(rt;
        links.weigh(me, at(0x30), 2, at(0x90), me),
        Verdict::Moved {
            left: at(0x90),
            right: at(0x90)
        }
    );
    links.ask(me, at(0x30), 2, at(0x90), me);
    assert_eq!(rt; links, pair());
}
