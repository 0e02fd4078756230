//! The rule of one mailbox, and the steps that keep it. None of these types has values.

use crate::hand::Hand;
use crossbeam_queue::RuledSegQueue;
use crossbeam_queue::protocol::{Join, Lesson, Outcome, Protocol, Split};
use wire_msg::Frame;

/// The queue under a mailbox. Nothing is put into it or taken from it but by steps that keep the rule.
pub(crate) type Queue = RuledSegQueue<Frame, Hand, Rule>;

pub(crate) struct Rule;

impl Protocol<Frame, Hand> for Rule {
    ghost use Rattle.std.specs.Prelude.{[]};
    ghost use Rattle.node_mailbox.specs.Rule.{hand, KeepsRule};
    ghost use Rattle.node_mailbox.specs.declared.limits.TheConstants.{ALL_PARTS};

    ghost holds = { λ queue hands. KeepsRule queue hands };

    ghost first = { hand ALL_PARTS [] [] };
}

/// The frame goes to the back of the queue and to the end of the put list.
pub(crate) struct Push;

impl Outcome<Frame, Hand> for Push {
    ghost use Rattle.std.specs.Prelude.{◌≡◌};
    ghost use Rattle.node_mailbox.specs.Rule.{pushed};

    ghost then = { λ v x w. w ≡ pushed v x };
}

/// The front of the queue goes to the end of the taken list.
pub(crate) struct Pop;

impl Outcome<Frame, Hand> for Pop {
    ghost use Rattle.std.specs.Prelude.{◌≡◌};
    ghost use Rattle.node_mailbox.specs.Rule.{popped, KnowsTaken};

    ghost then = { λ v x w. (w ≡ popped v x) × KnowsTaken w };
}

impl Lesson<Frame, Hand> for Pop {
    ghost use Rattle.node_mailbox.specs.Rule.{KnowsQueue};

    ghost fact = { λ v queue. KnowsQueue v queue };
}

/// Parts are split off and joined.
pub(crate) struct Parts;

impl Split<Hand> for Parts {
    ghost use Rattle.std.specs.Prelude.{[]};
    ghost use Rattle.node_mailbox.specs.Rule.{hand, one_less};

    ghost left = { λ v. one_less v };

    ghost right = { λ v. hand 1 [] [] };
}

impl Join<Hand> for Parts {
    ghost use Rattle.std.specs.Prelude.{[]};
    ghost use Rattle.node_mailbox.specs.Rule.{hand, joined};

    ghost both = { λ v w. joined v w };

    ghost spent = { hand 0 [] [] };
}
