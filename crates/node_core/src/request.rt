//! A routed request: served once, whatever it asks for.

ghost use Rattle.std.specs.Prelude.{◌≡◌, IfOk, [], ◌∷◌};
ghost use Rattle.wire_msg.specs.Words.{plain};
ghost use Rattle.overlay_rules.specs.State.{State};
ghost use Rattle.overlay_rules.specs.Outcome.{becomes, sent, replied as replied_of};
ghost use Rattle.node_parts.specs.declared.change.Wait.TheVariants as waiting;
ghost use Rattle.node_parts.specs.Change.{waited};
ghost use Rattle.node_parts.specs.Plans.{Plans};
ghost use Rattle.node_core.specs.declared.request.Request.{Request as PlainRequest};
ghost use Rattle.node_core.specs.Served.{IsServed};

use node_parts::{Change, Node, Prepared, Wait};
use overlay_rules::{Asked, Way};
use ring_math::{Id, OutOfMemory};
use std::alloc::Global;
use wire_msg::{Message, Reply};

/// Whose request it is, and what is to be done with its number at the node that it is at.
#[derive(Clone, Copy, Debug, PartialEq, Eq)]
pub(crate) struct Request {
    pub(crate) origin: Id,
    pub(crate) number: u64,
    pub(crate) wait: Wait,
}

/// What becomes of a request.
#[derive(Drop)]
pub(crate) enum Served {
    /// The node covers the key, and is to answer.
    Here,
    /// It is to be passed on to this node.
    On { node: Id },
    /// It is refused with this reply.
    Refused { reply: Reply },
}

/// What becomes of a request for a key: a node that is not ready refuses it, and so does one that keeps the key for a joiner.
pub(crate) fn routed(node: &Node, key: Id) -> Served
    ensures { (request : PlainRequest) → IsServed node.now request key result }
{
    match node.way(key) {
        Way::Here => Served::Here,
        Way::To { node } => Served::On { node },
        Way::NotReady => Served::Refused {
            reply: Reply::NotReady { node: node.me },
        },
        Way::Gap { joiner } => Served::Refused {
            reply: Reply::Busy {
                node: node.me,
                joiner,
            },
        },
    }
}

impl Request {
    /// A request that came as a message.
    pub(crate) fn on_its_way(origin: Id, number: u64) -> Request
        ensures { result ≡ record { origin = origin; number = number; wait = waiting.Keep } }
    {
        Request {
            origin,
            number,
            wait: Wait::Keep,
        }
    }

    /// A command of the node's own user: its number waits for the reply.
    pub(crate) fn own(origin: Id, number: u64) -> Request
        ensures { result ≡ record { origin = origin; number = number; wait = waiting.Add number } }
    {
        Request {
            origin,
            number,
            wait: Wait::Add { number },
        }
    }

    /// The request is replied.
    pub(crate) fn replied(
        &self,
        alloc: Global,
        what: Asked,
        reply: Reply,
    ) -> Result<Prepared, OutOfMemory>
        ensures { (s : State) → IfOk result (λ p. Plans s p (replied_of (waited self.now.wait s) what self.now.origin self.now.number reply)) }
    {
        let change = Change::waits(self.wait);
        Prepared::replied(alloc, change, what, self.origin, self.number, reply)
    }

    /// The request is passed on to this node, as this message.
    #[inline(always)]
    pub(crate) fn passed_on(
        &self,
        alloc: Global,
        next: Id,
        message: Message,
    ) -> Result<Prepared, OutOfMemory>
        ensures { (s : State) → IfOk result (λ p. Plans s p (becomes (waited self.now.wait s) (sent next (plain message) ∷ []) [])) }
    {
        Prepared::sending(alloc, Change::waits(self.wait), next, message)
    }
}
