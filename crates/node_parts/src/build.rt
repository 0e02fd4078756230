//! Outcomes that many rows share: what is sent and noted beside a change. What most steps call is inlined, for the reason that
//! `Sends::one` is.

ghost use Rattle.std.specs.Prelude.{◌≡◌, IfOk, OnOk, [], ◌∷◌, ◌++◌};
ghost use Rattle.ring_math.specs.Sides.{learn as learn_of, learn_all};
ghost use Rattle.overlay_rules.specs.State.{State};
ghost use Rattle.overlay_rules.specs.Outcome.{nothing, becomes, sent, before, to_both, to_each, replied as replied_of, reply_message};
ghost use Rattle.overlay_rules.specs.Routed.{one_more as one_more_of};
ghost use Rattle.wire_msg.specs.Words.{plain};
ghost use Rattle.wire_msg.specs.declared.note.Note.TheVariants as note;
ghost use Rattle.wire_msg.specs.declared.reply.Reply.TheVariants as reply;
ghost use Rattle.node_parts.specs.Change.{changed, parts_changed, waited, phase_after, known_after, files_after, pending_after, gate_after};
ghost use Rattle.node_parts.specs.Plans.{Plans};
ghost use Rattle.node_parts.specs.Seats.{phase_to, heard_phase, granted_phase};

use crate::change::{
    Change, GateChange, Learn, Parts, PastChange, Prepared, Rest, SeatChange, StoreChange, Wait,
};
use join_core::Joiner;
use overlay_rules::Asked;
use replica_handover::Taking;
use ring_math::{Id, Ids, OutOfMemory};
use std::alloc::Global;
use wire_msg::{Answer, MOST_HOPS, Message, Note, Notes, Outgoing, Reply, Sends};

impl Change {
    /// Nothing but what waits.
    pub fn waits(waiting: Wait) -> Change
        ensures { (s : State) → changed result s ≡ waited waiting s }
    {
        Change {
            rest: Rest::Keep,
            waiting,
        }
    }

    /// Nothing at all.
    pub fn nothing() -> Change
        ensures { (s : State) → changed result s ≡ s }
    {
        Change::waits(Wait::Keep)
    }

    /// This node is learnt.
    pub fn learns(id: Id) -> Change
        ensures { (s : State) → changed result s ≡ record s { known = learn_of s.me s.known id } }
    {
        Change {
            rest: Rest::Learnt(id),
            waiting: Wait::Keep,
        }
    }

    /// A join that probes goes on: the sender has answered.
    pub fn answered(sender: Id) -> Change
        ensures { (s : State) → changed result s ≡ record s { phase = heard_phase sender s.phase } }
    {
        Change {
            rest: Rest::Answered { sender },
            waiting: Wait::Keep,
        }
    }

    /// A join that probes goes on: the sender has answered, and these are learnt.
    pub fn hears(sender: Id, learnt: Ids) -> Change
        ensures { (s : State) → changed result s ≡ record s { phase = heard_phase sender s.phase; known = learn_all s.me s.known learnt } }
    {
        Change {
            rest: Rest::Heard { sender, learnt },
            waiting: Wait::Keep,
        }
    }

    /// These parts, and what waits.
    pub fn of(alloc: Global, parts: Parts, waiting: Wait) -> Result<Change, OutOfMemory>
        ensures { (s : State) → IfOk result (λ change. changed change s ≡ waited waiting (parts_changed parts s)) }
    {
        let parts = Box::new(alloc, parts)?;
        Ok(Change {
            rest: Rest::Parts(parts),
            waiting,
        })
    }

    /// The phase, and what is learnt.
    pub fn seats(alloc: Global, seat: SeatChange, learn: Learn) -> Result<Change, OutOfMemory>
        ensures { (s : State) → IfOk result (λ change. changed change s ≡ record s { phase = phase_after seat s.phase; known = known_after s.me learn s.known }) }
    {
        let parts = Parts {
            seat,
            left_gate: GateChange::Keep,
            right_gate: GateChange::Keep,
            learn,
            store: StoreChange::Keep,
            past: PastChange::Keep,
        };
        Change::of(alloc, parts, Wait::Keep)
    }

    /// The join goes on to this, and what is learnt.
    pub fn joins(alloc: Global, joiner: Joiner, learn: Learn) -> Result<Change, OutOfMemory>
        ensures { (s : State) → IfOk result (λ change. changed change s ≡ record s { phase = phase_to joiner s.phase; known = known_after s.me learn s.known }) }
    {
        let boxed = Box::new(alloc, joiner)?;
        Change::seats(alloc, SeatChange::To(boxed), learn)
    }

    /// The phase, and the files.
    pub fn seats_and_files(
        alloc: Global,
        seat: SeatChange,
        store: StoreChange,
    ) -> Result<Change, OutOfMemory>
        ensures { (s : State) → IfOk result (λ change. changed change s ≡ record s { phase = phase_after seat s.phase; files = files_after store s.files }) }
    {
        let parts = Parts {
            seat,
            left_gate: GateChange::Keep,
            right_gate: GateChange::Keep,
            learn: Learn::Nothing,
            store,
            past: PastChange::Keep,
        };
        Change::of(alloc, parts, Wait::Keep)
    }

    /// What neighbours hand over is kept, and the files.
    pub fn granted(alloc: Global, given: Taking, store: StoreChange) -> Result<Change, OutOfMemory>
        ensures { (s : State) → IfOk result (λ change. changed change s ≡ record s { phase = granted_phase given s.phase; files = files_after store s.files }) }
    {
        let boxed = Box::new(alloc, given)?;
        Change::seats_and_files(alloc, SeatChange::Granted(boxed), store)
    }

    /// The gates.
    pub fn gates(
        alloc: Global,
        left_gate: GateChange,
        right_gate: GateChange,
    ) -> Result<Change, OutOfMemory>
        ensures { (s : State) → IfOk result (λ change. changed change s
            ≡ record s { left_gate = gate_after left_gate s.left_gate; right_gate = gate_after right_gate s.right_gate }) }
    {
        let parts = Parts {
            seat: SeatChange::Keep,
            left_gate,
            right_gate,
            learn: Learn::Nothing,
            store: StoreChange::Keep,
            past: PastChange::Keep,
        };
        Change::of(alloc, parts, Wait::Keep)
    }

    /// The files, the inserts that wait, and the numbers that do.
    pub fn files(
        alloc: Global,
        store: StoreChange,
        past: PastChange,
        waiting: Wait,
    ) -> Result<Change, OutOfMemory>
        ensures { (s : State) → IfOk result (λ change. changed change s ≡ record
            (waited waiting s) { files = files_after store s.files; pending = pending_after past s.pending }) }
    {
        let parts = Parts {
            seat: SeatChange::Keep,
            left_gate: GateChange::Keep,
            right_gate: GateChange::Keep,
            learn: Learn::Nothing,
            store,
            past,
        };
        Change::of(alloc, parts, waiting)
    }
}

/// One hop more, up to [`MOST_HOPS`].
pub fn one_more(hops: u16) -> u16
    ensures { result ≡ one_more_of hops }
{
    if hops == MOST_HOPS { hops } else { hops + 1 }
}

/// The reply to a command, as a message.
#[inline(always)]
pub fn reply_in(what: Asked, number: u64, reply: Reply) -> Message
    ensures { plain result ≡ reply_message what number reply }
{
    match what {
        Asked::Lookup => Message::LookupReply { number, reply },
        Asked::Insert => Message::InsertReply { number, reply },
        Asked::Fetch => Message::FetchReply { number, reply },
        Asked::Reclaim => Message::ReclaimReply { number, reply },
    }
}

impl Prepared {
    /// Nothing is sent or noted.
    pub fn quiet(alloc: Global, change: Change) -> Prepared
        ensures { (s t : State) → changed change s ≡ t → Plans s result (nothing t) }
    {
        Prepared {
            messages: Sends::new(alloc),
            notes: Notes::new(alloc),
            change,
        }
    }

    /// One message is sent.
    #[inline(always)]
    pub fn sending(
        alloc: Global,
        change: Change,
        receiver: Id,
        message: Message,
    ) -> Result<Prepared, OutOfMemory>
        ensures { (s t : State) → changed change s ≡ t → IfOk result (λ p. Plans s p (becomes t (sent receiver (plain message) ∷ []) [])) }
    {
        Ok(Prepared {
            messages: Sends::one(alloc, Outgoing { receiver, message })?,
            notes: Notes::new(alloc),
            change,
        })
    }

    /// A command of the node itself is closed, and these are sent.
    #[inline(always)]
    pub fn closing(
        alloc: Global,
        change: Change,
        messages: Sends,
        number: u64,
        answer: Answer,
    ) -> Result<Prepared, OutOfMemory>
        ensures { (s t : State) → changed change s ≡ t → IfOk result (λ p. Plans s p (becomes t messages (note.Closed number answer ∷ []))) }
    {
        let mut notes = Notes::new(alloc);
        notes.push(Note::Closed { number, answer })?;
        Ok(Prepared {
            messages,
            notes,
            change,
        })
    }

    /// A command is replied.
    pub fn replied(
        alloc: Global,
        change: Change,
        what: Asked,
        origin: Id,
        number: u64,
        reply: Reply,
    ) -> Result<Prepared, OutOfMemory>
        ensures { (s t : State) → changed change s ≡ t → IfOk result (λ p. Plans s p (replied_of t what origin number reply)) }
    {
        let mut notes = Notes::new(alloc);
        let noted = reply.copy(alloc)?;
        notes.push(Note::Answered {
            origin,
            number,
            reply: noted,
        })?;
        let answer = Outgoing {
            receiver: origin,
            message: reply_in(what, number, reply),
        };
        Ok(Prepared {
            messages: Sends::one(alloc, answer)?,
            notes,
            change,
        })
    }

    /// A command is replied besides, behind what is sent and noted already.
    pub fn and_replied(
        self,
        alloc: Global,
        what: Asked,
        origin: Id,
        number: u64,
        reply: Reply,
    ) -> Result<Prepared, OutOfMemory>
        ensures { (s t : State) → changed self.change s ≡ t →
            IfOk result (λ p. Plans s p (before self.messages self.notes (replied_of t what origin number reply))) }
    {
        let Prepared {
            mut messages,
            mut notes,
            change,
        } = self;
        let noted = reply.copy(alloc)?;
        notes.push(Note::Answered {
            origin,
            number,
            reply: noted,
        })?;
        messages.push(Outgoing {
            receiver: origin,
            message: reply_in(what, number, reply),
        })?;
        Ok(Prepared {
            messages,
            notes,
            change,
        })
    }
}

/// The same message to each of these, behind the messages that are there.
#[inline(always)]
pub fn send_to_each(
    alloc: Global,
    messages: &mut Sends,
    ids: &[Id],
    message: &Message,
) -> Result<(), OutOfMemory>
    ensures { OnOk result (messages.new ≡ messages.old ++ to_each ids.now (plain message.now)) }
{
    messages.reserve(ids.len())?;
    for id in ids {
        messages.push(Outgoing {
            receiver: *id,
            message: message.copy(alloc)?,
        })?;
    }
    Ok(())
}

/// The same message to the left, and to the right if it is another node.
pub fn sent_to_both(
    alloc: Global,
    left: Id,
    right: Id,
    message: &Message,
) -> Result<Sends, OutOfMemory>
    ensures { IfOk result (λ messages. messages ≡ to_both left right (plain message.now)) }
{
    let mut messages = Sends::new(alloc);
    messages.reserve(2)?;
    messages.push(Outgoing {
        receiver: left,
        message: message.copy(alloc)?,
    })?;
    if left != right {
        messages.push(Outgoing {
            receiver: right,
            message: message.copy(alloc)?,
        })?;
    }
    Ok(messages)
}
