//! A change that fits is made: one function for each part. No call of this file takes memory. What most steps go through is inlined,
//! since a change is large and each call that hands it on would copy it; what few go through is not.

ghost use Rattle.std.specs.Prelude.{◌≡◌, ◌≤◌, ◌+◌, ℕ, List, length, vec_len, vec_capacity, filter, not, ◌==◌};
ghost use Rattle.lookup_core.specs.Kept.{StandsFor};
ghost use Rattle.overlay_rules.specs.State.{State};
ghost use Rattle.node_parts.specs.Change.{waited, rest_after, parts_changed, phase_after, gate_after, known_after, files_after, pending_after, waiting_after};
ghost use Rattle.node_parts.specs.Fits.{Fits, RestFits, PartsFit, StoreFits, asks_more, waits_more};
ghost use Rattle.node_parts.specs.Makes.{Makes};
ghost use Rattle.node_parts.specs.Seen.{Keeps, Stands};
ghost use Rattle.node_parts.specs.Sound.{IsSound};

use crate::change::{
    Change, GateChange, Learn, Parts, PastChange, Rest, SeatChange, StoreChange, Wait,
};
use crate::lease::Lease;
use crate::node::Node;
use crate::seat::Seat;
use file_store::FileStore;
use lookup_core::Knowledge;
use past_core::Past;
use ring_math::{Bytes, FileId, MOST_ENTRIES};

fn change_seat(seat: &mut Seat, change: SeatChange)
    ensures { seat.new ≡ phase_after change seat.old }
{
    match change {
        SeatChange::Keep => {}
        SeatChange::To(joiner) => seat.go_to(Box::into_inner(joiner)),
        SeatChange::Granted(given) => seat.grant(Box::into_inner(given)),
        SeatChange::Ready {
            attempt,
            left,
            right,
        } => seat.settle(attempt, left, right),
    }
}

fn change_gate(gate: &mut Option<Lease>, change: GateChange)
    ensures { gate.new ≡ gate_after change gate.old }
{
    match change {
        GateChange::Keep => {}
        GateChange::Clear => *gate = None,
        GateChange::Set(lease) => *gate = Some(Box::into_inner(lease)),
    }
}

fn learn(known: &mut Knowledge, learn: Learn)
    ensures me { known.new.leafs.me ≡ known.old.leafs.me }
    ensures stands { (list : List ℕ) → StandsFor known.old list → StandsFor known.new (known_after known.old.leafs.me learn list) }
{
    match learn {
        Learn::Nothing => {}
        Learn::One(id) => known.learn_all(&[id]),
        Learn::Two(first, second) => known.learn_all(&[first, second]),
        Learn::All(ids) => known.learn_all(ids.as_slice()),
    }
}

fn set_slot(store: &mut FileStore, file: FileId, slot: Option<Bytes>)
    requires { StoreFits store.old (StoreChange.Set file slot) }
    ensures { store.new.files ≡ files_after (StoreChange.Set file slot) store.old.files }
{
    if store.slot(&file).is_some() || store.entries() < MOST_ENTRIES {
        store.set(file, slot);
    }
}

fn change_store(store: &mut FileStore, change: StoreChange)
    requires { StoreFits store.old change }
    ensures { store.new.files ≡ files_after change store.old.files }
{
    match change {
        StoreChange::Keep => {}
        StoreChange::Set { file, slot } => set_slot(store, file, slot),
        StoreChange::Bury(tombs) => store.bury_reserved(tombs.as_slice()),
    }
}

fn change_past(past: &mut Past, change: PastChange)
    requires { length past.old.asks + asks_more change ≤ past.old.room }
    ensures { past.new.asks ≡ pending_after change past.old.asks }
{
    match change {
        PastChange::Keep => {}
        PastChange::Add(ask) => past.add(Box::into_inner(ask)),
        PastChange::TakeOut { place } => {
            let _ask = past.take_out(place);
        }
        PastChange::Hear { place, awaited } => past.hear(place, awaited),
        PastChange::Leave { reach, joiner } => past.leave(&*reach, joiner),
        PastChange::End { file } => past.end(&file),
    }
}

fn without_number(waiting: &mut Vec<u64>, number: u64)
    ensures { waiting.new.items ≡ filter (λ m. not (m == number)) waiting.old.items }
{
    waiting.retain(|other| *other != number);
}

fn change_waiting(waiting: &mut Vec<u64>, change: Wait)
    requires { vec_len waiting.old + waits_more change ≤ vec_capacity waiting.old }
    ensures { waiting.new.items ≡ waiting_after change waiting.old.items }
{
    match change {
        Wait::Keep => {}
        Wait::Add { number } => {
            let _ = waiting.push(number);
        }
        Wait::Take { number } => without_number(waiting, number),
    }
}

impl Node {
    /// The change is made. It takes no memory: room was made before. It is for node_core alone, which plans the change.
    #[inline(always)]
    pub fn commit(&mut self, change: Change)
        requires { Fits self.old change }
        ensures me { self.new.me ≡ self.old.me }
        ensures stands { (s t : State) → Stands self.old s → Makes change s t → IsSound t → Stands self.new t }
    {
        let Change { rest, waiting } = change;
        self.commit_waiting(waiting);
        self.commit_rest(rest);
    }

    #[inline(always)]
    fn commit_waiting(&mut self, waiting: Wait)
        requires { vec_len self.old.waiting + waits_more waiting ≤ vec_capacity self.old.waiting }
        ensures me { self.new.me ≡ self.old.me }
        ensures store { self.new.store ≡ self.old.store }
        ensures past { self.new.past ≡ self.old.past }
        ensures keeps { (s : State) → Keeps self.old s → Keeps self.new (waited waiting s) }
    {
        change_waiting(&mut self.waiting, waiting);
    }

    /// All is changed but what waits.
    #[inline(always)]
    fn commit_rest(&mut self, rest: Rest)
        requires { RestFits self.old rest }
        ensures me { self.new.me ≡ self.old.me }
        ensures keeps { (s t : State) → Keeps self.old s → rest_after rest s ≡ t → Keeps self.new t }
    {
        match rest {
            Rest::Keep => {}
            Rest::Learnt(id) => {
                let _changed = self.known.take_in(id);
            }
            Rest::Answered { sender } => self.seat.hear(sender),
            Rest::Heard { sender, learnt } => {
                self.seat.hear(sender);
                self.known.learn_all(learnt.as_slice());
            }
            Rest::Parts(parts) => self.commit_parts(parts),
        }
    }

    /// These parts are changed. They come in their box, so that only this call has room for them.
    #[inline(never)]
    fn commit_parts(&mut self, parts: Box<Parts>)
        requires { PartsFit self.old parts.value }
        ensures me { self.new.me ≡ self.old.me }
        ensures keeps { (s t : State) → Keeps self.old s → parts_changed parts.value s ≡ t → Keeps self.new t }
    {
        let Parts {
            seat,
            left_gate,
            right_gate,
            learn: learnt,
            store,
            past,
        } = Box::into_inner(parts);
        change_seat(&mut self.seat, seat);
        change_gate(&mut self.left_gate, left_gate);
        change_gate(&mut self.right_gate, right_gate);
        learn(&mut self.known, learnt);
        change_store(&mut self.store, store);
        change_past(&mut self.past, past);
    }
}
