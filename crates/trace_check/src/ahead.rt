//! Looking at messages before they are delivered. Nothing is done with what is seen: a message that is delivered mostly lies
//! where no cache has it, and the messages of several deliveries, looked at one right after another, are waited for together.

ghost use Rattle.std.specs.Prelude.{◌<◌, length};

use overlay_rules::{Entries, EventRef};
use ring_math::Id;

/// How many entries are looked at together.
const AHEAD: usize = 16;

/// The receivers that were seen last.
#[derive(Drop)]
pub(crate) struct Ahead {
    receivers: [Id; AHEAD],
}

impl Ahead {
    /// No receiver.
    pub(crate) fn none() -> Ahead {
        Ahead {
            receivers: [Id(0); AHEAD],
        }
    }

    /// Before the entry at a place is replayed: at each sixteenth it looks at the messages that this and the next entries deliver.
    pub(crate) fn reach(&mut self, entries: &Entries, place: usize)
        requires { place < length entries.now }
    {
        if place % AHEAD == 0 {
            self.look(entries, place);
        }
    }

    /// It is a call of its own, since what is seen would else be taken for unused, and not be looked at.
    #[inline(never)]
    fn look(&mut self, entries: &Entries, start: usize)
        requires { start < length entries.now }
    {
        let sent = entries.sent();
        let end = entries.len().min(start.saturating_add(AHEAD));
        for place in start..end {
            if let EventRef::Deliver { message } = entries.at(place).event {
                if let Some(envelope) = sent.get(message as usize) {
                    self.receivers[place - start] = envelope.receiver;
                }
            }
        }
    }
}
