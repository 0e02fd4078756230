//! A look at the next entries, and at where the messages that they take in may stand.
//!
//! The entries of many histories lie far apart, and so do the messages of a record. What is looked at for the first time is waited
//! for. So the next entries are looked at together, in short loops, none of which needs what another of its turns looks at: then
//! much is waited for at once. A loop that has to choose by what it sees begins with what the loop before it has seen: a wrong
//! guess of what it sees would else wait, too.

ghost use Rattle.std.specs.Prelude.{◌≡◌, IfSome, List, None};
ghost use Rattle.wire_msg.specs.Words.{Envelope as PlainEnvelope, plain_envelope};
ghost use Rattle.weave.specs.Table.{AreSeen, HasNoneBefore, IsTableOf};

use crate::acts::Act;
use crate::search::low_half;
use crate::starts::{Starts, mark_of};
use crate::strand::Strand;
use node_cell::{CellEntry, CellInput};
use ring_math::{Bytes, Id, Ids};
use wire_msg::{Envelope, Message, Note, Reply};

/// How many entries are looked at together.
pub(crate) const TOGETHER: usize = 32;

/// The stamp and the mark of the message that an entry takes in, and where it may stand.
#[derive(Clone, Copy)]
pub(crate) struct Sight {
    pub(crate) stamp: u64,
    pub(crate) mark: u16,
    pub(crate) guess: Option<usize>,
}

/// How much entries send and note.
#[derive(Clone, Copy)]
pub(crate) struct Load {
    pub(crate) sent: usize,
    pub(crate) noted: usize,
}

/// What so many entries take in.
#[derive(Clone, Copy)]
pub(crate) struct Ahead {
    pub(crate) sights: [Sight; TOGETHER],
    /// What was seen last, in one number. Nothing is done with it; but what is not kept would not be looked at.
    seen: u64,
}

impl Load {
    /// With what one more entry sends and notes.
    fn with(self, entry: &CellEntry) -> Load {
        Load {
            sent: self.sent.saturating_add(entry.sent.as_slice().len()),
            noted: self.noted.saturating_add(entry.notes.as_slice().len()),
        }
    }
}

impl Sight {
    /// Nothing is taken in: no envelope has the last stamp.
    fn none() -> Sight
        ensures { result.guess ≡ None }
    {
        Sight {
            stamp: u64::MAX,
            mark: 0,
            guess: None,
        }
    }

    /// What an entry takes in, when it is not known yet where it may stand.
    fn of(entry: &CellEntry) -> Sight {
        let mut sight = Sight::none();
        if let CellInput::Comes(envelope) = &entry.input {
            sight.stamp = envelope.stamp;
            sight.mark = mark_of(envelope);
        }
        sight
    }

    /// What is seen of the envelope that stands where it is guessed.
    fn glimpse(&self, sent: &[Envelope]) -> u64 {
        let place = self.guess.unwrap_or(usize::MAX);
        sent.get(place).map_or(0, glimpse_of_envelope)
    }

    /// What is seen of the list in the message that stands where it is guessed, with which the one that came is compared.
    fn glimpse_of_list(&self, sent: &[Envelope]) -> u64 {
        match self.guess {
            Some(place) => sent
                .get(place)
                .map_or(0, |envelope| glimpse_of_list(&envelope.message)),
            None => 0,
        }
    }
}

impl Ahead {
    /// Nothing was looked at yet.
    pub(crate) fn new() -> Ahead
        ensures { (vs : List PlainEnvelope) → AreSeen vs result }
    {
        Ahead {
            sights: [Sight::none(); TOGETHER],
            seen: 0,
        }
    }

    /// Looks at the first of these entries, and at where what they take in may stand among what was sent. Tells how much they send
    /// and note. It is a call of its own, so that what is seen is kept.
    #[inline(never)]
    pub(crate) fn look<S: Strand>(
        &mut self,
        acts: &[Act],
        strands: &[S],
        sent: &[Envelope],
        starts: &Starts,
    ) -> Load
        ensures { (vs : List PlainEnvelope) → IsTableOf starts.now vs → AreSeen vs self.new }
    {
        let mut entries = [None; TOGETHER];
        for number in 0..TOGETHER {
            if let Some(act) = acts.get(number) {
                entries[number] = entry_of(act, strands);
            }
        }
        for entry in entries.iter() {
            self.seen ^= entry.map_or(0, glimpse_of_entry);
        }
        let load = self.take_in(&entries);
        // Before they are searched, which has to choose by each.
        for sight in self.sights.iter() {
            self.seen ^= starts.glimpse(sight.stamp);
        }
        for entry in entries.iter() {
            self.seen ^= entry.map_or(0, glimpse_of_firsts);
        }
        for entry in entries.iter() {
            self.seen ^= entry.map_or(0, glimpse_of_lists);
        }
        self.guess_all(starts);
        self.seen ^= self.glimpse_there(sent);
        load
    }

    /// What these entries take in, and how much they send and note.
    fn take_in(&mut self, entries: &[Option<&CellEntry>; TOGETHER]) -> Load {
        let mut load = Load { sent: 0, noted: 0 };
        for (sight, entry) in self.sights.iter_mut().zip(entries.iter()) {
            *sight = entry.map_or(Sight::none(), Sight::of);
            if let Some(entry) = entry {
                load = load.with(entry);
            }
        }
        load
    }

    /// Guesses where what is taken in stands.
    fn guess_all(&mut self, starts: &Starts)
        ensures { (vs : List PlainEnvelope) → IsTableOf starts.now vs → AreSeen vs self.new }
    {
        for number in 0..TOGETHER {
            let sight = self.sights[number];
            self.sights[number].guess = starts.guess(sight.stamp, sight.mark);
        }
    }

    /// What is seen of what stands there.
    fn glimpse_there(&self, sent: &[Envelope]) -> u64 {
        let mut seen = 0;
        for sight in self.sights.iter() {
            seen ^= sight.glimpse(sent);
        }
        for sight in self.sights.iter() {
            seen ^= sight.glimpse_of_list(sent);
        }
        seen
    }

    /// A place before which this envelope does not stand, if the entry of this number, one of those looked at last, takes it in and it
    /// was guessed where.
    pub(crate) fn guess(&self, number: usize, envelope: &Envelope) -> Option<usize>
        ensures { (vs : List PlainEnvelope) → AreSeen vs self.now → IfSome result (HasNoneBefore vs (plain_envelope envelope.now)) }
    {
        let sight = self.sights[number % TOGETHER];
        if sight.stamp == envelope.stamp && sight.mark == mark_of(envelope) {
            sight.guess
        } else {
            None
        }
    }
}

/// The entry that stands there, if there is one.
fn entry_of<'a, S: Strand>(act: &Act, strands: &'a [S]) -> Option<&'a CellEntry> {
    strands.get(act.history as usize)?.entry(act.place as usize)
}

/// What is seen of an entry, so that all of it was looked at.
fn glimpse_of_entry(entry: &CellEntry) -> u64 {
    let came = match &entry.input {
        CellInput::Comes(envelope) => envelope.stamp,
        _ => 0,
    };
    let (sent, notes) = (entry.sent.as_slice(), entry.notes.as_slice());
    entry.stamp ^ came ^ sent.len() as u64 ^ notes.len() as u64
}

/// What is seen of the first that an entry sent and noted.
fn glimpse_of_firsts(entry: &CellEntry) -> u64 {
    let sent = entry.sent.as_slice().first().map_or(0, glimpse_of_envelope);
    match entry.notes.as_slice().first() {
        Some(note) => sent ^ u64::from(matches!(note, Note::Answered { .. })),
        None => sent,
    }
}

/// What is seen of an envelope, so that its beginning, its middle and its message were looked at.
fn glimpse_of_envelope(envelope: &Envelope) -> u64 {
    let kind = u64::from(matches!(envelope.message, Message::Announce));
    low_half(envelope.sender) ^ envelope.stamp ^ kind
}

/// What is seen of the lists in what came to an entry, and in what it sent and noted first.
fn glimpse_of_lists(entry: &CellEntry) -> u64 {
    let came = match &entry.input {
        CellInput::Comes(envelope) => glimpse_of_list(&envelope.message),
        _ => 0,
    };
    let sent = entry
        .sent
        .as_slice()
        .first()
        .map_or(0, |envelope| glimpse_of_list(&envelope.message));
    match entry.notes.as_slice().first() {
        Some(Note::Answered { reply, .. }) => came ^ sent ^ glimpse_of_reply(reply),
        _ => came ^ sent,
    }
}

/// What is seen first of the list in a message of those kinds that mostly have one. To tell more kinds apart takes longer than it
/// saves.
fn glimpse_of_list(message: &Message) -> u64 {
    match message {
        Message::Insert { bytes, .. } | Message::Replicate { bytes, .. } => first_byte(bytes),
        Message::JoinReply { members, .. } | Message::ProbeReply { members, .. } => {
            first_id(members)
        }
        Message::InsertReply { reply, .. } | Message::FetchReply { reply, .. } => {
            glimpse_of_reply(reply)
        }
        _ => 0,
    }
}

fn glimpse_of_reply(reply: &Reply) -> u64 {
    match reply {
        Reply::Stored { holders } => first_id(holders),
        Reply::Found { bytes, .. } => first_byte(bytes),
        _ => 0,
    }
}

fn first_byte(bytes: &Bytes) -> u64 {
    bytes.as_slice().first().map_or(0, |byte| u64::from(*byte))
}

fn first_id(ids: &Ids) -> u64 {
    ids.as_slice().first().map_or(0, |id| low_half(*id))
}
