//! The arrows of messages.

ghost use Rattle.std.specs.Prelude.{◌≡◌, ◌<◌, ◌++◌, drop, if◌then◌else◌, length, slice_get, take, IfOk, OnOk};
ghost use Rattle.overlay_rules.specs.Record.{sent_in};
ghost use Rattle.overlay_rules.specs.Seen.{event_seen};
ghost use Rattle.svg_text.specs.Picture.{each_of, text_of};
ghost use Rattle.course_picture.specs.declared.fate.Fate.TheVariants as fate;
ghost use Rattle.course_picture.specs.Arrows.{arrow_if_sent, arrow_of_event, arrows, deliveries, rest_at, rests, senders_from};
ghost use Rattle.course_picture.specs.Marks.{AreMarks};
ghost use Rattle.course_picture.specs.Ways.{arrow_picture};

use crate::drawing::Drawing;
use crate::fate::{Arrow, Fate};
use crate::front::Front;
use crate::marks::{mark, marks};
use crate::ways::put_arrow;
use overlay_rules::EventRef;
use ring_math::OutOfMemory;
use std::alloc::Global;
use text_writer::Text;

/// The place of the entry that sent each message.
pub(crate) fn senders_of(alloc: Global, front: &Front) -> Result<Vec<usize>, OutOfMemory>
    ensures { IfOk result (λ senders. senders.items ≡ senders_from 0 front.now) }
{
    let mut senders = Vec::with_capacity(alloc, front.sent().len())?;
    for place in 0..front.len() {
        let entry = front.at(place);
        // Named, since the prover has to see what type a command is.
        if let EventRef::Command {
            command: _command,
            ..
        } = entry.event
        {}
        for _message in entry.messages {
            senders.push(place)?;
        }
    }
    Ok(senders)
}

/// All arrows: first those that end in the window, and then those that lead out of it.
pub(crate) fn put_arrows(text: &mut Text, drawing: &Drawing) -> Result<(), OutOfMemory>
    ensures { OnOk result (text.new ≡ text.old ++ text_of (each_of (arrow_picture drawing.now.board) (arrows drawing.now.board drawing.now.front))) }
{
    let first = drawing.board.first();
    let mut before = marks(drawing.alloc, &drawing.front, 0, first)?;
    put_deliveries(text, drawing, &mut before)?;
    let stop = drawing.board.stop();
    let behind = marks(drawing.alloc, &drawing.front, stop, drawing.front.len())?;
    put_rests(text, drawing, &before, &behind)
}

/// An arrow to each entry of the window that delivers a message. What was delivered before the window is marked at first, and
/// what was delivered before its end at last.
fn put_deliveries(
    text: &mut Text,
    drawing: &Drawing,
    before: &mut [bool],
) -> Result<(), OutOfMemory>
    requires { AreMarks before.old (length (sent_in drawing.now.front)) (take drawing.now.board.first drawing.now.front) }
    ensures text { OnOk result (text.new ≡ text.old ++ text_of (each_of (arrow_picture drawing.now.board) (deliveries drawing.now.board drawing.now.front))) }
    ensures before { OnOk result (AreMarks before.new (length (sent_in drawing.now.front)) (take drawing.now.board.stop drawing.now.front)) }
{
    for place in drawing.board.first()..drawing.board.stop() {
        let event = drawing.front.at(place).event;
        put_delivery(text, drawing, before, place, &event)?;
        mark(before, &event);
        // Named, since the prover has to see what type a command is.
        if let EventRef::Command {
            command: _command,
            ..
        } = event
        {}
    }
    Ok(())
}

/// The arrow to an entry, where it delivers a message that was sent.
fn put_delivery(
    text: &mut Text,
    drawing: &Drawing,
    before: &[bool],
    place: usize,
    event: &EventRef,
) -> Result<(), OutOfMemory>
    requires { AreMarks before.now (length (sent_in drawing.now.front)) (take place drawing.now.front) }
    ensures { OnOk result (text.new ≡ text.old
        ++ text_of (each_of (arrow_picture drawing.now.board) (arrow_of_event drawing.now.front place (event_seen event.now)))) }
{
    match event {
        EventRef::Deliver { message } => put_arrow_to(text, drawing, before, place, *message),
        EventRef::Command { .. } | EventRef::Noise { .. } => Ok(()),
    }
}

/// The arrow of a message to the entry at a place, where it was sent.
fn put_arrow_to(
    text: &mut Text,
    drawing: &Drawing,
    before: &[bool],
    place: usize,
    number: u64,
) -> Result<(), OutOfMemory>
    requires { AreMarks before.now (length (sent_in drawing.now.front)) (take place drawing.now.front) }
    ensures { OnOk result (text.new ≡ text.old
        ++ text_of (each_of (arrow_picture drawing.now.board) (arrow_if_sent drawing.now.front place number (slice_get (sent_in drawing.now.front) number)))) }
{
    let Some(envelope) = drawing.front.sent().get(number as usize) else {
        return Ok(());
    };
    let arrow = Arrow {
        number,
        envelope,
        sent: drawing.senders[number as usize],
        reached: place,
        fate: fate_of(before[number as usize]),
    };
    put_arrow(text, drawing, &arrow)
}

/// An arrow for each message that was sent in the window, and that an entry behind it delivers or none at all.
fn put_rests(
    text: &mut Text,
    drawing: &Drawing,
    before: &[bool],
    behind: &[bool],
) -> Result<(), OutOfMemory>
    requires before { AreMarks before.now (length (sent_in drawing.now.front)) (take drawing.now.board.stop drawing.now.front) }
    requires behind { AreMarks behind.now (length (sent_in drawing.now.front)) (drop drawing.now.board.stop drawing.now.front) }
    ensures { OnOk result (text.new ≡ text.old ++ text_of (each_of (arrow_picture drawing.now.board) (rests drawing.now.board drawing.now.front))) }
{
    for place in 0..drawing.front.sent().len() {
        put_rest(text, drawing, before, behind, place)?;
    }
    Ok(())
}

/// That of the message at a place.
fn put_rest(
    text: &mut Text,
    drawing: &Drawing,
    before: &[bool],
    behind: &[bool],
    place: usize,
) -> Result<(), OutOfMemory>
    requires within { place < length (sent_in drawing.now.front) }
    requires before { AreMarks before.now (length (sent_in drawing.now.front)) (take drawing.now.board.stop drawing.now.front) }
    requires behind { AreMarks behind.now (length (sent_in drawing.now.front)) (drop drawing.now.board.stop drawing.now.front) }
    ensures { OnOk result (text.new ≡ text.old ++ text_of (each_of (arrow_picture drawing.now.board) (rest_at drawing.now.board drawing.now.front place))) }
{
    let envelope = &drawing.front.sent()[place];
    let sent = drawing.senders[place];
    if !drawing.board.is_drawn(sent) {
        return Ok(());
    }
    if behind[place] {
        let arrow = Arrow {
            number: place as u64,
            envelope,
            sent,
            reached: drawing.board.stop(),
            fate: fate_of(before[place]),
        };
        return put_arrow(text, drawing, &arrow);
    }
    if before[place] {
        return Ok(());
    }
    let arrow = Arrow {
        number: place as u64,
        envelope,
        sent,
        reached: sent,
        fate: Fate::Lost,
    };
    put_arrow(text, drawing, &arrow)
}

/// How a message fares that is delivered, and that was delivered before or not.
fn fate_of(before: bool) -> Fate
    ensures { result ≡ (if before then fate.Again else fate.First) }
{
    if before { Fate::Again } else { Fate::First }
}
