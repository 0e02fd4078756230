//! Which messages were delivered.

ghost use Rattle.std.specs.Prelude.{◌≡◌, ◌≤◌, ◌++◌, ◌∷◌, [], List, ℕ, length, slice_range, IfOk};
ghost use Rattle.overlay_rules.specs.declared.entry.Entry.{Entry as PlainEntry};
ghost use Rattle.overlay_rules.specs.Record.{sent_in};
ghost use Rattle.overlay_rules.specs.Seen.{event_seen};
ghost use Rattle.course_picture.specs.Marks.{AreMarks};

use crate::front::Front;
use overlay_rules::EventRef;
use ring_math::OutOfMemory;
use std::alloc::Global;

/// Of each message that was sent, whether the entries between two places deliver it.
pub(crate) fn marks(
    alloc: Global,
    front: &Front,
    first: usize,
    stop: usize,
) -> Result<Vec<bool>, OutOfMemory>
    requires order { first ≤ stop }
    requires within { stop ≤ length front.now }
    ensures { IfOk result (λ marks. AreMarks marks.items (length (sent_in front.now)) (slice_range front.now first stop)) }
{
    let mut marks = Vec::new(alloc);
    marks.resize(front.sent().len(), false)?;
    for place in first..stop {
        let event = front.at(place).event;
        mark(&mut marks, &event);
        // Named, since the prover has to see what type a command is.
        if let EventRef::Command {
            command: _command,
            ..
        } = event
        {}
    }
    Ok(marks)
}

/// One entry more.
pub(crate) fn mark(marks: &mut [bool], event: &EventRef)
    ensures { (count : ℕ) (es : List PlainEntry) (e : PlainEntry) → AreMarks marks.old count es → e.event ≡ event_seen event.now →
        AreMarks marks.new count (es ++ e ∷ []) }
{
    if let EventRef::Deliver { message } = event
        && (*message as usize) < marks.len()
    {
        marks[*message as usize] = true;
    }
}
