//! Traces read from their texts.

ghost use Rattle.std.specs.Prelude.{◌≡◌, [], ◌≤◌, ◌<◌, ◌⊎◌, length, IfOk, IfErr, Err, MatchResult};
ghost use Rattle.trace_text.specs.Answers.{Finds};
ghost use Rattle.trace_text.specs.Fronts as fronts;
ghost use Rattle.trace_text.specs.Fronts.{IsLineFault, IsNext, IsWhole, fault_at, plain_front};
ghost use Rattle.trace_text.specs.Lines.{IsLine, plain_line};
ghost use Rattle.trace_text.specs.Traces.{IsTraceOf, PlainTrace, plain_trace};
ghost use Rattle.trace_text.specs.declared.fault.TraceFault.TheVariants as fault;
ghost use Rattle.trace_text.specs.declared.limits.TheConstants.{MOST_TRACE_BYTES};

use crate::fault::{Refusal, TraceFault};
use crate::form::Form;
use crate::front::Front;
use crate::limits::MOST_TRACE_BYTES;
use crate::line::Line;
use crate::operands::line_in;
use crate::trace::Trace;
use crate::words::split_once;
use std::alloc::Global;

/// The trace whose text the bytes are.
///
/// `TooLong` comes exactly where there are more than [`MOST_TRACE_BYTES`]. Of other bytes, `Line` comes exactly at the first
/// line, counted from 1, that may not stand at its place; that is one past the last line where the line `end` is missing,
/// and the last line where that has no end of its own. `OutOfMemory` may come in the place of `Line` and of a trace.
pub fn read_trace(alloc: Global, bytes: &[u8]) -> Result<Trace, TraceFault>
    // The bytes are the text of this trace.
    ensures read { IfOk result (λ t. IsTraceOf bytes.now (plain_trace t)) }
    // What is the text of a trace is read as it, unless memory is refused.
    ensures spelled { length bytes.now ≤ MOST_TRACE_BYTES → (t : PlainTrace) → IsTraceOf bytes.now t →
        MatchResult result (λ x. plain_trace x ≡ t) (λ f. f ≡ fault.OutOfMemory) }
    ensures too_long { MOST_TRACE_BYTES < length bytes.now → result ≡ Err (fault.TooLong (length bytes.now)) }
    // Each other fault is that of the first line that may not stand at its place, or want of memory.
    ensures refused { length bytes.now ≤ MOST_TRACE_BYTES → IfErr result (λ f. (f ≡ fault.OutOfMemory) ⊎ IsLineFault bytes.now f) }
{
    if bytes.len() > MOST_TRACE_BYTES {
        return Err(TraceFault::TooLong { found: bytes.len() });
    }
    let mut buffer = Vec::new(alloc);
    let mut front = Front::Nothing;
    let mut line: u32 = 1;
    let mut rest = bytes;
    while let Some((text, behind)) = split_once(b'\n', rest) {
        match next_front(alloc, &mut buffer, &mut front, text) {
            Ok(()) => {}
            Err(refusal) => return Err(fault_at(line, refusal)),
        }
        line += 1;
        rest = behind;
    }
    finished(front, line, rest)
}

/// The fault of this line.
fn fault_at(line: u32, refusal: Refusal) -> TraceFault
    ensures { result ≡ fault_at line refusal }
{
    match refusal {
        Refusal::NotAllowed => TraceFault::Line { line },
        Refusal::OutOfMemory => TraceFault::OutOfMemory,
    }
}

/// The front with this text as its next line. After an error it is of no more use.
fn next_front(
    alloc: Global,
    buffer: &mut Vec<u8>,
    front: &mut Front,
    text: &[u8],
) -> Result<(), Refusal>
    ensures { Finds (λ _. plain_front front.new) (IsNext (plain_front front.old) text.now) result }
{
    let line = read_line(alloc, buffer, text)?;
    front.add(alloc, line)
}

fn read_line(alloc: Global, buffer: &mut Vec<u8>, text: &[u8]) -> Result<Line, Refusal>
    ensures { Finds plain_line (IsLine text.now) result }
{
    let Some((word, operands)) = split_once(b' ', text) else {
        return Err(Refusal::NotAllowed);
    };
    match Form::with(word) {
        Some(form) => line_in(alloc, buffer, form, operands),
        None => Err(Refusal::NotAllowed),
    }
}

/// The trace, if the front is a whole one and nothing is left.
fn finished(front: Front, line: u32, rest: &[u8]) -> Result<Trace, TraceFault>
    ensures whole { IfOk result (λ t. (plain_front front ≡ fronts.End (plain_trace t)) × (rest.now ≡ [])) }
    ensures refused { IfErr result (λ f. (f ≡ fault.Line line) × (IsWhole (plain_front front) rest.now → ⊥)) }
{
    match front {
        Front::End(trace) if rest.is_empty() => Ok(trace),
        _ => Err(TraceFault::Line { line }),
    }
}
