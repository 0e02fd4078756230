//! Traces that are read and checked.

ghost use Rattle.std.specs.Prelude.{◌≡◌, ◌≢◌, ◌≤◌, ◌⊎◌, length, Some, None, Err, IfOk, IfErr, IfSome, IsSome};
ghost use Rattle.outside.specs.Rose.{Rose};
ghost use Rattle.scenario_reader.specs.declared.limits.TheConstants.{MOST_NODES};
ghost use Rattle.trace_text.specs.Traces.{plain_trace, setting_of};
ghost use Rattle.trace_text.specs.declared.fault.TraceFault.{TraceFault as Fault};
ghost use Rattle.trace_check.specs.declared.verdict.Part.{Part as WrongPart};
ghost use Rattle.overlay_rules.specs.Record.{IsRecord, IsSetting, Legal};
ghost use Rattle.pastry.specs.Checked.{HasChecked, HasFoundWrong, HasJudged, IsNoTrace, IsReadTrace};
ghost use Rattle.pastry.specs.Due.{fault_of};
ghost use Rattle.pastry.specs.Faults.{status_of, HasWritten, IsCheckingFault, IsTraceReadingFault};
ghost use Rattle.pastry.specs.Headline.{Headline};
ghost use Rattle.pastry.specs.Judged.{IsJudged, handed_out};
ghost use Rattle.node_service.specs.Written.{IsTaken, IsBrokenOff};
ghost use Rattle.pastry.specs.VerdictTexts.{told_by, IsDrawable};
ghost use Rattle.pastry.specs.Written.{WasReadByCalls};

use crate::laws::headline_law;
use crate::outcome::{Outcome, TopFault};
use crate::verdict::{Telling, told};
use outside::{ReadFault, Sink, Source, read_to_limit, write_all};
use overlay_rules::Record;
use ring_math::OutOfMemory;
use std::alloc::Global;
use trace_check::{MOST_TRACE_BYTES, Trace, TraceFault, Verdict, check, read_trace};
use wire_msg::Frame;

/// One byte more than the longest trace has.
const TRACE_LIMIT: usize = MOST_TRACE_BYTES + 1;

/// Reads a trace from a source.
fn read_input<S: Source>(alloc: Global, source: &mut S) -> Result<Trace, TopFault>
    ensures ok { IfOk result (λ t. IsReadTrace (S.left source.old) (S.left source.new) (plain_trace t)) }
    ensures kind { IfErr result IsTraceReadingFault }
    ensures refused { (f : Fault) → result ≡ Err (TopFault.Trace f) → IsNoTrace (S.left source.old) (S.left source.new) f }
    ensures unread { result ≡ Err TopFault.Read → Rose (S.faults source.old) (S.faults source.new) }
    ensures calls { WasReadByCalls TRACE_LIMIT S.gives source.old source.new (result ≡ Err TopFault.Read) }
    ensures count { S.faults source.old ≤ S.faults source.new }
{
    let bytes = match read_to_limit(alloc, source, TRACE_LIMIT) {
        Ok(bytes) => bytes,
        Err(ReadFault::Read) => return Err(TopFault::Read),
        Err(ReadFault::OutOfMemory) => return Err(TopFault::OutOfMemory),
    };
    match read_trace(alloc, &bytes) {
        Ok(trace) => Ok(trace),
        Err(TraceFault::OutOfMemory) => Err(TopFault::OutOfMemory),
        Err(fault) => Err(TopFault::Trace(fault)),
    }
}

/// A record that was checked, the verdict on it, and the text of both.
#[derive(Drop)]
struct Judged {
    verdict: Verdict,
    steps: Record,
    text: Frame,
}

/// The headline holds of a legal trace.
fn legal_law(trace: &Trace)
    requires setting { IsSetting (setting_of trace.now.nodes trace.now.founder) }
    requires legal { Legal (setting_of trace.now.nodes trace.now.founder) trace.now.steps.entries }
    ensures record { IsRecord (setting_of trace.now.nodes trace.now.founder) trace.now.steps.entries }
    ensures headline { Headline (setting_of trace.now.nodes trace.now.founder) trace.now.steps.entries }
{
    trace.steps.entries.said_law();
    headline_law(trace.nodes.as_slice(), trace.founder, &trace.steps.entries);
}

/// Checks the record of a trace, and writes its text into memory. The headline holds of it if it is legal.
fn judge(alloc: Global, telling: Telling, trace: Trace) -> Result<Judged, OutOfMemory>
    requires setting { IsSetting (setting_of trace.nodes trace.founder) }
    requires few { length trace.nodes ≤ MOST_NODES }
    requires drawable { IsDrawable telling }
    ensures { IfOk result (λ j. IsJudged (told_by telling) (plain_trace trace) j.verdict j.steps j.text) }
{
    let verdict = check(alloc, &trace)?;
    if let Verdict::Legal { .. } = verdict {
        legal_law(&trace);
    }
    let text = told(alloc, telling, &trace, verdict)?;
    Ok(Judged {
        verdict,
        steps: trace.steps,
        text,
    })
}

/// Writes the text of a trace to a sink, and hands out the record if it is legal.
fn write_judged<K: Sink>(sink: &mut K, judged: Judged) -> Outcome
    ensures status { result.status ≡ status_of result.fault }
    ensures told { result.fault ≢ Some TopFault.Write → result.fault ≡ fault_of judged.verdict }
    ensures played { result.played ≡ handed_out judged.verdict judged.steps }
    ensures whole { result.fault ≢ Some TopFault.Write → IsTaken K.takes K.taken sink.old sink.new judged.text }
    ensures part { result.fault ≡ Some TopFault.Write → IsBrokenOff K.takes K.taken sink.old sink.new judged.text }
    ensures unwritten { result.fault ≡ Some TopFault.Write → Rose (K.faults sink.old) (K.faults sink.new) }
    ensures count { K.faults sink.old ≤ K.faults sink.new }
{
    let Judged {
        verdict,
        steps,
        text,
    } = judged;
    match (verdict, write_all(sink, text.as_slice())) {
        (Verdict::Legal { .. }, Ok(())) => Outcome::done(steps),
        (Verdict::Legal { .. }, Err(_)) => Outcome::failed(TopFault::Write, Some(steps)),
        (Verdict::Wrong { entry, part }, Ok(())) => {
            Outcome::refused(TopFault::Wrong { entry, part })
        }
        (Verdict::Wrong { .. }, Err(_)) => Outcome::refused(TopFault::Write),
    }
}

/// Reads a trace from a source, checks its record, and writes its text to a sink.
pub(crate) fn check_read<S: Source, K: Sink>(
    alloc: Global,
    telling: Telling,
    source: &mut S,
    sink: &mut K,
) -> Outcome
    requires { IsDrawable telling }
    ensures status { result.status ≡ status_of result.fault }
    ensures kind { IfSome result.fault IsCheckingFault }
    ensures done { result.fault ≡ None → HasChecked (told_by telling) (S.left source.old) (S.left source.new) (IsTaken K.takes K.taken sink.old sink.new) result.played }
    ensures broken_off { result.fault ≡ Some TopFault.Write → HasJudged (told_by telling) (S.left source.old) (S.left source.new) (IsBrokenOff K.takes K.taken sink.old sink.new) result.played }
    ensures wrong { (entry : _) (part : WrongPart) → result.fault ≡ Some (TopFault.Wrong entry part) → HasFoundWrong (told_by telling) (S.left source.old) (S.left source.new) (IsTaken K.takes K.taken sink.old sink.new) result.played entry part }
    ensures played { IsSome result.played → (result.fault ≡ None) ⊎ (result.fault ≡ Some TopFault.Write) }
    ensures nothing_written { ¬ HasWritten result.fault → sink.new ≡ sink.old }
    ensures no_trace { (f : Fault) → result.fault ≡ Some (TopFault.Trace f) → IsNoTrace (S.left source.old) (S.left source.new) f }
    ensures unread { result.fault ≡ Some TopFault.Read → Rose (S.faults source.old) (S.faults source.new) }
    ensures unwritten { result.fault ≡ Some TopFault.Write → Rose (K.faults sink.old) (K.faults sink.new) }
    ensures reads { WasReadByCalls TRACE_LIMIT S.gives source.old source.new (result.fault ≡ Some TopFault.Read) }
    ensures source_count { S.faults source.old ≤ S.faults source.new }
    ensures sink_count { K.faults sink.old ≤ K.faults sink.new }
{
    let trace = match read_input(alloc, source) {
        Ok(trace) => trace,
        Err(fault) => return Outcome::refused(fault),
    };
    match judge(alloc, telling, trace) {
        Ok(judged) => write_judged(sink, judged),
        Err(OutOfMemory) => Outcome::refused(TopFault::OutOfMemory),
    }
}
