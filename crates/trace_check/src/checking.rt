//! The check of a trace, from its first entry on.

ghost use Rattle.std.specs.Prelude.{◌≡◌, ◌<◌, IfOk, Some, length, slice_get};
ghost use Rattle.std.specs.Bool.{Decides};
ghost use Rattle.overlay_rules.specs.declared.entry.Entry.{Entry as PlainEntry};
ghost use Rattle.overlay_rules.specs.Record.{IsSetting, Legal};
ghost use Rattle.step_facts.specs.Setting.{setting};
ghost use Rattle.trace_check.specs.Verdicts.{IsVerdict, is_legal};

use crate::ahead::Ahead;
use crate::replay::Replay;
use crate::verdict::Verdict;
use overlay_rules::Entries;
use ring_math::{Id, OutOfMemory};
use std::alloc::Global;
use trace_text::Trace;

/// Whether the steps of a trace are a legal record of its nodes, of which the founder is ready from the start: `Legal` exactly
/// where they are, and else `Wrong` with the first entry that may not stand where it stands. The only error is that memory was
/// refused.
///
/// Nothing is believed but the events: nodes take each step anew, and what they send and note is what has to stand there.
/// Stamps are not read.
pub fn check(alloc: Global, trace: &Trace) -> Result<Verdict, OutOfMemory>
    requires { IsSetting (setting trace.now.nodes trace.now.founder) }
    ensures verdict { IfOk result (IsVerdict (setting trace.now.nodes trace.now.founder) trace.now.steps.entries) }
    ensures legal { IfOk result (λ verdict. Decides (is_legal verdict) (Legal (setting trace.now.nodes trace.now.founder) trace.now.steps.entries)) }
{
    check_entries(
        alloc,
        trace.nodes.as_slice(),
        trace.founder,
        &trace.steps.entries,
    )
}

fn check_entries(
    alloc: Global,
    nodes: &[Id],
    founder: Id,
    entries: &Entries,
) -> Result<Verdict, OutOfMemory>
    requires { IsSetting (setting nodes.now founder) }
    ensures verdict { IfOk result (IsVerdict (setting nodes.now founder) entries.now) }
    ensures legal { IfOk result (λ verdict. Decides (is_legal verdict) (Legal (setting nodes.now founder) entries.now)) }
{
    let mut replay = Replay::new(alloc, nodes, founder)?;
    let all = entries.sent();
    let mut sent: usize = 0;
    let mut ahead = Ahead::none();
    for place in 0..entries.len() {
        ahead.reach(entries, place);
        if let Some(part) = replay.follow(alloc, entries, place, &all[..sent])? {
            return Ok(Verdict::Wrong {
                entry: place as u64 + 1,
                part,
            });
        }
        sent += sent_by(entries, place);
    }
    Ok(Verdict::Legal {
        ready: replay.ready() as u64,
    })
}

/// How many messages the entry at a place sent.
fn sent_by(entries: &Entries, place: usize) -> usize
    requires { place < length entries.now }
    ensures { (e : PlainEntry) → slice_get entries.now place ≡ Some e → result ≡ length e.messages }
{
    entries.at(place).messages.len()
}
