//! What the program does in each of its modes.

ghost use Rattle.std.specs.Prelude.{◌≡◌, ◌≢◌, ◌≤◌, ◌⊎◌, Some, None, IsSome};
ghost use Rattle.outside.specs.Rose.{Rose};
ghost use Rattle.scenario_reader.specs.declared.fault.LineFault.{LineFault as Fault};
ghost use Rattle.overlay_harness.specs.declared.fault.RunFault.{RunFault as CantRun};
ghost use Rattle.trace_text.specs.declared.fault.TraceFault.{TraceFault as NoTrace};
ghost use Rattle.trace_check.specs.declared.verdict.Part.{Part as WrongPart};
ghost use Rattle.cli_words.specs.Command.{HasNumbersInRange};
ghost use Rattle.pastry.specs.Checked.{IsNoTrace};
ghost use Rattle.pastry.specs.Due.{IsDue};
ghost use Rattle.pastry.specs.Faults.{status_of, HasWritten};
ghost use Rattle.pastry.specs.Runs.{IsAtItsText, IsDone, IsFoundWrongIn, IsRefusedIn, ReadsFirst, ReadsInput, ReadsTrace, RunsThreads, limit_of};
ghost use Rattle.pastry.specs.Serving.{HasServed};
ghost use Rattle.pastry.specs.Unfit.{IsUnfit};
ghost use Rattle.node_service.specs.Written.{IsTaken, IsBrokenOff};
ghost use Rattle.pastry.specs.Written.{WasReadByCalls};

use crate::checking::check_read;
use crate::grouping::group_read;
use crate::large::play_large;
use crate::outcome::{Outcome, TopFault};
use crate::output::Output;
use crate::playing::{play_made, play_read};
use crate::pointing::point_read;
use crate::serving::serve_read;
use crate::table::tell_read;
use crate::threads::run_read;
use crate::verdict::Telling;
use cli_words::Mode;
use outside::{Sink, Source, Turnstile};
use std::alloc::Global;
use std::sync::Wait;
use std::thread::Threads;

/// One run in a mode.
pub(crate) fn run_mode<R: Threads + Wait + Sync, S: Source, K: Sink, T: Turnstile + Sync>(
    rt: &R,
    alloc: Global,
    mode: Mode,
    source: &mut S,
    sink: &mut K,
    turnstile: &T,
) -> Outcome
    requires { HasNumbersInRange mode }
    ensures status { result.status ≡ status_of result.fault }
    ensures usage { result.fault ≢ Some TopFault.Usage }
    ensures done { result.fault ≡ None → IsDone mode S.left source.old source.new (IsTaken K.takes K.taken sink.old sink.new) result.played }
    ensures broken_off { result.fault ≡ Some TopFault.Write → IsAtItsText mode S.left source.old source.new (IsBrokenOff K.takes K.taken sink.old sink.new) result.played }
    ensures wrong { (entry : _) (part : WrongPart) → result.fault ≡ Some (TopFault.Wrong entry part) → IsFoundWrongIn mode (S.left source.old) (S.left source.new) (IsTaken K.takes K.taken sink.old sink.new) result.played entry part }
    ensures played { IsSome result.played → (result.fault ≡ None) ⊎ (result.fault ≡ Some TopFault.Write) }
    ensures nothing_written { ¬ HasWritten result.fault → (sink.new ≡ sink.old) ⊎ (mode ≡ Mode.OneNode) }
    ensures served { mode ≡ Mode.OneNode → HasServed S.gives S.left K.takes K.taken source.old sink.old result.fault source.new sink.new }
    ensures refused { (f : Fault) → result.fault ≡ Some (TopFault.Scenario f) → IsRefusedIn mode (S.left source.old) (S.left source.new) f }
    ensures unfit { (f : CantRun) → result.fault ≡ Some (TopFault.Run f) → RunsThreads mode × IsUnfit (S.left source.old) (S.left source.new) f }
    ensures no_trace { (f : NoTrace) → result.fault ≡ Some (TopFault.Trace f) → ReadsTrace mode × IsNoTrace (S.left source.old) (S.left source.new) f }
    ensures unread { result.fault ≡ Some TopFault.Read → ReadsInput mode × Rose (S.faults source.old) (S.faults source.new) }
    ensures unwritten { result.fault ≡ Some TopFault.Write → Rose (K.faults sink.old) (K.faults sink.new) }
    ensures reads { ReadsFirst mode → WasReadByCalls (limit_of mode) S.gives source.old source.new (result.fault ≡ Some TopFault.Read) }
    ensures left_alone { ¬ ReadsInput mode → source.new ≡ source.old }
    ensures source_count { S.faults source.old ≤ S.faults source.new }
    ensures sink_count { K.faults sink.old ≤ K.faults sink.new }
    ensures due { IsDue mode (Rose (S.faults source.old) (S.faults source.new)) (Rose (K.faults sink.old) (K.faults sink.new)) (S.left source.old) result.fault }
{
    match mode {
        Mode::Play => play_read(alloc, Output::Report, source, sink, turnstile),
        Mode::Run => run_read(rt, alloc, Output::Report, source, sink, turnstile),
        Mode::Big { nodes, seed } => play_made(alloc, nodes, seed, sink, turnstile),
        Mode::Trace => play_read(alloc, Output::Trace, source, sink, turnstile),
        Mode::TraceRun => run_read(rt, alloc, Output::Trace, source, sink, turnstile),
        Mode::Check => check_read(alloc, Telling::Line, source, sink),
        Mode::Points { room } => point_read(alloc, room, source, sink),
        Mode::Large { nodes, seed, size } => play_large(alloc, nodes, seed, size, sink, turnstile),
        Mode::Messages => tell_read(alloc, source, sink, turnstile),
        Mode::Groups => group_read(alloc, source, sink, turnstile),
        Mode::Draw { from, entries } => {
            check_read(alloc, Telling::Picture { from, entries }, source, sink)
        }
        Mode::OneNode => serve_read(alloc, source, sink),
    }
}
