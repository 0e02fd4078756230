//! One run of the program: what is read, played and written.

ghost use Rattle.std.specs.Prelude.{◌≡◌, ◌≤◌, ◌⊎◌, ℕ, map, Some, None, IsSome};
ghost use Rattle.std.specs.Rc.{rc_str_bytes};
ghost use Rattle.outside.specs.Rose.{Rose};
ghost use Rattle.scenario_reader.specs.declared.fault.LineFault.{LineFault as Fault};
ghost use Rattle.overlay_harness.specs.declared.fault.RunFault.{RunFault as CantRun};
ghost use Rattle.trace_text.specs.declared.fault.TraceFault.{TraceFault as NoTrace};
ghost use Rattle.trace_check.specs.declared.verdict.Part.{Part as WrongPart};
ghost use Rattle.cli_words.specs.declared.mode.Mode.{Mode as Asked};
ghost use Rattle.pastry.specs.Asked.{AskFor, AskForOneThat, AreUsage, NamePlainly};
ghost use Rattle.pastry.specs.Due.{IsDue};
ghost use Rattle.pastry.specs.Checked.{IsNoTrace};
ghost use Rattle.pastry.specs.Faults.{status_of, HasWritten};
ghost use Rattle.pastry.specs.Runs.{IsAtItsText, IsDone, IsFoundWrongIn, IsRefusedIn, ReadsFirst, ReadsInput, ReadsTrace, RunsThreads, limit_of};
ghost use Rattle.pastry.specs.Serving.{HasServed};
ghost use Rattle.pastry.specs.Unfit.{IsUnfit};
ghost use Rattle.node_service.specs.Written.{IsTaken, IsBrokenOff};
ghost use Rattle.pastry.specs.Written.{WasReadByCalls};

use crate::modes::run_mode;
use crate::outcome::{Outcome, TopFault};
use cli_words::{Mode, WordFault, read_words};
use outside::{Sink, Source, Turnstile};
use std::alloc::Global;
use std::rc::RcStr;
use std::sync::Wait;
use std::thread::Threads;

/// One run of the program. The words ask for a mode: `play` reads a scenario from the source, plays it, and writes its report to
/// the sink; `run` runs it, with each node as a thread, and writes the report of what came of that; `trace` plays it, or runs it
/// if the words have `--threads`, and writes the record itself; `messages` plays it, and writes every message with its number, for
/// people; `points` plays it with access points; `groups` reads a script of groups, plays its scenario and then its groups, and
/// writes the reports of both; `big` plays a scenario that it makes, and writes its summary; `large` plays one that stores a large
/// file and fetches it again, and writes what came of the file; `check` reads a trace, and writes whether its record is legal or
/// where it is wrong first; `draw` reads one, and writes a picture of it. The text is whole in memory before its first byte is
/// written. `node` is one node, which answers each line of the source before it reads on.
pub fn top<R: Threads + Wait + Sync, S: Source, K: Sink, T: Turnstile + Sync>(
    rt: &R,
    alloc: Global,
    words: &[RcStr],
    source: &mut S,
    sink: &mut K,
    turnstile: &T,
) -> Outcome
    // The status is that of the fault. A record is handed out with status 0 and 5 alone. Nothing is written but with these, and
    // with the fault that a record is wrong; a node that is served may have answered whatever ends it.
    ensures status { result.status ≡ status_of result.fault }
    ensures played { IsSome result.played → (result.fault ≡ None) ⊎ (result.fault ≡ Some TopFault.Write) }
    ensures nothing_written { ¬ HasWritten result.fault → (sink.new ≡ sink.old) ⊎ AskFor (map rc_str_bytes words.now) Mode.OneNode }

    // Without a fault the words ask for a mode, and what it is to do was done, with a record that is handed out. In `play` and
    // `trace` and `messages` the source was read to its end, what it had is a scenario, and that was played; in `big` and `large` one
    // was made and played, and the source is as it was; the record is the scenario's played record. In `points` the scenario that
    // was read was played with access points, and the record is that of this play. In `run`, and in `trace` with threads, what was
    // read is a scenario that can be run, and the record is one of its runs. In `groups` what was read is a script, both its parts
    // were played, and the record is that of part one. In `check` and `draw` the source was read to its end, what it had is a
    // trace, and the record is that of the trace, and legal. In each mode that has a record the headline holds of it, whoever
    // made it: one owner per key, and one plain table of files. The sink took the whole text, by calls that offered each time
    // what was left. With a fault of the sink all is the same, but for the text, which breaks off at the call that failed; and
    // that `check` and `draw` may then have found a record wrong, and hand out none.
    ensures done { result.fault ≡ None → AskForOneThat (map rc_str_bytes words.now) (λ mode. IsDone mode S.left source.old source.new (IsTaken K.takes K.taken sink.old sink.new) result.played) }
    ensures broken_off { result.fault ≡ Some TopFault.Write → AskForOneThat (map rc_str_bytes words.now) (λ mode. IsAtItsText mode S.left source.old source.new (IsBrokenOff K.takes K.taken sink.old sink.new) result.played) }

    // In `node`, which has no record, a node is served: by calls of the source and the sink in turn, of which the answers are those of
    // the node's steps to the lines that came. Where nothing was begun, by words that are refused or for want of memory, the sink is
    // as it was.
    ensures served { (((result.fault ≡ Some TopFault.Usage) ⊎ (result.fault ≡ Some TopFault.OutOfMemory)) × (sink.new ≡ sink.old))
        ⊎ AskForOneThat (map rc_str_bytes words.now) (λ mode. mode ≡ Mode.OneNode → HasServed S.gives S.left K.takes K.taken source.old sink.old result.fault source.new sink.new) }

    // A record is wrong, by the fault, exactly at this entry and this part of it: the source was read to its end, what it had is
    // a trace, and this entry is the first of its record that may not stand where it stands. The sink took the line that says so, or
    // the picture that shows it.
    ensures wrong { (entry : ℕ) (part : WrongPart) → result.fault ≡ Some (TopFault.Wrong entry part) →
        AskForOneThat (map rc_str_bytes words.now) (λ mode. IsFoundWrongIn mode (S.left source.old) (S.left source.new) (IsTaken K.takes K.taken sink.old sink.new) result.played entry part) }

    // Each fault has its cause. Want of memory alone is free. The source is as it was unless the words ask for a mode that reads
    // it; then it was read by calls, of which one that failed was the last. So Usage, `big` and `large` leave it as it is.
    ensures usage { result.fault ≡ Some TopFault.Usage → AreUsage (map rc_str_bytes words.now) }
    ensures nothing_read { result.fault ≡ Some TopFault.Usage → source.new ≡ source.old }
    ensures untouched { (source.new ≡ source.old) ⊎ AskForOneThat (map rc_str_bytes words.now) (λ mode. ReadsInput mode × (ReadsFirst mode → WasReadByCalls (limit_of mode) S.gives source.old source.new (result.fault ≡ Some TopFault.Read))) }
    ensures left_alone { (mode : Asked) → NamePlainly (map rc_str_bytes words.now) mode → ¬ ReadsInput mode → source.new ≡ source.old }
    ensures refused { (f : Fault) → result.fault ≡ Some (TopFault.Scenario f) → AskForOneThat (map rc_str_bytes words.now) (λ mode. IsRefusedIn mode (S.left source.old) (S.left source.new) f) }
    ensures unfit { (f : CantRun) → result.fault ≡ Some (TopFault.Run f) → AskForOneThat (map rc_str_bytes words.now) RunsThreads × IsUnfit (S.left source.old) (S.left source.new) f }
    ensures no_trace { (f : NoTrace) → result.fault ≡ Some (TopFault.Trace f) → AskForOneThat (map rc_str_bytes words.now) ReadsTrace × IsNoTrace (S.left source.old) (S.left source.new) f }
    ensures unread { result.fault ≡ Some TopFault.Read → AskForOneThat (map rc_str_bytes words.now) ReadsInput × Rose (S.faults source.old) (S.faults source.new) }
    ensures unwritten { result.fault ≡ Some TopFault.Write → Rose (K.faults sink.old) (K.faults sink.new) }
    ensures source_count { S.faults source.old ≤ S.faults source.new }
    ensures sink_count { K.faults sink.old ≤ K.faults sink.new }

    // But for want of memory, words are Usage exactly where the command refuses them, and words that ask for a mode are answered
    // as is due in it. Plain words are never Usage, and ask for the mode that they name. Devices whose counts stand at 0 do not
    // fail.
    ensures complete { (result.fault ≡ Some TopFault.OutOfMemory) ⊎ ((result.fault ≡ Some TopFault.Usage) × AreUsage (map rc_str_bytes words.now))
        ⊎ ((mode : Asked) × AskFor (map rc_str_bytes words.now) mode × IsDue mode (Rose (S.faults source.old) (S.faults source.new)) (Rose (K.faults sink.old) (K.faults sink.new)) (S.left source.old) result.fault) }
    ensures plain { (mode : Asked) → NamePlainly (map rc_str_bytes words.now) mode →
        IsDue mode (Rose (S.faults source.old) (S.faults source.new)) (Rose (K.faults sink.old) (K.faults sink.new)) (S.left source.old) result.fault }
    ensures steady { ((t : S) → S.faults t ≡ 0) → ((k : K) → K.faults k ≡ 0) → (mode : Asked) → NamePlainly (map rc_str_bytes words.now) mode →
        IsDue mode ⊥ ⊥ (S.left source.old) result.fault }
{
    match read_words(alloc, words) {
        Ok(mode) => run_mode(rt, alloc, mode, source, sink, turnstile),
        Err(WordFault::Usage) => Outcome::refused(TopFault::Usage),
        Err(WordFault::OutOfMemory) => Outcome::refused(TopFault::OutOfMemory),
    }
}
