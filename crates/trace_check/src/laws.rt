//! What the verdict on a record is: laws, which do nothing.

ghost use Rattle.std.specs.Prelude.{◌≡◌, List};
ghost use Rattle.overlay_rules.specs.declared.entry.Entry.{Entry as PlainEntry};
ghost use Rattle.overlay_rules.specs.Record.{Setting};
ghost use Rattle.trace_check.specs.declared.verdict.Verdict.{Verdict as PlainVerdict};
ghost use Rattle.trace_check.specs.Verdicts.{IsVerdict};

/// A record has one verdict.
pub fn a_record_has_one_verdict()
    ensures { (g : Setting) (entries : List PlainEntry) (v w : PlainVerdict) → IsVerdict g entries v → IsVerdict g entries w → v ≡ w }
{}
