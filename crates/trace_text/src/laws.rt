//! Laws of the trace text alone, each the contract of a function that does nothing.

ghost use Rattle.std.specs.Prelude.{◌≡◌, ◌↔◌, ℕ, IsSome, List};
ghost use Rattle.std.specs.List.{AllByRecursion};
ghost use Rattle.trace_text.specs.Fronts.{Front, GoesOn, IsFault, KeepsSetting, after, lines_of};
ghost use Rattle.trace_text.specs.Lines.{FitsLine, Line};
ghost use Rattle.trace_text.specs.Traces.{IsTraceOf, PlainTrace};

/// No bytes are the text of two traces.
pub fn a_text_has_one_reading()
    ensures { (bytes : List ℕ) (t u : PlainTrace) → IsTraceOf bytes t → IsTraceOf bytes u → t ≡ u }
{}

/// In no bytes is more than one line the first that may not stand at its place.
pub fn a_text_has_one_fault()
    ensures { (bytes : List ℕ) (m n : ℕ) → IsFault bytes m → IsFault bytes n → m ≡ n }
{}

/// In the text of a trace each line may stand at its place.
pub fn no_trace_has_a_fault()
    ensures { (bytes : List ℕ) (n : ℕ) (t : PlainTrace) → IsTraceOf bytes t → IsFault bytes n → ⊥ }
{}

/// A line may follow a front exactly where some trace has the lines of the front and then this one. So the first line that
/// may not follow is the first with which the text is no longer the beginning of a trace's text.
pub fn a_line_follows_where_a_trace_goes_on()
    ensures { (front : Front) (l : Line) → KeepsSetting front → AllByRecursion FitsLine (lines_of front) → FitsLine l →
        (IsSome (after front l) ↔ GoesOn front l) }
{}
