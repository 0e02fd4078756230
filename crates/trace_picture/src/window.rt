//! Which entries a picture shows.

ghost use Rattle.std.specs.Prelude.{◌≡◌, ◌≤◌, ◌+◌, ℕ};
ghost use Rattle.trace_picture.specs.Window.{after, counted, right, window, wrong_place};

use course_picture::Part;
use trace_check::Verdict;

/// Of a record of `len` entries so many behind the first `from`, and none behind the one that is wrong.
pub(crate) fn window(verdict: &Verdict, len: usize, from: u64, entries: u32) -> Part
    ensures window { result ≡ window verdict.now len from entries }
    ensures within { result.drawn ≤ len }
    ensures stop { result.stop ≤ result.drawn }
    ensures order { result.first ≤ result.stop }
    ensures rows { result.stop ≤ result.first + entries }
{
    let drawn = counted(verdict, len);
    let stop = from.saturating_add(u64::from(entries));
    Part {
        drawn,
        first: from.min(drawn as u64) as usize,
        stop: stop.min(drawn as u64) as usize,
        wrong: wrong_place(verdict),
    }
}

/// After how many entries the ring is shown: after the last that is drawn, or the last that is right.
pub(crate) fn after(verdict: &Verdict, len: usize, part: &Part) -> usize
    ensures after { (from entries : ℕ) → part.now ≡ window verdict.now len from entries → result ≡ after verdict.now len from entries }
    ensures limit { result ≤ len }
{
    part.stop.min(right(verdict, len))
}

/// How many entries count.
fn counted(verdict: &Verdict, len: usize) -> usize
    ensures counted { result ≡ counted verdict.now len }
    ensures limit { result ≤ len }
{
    match verdict {
        Verdict::Legal { .. } => len,
        Verdict::Wrong { entry, .. } => (*entry).min(len as u64) as usize,
    }
}

/// How many of them are right.
fn right(verdict: &Verdict, len: usize) -> usize
    ensures right { result ≡ right verdict.now len }
    ensures limit { result ≤ len }
{
    match verdict {
        Verdict::Legal { .. } => len,
        Verdict::Wrong { entry, .. } => entry.saturating_sub(1).min(len as u64) as usize,
    }
}

/// The place of the one that is wrong.
fn wrong_place(verdict: &Verdict) -> Option<usize>
    ensures { result ≡ wrong_place verdict.now }
{
    match verdict {
        Verdict::Legal { .. } => None,
        Verdict::Wrong { entry, .. } => Some(entry.saturating_sub(1) as usize),
    }
}
