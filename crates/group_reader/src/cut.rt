//! The two parts of a script's bytes.

ghost use Rattle.std.specs.Prelude.{◌≡◌, ◌+◌, ◌<◌, ◌≤◌, ◌∷◌, [], drop, length, option_map, take};
ghost use Rattle.scenario_reader.specs.Lines.{lines_of};
ghost use Rattle.group_reader.specs.Parts.{IsClosed, is_mark, part_one, part_two};

use memchr::memchr;

/// The bytes before the first line that is exactly `groups`, how many lines they are, and the bytes behind that line, if there
/// is such a line.
#[derive(Clone, Copy)]
pub(crate) struct Parts<'a> {
    pub(crate) before: &'a [u8],
    pub(crate) lines: usize,
    pub(crate) behind: Option<&'a [u8]>,
}

/// The two parts of these bytes.
pub(crate) fn parts_of(bytes: &[u8]) -> Parts<'_>
    ensures before { lines_of result.before.now ≡ part_one (lines_of bytes.now) }
    ensures lines { result.lines ≡ length (part_one (lines_of bytes.now)) }
    ensures behind { option_map (λ text. lines_of text.now) result.behind ≡ part_two (lines_of bytes.now) }
{
    let mut from = 0;
    let mut lines = 0;
    while from < bytes.len() {
        let rest = &bytes[from..];
        let end = line_end(rest);
        let next = (end + 1).min(rest.len());
        if is_mark(&rest[..end]) {
            return Parts {
                before: &bytes[..from],
                lines,
                behind: Some(&rest[next..]),
            };
        }
        from += next;
        lines += 1;
    }
    Parts {
        before: bytes,
        lines,
        behind: None,
    }
}

/// Where the first line ends.
fn line_end(text: &[u8]) -> usize
    requires { 0 < length text.now }
    ensures within { result ≤ length text.now }
    ensures lines { lines_of text.now ≡ take result text.now ∷ lines_of (drop (result + 1) text.now) }
    ensures alone { lines_of (take (result + 1) text.now) ≡ take result text.now ∷ [] }
    ensures closed { result < length text.now → IsClosed (take (result + 1) text.now) }
{
    match memchr(b'\n', text) {
        Some(end) => end,
        None => text.len(),
    }
}

fn is_mark(line: &[u8]) -> bool
    ensures { result ≡ is_mark line.now }
{
    line == b"groups".as_slice()
}
