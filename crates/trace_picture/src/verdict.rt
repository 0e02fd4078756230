//! What a picture says of the verdict.

ghost use Rattle.std.specs.Prelude.{◌≡◌, ◌++◌, OnOk};
ghost use Rattle.svg_text.specs.Picture.{text_of};
ghost use Rattle.trace_picture.specs.Verdicts.{verdict_picture, wrong_words};

use ring_math::OutOfMemory;
use std::alloc::Global;
use svg_text::{Class, Point, put_words};
use text_writer::Text;
use trace_check::{Part, Verdict};

/// Writes the verdict, in the words of the check, at a place.
pub(crate) fn put_verdict(
    alloc: Global,
    text: &mut Text,
    at: Point,
    verdict: &Verdict,
) -> Result<(), OutOfMemory>
    ensures { OnOk result (text.new ≡ text.old ++ text_of (verdict_picture at verdict.now)) }
{
    match verdict {
        Verdict::Legal { .. } => put_words(text, Class::Label, at, b"legal"),
        Verdict::Wrong { entry, part } => {
            let mut words = Text::new(alloc);
            put_wrong(&mut words, *entry, *part)?;
            put_words(text, Class::Wrong, at, words.into_frame().as_slice())
        }
    }
}

/// Which entry is wrong, and what of it.
fn put_wrong(words: &mut Text, entry: u64, part: Part) -> Result<(), OutOfMemory>
    ensures { OnOk result (words.new ≡ words.old ++ wrong_words entry part) }
{
    words.number_after(b"wrong entry ", entry)?;
    words.put(b" ")?;
    words.put(part.word())
}
