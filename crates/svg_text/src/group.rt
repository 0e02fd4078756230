//! Groups of pieces. What stands in one is written between its beginning and its end.

ghost use Rattle.std.specs.Prelude.{◌≡◌, ◌++◌, OnOk};
ghost use Rattle.svg_text.specs.Pieces.{group_end, moved_head, titled_head, turned_head};

use crate::escape::put_escaped;
use crate::piece::{put_corner, put_thousandths};
use crate::point::Point;
use ring_math::OutOfMemory;
use text_writer::Text;

/// A group that is turned clockwise about a place begins. The angle is in thousandths of a degree.
pub fn open_turned(text: &mut Text, angle: u32, about: Point) -> Result<(), OutOfMemory>
    ensures { OnOk result (text.new ≡ text.old ++ turned_head angle about) }
{
    text.put(b"<g transform='rotate(")?;
    put_thousandths(text, u64::from(angle))?;
    put_corner(text, b",", about)?;
    text.put(b")'>\n")
}

/// A group that is moved to the right and downwards begins.
pub fn open_moved(text: &mut Text, by: Point) -> Result<(), OutOfMemory>
    ensures { OnOk result (text.new ≡ text.old ++ moved_head by) }
{
    put_corner(text, b"<g transform='translate(", by)?;
    text.put(b")'>\n")
}

/// A group begins that shows these words, escaped, where it is pointed at.
pub fn open_titled(text: &mut Text, words: &[u8]) -> Result<(), OutOfMemory>
    ensures { OnOk result (text.new ≡ text.old ++ titled_head words.now) }
{
    text.put(b"<g><title>")?;
    put_escaped(text, words)?;
    text.put(b"</title>\n")
}

/// A group ends.
pub fn close_group(text: &mut Text) -> Result<(), OutOfMemory>
    ensures { OnOk result (text.new ≡ text.old ++ group_end) }
{
    text.put(b"</g>\n")
}
