//! Words as they may stand in a picture.

ghost use Rattle.std.specs.Prelude.{◌≡◌, ◌++◌, OnOk};
ghost use Rattle.svg_text.specs.Escaped.{escape, escaped};

use ring_math::OutOfMemory;
use text_writer::Text;

/// Words: `&`, `<`, `>` and the double quote are spelled, and what is no printable letter of ASCII is a question mark.
pub fn put_escaped(text: &mut Text, words: &[u8]) -> Result<(), OutOfMemory>
    ensures { OnOk result (text.new ≡ text.old ++ escaped words.now) }
{
    for letter in words {
        put_letter(text, *letter)?;
    }
    Ok(())
}

fn put_letter(text: &mut Text, letter: u8) -> Result<(), OutOfMemory>
    ensures { OnOk result (text.new ≡ text.old ++ escape letter) }
{
    match letter {
        b'&' => text.put(b"&amp;"),
        b'<' => text.put(b"&lt;"),
        b'>' => text.put(b"&gt;"),
        b'"' => text.put(b"&quot;"),
        b' '..=b'~' => text.put(&[letter]),
        _ => text.put(b"?"),
    }
}
