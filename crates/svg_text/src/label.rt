//! What nodes and keys are called in pictures, and the order that nodes have there.

ghost use Rattle.std.specs.Prelude.{◌≡◌, ◌++◌, OnOk};
ghost use Rattle.svg_text.specs.Labels.{rank_in, short_of};

use ring_math::{Id, OutOfMemory, id_to_hex};
use text_writer::Text;

/// How many digits of an identifier stand for it.
const SHORT: usize = 8;

/// The first 8 digits of an identifier.
pub fn short_label(id: Id) -> [u8; 8]
    ensures { result ≡ short_of id }
{
    let digits = id_to_hex(id);
    let mut short = [0; SHORT];
    short.copy_from_slice(&digits[..SHORT]);
    short
}

/// A word and the first 8 digits of an identifier.
pub fn put_short(text: &mut Text, word: &[u8], id: Id) -> Result<(), OutOfMemory>
    ensures { OnOk result (text.new ≡ text.old ++ (word.now ++ short_of id)) }
{
    text.put(word)?;
    text.put(&short_label(id))
}

/// How many of these are less: the place of a node among them, from 0.
pub fn rank(ids: &[Id], id: Id) -> usize
    ensures { result ≡ rank_in ids.now id }
{
    let mut less: usize = 0;
    for other in ids {
        if other.0 < id.0 {
            less += 1;
        }
    }
    less
}
