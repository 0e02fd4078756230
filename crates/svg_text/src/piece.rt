//! Single pieces of a picture.

ghost use Rattle.std.specs.Prelude.{◌≡◌, ◌++◌, OnOk, codes, decimal};
ghost use Rattle.svg_text.specs.Classes.{class_text};
ghost use Rattle.svg_text.specs.Escaped.{escaped};
ghost use Rattle.svg_text.specs.Picture as picture;
ghost use Rattle.svg_text.specs.Picture.{text_of};
ghost use Rattle.svg_text.specs.Pieces.{corner_text, dash_text, half_text, place_text};
ghost use Rattle.svg_text.specs.Thousandths.{thousandths_text};

use crate::class::{Class, put_class};
use crate::escape::put_escaped;
use crate::point::Point;
use ring_math::OutOfMemory;
use text_writer::Text;

/// A line from one place to another.
pub fn put_line(text: &mut Text, class: Class, from: Point, to: Point) -> Result<(), OutOfMemory>
    ensures { OnOk result (text.new ≡ text.old ++ text_of (picture.Line class from to)) }
{
    put_open(text, b"<line class='", class)?;
    put_place(text, b"' x1='", b"' y1='", from)?;
    put_place(text, b"' x2='", b"' y2='", to)?;
    text.put(b"'/>\n")
}

/// A circle.
pub fn put_circle(
    text: &mut Text,
    class: Class,
    center: Point,
    radius: u32,
) -> Result<(), OutOfMemory>
    ensures { OnOk result (text.new ≡ text.old ++ text_of (picture.Circle class center radius)) }
{
    put_open(text, b"<circle class='", class)?;
    put_place(text, b"' cx='", b"' cy='", center)?;
    put_radius(text, radius)
}

/// A rectangle, by its upper left corner.
pub fn put_rect(
    text: &mut Text,
    class: Class,
    corner: Point,
    size: Point,
) -> Result<(), OutOfMemory>
    ensures { OnOk result (text.new ≡ text.old ++ text_of (picture.Rect class corner size)) }
{
    put_open(text, b"<rect class='", class)?;
    put_place(text, b"' x='", b"' y='", corner)?;
    put_place(text, b"' width='", b"' height='", size)?;
    text.put(b"'/>\n")
}

/// A triangle.
pub fn put_triangle(
    text: &mut Text,
    class: Class,
    a: Point,
    b: Point,
    c: Point,
) -> Result<(), OutOfMemory>
    ensures { OnOk result (text.new ≡ text.old ++ text_of (picture.Triangle class a b c)) }
{
    put_open(text, b"<polygon class='", class)?;
    put_corner(text, b"' points='", a)?;
    put_two_corners(text, b, c)?;
    text.put(b"'/>\n")
}

/// A part of the circle with this top and radius: clockwise from the top on, as long as `length` says in thousandths. It is the
/// whole circle where that is more, and the circle is to be shorter than 9999.
pub fn put_arc(
    text: &mut Text,
    class: Class,
    top: Point,
    radius: u32,
    length: u64,
) -> Result<(), OutOfMemory>
    ensures { OnOk result (text.new ≡ text.old ++ text_of (picture.Arc class top radius length)) }
{
    put_open(text, b"<path class='", class)?;
    put_corner(text, b"' d='M", top)?;
    put_both_halves(text, radius)?;
    put_dash(text, length)
}

/// Words at a place; they are escaped.
pub fn put_words(text: &mut Text, class: Class, at: Point, words: &[u8]) -> Result<(), OutOfMemory>
    ensures { OnOk result (text.new ≡ text.old ++ text_of (picture.Words class at words.now)) }
{
    put_open(text, b"<text class='", class)?;
    put_place(text, b"' x='", b"' y='", at)?;
    put_inside(text, words)
}

/// How a piece begins, and its class.
fn put_open(text: &mut Text, word: &[u8], class: Class) -> Result<(), OutOfMemory>
    ensures { OnOk result (text.new ≡ text.old ++ (word.now ++ class_text class)) }
{
    text.put(word)?;
    put_class(text, class)
}

/// How far a place is to the right and downwards, each behind a word.
pub(crate) fn put_place(
    text: &mut Text,
    across: &[u8],
    down: &[u8],
    at: Point,
) -> Result<(), OutOfMemory>
    ensures { OnOk result (text.new ≡ text.old ++ place_text across.now down.now at) }
{
    text.number_after(across, u64::from(at.x))?;
    text.number_after(down, u64::from(at.y))
}

/// A word and a place.
pub(crate) fn put_corner(text: &mut Text, word: &[u8], at: Point) -> Result<(), OutOfMemory>
    ensures { OnOk result (text.new ≡ text.old ++ corner_text word.now at) }
{
    put_place(text, word, b",", at)
}

/// The radius of a circle, and its end.
fn put_radius(text: &mut Text, radius: u32) -> Result<(), OutOfMemory>
    ensures { OnOk result (text.new ≡ text.old ++ (codes "' r='" ++ decimal radius ++ codes "'/>\n")) }
{
    text.number_after(b"' r='", u64::from(radius))?;
    text.put(b"'/>\n")
}

fn put_two_corners(text: &mut Text, b: Point, c: Point) -> Result<(), OutOfMemory>
    ensures { OnOk result (text.new ≡ text.old ++ (corner_text (codes " ") b ++ corner_text (codes " ") c)) }
{
    put_corner(text, b" ", b)?;
    put_corner(text, b" ", c)
}

/// The words of a piece, and its end.
fn put_inside(text: &mut Text, words: &[u8]) -> Result<(), OutOfMemory>
    ensures { OnOk result (text.new ≡ text.old ++ (codes "'>" ++ escaped words.now ++ codes "</text>\n")) }
{
    text.put(b"'>")?;
    put_escaped(text, words)?;
    text.put(b"</text>\n")
}

/// A circle from its top on, downwards and back.
fn put_both_halves(text: &mut Text, radius: u32) -> Result<(), OutOfMemory>
    ensures { OnOk result (text.new ≡ text.old ++ (half_text (codes ",") radius ++ half_text (codes ",-") radius)) }
{
    put_half(text, b",", radius)?;
    put_half(text, b",-", radius)
}

fn put_half(text: &mut Text, word: &[u8], radius: u32) -> Result<(), OutOfMemory>
    ensures { OnOk result (text.new ≡ text.old ++ half_text word.now radius) }
{
    text.number_after(b" a", u64::from(radius))?;
    text.number_after(b",", u64::from(radius))?;
    text.put(b" 0 1 1 0")?;
    text.number_after(word, 2 * u64::from(radius))
}

/// How long the dash of a piece is, and its end.
fn put_dash(text: &mut Text, length: u64) -> Result<(), OutOfMemory>
    ensures { OnOk result (text.new ≡ text.old ++ dash_text length) }
{
    text.put(b"' stroke-dasharray='")?;
    put_thousandths(text, length)?;
    text.put(b" 9999'/>\n")
}

/// A decimal of three places, made from thousandths.
pub(crate) fn put_thousandths(text: &mut Text, thousandths: u64) -> Result<(), OutOfMemory>
    ensures { OnOk result (text.new ≡ text.old ++ thousandths_text thousandths) }
{
    text.number(thousandths / 1000)?;
    text.number_after(b".", thousandths / 100 % 10)?;
    text.number(thousandths / 10 % 10)?;
    text.number(thousandths % 10)
}
