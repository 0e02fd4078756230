//! What is said of the ring in its middle, and what its marks mean.

ghost use Rattle.std.specs.Prelude.{◌≡◌, ◌++◌, OnOk};
ghost use Rattle.svg_text.specs.Picture.{text_of};
ghost use Rattle.ring_picture.specs.Captions.{after_picture, caption_picture, key_legend, legend_picture, legend_words, node_legend, ready_picture, side_legend};
ghost use Rattle.ring_picture.specs.Layouts.{IsLayout};

use crate::layout::Layout;
use ring_math::OutOfMemory;
use std::alloc::Global;
use svg_text::{Class, Point, put_circle, put_line, put_triangle, put_words};
use text_writer::Text;

/// After how many entries, and how many nodes of how many are ready.
pub(crate) fn put_caption(
    alloc: Global,
    text: &mut Text,
    layout: &Layout,
    after: u64,
    ready: u64,
    nodes: u64,
) -> Result<(), OutOfMemory>
    requires { IsLayout layout.now }
    ensures { OnOk result (text.new ≡ text.old ++ text_of (caption_picture layout.now after ready nodes)) }
{
    put_after(alloc, text, layout, after)?;
    put_ready(alloc, text, layout, ready, nodes)
}

fn put_after(alloc: Global, text: &mut Text, layout: &Layout, after: u64) -> Result<(), OutOfMemory>
    requires { IsLayout layout.now }
    ensures { OnOk result (text.new ≡ text.old ++ text_of (after_picture layout.now after)) }
{
    let mut words = Text::new(alloc);
    words.number_after(b"after entry ", after)?;
    let at = Point {
        x: layout.center,
        y: layout.center - 4,
    };
    put_words(text, Class::LabelMiddle, at, words.into_frame().as_slice())
}

fn put_ready(
    alloc: Global,
    text: &mut Text,
    layout: &Layout,
    ready: u64,
    nodes: u64,
) -> Result<(), OutOfMemory>
    requires { IsLayout layout.now }
    ensures { OnOk result (text.new ≡ text.old ++ text_of (ready_picture layout.now ready nodes)) }
{
    let mut words = Text::new(alloc);
    words.number_after(b"ready ", ready)?;
    words.number_after(b" of ", nodes)?;
    let at = Point {
        x: layout.center,
        y: layout.center + 12,
    };
    put_words(text, Class::LabelMiddle, at, words.into_frame().as_slice())
}

/// What the marks mean.
pub(crate) fn put_legend(text: &mut Text) -> Result<(), OutOfMemory>
    ensures { OnOk result (text.new ≡ text.old ++ text_of legend_picture) }
{
    put_node_legend(text)?;
    put_side_legend(text)?;
    put_key_legend(text)
}

/// The words beside a mark.
fn put_legend_words(text: &mut Text, y: u32, words: &[u8]) -> Result<(), OutOfMemory>
    ensures { OnOk result (text.new ≡ text.old ++ text_of (legend_words y words.now)) }
{
    put_words(text, Class::Faint, Point { x: 28, y }, words)
}

fn put_node_legend(text: &mut Text) -> Result<(), OutOfMemory>
    ensures { OnOk result (text.new ≡ text.old ++ text_of node_legend) }
{
    put_circle(text, Class::Ready, Point { x: 15, y: 12 }, 4)?;
    put_legend_words(text, 15, b"ready")?;
    put_circle(text, Class::Joiner, Point { x: 15, y: 26 }, 4)?;
    put_legend_words(text, 29, b"not ready")
}

fn put_side_legend(text: &mut Text) -> Result<(), OutOfMemory>
    ensures { OnOk result (text.new ≡ text.old ++ text_of side_legend) }
{
    put_line(
        text,
        Class::Link,
        Point { x: 8, y: 40 },
        Point { x: 22, y: 40 },
    )?;
    put_legend_words(text, 43, b"links")?;
    put_line(
        text,
        Class::Gate,
        Point { x: 8, y: 54 },
        Point { x: 22, y: 54 },
    )?;
    put_legend_words(text, 57, b"gate for a joiner")
}

fn put_key_legend(text: &mut Text) -> Result<(), OutOfMemory>
    ensures { OnOk result (text.new ≡ text.old ++ text_of key_legend) }
{
    let top = Point { x: 15, y: 62 };
    let right = Point { x: 20, y: 70 };
    let left = Point { x: 10, y: 70 };
    put_triangle(text, Class::Key, top, right, left)?;
    put_legend_words(text, 71, b"key of a file, to its owner")
}
