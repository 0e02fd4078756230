//! Arrows along the circle.

ghost use Rattle.std.specs.Prelude.{◌≡◌, ◌+◌, ◌≤◌, ◌++◌, OnOk};
ghost use Rattle.svg_text.specs.Picture.{text_of};
ghost use Rattle.ring_picture.specs.Layouts.{IsLayout};
ghost use Rattle.ring_picture.specs.Ways.{arc_picture, head_at_top, way_arc, way_picture};

use crate::angle::{TURN, angle_of, length_of, span_of};
use crate::layout::Layout;
use ring_math::{Direction, Id, OutOfMemory};
use svg_text::{Class, Point, close_group, open_turned, put_arc, put_triangle};
use text_writer::Text;

/// Where arrows of a kind run.
#[derive(Clone, Copy, PartialEq, Eq, Debug)]
pub struct Track {
    /// What they stand for.
    pub class: Class,
    /// What their heads stand for.
    pub head: Class,
    /// How far they are from the middle.
    pub radius: u32,
}

/// An arrow along a track, from one identifier to another.
pub(crate) fn put_way(
    text: &mut Text,
    layout: &Layout,
    track: &Track,
    direction: Direction,
    from: Id,
    to: Id,
) -> Result<(), OutOfMemory>
    requires layout { IsLayout layout.now }
    requires low { 10 ≤ track.now.radius }
    requires high { track.now.radius + 20 ≤ layout.now.center }
    ensures { OnOk result (text.new ≡ text.old ++ text_of (way_picture layout.now track.now direction from to)) }
{
    put_way_arc(text, layout, track, direction, from, to)?;
    open_turned(text, angle_of(to), layout.middle())?;
    put_head(
        text,
        layout,
        track.head,
        layout.center - track.radius,
        direction,
    )?;
    close_group(text)
}

/// The arc of an arrow.
fn put_way_arc(
    text: &mut Text,
    layout: &Layout,
    track: &Track,
    direction: Direction,
    from: Id,
    to: Id,
) -> Result<(), OutOfMemory>
    requires layout { IsLayout layout.now }
    requires high { track.now.radius ≤ layout.now.center }
    ensures { OnOk result (text.new ≡ text.old ++ text_of (way_arc layout.now track.now direction from to)) }
{
    match direction {
        Direction::Clockwise => {
            let span = span_of(from, to);
            put_part(
                text,
                layout,
                track.class,
                track.radius,
                angle_of(from),
                span,
            )
        }
        Direction::Counterclockwise => {
            let span = span_of(to, from);
            put_part(text, layout, track.class, track.radius, angle_of(to), span)
        }
    }
}

/// A part of the circle of this radius, from one angle on clockwise by another.
pub(crate) fn put_part(
    text: &mut Text,
    layout: &Layout,
    class: Class,
    radius: u32,
    from: u32,
    angle: u32,
) -> Result<(), OutOfMemory>
    requires layout { IsLayout layout.now }
    requires high { radius ≤ layout.now.center }
    requires angle { angle ≤ TURN }
    ensures { OnOk result (text.new ≡ text.old ++ text_of (arc_picture layout.now class radius from angle)) }
{
    open_turned(text, from, layout.middle())?;
    put_arc(
        text,
        class,
        layout.top(radius),
        radius,
        length_of(radius, angle),
    )?;
    close_group(text)
}

/// A head that comes to a node at the top, at this height.
fn put_head(
    text: &mut Text,
    layout: &Layout,
    class: Class,
    y: u32,
    direction: Direction,
) -> Result<(), OutOfMemory>
    requires layout { IsLayout layout.now }
    requires low { 10 ≤ y }
    requires high { y ≤ 1000 }
    ensures { OnOk result (text.new ≡ text.old ++ text_of (head_at_top layout.now class y direction)) }
{
    let half = layout.beside();
    let (tail, tip) = match direction {
        Direction::Clockwise => (
            layout.center - (2 * layout.dot + 2),
            layout.center - layout.dot,
        ),
        Direction::Counterclockwise => {
            (
                layout.center + (2 * layout.dot + 2),
                layout.center + layout.dot,
            )
        }
    };
    put_triangle(
        text,
        class,
        Point {
            x: tail,
            y: y - half,
        },
        Point { x: tip, y },
        Point {
            x: tail,
            y: y + half,
        },
    )
}
