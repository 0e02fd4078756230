//! The links and the gates of nodes.

ghost use Rattle.std.specs.Prelude.{◌≡◌, ◌++◌, OnOk};
ghost use Rattle.svg_text.specs.Picture.{each_of, text_of};
ghost use Rattle.ring_picture.specs.Layouts.{IsLayout};
ghost use Rattle.ring_picture.specs.Sides.{gate_picture, gate_track, link_picture, link_track, reach_picture, sides_picture};

use crate::layout::Layout;
use crate::seat::Seat;
use crate::way::{Track, put_way};
use coverage::Reach;
use ring_math::{Direction, Id, OutOfMemory};
use svg_text::Class;
use text_writer::Text;

/// Those of all nodes that are ready.
pub(crate) fn put_sides(text: &mut Text, layout: &Layout, seats: &[Seat]) -> Result<(), OutOfMemory>
    requires { IsLayout layout.now }
    ensures { OnOk result (text.new ≡ text.old ++ text_of (each_of (sides_picture layout.now) seats.now)) }
{
    for seat in seats {
        put_side(text, layout, seat)?;
    }
    Ok(())
}

fn put_side(text: &mut Text, layout: &Layout, seat: &Seat) -> Result<(), OutOfMemory>
    requires { IsLayout layout.now }
    ensures { OnOk result (text.new ≡ text.old ++ text_of (sides_picture layout.now seat.now)) }
{
    match &seat.reach {
        Some(reach) => put_reach(text, layout, reach),
        None => Ok(()),
    }
}

fn put_reach(text: &mut Text, layout: &Layout, reach: &Reach) -> Result<(), OutOfMemory>
    requires { IsLayout layout.now }
    ensures { OnOk result (text.new ≡ text.old ++ text_of (reach_picture layout.now reach.now)) }
{
    put_link(text, layout, Direction::Clockwise, reach.me, reach.right)?;
    put_link(
        text,
        layout,
        Direction::Counterclockwise,
        reach.me,
        reach.left,
    )?;
    put_gate(
        text,
        layout,
        Direction::Clockwise,
        reach.me,
        reach.right_joiner,
    )?;
    put_gate(
        text,
        layout,
        Direction::Counterclockwise,
        reach.me,
        reach.left_joiner,
    )
}

fn put_link(
    text: &mut Text,
    layout: &Layout,
    direction: Direction,
    node: Id,
    link: Id,
) -> Result<(), OutOfMemory>
    requires { IsLayout layout.now }
    ensures { OnOk result (text.new ≡ text.old ++ text_of (link_picture layout.now direction node link)) }
{
    put_way(
        text,
        layout,
        &link_track(layout, direction),
        direction,
        node,
        link,
    )
}

/// The gate of a node on a side, if there is one.
fn put_gate(
    text: &mut Text,
    layout: &Layout,
    direction: Direction,
    node: Id,
    joiner: Option<Id>,
) -> Result<(), OutOfMemory>
    requires { IsLayout layout.now }
    ensures { OnOk result (text.new ≡ text.old ++ text_of (gate_picture layout.now direction node joiner)) }
{
    match joiner {
        Some(joiner) => put_way(text, layout, &gate_track(layout), direction, node, joiner),
        None => Ok(()),
    }
}

/// Links to the right run without the circle, and those to the left within it.
fn link_track(layout: &Layout, direction: Direction) -> Track
    requires { IsLayout layout.now }
    ensures { result ≡ link_track layout.now direction }
{
    let radius = match direction {
        Direction::Clockwise => layout.radius + layout.beside(),
        Direction::Counterclockwise => layout.radius - layout.beside(),
    };
    Track {
        class: Class::Link,
        head: Class::LinkHead,
        radius,
    }
}

fn gate_track(layout: &Layout) -> Track
    requires { IsLayout layout.now }
    ensures { result ≡ gate_track layout.now }
{
    Track {
        class: Class::Gate,
        head: Class::GateHead,
        radius: layout.radius - 5 * layout.beside(),
    }
}
