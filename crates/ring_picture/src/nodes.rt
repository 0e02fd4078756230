//! The nodes: dots with labels.

ghost use Rattle.std.specs.Prelude.{◌≡◌, ◌+◌, ◌≤◌, ◌<◌, ◌++◌, OnOk};
ghost use Rattle.svg_text.specs.Picture.{each_of, text_of};
ghost use Rattle.ring_picture.specs.Layouts.{IsLayout};
ghost use Rattle.ring_picture.specs.Nodes.{dot_class, dot_picture, guide_picture, label_class, label_picture, label_radius, label_turn, marks_picture, node_in_tier, node_picture, tier_of};

use crate::angle::angle_of;
use crate::layout::{LABEL_ROOM, Layout};
use crate::seat::Seat;
use ring_math::{Id, OutOfMemory, id_to_hex};
use svg_text::{
    Class, Point, close_group, open_titled, open_turned, put_circle, put_line, put_words, rank,
    short_label,
};
use text_writer::Text;

/// Where the right half of the circle ends.
pub(crate) const HALF_TURN: u32 = 180_000;

pub(crate) fn put_nodes(
    text: &mut Text,
    layout: &Layout,
    nodes: &[Id],
    seats: &[Seat],
) -> Result<(), OutOfMemory>
    requires { IsLayout layout.now }
    ensures { OnOk result (text.new ≡ text.old ++ text_of (each_of (node_picture layout.now nodes.now) seats.now)) }
{
    for seat in seats {
        let tier = tier_of(layout, nodes, seat.id);
        put_node(text, layout, tier, seat)?;
    }
    Ok(())
}

/// The tier of a label: those that stand beside one another have different ones.
pub(crate) fn tier_of(layout: &Layout, nodes: &[Id], id: Id) -> u32
    requires { IsLayout layout.now }
    ensures tier { result ≡ tier_of layout.now nodes.now id }
    ensures limit { result < layout.now.tiers }
{
    (rank(nodes, id) % layout.tiers) as u32
}

fn put_node(text: &mut Text, layout: &Layout, tier: u32, seat: &Seat) -> Result<(), OutOfMemory>
    requires layout { IsLayout layout.now }
    requires tier { tier < layout.now.tiers }
    ensures { OnOk result (text.new ≡ text.old ++ text_of (node_in_tier layout.now tier seat.now)) }
{
    open_titled(text, &id_to_hex(seat.id))?;
    open_turned(text, angle_of(seat.id), layout.middle())?;
    put_marks(text, layout, tier, seat)?;
    close_group(text)?;
    close_group(text)
}

fn put_marks(text: &mut Text, layout: &Layout, tier: u32, seat: &Seat) -> Result<(), OutOfMemory>
    requires layout { IsLayout layout.now }
    requires tier { tier < layout.now.tiers }
    ensures { OnOk result (text.new ≡ text.old ++ text_of (marks_picture layout.now tier seat.now)) }
{
    put_guide(text, layout, tier)?;
    put_dot(text, layout, seat)?;
    put_label(text, layout, label_radius(layout, tier), seat.id)
}

/// The dot of a node, which is filled where it is ready.
fn put_dot(text: &mut Text, layout: &Layout, seat: &Seat) -> Result<(), OutOfMemory>
    requires { IsLayout layout.now }
    ensures { OnOk result (text.new ≡ text.old ++ text_of (dot_picture layout.now seat.now)) }
{
    let class = dot_class(seat.reach.is_some());
    put_circle(text, class, layout.top(layout.radius), layout.dot)
}

fn dot_class(is_ready: bool) -> Class
    ensures { result ≡ dot_class is_ready }
{
    if is_ready {
        Class::Ready
    } else {
        Class::Joiner
    }
}

/// A light line to a label that does not begin beside its node.
fn put_guide(text: &mut Text, layout: &Layout, tier: u32) -> Result<(), OutOfMemory>
    requires layout { IsLayout layout.now }
    requires tier { tier < layout.now.tiers }
    ensures { OnOk result (text.new ≡ text.old ++ text_of (guide_picture layout.now tier)) }
{
    if tier == 0 {
        return Ok(());
    }
    let near = layout.top(layout.radius + layout.dot + 2);
    let far = layout.top(label_radius(layout, tier) - 2);
    put_line(text, Class::Guide, near, far)
}

/// The radius at which labels of a tier begin.
fn label_radius(layout: &Layout, tier: u32) -> u32
    requires layout { IsLayout layout.now }
    requires tier { tier < layout.now.tiers }
    ensures radius { result ≡ label_radius layout.now tier }
    ensures limit { result + LABEL_ROOM ≤ layout.now.center }
{
    layout.radius + 14 + LABEL_ROOM * tier
}

/// The first digits of an identifier at this radius.
fn put_label(text: &mut Text, layout: &Layout, radius: u32, id: Id) -> Result<(), OutOfMemory>
    requires layout { IsLayout layout.now }
    requires radius { radius ≤ layout.now.center }
    ensures { OnOk result (text.new ≡ text.old ++ text_of (label_picture layout.now radius id)) }
{
    let at = Point {
        x: layout.center,
        y: layout.center - radius + 3,
    };
    open_turned(text, label_turn(id), layout.top(radius))?;
    put_words(text, label_class(id), at, &short_label(id))?;
    close_group(text)
}

/// How a label is turned so that it can be read: outwards on the right half of the circle, and inwards on the left half.
pub(crate) fn label_turn(id: Id) -> u32
    ensures { result ≡ label_turn id }
{
    if angle_of(id) < HALF_TURN {
        270_000
    } else {
        90_000
    }
}

fn label_class(id: Id) -> Class
    ensures { result ≡ label_class id }
{
    if angle_of(id) < HALF_TURN {
        Class::Label
    } else {
        Class::LabelEnd
    }
}
