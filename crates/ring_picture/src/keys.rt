//! The keys of files, each with an arrow to its owner.

ghost use Rattle.std.specs.Prelude.{◌≡◌, ◌<◌, ◌≤◌, ◌++◌, OnOk};
ghost use Rattle.svg_text.specs.Picture.{each_of, text_of};
ghost use Rattle.ring_picture.specs.Keys.{along_picture, key_class, key_guide, key_in_tier, key_label, key_picture, key_radius, mark_picture, outwards_picture, owner_picture, titled_key};
ghost use Rattle.ring_picture.specs.Layouts.{IsLayout};

use crate::angle::{angle_of, turned_by};
use crate::layout::{LABEL_ROOM, Layout};
use crate::nodes::{HALF_TURN, label_turn, tier_of};
use crate::seat::owner_of;
use crate::way::put_part;
use ring_math::{Id, OutOfMemory, cw, id_to_hex};
use svg_text::{
    Class, Point, close_group, open_titled, open_turned, put_line, put_triangle, put_words,
    short_label,
};
use text_writer::Text;

/// How far keys are within the circle.
pub(crate) const KEY_ROOM: u32 = 46;

/// Keys, whose owners are among these nodes.
pub(crate) fn put_keys(
    text: &mut Text,
    layout: &Layout,
    ready: &[Id],
    keys: &[Id],
) -> Result<(), OutOfMemory>
    requires { IsLayout layout.now }
    ensures { OnOk result (text.new ≡ text.old ++ text_of (each_of (key_picture layout.now ready.now keys.now) keys.now)) }
{
    for key in keys {
        let tier = tier_of(layout, keys, *key);
        put_key(text, layout, ready, tier, *key)?;
    }
    Ok(())
}

fn put_key(
    text: &mut Text,
    layout: &Layout,
    ready: &[Id],
    tier: u32,
    key: Id,
) -> Result<(), OutOfMemory>
    requires layout { IsLayout layout.now }
    requires tier { tier < layout.now.tiers }
    ensures { OnOk result (text.new ≡ text.old ++ text_of (key_in_tier layout.now ready.now tier key)) }
{
    put_owner(text, layout, key, owner_of(ready, key))?;
    put_titled_key(text, layout, tier, key)
}

/// The way from a key to its owner, if there is one.
fn put_owner(
    text: &mut Text,
    layout: &Layout,
    key: Id,
    owner: Option<Id>,
) -> Result<(), OutOfMemory>
    requires { IsLayout layout.now }
    ensures { OnOk result (text.new ≡ text.old ++ text_of (owner_picture layout.now key owner)) }
{
    match owner {
        Some(owner) => {
            put_along(text, layout, key, owner)?;
            put_outwards(text, layout, owner)
        }
        None => Ok(()),
    }
}

/// Along the circle, the shorter way.
fn put_along(text: &mut Text, layout: &Layout, key: Id, owner: Id) -> Result<(), OutOfMemory>
    requires { IsLayout layout.now }
    ensures { OnOk result (text.new ≡ text.old ++ text_of (along_picture layout.now key owner)) }
{
    let radius = key_radius(layout);
    let there = cw(key, owner);
    let back = cw(owner, key);
    if there <= back {
        let angle = turned_by(there);
        put_part(text, layout, Class::Owner, radius, angle_of(key), angle)
    } else {
        let angle = turned_by(back);
        put_part(text, layout, Class::Owner, radius, angle_of(owner), angle)
    }
}

/// And then outwards to the owner.
fn put_outwards(text: &mut Text, layout: &Layout, owner: Id) -> Result<(), OutOfMemory>
    requires { IsLayout layout.now }
    ensures { OnOk result (text.new ≡ text.old ++ text_of (outwards_picture layout.now owner)) }
{
    let from = layout.top(key_radius(layout));
    let to = layout.top(layout.radius - (layout.dot + 1));
    open_turned(text, angle_of(owner), layout.middle())?;
    put_line(text, Class::OwnerHead, from, to)?;
    close_group(text)
}

fn put_titled_key(text: &mut Text, layout: &Layout, tier: u32, key: Id) -> Result<(), OutOfMemory>
    requires layout { IsLayout layout.now }
    requires tier { tier < layout.now.tiers }
    ensures { OnOk result (text.new ≡ text.old ++ text_of (titled_key layout.now tier key)) }
{
    open_titled(text, &id_to_hex(key))?;
    open_turned(text, angle_of(key), layout.middle())?;
    put_mark(text, layout, layout.center - key_radius(layout), tier, key)?;
    close_group(text)?;
    close_group(text)
}

/// The triangle of a key that stands at the top at this height, and its label.
fn put_mark(text: &mut Text, layout: &Layout, y: u32, tier: u32, key: Id) -> Result<(), OutOfMemory>
    requires layout { IsLayout layout.now }
    requires tier { tier < layout.now.tiers }
    requires low { 5 ≤ y }
    requires high { y ≤ 1000 }
    ensures { OnOk result (text.new ≡ text.old ++ text_of (mark_picture layout.now y tier key)) }
{
    let x = layout.center;
    let top = Point { x, y: y - 5 };
    let right = Point { x: x + 5, y: y + 3 };
    let left = Point { x: x - 5, y: y + 3 };
    put_triangle(text, Class::Key, top, right, left)?;
    put_key_guide(text, layout, y, tier)?;
    put_key_label(text, layout, y + LABEL_ROOM * tier, key)
}

/// A light line to a label that does not begin beside its mark.
fn put_key_guide(text: &mut Text, layout: &Layout, y: u32, tier: u32) -> Result<(), OutOfMemory>
    requires layout { IsLayout layout.now }
    requires tier { tier < layout.now.tiers }
    requires high { y ≤ 1000 }
    ensures { OnOk result (text.new ≡ text.old ++ text_of (key_guide layout.now y tier)) }
{
    if tier == 0 {
        return Ok(());
    }
    let x = layout.center;
    let far = y + 5 + LABEL_ROOM * tier;
    put_line(
        text,
        Class::Guide,
        Point { x, y: y + 5 },
        Point { x, y: far },
    )
}

/// The first digits of a key, inwards.
fn put_key_label(text: &mut Text, layout: &Layout, y: u32, key: Id) -> Result<(), OutOfMemory>
    requires { y ≤ 2000 }
    ensures { OnOk result (text.new ≡ text.old ++ text_of (key_label layout.now y key)) }
{
    let x = layout.center;
    open_turned(text, label_turn(key), Point { x, y: y + 7 })?;
    put_words(
        text,
        key_class(key),
        Point { x, y: y + 10 },
        &short_label(key),
    )?;
    close_group(text)
}

fn key_class(key: Id) -> Class
    ensures { result ≡ key_class key }
{
    if angle_of(key) < HALF_TURN {
        Class::FaintEnd
    } else {
        Class::Faint
    }
}

fn key_radius(layout: &Layout) -> u32
    requires { IsLayout layout.now }
    ensures { result ≡ key_radius layout.now }
{
    layout.radius - KEY_ROOM
}
