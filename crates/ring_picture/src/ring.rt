//! The whole ring.

ghost use Rattle.std.specs.Prelude.{◌≡◌, ◌++◌, ℕ, OnOk, length};
ghost use Rattle.overlay_rules.specs.State.{State};
ghost use Rattle.svg_text.specs.Picture.{text_of};
ghost use Rattle.world_model.specs.Cells.{AllStand, ids_of};
ghost use Rattle.ring_picture.specs.Layouts.{IsLayout, layout_of};
ghost use Rattle.ring_picture.specs.Ring.{dots_picture, lines_picture, ring_picture, seats_picture};

use crate::captions::{put_caption, put_legend};
use crate::keys::put_keys;
use crate::layout::Layout;
use crate::nodes::put_nodes;
use crate::seat::{Seat, ready_ids, seats_of};
use crate::sides::put_sides;
use ring_math::{Id, OutOfMemory};
use std::alloc::Global;
use svg_text::{Class, put_circle};
use text_writer::Text;
use world_model::Cells;

/// The ring of these nodes as they are after so many entries, with the keys of files. The only error is that memory was refused;
/// what stands behind the text then is of no use.
pub fn put_ring(
    alloc: Global,
    text: &mut Text,
    cells: &Cells,
    nodes: &[Id],
    keys: &[Id],
    after: u64,
) -> Result<(), OutOfMemory>
    requires { ids_of cells.now ≡ nodes.now }
    ensures { (states : ℕ → State) → AllStand cells.now states → OnOk result (text.new ≡ text.old ++ text_of (ring_picture nodes.now states keys.now after)) }
{
    let seats = seats_of(alloc, cells, nodes)?;
    let ready = ready_ids(alloc, &seats)?;
    put_seats(alloc, text, nodes, &seats, &ready, keys, after)
}

/// The ring of these nodes, where these are their seats and these are ready.
fn put_seats(
    alloc: Global,
    text: &mut Text,
    nodes: &[Id],
    seats: &[Seat],
    ready: &[Id],
    keys: &[Id],
    after: u64,
) -> Result<(), OutOfMemory>
    ensures { OnOk result (text.new ≡ text.old ++ text_of (seats_picture (layout_of (length nodes.now)) nodes.now seats.now ready.now keys.now after)) }
{
    let layout = Layout::of(nodes.len());
    put_lines(text, &layout, seats, ready, keys)?;
    put_dots(
        alloc,
        text,
        &layout,
        nodes,
        seats,
        ready.len() as u64,
        after,
    )
}

/// What lies below the nodes.
fn put_lines(
    text: &mut Text,
    layout: &Layout,
    seats: &[Seat],
    ready: &[Id],
    keys: &[Id],
) -> Result<(), OutOfMemory>
    requires { IsLayout layout.now }
    ensures { OnOk result (text.new ≡ text.old ++ text_of (lines_picture layout.now seats.now ready.now keys.now)) }
{
    put_circle(text, Class::Ring, layout.middle(), layout.radius)?;
    put_sides(text, layout, seats)?;
    put_keys(text, layout, ready, keys)
}

/// The nodes, and what is said of them.
fn put_dots(
    alloc: Global,
    text: &mut Text,
    layout: &Layout,
    nodes: &[Id],
    seats: &[Seat],
    ready: u64,
    after: u64,
) -> Result<(), OutOfMemory>
    requires { IsLayout layout.now }
    ensures { OnOk result (text.new ≡ text.old ++ text_of (dots_picture layout.now nodes.now seats.now ready after)) }
{
    put_nodes(text, layout, nodes, seats)?;
    put_caption(alloc, text, layout, after, ready, nodes.len() as u64)?;
    put_legend(text)
}
