//! Where nodes and entries stand in the picture.

ghost use Rattle.std.specs.Prelude.{◌≡◌, ◌<◌, ◌≤◌, ◌+◌, ◌*◌, length};
ghost use Rattle.scenario_reader.specs.declared.limits.TheConstants.{MOST_NODES};
ghost use Rattle.course_picture.specs.Board.{half_of, height_of, is_drawn, not_above_in, right_of, row_of, width_of, words_width, x_of, y_of};
ghost use Rattle.course_picture.specs.declared.sizes.TheConstants.{LEFT, MOST_ROWS, TOP};

use crate::sizes::{GAP, HALF_COLUMN, HOLDER, LEFT, MOST_ROWS, ROW, SPREAD, TOP, WORDS};
use ring_math::Id;
use scenario_reader::MOST_NODES;
use std::marker::Model;
use svg_text::rank;
use wire_msg::MOST_COPIES;

/// The nodes, and the places of the entries that are drawn: from the first up to the one before `stop`.
#[derive(Drop)]
pub(crate) struct Board<'a> {
    nodes: &'a [Id],
    first: usize,
    stop: usize,
}

impl<'a> Model for Board<'a> {
    ghost use Rattle.std.specs.Prelude.{◌≤◌, ◌+◌, length};
    ghost use Rattle.scenario_reader.specs.declared.limits.TheConstants.{MOST_NODES};
    ghost use Rattle.course_picture.specs.Board as plain;
    ghost use Rattle.course_picture.specs.declared.sizes.TheConstants.{MOST_ROWS};

    ghost Value = { plain.Board };

    ghost view = { λ a. record { nodes = a.nodes.now; first = a.first; stop = a.stop } };

    ghost invariant = { λ a. (length a.nodes.now ≤ MOST_NODES) × (a.first ≤ a.stop) × (a.stop ≤ a.first + MOST_ROWS) };
}

impl<'a> Board<'a> {
    pub(crate) fn of(nodes: &'a [Id], first: usize, stop: usize) -> Board<'a>
        requires few { length nodes.now ≤ MOST_NODES }
        requires order { first ≤ stop }
        requires rows { stop ≤ first + MOST_ROWS }
        ensures { result ≡ record { nodes = nodes.now; first = first; stop = stop } }
    {
        Board { nodes, first, stop }
    }

    pub(crate) fn nodes(&self) -> &'a [Id]
        ensures { result.now ≡ self.now.nodes }
    {
        self.nodes
    }

    pub(crate) fn first(&self) -> usize
        ensures is { result ≡ self.now.first }
        ensures order { self.now.first ≤ self.now.stop }
    {
        self.first
    }

    pub(crate) fn stop(&self) -> usize
        ensures { result ≡ self.now.stop }
    {
        self.stop
    }

    /// The number of an entry of the window, from 1 on.
    pub(crate) fn number(&self, place: usize) -> u64
        requires { place < self.now.stop }
        ensures { result ≡ place + 1 }
    {
        let _stop = self.stop;
        place as u64 + 1
    }

    pub(crate) fn is_drawn(&self, place: usize) -> bool
        ensures { result ≡ is_drawn self.now place }
    {
        self.first <= place && place < self.stop
    }

    /// How far to the right a node's lifeline is.
    pub(crate) fn x(&self, id: Id) -> u32
        ensures is { result ≡ x_of self.now id }
        ensures bounds { (LEFT ≤ result) × (result < 100_000) }
    {
        let halves = rank(self.nodes, id) + not_above(self.nodes, id);
        LEFT + half_column(self.nodes) * halves as u32
    }

    /// How far to the right the columns end.
    pub(crate) fn right(&self) -> u32
        ensures is { result ≡ right_of self.now.nodes }
        ensures bounds { (LEFT ≤ result) × (result < 100_000) }
    {
        columns_end(self.nodes)
    }

    /// How far down an entry stands.
    pub(crate) fn y(&self, place: usize) -> u32
        ensures is { result ≡ y_of self.now place }
        ensures bounds { (TOP ≤ result) × (result < 100_000_000) }
    {
        TOP + ROW * self.row(place)
    }

    fn row(&self, place: usize) -> u32
        ensures is { result ≡ row_of self.now place }
        ensures few { result ≤ MOST_ROWS + 1 }
    {
        if place < self.first {
            return 0;
        }
        let rows = place.min(self.stop) - self.first;
        rows as u32 + 1
    }

    /// How wide the picture is.
    pub(crate) fn width(&self) -> u32
        ensures { result ≡ width_of self.now.nodes }
    {
        course_width(self.nodes)
    }
}

/// How wide a course is among these nodes, in whole units.
pub fn course_width(nodes: &[Id]) -> u32
    requires { length nodes.now ≤ MOST_NODES }
    ensures is { result ≡ width_of nodes.now }
    ensures bound { result < 200_000 }
{
    columns_end(nodes) + GAP + words_width(nodes)
}

/// How much room the words of entries have.
fn words_width(nodes: &[Id]) -> u32
    requires { length nodes.now ≤ MOST_NODES }
    ensures is { result ≡ words_width nodes.now }
    ensures bound { result < 1_000 }
{
    let holders = nodes.len().min(MOST_COPIES as usize);
    WORDS + HOLDER * holders as u32
}

/// How high a course of so many entries is, in whole units.
pub fn course_height(rows: usize) -> u32
    requires { rows ≤ MOST_ROWS }
    ensures is { result ≡ height_of rows }
    ensures bound { result < 200_000_000 }
{
    TOP + ROW * (rows as u32 + 2)
}

fn columns_end(nodes: &[Id]) -> u32
    requires { length nodes.now ≤ MOST_NODES }
    ensures is { result ≡ right_of nodes.now }
    ensures bounds { (LEFT ≤ result) × (result < 100_000) }
{
    LEFT + half_column(nodes) * (2 * nodes.len() as u32)
}

fn half_column(nodes: &[Id]) -> u32
    requires { length nodes.now ≤ MOST_NODES }
    ensures is { result ≡ half_of nodes.now }
    ensures bound { result ≤ 130 }
{
    HALF_COLUMN + SPREAD / (nodes.len() as u32 + 1)
}

/// How many of these are not greater.
fn not_above(ids: &[Id], id: Id) -> usize
    ensures is { result ≡ not_above_in ids.now id }
    ensures bound { result ≤ length ids.now }
{
    let mut count: usize = 0;
    for other in ids {
        if other.0 <= id.0 {
            count += 1;
        }
    }
    count
}
