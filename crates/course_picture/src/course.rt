//! The picture of a course.

ghost use Rattle.std.specs.Prelude.{◌≡◌, ◌≤◌, ◌+◌, ◌++◌, length, take, OnOk};
ghost use Rattle.scenario_reader.specs.declared.limits.TheConstants.{MOST_NODES};
ghost use Rattle.svg_text.specs.Picture.{text_of};
ghost use Rattle.course_picture.specs.Course.{course, course_picture};
ghost use Rattle.course_picture.specs.declared.sizes.TheConstants.{MOST_ROWS};

use crate::arrows::{put_arrows, senders_of};
use crate::board::Board;
use crate::drawing::Drawing;
use crate::front::Front;
use crate::names::names_of;
use crate::rows::{put_lifelines, put_rows, put_wrong};
use delivery_report::NodeNames;
use overlay_rules::Entries;
use ring_math::{Id, OutOfMemory};
use std::alloc::Global;
use text_writer::Text;

/// What is drawn of a record.
#[derive(Clone, Copy, PartialEq, Eq, Debug)]
pub struct Part {
    /// How many entries count: those behind them are taken for entries that never were.
    pub drawn: usize,
    /// The place of the first entry that is drawn, counted from 0.
    pub first: usize,
    /// The place behind the last one.
    pub stop: usize,
    /// The place of the entry that is wrong. It is marked where it is drawn.
    pub wrong: Option<usize>,
}

/// Writes the course of a record among these nodes: a lifeline for each node, by their identifiers; a row for each entry that is
/// drawn; and arrows. A message has an arrow to each of these entries that delivers it, which is dashed but for the first
/// delivery in the record. If one of them sent it, it also has an arrow to the lower edge where a later entry delivers it, or to
/// a cross where none does at all. An arrow from an earlier entry begins at the upper edge.
///
/// It takes time for each entry, and memory for each message, and copies none of them. The only error is that memory was refused.
pub fn put_course(
    alloc: Global,
    text: &mut Text,
    nodes: &[Id],
    entries: &Entries,
    part: &Part,
) -> Result<(), OutOfMemory>
    requires few { length nodes.now ≤ MOST_NODES }
    requires drawn { part.now.drawn ≤ length entries.now }
    requires within { part.now.stop ≤ part.now.drawn }
    requires order { part.now.first ≤ part.now.stop }
    requires rows { part.now.stop ≤ part.now.first + MOST_ROWS }
    ensures { OnOk result (text.new ≡ text.old
        ++ text_of (course_picture nodes.now (take part.now.drawn entries.now) part.now.first part.now.stop part.now.wrong)) }
{
    let lines = names_of(alloc, nodes)?;
    let names = NodeNames::of(alloc, &lines)?;
    let front = Front::of(entries, part.drawn);
    let senders = senders_of(alloc, &front)?;
    let drawing = Drawing {
        alloc,
        board: Board::of(nodes, part.first, part.stop),
        front,
        names,
        senders,
    };
    put_drawing(text, &drawing, part.wrong)
}

fn put_drawing(text: &mut Text, drawing: &Drawing, wrong: Option<usize>) -> Result<(), OutOfMemory>
    ensures { OnOk result (text.new ≡ text.old ++ text_of (course drawing.now.board drawing.now.front wrong)) }
{
    put_wrong(text, &drawing.board, wrong)?;
    put_lifelines(text, &drawing.board)?;
    put_arrows(text, drawing)?;
    put_rows(text, drawing)
}
