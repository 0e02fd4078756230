//! The rows of entries, and the lifelines of nodes.

ghost use Rattle.std.specs.Prelude.{◌≡◌, ◌<◌, ◌+◌, ◌++◌, Some, decimal, IfOk, OnOk};
ghost use Rattle.overlay_rules.specs.Seen.{entry_seen};
ghost use Rattle.delivery_report.specs.Deliveries.{node_of};
ghost use Rattle.svg_text.specs.Picture.{each_of, text_of};
ghost use Rattle.course_picture.specs.Board.{places};
ghost use Rattle.course_picture.specs.Course.{entry_mark, entry_picture, entry_words, label, lifeline, row_at, wrong_row};

use crate::board::Board;
use crate::drawing::Drawing;
use crate::sizes::{BASELINE, GAP, HALF_ROW, LEFT, MARGIN, RADIUS, ROW, TOP, TURN};
use crate::words::{put_event, put_node, put_notes};
use delivery_report::node_of;
use overlay_rules::{EntryRef, EventRef};
use ring_math::{Id, OutOfMemory, id_to_hex};
use std::alloc::Global;
use svg_text::{
    Class, Point, close_group, open_titled, open_turned, put_circle, put_line, put_rect, put_words,
    short_label,
};
use text_writer::Text;
use wire_msg::Frame;

/// The lifelines of all nodes.
pub(crate) fn put_lifelines(text: &mut Text, board: &Board) -> Result<(), OutOfMemory>
    ensures { OnOk result (text.new ≡ text.old ++ text_of (each_of (lifeline board.now) board.now.nodes)) }
{
    for id in board.nodes() {
        put_lifeline(text, board, *id)?;
    }
    Ok(())
}

/// A lifeline from the upper edge to the lower, and its label.
fn put_lifeline(text: &mut Text, board: &Board, id: Id) -> Result<(), OutOfMemory>
    ensures { OnOk result (text.new ≡ text.old ++ text_of (lifeline board.now id)) }
{
    let x = board.x(id);
    let lower = board.y(board.stop());
    put_line(
        text,
        Class::Life,
        Point { x, y: TOP },
        Point { x, y: lower },
    )?;
    let at = Point { x, y: TOP - GAP };
    open_turned(text, TURN, at)?;
    put_label(text, id, at)?;
    close_group(text)
}

/// The first digits of an identifier at a place, and the whole identifier as their title.
fn put_label(text: &mut Text, id: Id, at: Point) -> Result<(), OutOfMemory>
    ensures { OnOk result (text.new ≡ text.old ++ text_of (label id at)) }
{
    open_titled(text, &id_to_hex(id))?;
    put_words(text, Class::Label, at, &short_label(id))?;
    close_group(text)
}

/// The row of the entry that is wrong, if it is one of the window.
pub(crate) fn put_wrong(
    text: &mut Text,
    board: &Board,
    wrong: Option<usize>,
) -> Result<(), OutOfMemory>
    ensures { OnOk result (text.new ≡ text.old ++ text_of (wrong_row board.now wrong)) }
{
    match wrong {
        Some(place) if board.is_drawn(place) => {
            let corner = Point {
                x: 0,
                y: board.y(place) - HALF_ROW,
            };
            let size = Point {
                x: board.width(),
                y: ROW,
            };
            put_rect(text, Class::Marked, corner, size)
        }
        _ => Ok(()),
    }
}

/// The rows of the window.
pub(crate) fn put_rows(text: &mut Text, drawing: &Drawing) -> Result<(), OutOfMemory>
    ensures { OnOk result (text.new ≡ text.old
        ++ text_of (each_of (row_at drawing.now.board drawing.now.front) (places drawing.now.board))) }
{
    for place in drawing.board.first()..drawing.board.stop() {
        let entry = drawing.front.at(place);
        put_row(text, drawing, place, &entry)?;
        // Named, since the prover has to see what type a command is.
        if let EventRef::Command {
            command: _command,
            ..
        } = entry.event
        {}
    }
    Ok(())
}

/// The row of an entry.
fn put_row(
    text: &mut Text,
    drawing: &Drawing,
    place: usize,
    entry: &EntryRef,
) -> Result<(), OutOfMemory>
    requires { place < drawing.now.board.stop }
    ensures { OnOk result (text.new ≡ text.old ++ text_of (entry_picture drawing.now.board drawing.now.front place (entry_seen entry.now))) }
{
    let board = &drawing.board;
    put_mark(
        text,
        board,
        place,
        node_of(drawing.front.sent(), &entry.event),
    )?;
    let y = board.y(place) + BASELINE;
    let number = number_text(drawing.alloc, board.number(place))?;
    let at_number = Point {
        x: LEFT - MARGIN,
        y,
    };
    put_words(text, Class::FaintEnd, at_number, number.as_slice())?;
    let words = words_of(drawing, entry)?;
    let at_words = Point {
        x: board.right() + GAP,
        y,
    };
    put_words(text, Class::Label, at_words, words.as_slice())
}

/// An entry on its node's lifeline, and a line to its label.
fn put_mark(
    text: &mut Text,
    board: &Board,
    place: usize,
    node: Option<Id>,
) -> Result<(), OutOfMemory>
    ensures { OnOk result (text.new ≡ text.old ++ text_of (entry_mark board.now place node)) }
{
    let Some(node) = node else {
        return Ok(());
    };
    let at = Point {
        x: board.x(node),
        y: board.y(place),
    };
    let end = Point {
        x: board.right(),
        y: at.y,
    };
    put_line(text, Class::Guide, at, end)?;
    put_circle(text, Class::Entry, at, RADIUS)
}

fn number_text(alloc: Global, number: u64) -> Result<Frame, OutOfMemory>
    ensures { IfOk result (λ text. text ≡ decimal number) }
{
    let mut text = Text::new(alloc);
    text.number(number)?;
    Ok(text.into_frame())
}

/// What is said of an entry.
fn words_of(drawing: &Drawing, entry: &EntryRef) -> Result<Frame, OutOfMemory>
    ensures { IfOk result (λ words. words ≡ entry_words drawing.now.board drawing.now.front (entry_seen entry.now)) }
{
    let mut words = Text::new(drawing.alloc);
    let sent = drawing.front.sent();
    put_node(&mut words, &drawing.names, node_of(sent, &entry.event))?;
    put_event(&mut words, &drawing.names, sent, &entry.event)?;
    put_notes(&mut words, &drawing.names, entry.notes)?;
    Ok(words.into_frame())
}
