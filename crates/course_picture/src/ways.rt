//! How an arrow is drawn.

ghost use Rattle.std.specs.Prelude.{◌≡◌, ◌≤◌, ◌<◌, ◌+◌, ◌++◌, OnOk};
ghost use Rattle.svg_text.specs.Picture.{text_of};
ghost use Rattle.course_picture.specs.Arrows.{arrow_seen};
ghost use Rattle.course_picture.specs.Ways.{arrow_picture, cross, end_of, lost_end, start_of, way, way_of};
ghost use Rattle.course_picture.specs.declared.sizes.TheConstants.{RADIUS};

use crate::board::Board;
use crate::drawing::Drawing;
use crate::fate::{Arrow, Fate};
use crate::sizes::{HALF_ROW, LOOP, RADIUS};
use crate::words::put_message;
use ring_math::OutOfMemory;
use svg_text::{Class, Point, close_group, open_titled, put_line};
use text_writer::Text;

/// An arrow, titled by its message.
pub(crate) fn put_arrow(
    text: &mut Text,
    drawing: &Drawing,
    arrow: &Arrow,
) -> Result<(), OutOfMemory>
    ensures { OnOk result (text.new ≡ text.old ++ text_of (arrow_picture drawing.now.board (arrow_seen arrow.now))) }
{
    let mut title = Text::new(drawing.alloc);
    put_message(&mut title, arrow.number, Some(arrow.envelope))?;
    open_titled(text, title.into_frame().as_slice())?;
    put_way(text, &drawing.board, arrow)?;
    close_group(text)
}

fn put_way(text: &mut Text, board: &Board, arrow: &Arrow) -> Result<(), OutOfMemory>
    ensures { OnOk result (text.new ≡ text.old ++ text_of (way_of board.now (arrow_seen arrow.now) arrow.now.fate)) }
{
    let from = start_of(board, arrow);
    match arrow.fate {
        Fate::First => put_line_to(
            text,
            Class::Sent,
            Class::SentPart,
            from,
            end_of(board, arrow),
        ),
        Fate::Again => put_line_to(
            text,
            Class::Again,
            Class::AgainPart,
            from,
            end_of(board, arrow),
        ),
        Fate::Lost => {
            let to = lost_end(board, arrow);
            put_line(text, Class::Lost, from, to)?;
            put_cross(text, to)
        }
    }
}

/// Where a message is sent.
fn start_of(board: &Board, arrow: &Arrow) -> Point
    ensures is { result ≡ start_of board.now (arrow_seen arrow.now) }
    ensures bound { result.x < 100_000 }
{
    Point {
        x: board.x(arrow.envelope.sender),
        y: board.y(arrow.sent),
    }
}

/// Where it comes to its receiver.
fn end_of(board: &Board, arrow: &Arrow) -> Point
    ensures is { result ≡ end_of board.now (arrow_seen arrow.now) }
    ensures bound { result.x < 100_000 }
{
    Point {
        x: board.x(arrow.envelope.receiver),
        y: board.y(arrow.reached),
    }
}

/// Where the cross of a lost message is.
fn lost_end(board: &Board, arrow: &Arrow) -> Point
    ensures is { result ≡ lost_end board.now (arrow_seen arrow.now) }
    ensures corner { (RADIUS ≤ result.x) × (RADIUS ≤ result.y) }
    ensures bounds { (result.x < 100_000) × (result.y < 200_000_000) }
{
    let across = board.x(arrow.envelope.sender) + board.x(arrow.envelope.receiver);
    Point {
        x: across / 2,
        y: board.y(arrow.sent) + HALF_ROW,
    }
}

/// A line whose end has a head; to the same lifeline, by the right.
fn put_line_to(
    text: &mut Text,
    head: Class,
    part: Class,
    from: Point,
    to: Point,
) -> Result<(), OutOfMemory>
    requires { (from.x < 100_000) × (to.x < 100_000) }
    ensures { OnOk result (text.new ≡ text.old ++ text_of (way head part from to)) }
{
    if from.x != to.x {
        return put_line(text, head, from, to);
    }
    let upper = Point {
        x: from.x + LOOP,
        y: from.y,
    };
    let lower = Point {
        x: to.x + LOOP,
        y: to.y,
    };
    put_line(text, part, from, upper)?;
    put_line(text, part, upper, lower)?;
    put_line(text, head, lower, to)
}

/// A cross about a place.
fn put_cross(text: &mut Text, at: Point) -> Result<(), OutOfMemory>
    requires corner { (RADIUS ≤ at.x) × (RADIUS ≤ at.y) }
    requires bounds { (at.x < 100_000) × (at.y < 200_000_000) }
    ensures { OnOk result (text.new ≡ text.old ++ text_of (cross at)) }
{
    let left = at.x - RADIUS;
    let right = at.x + RADIUS;
    let upper = at.y - RADIUS;
    let lower = at.y + RADIUS;
    put_line(
        text,
        Class::Cross,
        Point { x: left, y: upper },
        Point { x: right, y: lower },
    )?;
    put_line(
        text,
        Class::Cross,
        Point { x: left, y: lower },
        Point { x: right, y: upper },
    )
}
