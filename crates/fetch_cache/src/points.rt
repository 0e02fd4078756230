//! The access points of all nodes.

ghost use Rattle.std.specs.Prelude.{◌≡◌, ◌++◌, MatchOption, IfOk, OnOk};
ghost use Rattle.std.specs.NonZero.{non_zero_usize_get};
ghost use Rattle.scenario_reader.specs.Plain.{ids};
ghost use Rattle.fetch_cache.specs.Points.{points_at_start, remembered, changed_at, asked, told, IsPlace, IsNowhere};
ghost use Rattle.fetch_cache.specs.Turns.{fetches_in, fetches_of, fetched_by, told_by, told_by_all};

use crate::fetch::fetched;
use crate::point::Point;
use delivery_report::found_bytes;
use ring_math::{Bytes, FileId, Id, OutOfMemory};
use scenario_reader::{Action, NodeLine, What};
use std::alloc::Global;
use std::num::NonZeroUsize;
use wire_msg::Note;

/// A point for each node, of so many files at most.
pub(crate) fn points_of(
    alloc: Global,
    nodes: &[NodeLine],
    room: NonZeroUsize,
) -> Result<Vec<Point>, OutOfMemory>
    ensures { IfOk result (λ points. points.items ≡ points_at_start (non_zero_usize_get room) (ids nodes.now)) }
{
    let mut points = Vec::new(alloc);
    for node in nodes {
        points.push(Point::new(alloc, node.id, room)?)?;
    }
    Ok(points)
}

/// The bytes that the point of a node remembers of a file, which is then the one that was used last there.
pub(crate) fn ask(
    points: &mut [Point],
    alloc: Global,
    node: Id,
    file: &FileId,
) -> Result<Option<Bytes>, OutOfMemory>
    ensures bytes { IfOk result (λ found. found ≡ remembered node file.now points.old) }
    ensures points { IfOk result (λ found. MatchOption found (points.new ≡ points.old) (λ bytes. points.new ≡ changed_at node (asked file.now) points.old)) }
{
    let Some(place) = place_of(points, node) else {
        return Ok(None);
    };
    let point = &mut points[place];
    point.ask(alloc, file)
}

/// The point of a node remembers what was found of a file.
fn tell(points: &mut [Point], node: Id, file: &FileId, bytes: Bytes) -> Result<(), OutOfMemory>
    ensures { OnOk result (points.new ≡ changed_at node (told file.now bytes) points.old) }
{
    let Some(place) = place_of(points, node) else {
        return Ok(());
    };
    let point = &mut points[place];
    point.tell(file, bytes)
}

/// The place of a node's point.
fn place_of(points: &[Point], node: Id) -> Option<usize>
    ensures { MatchOption result (IsNowhere node points.now) (λ place. IsPlace node points.now place) }
{
    for i in 0..points.len() {
        let point = &points[i];
        if point.node() == node {
            return Some(i);
        }
    }
    None
}

/// The files that commands fetch, in the order of their numbers; None for a command that fetches none.
pub(crate) fn fetches_of(
    alloc: Global,
    actions: &[Action],
) -> Result<Vec<Option<FileId>>, OutOfMemory>
    ensures { IfOk result (λ fetches. fetches.items ≡ fetches_of actions.now) }
{
    let mut fetches = Vec::new(alloc);
    for action in actions {
        add_fetch(&mut fetches, &action.what)?;
    }
    Ok(fetches)
}

fn add_fetch(fetches: &mut Vec<Option<FileId>>, what: &What) -> Result<(), OutOfMemory>
    ensures { OnOk result (fetches.new.items ≡ fetches.old.items ++ fetches_in what.now) }
{
    if let What::Command { command, .. } = what {
        fetches.push(fetched(command))?;
    }
    Ok(())
}

/// The file that the command of a number fetches.
fn fetched_by(fetches: &[Option<FileId>], number: u64) -> Option<FileId>
    ensures { result ≡ fetched_by fetches.now number }
{
    let place = number.checked_sub(1)?;
    *fetches.get(place as usize)?
}

/// The point of a node remembers what the notes of its step say that fetches found.
pub(crate) fn tell_all(
    points: &mut [Point],
    alloc: Global,
    fetches: &[Option<FileId>],
    node: Id,
    notes: &[Note],
) -> Result<(), OutOfMemory>
    ensures { OnOk result (points.new ≡ told_by_all fetches.now node notes.now points.old) }
{
    for note in notes {
        tell_of(points, alloc, fetches, node, note)?;
    }
    Ok(())
}

fn tell_of(
    points: &mut [Point],
    alloc: Global,
    fetches: &[Option<FileId>],
    node: Id,
    note: &Note,
) -> Result<(), OutOfMemory>
    ensures { OnOk result (points.new ≡ told_by fetches.now node note.now points.old) }
{
    let Note::Closed { number, answer } = note else {
        return Ok(());
    };
    let Some(file) = fetched_by(fetches, *number) else {
        return Ok(());
    };
    match found_bytes(answer) {
        Some(bytes) => tell(points, node, &file, bytes.copy(alloc)?),
        None => Ok(()),
    }
}
