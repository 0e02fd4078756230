//! The whole picture.

ghost use Rattle.std.specs.Prelude.{◌≡◌, ◌≤◌, ◌+◌, ◌++◌, length, IfOk, OnOk};
ghost use Rattle.overlay_rules.specs.Record.{IsSetting};
ghost use Rattle.scenario_reader.specs.declared.limits.TheConstants.{MOST_NODES};
ghost use Rattle.step_facts.specs.Setting.{setting};
ghost use Rattle.svg_text.specs.Document.{document};
ghost use Rattle.svg_text.specs.Picture.{place, text_of};
ghost use Rattle.ring_picture.specs.Layouts.{size_of};
ghost use Rattle.course_picture.specs.declared.sizes.TheConstants.{MOST_ROWS};
ghost use Rattle.trace_text.specs.Traces.{plain_trace};
ghost use Rattle.trace_picture.specs.Picture.{left_picture, picture_text, right_picture, verdict_place, whole_picture, whole_size};

use crate::keys::accepted_keys;
use crate::replay::cells_after;
use crate::verdict::put_verdict;
use crate::window::{after, window};
use course_picture::{Part, course_height, course_width, put_course};
use ring_math::{Id, OutOfMemory};
use ring_picture::{put_ring, ring_size};
use std::alloc::Global;
use svg_text::{Point, close_document, close_group, open_document, open_moved};
use text_writer::Text;
use trace_check::{Trace, Verdict};
use wire_msg::Frame;

/// The picture of a trace with this verdict, as a document in SVG 1.1: the course of so many entries behind the first `from`,
/// and the ring after the last of them. Of a record that is wrong no entry is drawn behind the one that is, which is marked.
/// The only error is that memory was refused.
///
/// The keys in the ring are those of all files that were accepted up to there.
pub fn picture(
    alloc: Global,
    trace: &Trace,
    verdict: Verdict,
    from: u64,
    entries: u32,
) -> Result<Frame, OutOfMemory>
    requires setting { IsSetting (setting trace.now.nodes trace.now.founder) }
    requires few { length trace.now.nodes ≤ MOST_NODES }
    requires rows { entries ≤ MOST_ROWS }
    ensures { IfOk result (λ text. text ≡ picture_text (plain_trace trace.now) verdict from entries) }
{
    let len = trace.steps.entries.len();
    let part = window(&verdict, len, from, entries);
    let shown = after(&verdict, len, &part);
    let mut text = Text::new(alloc);
    put_document(alloc, &mut text, trace, &verdict, &part, shown)?;
    Ok(text.into_frame())
}

/// This part of the entries, and the ring after so many of them.
fn put_document(
    alloc: Global,
    text: &mut Text,
    trace: &Trace,
    verdict: &Verdict,
    part: &Part,
    shown: usize,
) -> Result<(), OutOfMemory>
    requires setting { IsSetting (setting trace.now.nodes trace.now.founder) }
    requires few { length trace.now.nodes ≤ MOST_NODES }
    requires shown { shown ≤ length trace.now.steps.entries }
    requires drawn { part.now.drawn ≤ length trace.now.steps.entries }
    requires within { part.now.stop ≤ part.now.drawn }
    requires order { part.now.first ≤ part.now.stop }
    requires rows { part.now.stop ≤ part.now.first + MOST_ROWS }
    ensures { OnOk result (text.new
        ≡ text.old ++ document (whole_size trace.now.nodes part.now) (whole_picture (plain_trace trace.now) verdict.now part.now shown)) }
{
    open_document(text, whole_size(trace.nodes.as_slice(), part))?;
    put_left(alloc, text, trace, verdict, shown)?;
    put_right(alloc, text, trace, part)?;
    close_document(text)
}

/// How large both sides are beside one another.
fn whole_size(nodes: &[Id], part: &Part) -> Point
    requires few { length nodes.now ≤ MOST_NODES }
    requires order { part.now.first ≤ part.now.stop }
    requires rows { part.now.stop ≤ part.now.first + MOST_ROWS }
    ensures { result ≡ whole_size nodes.now part.now }
{
    let ring = ring_size(nodes.len());
    Point {
        x: ring + course_width(nodes),
        y: ring.max(course_height(part.stop - part.first)),
    }
}

/// The ring after so many entries, and below it the verdict.
fn put_left(
    alloc: Global,
    text: &mut Text,
    trace: &Trace,
    verdict: &Verdict,
    shown: usize,
) -> Result<(), OutOfMemory>
    requires setting { IsSetting (setting trace.now.nodes trace.now.founder) }
    requires within { shown ≤ length trace.now.steps.entries }
    ensures { OnOk result (text.new ≡ text.old ++ text_of (left_picture (plain_trace trace.now) verdict.now shown)) }
{
    let nodes = trace.nodes.as_slice();
    let entries = &trace.steps.entries;
    let keys = accepted_keys(alloc, entries, shown)?;
    let cells = cells_after(alloc, nodes, trace.founder, entries, shown)?;
    put_ring(alloc, text, &cells, nodes, &keys, shown as u64)?;
    put_verdict(alloc, text, verdict_place(nodes), verdict)
}

/// Below the ring, where its corner is free.
fn verdict_place(nodes: &[Id]) -> Point
    ensures { result ≡ verdict_place nodes.now }
{
    Point {
        x: 8,
        y: ring_size(nodes.len()) - 8,
    }
}

/// The course, to the right of the ring.
fn put_right(alloc: Global, text: &mut Text, trace: &Trace, part: &Part) -> Result<(), OutOfMemory>
    requires few { length trace.now.nodes ≤ MOST_NODES }
    requires drawn { part.now.drawn ≤ length trace.now.steps.entries }
    requires within { part.now.stop ≤ part.now.drawn }
    requires order { part.now.first ≤ part.now.stop }
    requires rows { part.now.stop ≤ part.now.first + MOST_ROWS }
    ensures { OnOk result (text.new ≡ text.old ++ text_of (right_picture (plain_trace trace.now) part.now)) }
{
    let nodes = trace.nodes.as_slice();
    open_moved(text, course_place(nodes))?;
    put_course(alloc, text, nodes, &trace.steps.entries, part)?;
    close_group(text)
}

/// Where the course begins.
fn course_place(nodes: &[Id]) -> Point
    ensures { result ≡ place (size_of (length nodes.now)) 0 }
{
    Point {
        x: ring_size(nodes.len()),
        y: 0,
    }
}
