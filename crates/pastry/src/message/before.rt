//! What the lines before a fault have to do with it. These have no fault themselves.

use crate::message::line::{
    line_declaring, line_of, line_with, lines_before, part_at, word_at, word_numbered,
};
use ring_math::{Id, id_from_hex, id_of_name, key_of};
use scenario_reader::{LineFault, MOST_DELIVERIES, Part, Scenario, read_scenario};
use std::alloc::Global;

/// Deliveries that the lines before ask for, and those that the line at fault asks for.
#[derive(Clone, Copy)]
pub(crate) struct Deliveries {
    pub(crate) before: u64,
    pub(crate) here: u64,
}

/// What the lines before a fault have to do with it. Without memory to find it out it is left open.
#[derive(Clone, Copy)]
pub(crate) struct Before {
    /// The line that declares the same.
    pub(crate) line: Option<u32>,
    pub(crate) deliveries: Option<Deliveries>,
}

impl Before {
    /// What the lines of a text before this fault of it have to do with it.
    pub(crate) fn new(alloc: Global, fault: &LineFault, text: &[u8]) -> Before {
        let (line, deliveries) = match *fault {
            LineFault::SecondFounder { line } => {
                (line_with(lines_before(text, line), b"first"), None)
            }
            LineFault::Twice { line, place } => (line_of_same(alloc, text, line, place), None),
            LineFault::Limit { line, place } => (
                None,
                passing_deliveries(alloc, text, line, place),
            ),
            _ => (None, None),
        };
        Before { line, deliveries }
    }
}

/// The line that declares what the word at a place declares again.
fn line_of_same(alloc: Global, text: &[u8], number: u32, place: u32) -> Option<u32> {
    let before = lines_before(text, number);
    let line = line_of(text, number);
    let word = word_at(line, place).text;
    match part_at(line, place)? {
        Part::NewNode => line_declaring(before, b"node", word),
        Part::NewFile => line_declaring(before, b"file", word),
        Part::NewIdentifier => {
            let name = word_numbered(line, 1)?;
            line_of_id(&scenario_of(alloc, before)?, name.text, word)
        }
        _ => None,
    }
}

/// The scenario that lines declare. The founder may be missing yet: then the first node stands in its place.
fn scenario_of(alloc: Global, lines: &[u8]) -> Option<Scenario> {
    if line_with(lines, b"first").is_some() {
        return read_scenario(alloc, lines).ok();
    }
    let node = line_of(lines, line_with(lines, b"node")?);
    let mut text = lines.to_vec(alloc).ok()?;
    text.extend_from_slice(b"first ").ok()?;
    text.extend_from_slice(word_numbered(node, 1)?.text).ok()?;
    read_scenario(alloc, &text).ok()
}

/// The line of the node whose identifier is that which a word gives to a node of this name.
fn line_of_id(scenario: &Scenario, name: &[u8], word: &[u8]) -> Option<u32> {
    let id = identifier(scenario, name, word)?;
    let node = scenario.nodes().iter().find(|node| node.id == id)?;
    Some(node.line)
}

/// The identifier that a word gives to a node of this name.
fn identifier(scenario: &Scenario, name: &[u8], word: &[u8]) -> Option<Id> {
    match word {
        b"-" => Some(id_of_name(name)),
        [b'@', behind @ ..] => {
            let mut files = scenario.files().iter();
            let file = files.find(|file| file.name.as_slice() == behind)?;
            Some(key_of(&file.file))
        }
        _ => id_from_hex(word).ok(),
    }
}

/// The deliveries with which the limit of all is passed; None if another limit is.
fn passing_deliveries(alloc: Global, text: &[u8], number: u32, place: u32) -> Option<Deliveries> {
    let line = line_of(text, number);
    let word = word_at(line, place).text;
    let part = part_at(line, place)?;
    if !matches!(
        part,
        Part::SettleCount | Part::ShuffleCount | Part::MessageNumber
    ) {
        return None;
    }
    let scenario = read_scenario(alloc, lines_before(text, number)).ok()?;
    let tally = scenario.tally();
    let here = match part {
        Part::MessageNumber => 1,
        Part::SettleCount => amount(word)?.saturating_mul(u64::from(tally.copies)),
        _ => amount(word)?,
    };
    Some(Deliveries {
        before: u64::from(tally.deliveries),
        here,
    })
}

/// The number of deliveries that a word spells, if it is one that a line may have.
fn amount(word: &[u8]) -> Option<u64> {
    let number = std::str::from_utf8(word).ok()?.parse::<u64>().ok()?;
    if number > MOST_DELIVERIES {
        None
    } else {
        Some(number)
    }
}
