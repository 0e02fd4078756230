//! Fronts of traces: what was read so far, and which lines may follow.

ghost use Rattle.std.specs.Prelude.{◌≡◌};
ghost use Rattle.trace_text.specs.Answers.{Gives};
ghost use Rattle.trace_text.specs.Fronts as fronts;
ghost use Rattle.trace_text.specs.Fronts.{after, plain_front, with_founder, with_node};
ghost use Rattle.trace_text.specs.Traces.{trace_of};
ghost use Rattle.trace_text.specs.Lines as lines;
ghost use Rattle.trace_text.specs.Lines.{plain_line};
ghost use Rattle.wire_msg.specs.Words.{plain_envelope};

use crate::fault::Refusal;
use crate::last_entry::LastEntry;
use crate::line::Line;
use crate::trace::{Nodes, Trace};
use overlay_rules::{Entries, Event, Record};
use ring_math::Id;
use scenario_reader::MOST_NODES;
use std::alloc::Global;
use std::mem;
use wire_msg::{Envelope, Note};

/// What was read so far.
#[derive(Drop)]
pub(crate) enum Front {
    /// No line.
    Nothing,
    /// The line of the format, and these nodes.
    Nodes(Nodes),
    /// The founder too.
    Founder {
        nodes: Nodes,
        founder: Id,
    },
    /// These whole entries, and the last, which may go on.
    Entries {
        nodes: Nodes,
        founder: Id,
        whole: Entries,
        last: LastEntry,
    },
    /// A whole trace.
    End(Trace),
}

impl Front {
    /// One line more. After an error the front is of no more use.
    pub(crate) fn add(&mut self, alloc: Global, line: Line) -> Result<(), Refusal>
        ensures { Gives (λ _. plain_front self.new) result (after (plain_front self.old) (plain_line line)) }
    {
        match line {
            Line::Trace => self.add_format(alloc),
            Line::Node(node) => self.add_node(node),
            Line::Founder(founder) => self.add_founder(founder),
            Line::Event(event) => self.add_event(alloc, event),
            Line::Sent(envelope) => self.add_sent(envelope),
            Line::Note(note) => self.add_note(note),
            Line::End { skipped } => self.end(alloc, skipped),
        }
    }

    /// The line of the format.
    fn add_format(&mut self, alloc: Global) -> Result<(), Refusal>
        ensures { Gives (λ _. plain_front self.new) result (after (plain_front self.old) lines.Trace) }
    {
        match self {
            Front::Nothing => {
                *self = Front::Nodes(Nodes::new(alloc));
                Ok(())
            }
            _ => Err(Refusal::NotAllowed),
        }
    }

    /// A node more.
    fn add_node(&mut self, node: Id) -> Result<(), Refusal>
        ensures { Gives (λ _. plain_front self.new) result (after (plain_front self.old) (lines.Node node)) }
    {
        match self {
            Front::Nodes(nodes) => add_to(nodes, node),
            _ => Err(Refusal::NotAllowed),
        }
    }

    /// The founder, behind the nodes.
    fn add_founder(&mut self, founder: Id) -> Result<(), Refusal>
        ensures { Gives (λ _. plain_front self.new) result (after (plain_front self.old) (lines.Founder founder)) }
    {
        let front = mem::replace(self, Front::Nothing);
        *self = front.founded(founder)?;
        Ok(())
    }

    fn founded(self, founder: Id) -> Result<Front, Refusal>
        ensures { Gives plain_front result (after (plain_front self) (lines.Founder founder)) }
    {
        match self {
            Front::Nodes(nodes) => with_founder(nodes, founder),
            _ => Err(Refusal::NotAllowed),
        }
    }

    /// The event with which an entry begins. The entry before it, if there is one, is whole.
    fn add_event(&mut self, alloc: Global, event: Event) -> Result<(), Refusal>
        ensures { Gives (λ _. plain_front self.new) result (after (plain_front self.old) (lines.Event event)) }
    {
        match self {
            Front::Founder { nodes, founder } => {
                let nodes = mem::replace(nodes, Nodes::new(alloc));
                let founder = *founder;
                *self = Front::Entries {
                    nodes,
                    founder,
                    whole: Entries::new(alloc),
                    last: LastEntry::begun(alloc, event),
                };
                Ok(())
            }
            Front::Entries { whole, last, .. } => {
                last.give_way(whole, event)?;
                Ok(())
            }
            _ => Err(Refusal::NotAllowed),
        }
    }

    /// A message that the last entry sent.
    fn add_sent(&mut self, envelope: Envelope) -> Result<(), Refusal>
        ensures { Gives (λ _. plain_front self.new) result (after (plain_front self.old) (lines.Sent (plain_envelope envelope))) }
    {
        match self {
            Front::Entries { last, .. } => {
                if !last.may_send() {
                    return Err(Refusal::NotAllowed);
                }
                last.send(envelope)?;
                Ok(())
            }
            _ => Err(Refusal::NotAllowed),
        }
    }

    /// A note of the last entry.
    fn add_note(&mut self, note: Note) -> Result<(), Refusal>
        ensures { Gives (λ _. plain_front self.new) result (after (plain_front self.old) (lines.Note note)) }
    {
        match self {
            Front::Entries { last, .. } => {
                last.note(note)?;
                Ok(())
            }
            _ => Err(Refusal::NotAllowed),
        }
    }

    /// The line behind all entries.
    fn end(&mut self, alloc: Global, skipped: u64) -> Result<(), Refusal>
        ensures { Gives (λ _. plain_front self.new) result (after (plain_front self.old) (lines.End skipped)) }
    {
        let front = mem::replace(self, Front::Nothing);
        *self = front.ended(alloc, skipped)?;
        Ok(())
    }

    fn ended(self, alloc: Global, skipped: u64) -> Result<Front, Refusal>
        ensures { Gives plain_front result (after (plain_front self) (lines.End skipped)) }
    {
        match self {
            Front::Founder { nodes, founder } => {
                Ok(whole_trace(nodes, founder, Entries::new(alloc), skipped))
            }
            Front::Entries {
                nodes,
                founder,
                whole,
                last,
            } => {
                let mut entries = whole;
                last.end(&mut entries)?;
                Ok(whole_trace(nodes, founder, entries, skipped))
            }
            _ => Err(Refusal::NotAllowed),
        }
    }
}

/// A node more, if it is another than these and there may be one more.
fn add_to(nodes: &mut Nodes, node: Id) -> Result<(), Refusal>
    ensures { Gives (λ _. fronts.Nodes nodes.new) result (with_node nodes.old node) }
{
    if nodes.as_slice().len() >= MOST_NODES || nodes.as_slice().contains(&node) {
        return Err(Refusal::NotAllowed);
    }
    nodes.push(node)?;
    Ok(())
}

fn with_founder(nodes: Nodes, founder: Id) -> Result<Front, Refusal>
    ensures { Gives plain_front result (with_founder nodes founder) }
{
    if nodes.as_slice().contains(&founder) {
        Ok(Front::Founder { nodes, founder })
    } else {
        Err(Refusal::NotAllowed)
    }
}

fn whole_trace(nodes: Nodes, founder: Id, entries: Entries, skipped: u64) -> Front
    ensures { plain_front result ≡ fronts.End (trace_of nodes founder entries skipped) }
{
    Front::End(Trace {
        nodes,
        founder,
        steps: Record { entries, skipped },
    })
}
