//! Histories of cells, each of one node, woven into one record: it is legal.
#![tactic(auto)]

ghost use Rattle.step_facts.specs.Setting.{setting};
ghost use Rattle.weave_laws.specs.Laws.{WovenIsLegal, HistoriesAreParts};

use overlay_rules::Record;
use ring_math::Id;

/// The law of weaving. Take the histories of cells of some nodes of a setting, each from the start of its node, with numbers
/// of commands that rise along each history and stand in no two of them. Their woven record, in which each envelope that is an
/// input was sent in one of them, is legal from this setting, and each history is the part of the record at its node.
pub fn weaving_law(nodes: &[Id], founder: Id, steps: &Record)
    ensures woven_is_legal { WovenIsLegal (setting nodes.now founder) steps.now }
    ensures histories_are_parts { HistoriesAreParts (setting nodes.now founder) steps.now }
{}

#[cfg(test)]
mod tests;
