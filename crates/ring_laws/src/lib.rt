//! One owner per key: what every legal record of joins and lookups keeps.
#![tactic(auto)]

ghost use Rattle.overlay_rules.specs.Laws.{OneCovers, ClosestCovers, HopsGoNearer};
ghost use Rattle.overlay_rules.specs.Record.{IsSetting, Legal};
ghost use Rattle.overlay_rules.specs.Rightly.{LookupsAreRight, ClosedOnce};
ghost use Rattle.ring_laws.specs.Closings.{ClosingsAreRight};
ghost use Rattle.ring_laws.specs.Hops.{HopsAreFew};
ghost use Rattle.step_facts.specs.Setting.{setting};

use overlay_rules::Entries;
use ring_math::Id;

/// The law over all histories of joins and lookups: in a legal record, however many nodes join at once and however messages
/// are delayed, repeated, reordered or withheld, the following holds after every entry.
///
/// No two ready nodes cover one key. The ready node closest to a key covers it, or has it in its gap of a joiner that is not
/// ready. The next hop of a ready node is ready and nearer to the key. Every delivery was made by the one ready node then
/// closest to its key, with fewer hops than there are ready nodes. Every answer to a lookup and every closing of a command is
/// right, and no command is closed twice.
pub fn ring_law(nodes: &[Id], founder: Id, entries: &Entries)
    requires setting { IsSetting (setting nodes.now founder) }
    requires legal { Legal (setting nodes.now founder) entries.now }
    ensures one_covers { OneCovers (setting nodes.now founder) entries.now }
    ensures closest_covers { ClosestCovers (setting nodes.now founder) entries.now }
    ensures hops_go_nearer { HopsGoNearer (setting nodes.now founder) entries.now }
    ensures lookups_are_right { LookupsAreRight (setting nodes.now founder) entries.now }
    ensures hops_are_few { HopsAreFew (setting nodes.now founder) entries.now }
    ensures closings_are_right { ClosingsAreRight (setting nodes.now founder) entries.now }
    ensures closed_once { ClosedOnce entries.now }
{
    entries.said_law();
}

#[cfg(test)]
mod tests;
