//! Nobody is left waiting: what every legal record keeps in which each message was delivered.
#![tactic(auto)]

ghost use Rattle.overlay_rules.specs.Record.{IsSetting, Legal};
ghost use Rattle.quiet_laws.specs.Laws.{NobodyWaits, NobodyWaitsWithRoom};
ghost use Rattle.step_facts.specs.Setting.{setting};

use overlay_rules::Entries;
use ring_math::Id;

/// The law over all quiet records: legal ones in which each message that was sent was delivered at least once, in whatever order
/// and however often.
///
/// Every command of such a record is closed, unless a store is full. An insert may stay open only where it waits at a root for
/// a node with 4,096 entries and none for its file; a join only where the joiner has the leases of both neighbours, 4,096
/// entries, and lacks something of what it is to take over. So where no node has so many entries, every command is closed.
///
/// That messages are delivered it does not say: this is its premise.
pub fn quiet_law(nodes: &[Id], founder: Id, entries: &Entries)
    requires setting { IsSetting (setting nodes.now founder) }
    requires legal { Legal (setting nodes.now founder) entries.now }
    ensures nobody_waits { NobodyWaits (setting nodes.now founder) entries.now }
    ensures nobody_waits_with_room { NobodyWaitsWithRoom (setting nodes.now founder) entries.now }
{
    entries.said_law();
}

#[cfg(test)]
mod tests;
