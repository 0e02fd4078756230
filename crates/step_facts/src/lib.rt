//! Facts on single steps and on what every record keeps: the laws stand on them, and so does the code.
#![tactic(auto)]

ghost use Rattle.overlay_rules.specs.Record.{IsSetting, Legal};
ghost use Rattle.step_facts.specs.Receivers.{ViasAre, ReceiversAre};
ghost use Rattle.step_facts.specs.Setting.{setting};

use overlay_rules::Entries;
use ring_math::Id;

/// In a legal record each message goes to a node of the setting, where each Join goes by way of one.
pub fn receivers_are_nodes(nodes: &[Id], founder: Id, entries: &Entries)
    requires setting { IsSetting (setting nodes.now founder) }
    requires legal { Legal (setting nodes.now founder) entries.now }
    requires vias { ViasAre (setting nodes.now founder) entries.now }
    ensures { ReceiversAre (setting nodes.now founder) entries.now }
{
    entries.said_law();
}

#[cfg(test)]
mod tests;
