//! What holds of every record that is played.

ghost use Rattle.overlay_rules.specs.Record.{IsRecord};
ghost use Rattle.step_facts.specs.Setting.{setting};
ghost use Rattle.pastry.specs.Headline.{Headline};

use overlay_rules::Entries;
use quiet_laws::quiet_law;
use ring_laws::ring_law;
use ring_math::Id;
use table_laws::table_law;

/// One owner per key, one table of files, and nobody left waiting: every clause of the laws, of one legal record.
pub fn headline_law(nodes: &[Id], founder: Id, entries: &Entries)
    requires { IsRecord (setting nodes.now founder) entries.now }
    ensures { Headline (setting nodes.now founder) entries.now }
{
    ring_law(nodes, founder, entries);
    table_law(nodes, founder, entries);
    quiet_law(nodes, founder, entries);
}
