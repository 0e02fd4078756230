//! The records of both parts of a script, and what holds of them.

ghost use Rattle.std.specs.Prelude.{◌≡◌, IfOk};
ghost use Rattle.overlay_rules.specs.Record.{IsRecord};
ghost use Rattle.scribe_core.specs.Laws.{overlay_of};
ghost use Rattle.scribe_core.specs.Record.{IsGroupRecord};
ghost use Rattle.step_facts.specs.Setting.{setting};
ghost use Rattle.script_report.specs.Whole.{IsPlayedBoth, KeepsLaws, steps_of};

use group_play::play_groups;
use group_reader::GroupScript;
use outside::Turnstile;
use overlay_rules::{Entries, Record};
use play_engine::{ids_of, played_past};
use ring_math::{Id, OutOfMemory};
use scribe_core::{GroupRecord, groups_law};
use std::alloc::Global;

/// The records of both parts of a script.
#[derive(Drop)]
pub(crate) struct PlayedGroups {
    pub(crate) record: Record,
    pub(crate) steps: GroupRecord,
}

/// Plays both parts of a script.
pub(crate) fn play_both<T: Turnstile>(
    alloc: Global,
    script: &GroupScript,
    turnstile: &T,
) -> Result<PlayedGroups, OutOfMemory>
    ensures played { IfOk result (λ p. IsPlayedBoth script.now p.record) }
    ensures steps { IfOk result (λ p. p.steps ≡ steps_of script.now p.record.entries) }
{
    let scenario = script.scenario();
    let player = played_past(alloc, scenario, turnstile)?;
    let steps = play_groups(alloc, script, player.world())?;
    let record = player.finish();
    let nodes = ids_of(alloc, scenario.nodes())?;
    all_laws(&nodes, scenario.founder(), &record.entries, &steps);
    Ok(PlayedGroups { record, steps })
}

/// What every group record keeps, all together.
fn all_laws(nodes: &[Id], founder: Id, entries: &Entries, steps: &GroupRecord)
    requires record_one { IsRecord (setting nodes.now founder) entries.now }
    requires groups { IsGroupRecord (setting nodes.now founder) (overlay_of (setting nodes.now founder) entries.now) steps.now }
    ensures { KeepsLaws (setting nodes.now founder) (overlay_of (setting nodes.now founder) entries.now) steps.now }
{
    groups_law(nodes, founder, entries, steps);
}
