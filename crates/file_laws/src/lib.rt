//! What answers about files show in a legal record: pieces of a large file that were stored and found again are joined to what was
//! cut, and what an access point answers was accepted.
#![tactic(auto)]

ghost use Rattle.std.specs.Prelude.{◌≡◌, ◌≤◌, length};
ghost use Rattle.delivery_report.specs.Report.{closings_of};
ghost use Rattle.delivery_report.specs.Texts.{commands_of};
ghost use Rattle.fragments.specs.declared.limits.TheConstants.{MOST_LARGE_BYTES};
ghost use Rattle.fragments.specs.Large.{large};
ghost use Rattle.fragments.specs.Pieces.{LargeFile, pieces_of};
ghost use Rattle.fetch_cache.specs.Run.{IsPointRun};
ghost use Rattle.file_laws.specs.Given.{IsGiven};
ghost use Rattle.file_laws.specs.Hits.{AreRightHits};
ghost use Rattle.file_laws.specs.Stored.{ComesBackFrom};
ghost use Rattle.overlay_rules.specs.Record.{IsRecord};
ghost use Rattle.overlay_rules.specs.Rightly.{NotesAreRight};
ghost use Rattle.schedule.specs.Schedule.{play_of, setting_of};
ghost use Rattle.step_facts.specs.Setting.{setting};

use fetch_cache::PointRun;
use fragments::Pieces;
use overlay_rules::{Entries, Record};
use ring_math::Id;
use scenario_reader::Scenario;
use table_laws::table_law;

/// The law of large files, over all histories. Of a file that was cut into these pieces, in a legal record: where an insert of
/// each piece was answered Stored, and later a fetch of it Found, the index and the fragments that were found are joined without
/// a fault, and give the bytes that were cut.
pub fn large_law(nodes: &[Id], founder: Id, entries: &Entries, pieces: &Pieces)
    requires { IsRecord (setting nodes.now founder) entries.now }
    ensures { (f : LargeFile) → length f.bytes ≤ MOST_LARGE_BYTES → pieces.now ≡ pieces_of f → ComesBackFrom entries.now f }
{
    let _index = &pieces.index;
    table_law(nodes, founder, entries);
}

/// The same of a [large scenario](fragments::large_scenario) that was played, by how its commands were closed: where each insert
/// was answered Stored, and the report says that the file is whole, what was found is joined to the bytes that were generated.
pub fn given_law(nodes: u32, seed: u64, size: u32, scenario: &Scenario, steps: &Record)
    requires size { size ≤ MOST_LARGE_BYTES }
    requires scenario { scenario.now ≡ large nodes seed size }
    requires played { steps.now.entries ≡ (play_of scenario.now).world.past }
    requires legal { IsRecord (setting_of scenario.now) steps.now.entries }
    requires right { NotesAreRight (setting_of scenario.now) steps.now.entries }
    ensures { IsGiven seed size (closings_of (commands_of scenario.now) steps.now.entries) }
{}

/// The law of access points. Of a scenario that was played with points of so much room: each hit gives bytes that a fetch of the
/// file found at the same node, before any later command was given, and they are the bytes that were first accepted for the file.
/// The file may have been reclaimed since.
pub fn hits_law(scenario: &Scenario, room: usize, run: &PointRun)
    requires run { IsPointRun scenario.now room run.now.steps.entries run.now.steps.skipped run.now.hits }
    requires legal { IsRecord (setting_of scenario.now) run.now.steps.entries }
    requires right { NotesAreRight (setting_of scenario.now) run.now.steps.entries }
    ensures { AreRightHits scenario.now run.now.steps.entries run.now.hits }
{
    // Whose actions keep the rules of a scenario.
    let _actions = scenario.actions();
}
