//! Access points: a scenario that is played with a cache of files at each node, which answers fetches of what was found
//! there, and its report.
#![tactic(auto)]

ghost use Rattle.std.specs.Prelude.{◌≤◌, IfOk};
ghost use Rattle.overlay_rules.specs.Record.{IsRecord};
ghost use Rattle.schedule.specs.Schedule.{setting_of};
ghost use Rattle.fetch_cache.specs.declared.limits.TheConstants.{MOST_ROOM};
ghost use Rattle.fetch_cache.specs.Run.{IsPointRun};

mod fetch;
mod hit;
mod limits;
mod player;
mod point;
mod points;
mod report;

use crate::player::PointPlayer;
pub use hit::{Hit, Hits};
pub use limits::MOST_ROOM;
use overlay_rules::Record;
pub use report::report_points;
use ring_math::OutOfMemory;
use scenario_reader::Scenario;
use std::alloc::Global;
use std::num::NonZeroUsize;

/// What came of a scenario that was played with access points: its record, and the fetches that hit.
#[derive(Drop)]
pub struct PointRun {
    pub steps: Record,
    pub hits: Hits,
}

/// A scenario played with an access point at each node that remembers up to so many files, 1 to [`MOST_ROOM`].
///
/// A fetch asks the point of its node first. If its file is remembered there, that is a hit, and the node is given no command.
/// Whenever a fetch is answered with bytes that were found, the point of its node remembers them, in the place of the file that
/// was used least recently if there is no room. The only error is that memory was refused.
pub fn play_points(alloc: Global, scenario: &Scenario, room: usize) -> Result<PointRun, OutOfMemory>
    requires some { 1 ≤ room }
    requires few { room ≤ MOST_ROOM }
    ensures run { IfOk result (λ run. IsPointRun scenario.now room run.steps.entries run.steps.skipped run.hits) }
    ensures legal { IfOk result (λ run. IsRecord (setting_of scenario.now) run.steps.entries) }
{
    let room = NonZeroUsize::new(room).unwrap();
    let mut player = PointPlayer::new(alloc, scenario, room)?;
    while player.advance(alloc, scenario)? {}
    let (steps, hits) = player.finish();
    Ok(PointRun { steps, hits })
}

#[cfg(test)]
mod tests;
