//! A scenario that is played with access points.

ghost use Rattle.std.specs.Prelude.{◌≡◌, ◌++◌, ◌∷◌, [], List, Some, false, MatchBool, IfOk, OnOk};
ghost use Rattle.std.specs.NonZero.{non_zero_usize_get};
ghost use Rattle.overlay_rules.specs.Record.{IsRecord, sent_in, visit};
ghost use Rattle.overlay_rules.specs.declared.entry.Entry.{Entry as PlainEntry};
ghost use Rattle.scenario_reader.specs.Plain.{ids};
ghost use Rattle.schedule.specs.Cursors.{step_of};
ghost use Rattle.schedule.specs.Turns.{Step, Ends};
ghost use Rattle.world_model.specs.Recorded.{setting_of};
ghost use Rattle.play_engine.specs.Advance.{next_turn};
ghost use Rattle.play_engine.specs.Coming.{CanCome, is_some};
ghost use Rattle.play_engine.specs.Progress.{PlaysOn, progress_at_start};
ghost use Rattle.fetch_cache.specs.Points.{points_at_start};
ghost use Rattle.fetch_cache.specs.Turns.{fetch_in, fetches_of, told_at};
ghost use Rattle.fetch_cache.specs.Going.{Hits as IsHit, IsUnknown, Took, TakesTurn, made_of};

use crate::fetch::fetch_in;
use crate::hit::{Hit, Hits};
use crate::point::Point;
use crate::points::{ask, fetches_of, points_of, tell_all};
use delivery_report::node_of;
use overlay_rules::{Entries, EventRef, Record};
use play_engine::Player;
use ring_math::{FileId, OutOfMemory};
use scenario_reader::{Action, Scenario};
use schedule::Turn;
use std::alloc::Global;
use std::marker::Model;
use std::num::NonZeroUsize;

/// A scenario that is being played, with the access points of its nodes.
#[derive(Drop)]
pub(crate) struct PointPlayer {
    player: Player,
    points: Vec<Point>,
    hits: Hits,
    /// The files that the scenario's commands fetch, by the numbers of the commands.
    fetches: Vec<Option<FileId>>,
}

impl Model for PointPlayer {
    ghost use Rattle.fetch_cache.specs.Going.{PointProgress};

    ghost Value = { PointProgress };

    ghost view = { λ a. record { progress = a.player; points = a.points.items; hits = a.hits; fetches = a.fetches.items } };
}

impl PointPlayer {
    /// Nothing has happened yet.
    pub(crate) fn new(
        alloc: Global,
        scenario: &Scenario,
        room: NonZeroUsize,
    ) -> Result<PointPlayer, OutOfMemory>
        ensures start { IfOk result (λ player. player ≡ record { progress = progress_at_start scenario.now; points = points_at_start (non_zero_usize_get room) (ids scenario.now.nodes); hits = []; fetches = fetches_of scenario.now.actions }) }
        ensures on { IfOk result (λ player. PlaysOn scenario.now player.progress) }
    {
        Ok(PointPlayer {
            player: Player::new(alloc, scenario)?,
            points: points_of(alloc, scenario.nodes(), room)?,
            hits: Hits::new(alloc),
            fetches: fetches_of(alloc, scenario.actions())?,
        })
    }

    /// Takes the next turn: a fetch of what its node's point remembers is a hit, and any other turn is made. The answer is
    /// false, with nothing changed, exactly where no turn is left.
    pub(crate) fn advance(
        &mut self,
        alloc: Global,
        scenario: &Scenario,
    ) -> Result<bool, OutOfMemory>
        requires { PlaysOn scenario.now self.old.progress }
        ensures on { OnOk result (PlaysOn scenario.now self.new.progress) }
        ensures turn { IfOk result (λ more. MatchBool more (TakesTurn scenario.now self.old self.new) (((next_turn scenario.now self.old.progress).step ≡ Ends) × (self.new ≡ self.old))) }
    {
        let actions = scenario.actions();
        let mut cursor = self.player.cursor();
        let turn = self.player.next(&mut cursor, scenario);
        if !self.take(alloc, actions, turn)? {
            return Ok(false);
        }
        self.player.move_to(cursor);
        Ok(true)
    }

    /// Takes a turn of these actions, and leaves the player at its place.
    fn take(&mut self, alloc: Global, actions: &[Action], turn: Turn) -> Result<bool, OutOfMemory>
        requires { CanCome actions.now self.old.progress turn }
        ensures { IfOk result (λ more. (step : Step) → step_of actions.now turn ≡ Some step → Took turn step more self.old self.new) }
    {
        if self.answer(alloc, actions, turn)? {
            return Ok(true);
        }
        self.make(alloc, actions, turn)
    }

    /// Whether a turn is a fetch that hits, which is then noted.
    fn answer(&mut self, alloc: Global, actions: &[Action], turn: Turn) -> Result<bool, OutOfMemory>
        ensures answer { IfOk result (λ hit. (step : Step) → step_of actions.now turn ≡ Some step → MatchBool hit (IsHit step self.old self.new) (IsUnknown (fetch_in step) self.old.points)) }
        ensures stays { IfOk result (λ hit. hit ≡ false → self.new ≡ self.old) }
    {
        let Some(fetch) = fetch_in(actions, turn) else {
            return Ok(false);
        };
        let Some(bytes) = ask(&mut self.points, alloc, fetch.node, &fetch.file)? else {
            return Ok(false);
        };
        let number = fetch.number;
        self.hits.push(Hit { number, bytes })?;
        Ok(true)
    }

    /// Makes a turn, and the points remember what its entry says that fetches found.
    fn make(&mut self, alloc: Global, actions: &[Action], turn: Turn) -> Result<bool, OutOfMemory>
        requires { CanCome actions.now self.old.progress turn }
        ensures answer { IfOk result (λ more. more ≡ is_some turn) }
        ensures made { OnOk result ((step : Step) → step_of actions.now turn ≡ Some step → self.new ≡ made_of step self.old) }
    {
        if !self.player.make(alloc, actions, turn)? {
            return Ok(false);
        }
        match turn {
            Turn::Skip => {}
            _ => {
                let entries = self.player.world().entries();
                tell_last(&mut self.points, alloc, &self.fetches, entries)?;
            }
        }
        Ok(true)
    }

    /// The record and the hits.
    pub(crate) fn finish(self) -> (Record, Hits)
        ensures entries { result.0.entries ≡ self.progress.recorded.entries }
        ensures skipped { result.0.skipped ≡ self.progress.skipped }
        ensures hits { result.1 ≡ self.hits }
        ensures legal { IsRecord (setting_of self.progress.recorded) self.progress.recorded.entries }
    {
        (self.player.finish(), self.hits)
    }
}

/// The points remember what the last entry says that fetches found.
fn tell_last(
    points: &mut [Point],
    alloc: Global,
    fetches: &[Option<FileId>],
    entries: &Entries,
) -> Result<(), OutOfMemory>
    ensures { OnOk result ((before : List PlainEntry) (e : PlainEntry) → entries.now ≡ before ++ e ∷ [] → points.new ≡ told_at fetches.now (visit (sent_in before) e.event) e.notes points.old) }
{
    let Some(place) = entries.len().checked_sub(1) else {
        return Ok(());
    };
    let entry = entries.at(place);
    // Named, since the prover has to see what type a command is.
    if let EventRef::Command {
        command: _command,
        ..
    } = entry.event
    {}
    let sent = entries.sent();
    let before = &sent[..sent.len() - entry.messages.len()];
    match node_of(before, &entry.event) {
        Some(node) => tell_all(points, alloc, fetches, node, entry.notes),
        None => Ok(()),
    }
}
