//! A scenario that is played one turn after another.

ghost use Rattle.std.specs.Prelude.{◌≡◌, ◌↔◌, false, true, Some, IfOk, OnOk, OnErr, MatchBool};
ghost use Rattle.overlay_rules.specs.declared.entry.Event.{Event};
ghost use Rattle.overlay_rules.specs.Record.{IsRecord};
ghost use Rattle.scenario_reader.specs.Plain.{ids};
ghost use Rattle.schedule.specs.Cursors.{event_of, step_of};
ghost use Rattle.schedule.specs.Playing.{IsBeginning};
ghost use Rattle.schedule.specs.Schedule.{play_of};
ghost use Rattle.schedule.specs.Turns.{Step};
ghost use Rattle.world_model.specs.Recorded.{setting_of, with_event};
ghost use Rattle.play_engine.specs.Advance.{IsNext, TakesTurn, moved_to, progress_after};
ghost use Rattle.play_engine.specs.Coming.{CanAct, CanCome, is_some};
ghost use Rattle.play_engine.specs.Progress.{IsWhole, Plays, play_in, progress_at_start};

use overlay_rules::Record;
use ring_math::{Id, OutOfMemory};
use scenario_reader::{Action, NodeLine, Scenario, What};
use schedule::{Cursor, ShuffleWords, Turn};
use std::alloc::Global;
use std::marker::Model;
use world_model::World;

/// A scenario that is being played: the world so far, and how far its schedule has come. The words of shuffles are kept
/// beside that, only so that none is made twice.
#[derive(Drop)]
pub struct Player {
    world: World,
    cursor: Cursor,
    words: ShuffleWords,
    skipped: u64,
}

impl Model for Player {
    ghost use Rattle.play_engine.specs.Progress.{Progress};

    ghost Value = { Progress };

    ghost view = { λ a. record { recorded = a.world; spot = a.cursor; skipped = a.skipped } };
}

impl Player {
    /// Nothing has happened yet. The only error is that memory was refused.
    pub fn new(alloc: Global, scenario: &Scenario) -> Result<Player, OutOfMemory>
        ensures start { IfOk result (λ player. player ≡ progress_at_start scenario.now) }
        ensures plays { IfOk result (λ player. Plays scenario.now player) }
    {
        let nodes = ids_of(alloc, scenario.nodes())?;
        Ok(Player {
            world: World::new(alloc, &nodes, scenario.founder())?,
            cursor: Cursor::new(),
            words: ShuffleWords::new(),
            skipped: 0,
        })
    }

    /// Adds the next entry or skip of the played record. The answer is false, with nothing changed, exactly where that
    /// record is complete. The scenario is the one that the player was made with. After `OutOfMemory` the record is not
    /// complete and the player is as before, so the caller may call again.
    pub fn advance(&mut self, alloc: Global, scenario: &Scenario) -> Result<bool, OutOfMemory>
        requires plays { Plays scenario.now self.old }
        ensures plays { Plays scenario.now self.new }
        ensures so_far { IsBeginning (play_in self.new) (play_of scenario.now) }
        ensures turn { IfOk result (λ more. MatchBool more (TakesTurn scenario.now self.old self.new) (self.new ≡ self.old)) }
        ensures exactly { IfOk result (λ more. (more ≡ false) ↔ IsWhole scenario.now self.old.recorded.entries self.old.skipped) }
        ensures err { OnErr result (self.new ≡ self.old) }
        ensures refused { OnErr result (IsWhole scenario.now self.old.recorded.entries self.old.skipped → ⊥) }
    {
        let actions = scenario.actions();
        let mut cursor = self.cursor();
        let turn = self.next(&mut cursor, scenario);
        if !self.make(alloc, actions, turn)? {
            return Ok(false);
        }
        self.move_to(cursor);
        Ok(true)
    }

    /// The world so far.
    pub fn world(&self) -> &World
        ensures { result.now ≡ self.now.recorded }
    {
        &self.world
    }

    /// The record so far. It takes no memory.
    pub fn finish(self) -> Record
        ensures entries { result.entries ≡ self.recorded.entries }
        ensures skipped { result.skipped ≡ self.skipped }
        ensures legal { IsRecord (setting_of self.recorded) self.recorded.entries }
    {
        self.world.finish(self.skipped)
    }

    /// A cursor at the player's place. It takes no memory.
    pub fn cursor(&self) -> Cursor
        ensures { result ≡ self.now.spot }
    {
        self.cursor.copy()
    }

    /// The next turn at the player's place. This cursor stands behind it afterwards; the player's goes on only by
    /// [`move_to`](Player::move_to), once the turn was made, since that may be refused.
    #[inline(always)]
    pub fn next(&mut self, cursor: &mut Cursor, scenario: &Scenario) -> Turn
        requires at { cursor.old ≡ self.old.spot }
        ensures next { IsNext scenario.now self.old cursor.new result }
        ensures same { self.new ≡ self.old }
    {
        let sent = self.world.sent_len();
        let oldest = self.world.oldest_undelivered();
        cursor.next(scenario, &mut self.words, sent, oldest)
    }

    /// Goes on to a cursor, and leaves the record as it is.
    pub fn move_to(&mut self, cursor: Cursor)
        ensures { self.new ≡ moved_to cursor self.old }
    {
        self.cursor = cursor;
    }

    /// Makes a turn of these actions, and leaves the player at its place. The answer is false, with nothing changed, where the
    /// turn says that none is left. After `OutOfMemory` the player is as before.
    #[inline(always)]
    pub fn make(
        &mut self,
        alloc: Global,
        actions: &[Action],
        turn: Turn,
    ) -> Result<bool, OutOfMemory>
        requires can { CanCome actions.now self.old turn }
        ensures answer { IfOk result (λ more. more ≡ is_some turn) }
        ensures made { OnOk result ((step : Step) → step_of actions.now turn ≡ Some step → self.new ≡ progress_after step self.old) }
        ensures err { OnErr result (self.new ≡ self.old) }
        ensures refused { OnErr result (is_some turn ≡ true) }
    {
        match turn {
            Turn::Action(place) => {
                act(&mut self.world, alloc, &actions[place].what)?;
                Ok(true)
            }
            Turn::Deliver(message) => self.world.deliver(alloc, message),
            Turn::Skip => {
                self.skipped += 1;
                Ok(true)
            }
            Turn::Finished => Ok(false),
        }
    }
}

/// Makes an action happen that is an event, a command or noise.
fn act(world: &mut World, alloc: Global, what: &What) -> Result<(), OutOfMemory>
    requires can { CanAct world.old what.now }
    ensures ok { OnOk result ((v : Event) → event_of what.now ≡ Some v → world.new ≡ with_event world.old v) }
    ensures err { OnErr result (world.new ≡ world.old) }
{
    match what {
        What::Command {
            number,
            node,
            command,
        } => world.command(alloc, *node, *number, command),
        What::Noise { node, .. } => world.noise(alloc, *node),
        _ => unreachable!(),
    }
}

/// The identifiers of nodes, in their order. The only error is that memory was refused.
pub fn ids_of(alloc: Global, nodes: &[NodeLine]) -> Result<Vec<Id>, OutOfMemory>
    ensures { IfOk result (λ listed. listed.items ≡ ids nodes.now) }
{
    Ok(nodes.iter().map(|node| node.id).collect(alloc)?)
}
