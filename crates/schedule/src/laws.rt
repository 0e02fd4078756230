//! That turns are the play of a schedule.

ghost use Rattle.std.specs.Prelude.{List};
ghost use Rattle.overlay_rules.specs.Played.{Action as Act, Play};
ghost use Rattle.schedule.specs.Playing.{PlaysOn};

/// For every schedule and every play, the next turn is the beginning of the schedule's play: what is left behind it plays
/// on from there to the same end. So a player that makes each turn happen until none is left has the played record.
pub fn turn_law()
    ensures { (acts : List Act) (p : Play) → PlaysOn acts p }
{}
