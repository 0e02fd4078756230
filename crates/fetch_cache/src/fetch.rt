//! Fetches that come to nodes.

ghost use Rattle.std.specs.Prelude.{◌≡◌, Some};
ghost use Rattle.schedule.specs.Cursors.{step_of};
ghost use Rattle.schedule.specs.Turns.{Step};
ghost use Rattle.fetch_cache.specs.Turns.{fetched, fetch_in, fetch_by};

use ring_math::{FileId, Id};
use scenario_reader::{Action, What};
use schedule::Turn;
use wire_msg::Command;

/// A fetch of a file that comes to a node.
#[derive(Drop)]
pub(crate) struct Fetch {
    pub(crate) node: Id,
    pub(crate) number: u64,
    pub(crate) file: FileId,
}

/// The file that a command fetches.
pub(crate) fn fetched(command: &Command) -> Option<FileId>
    ensures { result ≡ fetched command.now }
{
    match command {
        Command::Fetch { file } => Some(*file),
        _ => None,
    }
}

/// The fetch that a turn of these actions is.
pub(crate) fn fetch_in(actions: &[Action], turn: Turn) -> Option<Fetch>
    ensures { (step : Step) → step_of actions.now turn ≡ Some step → result ≡ fetch_in step }
{
    let Turn::Action(place) = turn else {
        return None;
    };
    fetch_by(&actions.get(place)?.what)
}

/// The fetch that an action is.
fn fetch_by(what: &What) -> Option<Fetch>
    ensures { result ≡ fetch_by what.now }
{
    let What::Command {
        number,
        node,
        command,
    } = what
    else {
        return None;
    };
    Some(Fetch {
        node: *node,
        number: *number,
        file: fetched(command)?,
    })
}
