//! Commands that are submitted.

ghost use Rattle.std.specs.Prelude.{◌≡◌, ◌∷◌, [], IfNone, IfSome, OnOk, map};
ghost use Rattle.scenario_reader.specs.declared.action.What.TheVariants as said;
ghost use Rattle.overlay_harness.specs.Stages.{said_to};
ghost use Rattle.overlay_harness.specs.Work.{MayBeTold, told};
ghost use Rattle.weave.specs.Cells.{HaveOwnNodes, nodes};

use crate::cells::place_of;
use node_cell::{CellFault, NodeCell};
use ring_math::Id;
use scenario_reader::{Action, What};
use std::alloc::Global;
use wire_msg::Command;

/// Submits the commands among actions, in order, each to its node.
pub fn tell_all(alloc: Global, cells: &mut [NodeCell], actions: &[Action]) -> Result<(), CellFault>
    requires apart { HaveOwnNodes cells.old }
    requires numbers { MayBeTold cells.old actions.now }
    ensures told { OnOk result (cells.new ≡ map (told actions.now) cells.old) }
    ensures nodes { nodes cells.new ≡ nodes cells.old }
{
    for action in actions {
        tell(alloc, cells, action)?;
    }
    Ok(())
}

/// Submits the command that an action is, if it is one, to its node.
fn tell(alloc: Global, cells: &mut [NodeCell], action: &Action) -> Result<(), CellFault>
    requires apart { HaveOwnNodes cells.old }
    requires numbers { MayBeTold cells.old (action.now ∷ []) }
    ensures told { OnOk result (cells.new ≡ map (told (action.now ∷ [])) cells.old) }
    ensures nodes { nodes cells.new ≡ nodes cells.old }
{
    let Some(said) = command_in(&action.what) else {
        return Ok(());
    };
    let Some(place) = place_of(cells, said.node) else {
        return Ok(());
    };
    let cell = &mut cells[place];
    cell.submit(alloc, said.number, said.command)?;
    Ok(())
}

/// A command, with its number and node.
#[derive(Clone, Copy)]
pub(crate) struct Said<'a> {
    pub(crate) number: u64,
    pub(crate) node: Id,
    pub(crate) command: &'a Command,
}

/// The command that an action is.
pub(crate) fn command_in(what: &What) -> Option<Said<'_>>
    ensures some { IfSome result (λ s. what.now ≡ said.Command s.number s.node s.command.now) }
    ensures none { IfNone result ((x : _) → said_to x what.now ≡ []) }
{
    match what {
        What::Command {
            number,
            node,
            command,
        } => Some(Said {
            number: *number,
            node: *node,
            command,
        }),
        _ => None,
    }
}
