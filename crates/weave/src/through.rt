//! Records taken through cells.

ghost use Rattle.std.specs.Prelude.{[], IfOk};
ghost use Rattle.overlay_rules.specs.Record.{IsSetting, Legal};
ghost use Rattle.step_facts.specs.Setting.{setting};
ghost use Rattle.weave_laws.specs.Woven.{IsWoven};
ghost use Rattle.weave.specs.Alike.{AreAlike};
ghost use Rattle.weave.specs.Relayed.{Hold};
ghost use Rattle.weave.specs.Through.{histories_through, through};

use crate::fault::WeaveFault;
use crate::relay::Relay;
use crate::weaving::into_woven;
use overlay_rules::{EventRef, Record};
use ring_math::{Id, OutOfMemory};
use std::alloc::Global;

/// Gives cells, one of each node, what happens in a legal record of these nodes, event by event: a command is submitted, a
/// delivery of message n hands over the n-th frame that the cells sent, and for noise comes an empty frame. The answer is the
/// woven record of the cells' histories. It is legal, and at each node the same happens in it as in the first record, in the same
/// order, but for stamps.
pub fn through_cells(
    alloc: Global,
    nodes: &[Id],
    founder: Id,
    steps: &Record,
) -> Result<Record, OutOfMemory>
    requires setting { IsSetting (setting nodes.now founder) }
    requires legal { Legal (setting nodes.now founder) steps.now.entries }
    ensures woven { IfOk result (λ woven. IsWoven (histories_through (setting nodes.now founder) steps.now.entries) woven) }
    ensures legal { IfOk result (λ woven. Legal (setting nodes.now founder) woven.entries) }
    ensures alike { IfOk result (λ woven. AreAlike nodes.now steps.now.entries woven.entries) }
{
    let relay = relayed(alloc, nodes, founder, steps)?;
    match into_woven(alloc, relay.cells) {
        Ok(woven) => Ok(woven),
        Err(WeaveFault::OutOfMemory) => Err(OutOfMemory),
        Err(WeaveFault::Stray { .. }) => unreachable!(),
    }
}

/// The cells after all that happens in the record.
fn relayed(alloc: Global, nodes: &[Id], founder: Id, steps: &Record) -> Result<Relay, OutOfMemory>
    requires setting { IsSetting (setting nodes.now founder) }
    requires legal { Legal (setting nodes.now founder) steps.now.entries }
    ensures { IfOk result (λ relay. Hold (setting nodes.now founder) (through (setting nodes.now founder) [] steps.now.entries) relay.cells.items) }
{
    let mut relay = Relay::new(alloc, nodes, founder)?;
    for place in 0..steps.entries.len() {
        let event = steps.entries.at(place).event;
        relay.happen(alloc, nodes, &event)?;
        // Named, since the prover has to see what type a command is.
        if let EventRef::Command {
            command: _command,
            ..
        } = event
        {}
    }
    Ok(relay)
}
