//! The cells of a scenario.

ghost use Rattle.std.specs.Prelude.{◌≡◌, ◌<◌, ◌≢◌, IfOk, IfSome, IfNone, All, length};
ghost use Rattle.overlay_harness.specs.Work.{IsPlaceOf, fresh_cells};
ghost use Rattle.weave.specs.Cells.{IsLawful};

use node_cell::NodeCell;
use ring_math::{Id, OutOfMemory};
use scenario_reader::Scenario;
use std::alloc::Global;

/// A cell for each node of the scenario, in their order, to which nothing came yet.
pub fn new_cells(alloc: Global, scenario: &Scenario) -> Result<Vec<NodeCell>, OutOfMemory>
    ensures { IfOk result (λ cells. cells.items ≡ fresh_cells scenario.now) }
{
    let founder = scenario.founder();
    let nodes = scenario.nodes();
    let mut cells = Vec::with_capacity(alloc, nodes.len())?;
    for node in nodes {
        let cell = NodeCell::new(alloc, node.id, node.id == founder)?;
        cells.push(cell)?;
    }
    Ok(cells)
}

/// The place of the cell of a node.
pub(crate) fn place_of(cells: &[NodeCell], node: Id) -> Option<usize>
    ensures some { IfSome result (λ place. IsPlaceOf cells.now node place) }
    ensures none { IfNone result (All (λ c. c.node ≢ node) cells.now) }
    ensures within { IfSome result (λ place. place < length cells.now) }
{
    cells.iter().position(|cell| cell.me() == node)
}

/// What cells keep by their type: a law, which only reads them.
pub(crate) fn cells_law(cells: &[NodeCell])
    ensures { All IsLawful cells.now }
{
    for cell in cells {
        let _history = cell.history();
    }
}
