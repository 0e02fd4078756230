//! What names stand for, and how nodes are left.

ghost use Rattle.std.specs.Prelude.{◌≡◌, ◌++◌, ◌<◌, ℕ, flat_map, length, OnOk};
ghost use Rattle.overlay_rules.specs.State.{State};
ghost use Rattle.scenario_reader.specs.Plain.{ids};
ghost use Rattle.world_model.specs.Cells.{AllStand, id_at, ids_of};
ghost use Rattle.message_table.specs.Ends.{ends_text, file_head, heads_text, held_names, links_text, node_end, node_head};
ghost use Rattle.message_table.specs.Labels.{spaced_or_dash};

use crate::labels::Labels;
use coverage::Reach;
use ring_math::OutOfMemory;
use scenario_reader::{FileLine, NodeLine};
use text_writer::Text;
use world_model::Cells;

/// What names stand for, and who is ready from the start.
pub(crate) fn put_heads(text: &mut Text, labels: &Labels) -> Result<(), OutOfMemory>
    ensures { OnOk result (text.new ≡ text.old ++ heads_text labels.now) }
{
    put_nodes(text, labels.scenario().nodes())?;
    put_files(text, labels.scenario().files())?;
    labels.put_node(text, b"first ", labels.scenario().founder())?;
    text.put(b"\n")
}

fn put_nodes(text: &mut Text, nodes: &[NodeLine]) -> Result<(), OutOfMemory>
    ensures { OnOk result (text.new ≡ text.old ++ flat_map node_head nodes.now) }
{
    for node in nodes {
        put_node(text, node)?;
    }
    Ok(())
}

fn put_node(text: &mut Text, node: &NodeLine) -> Result<(), OutOfMemory>
    ensures { OnOk result (text.new ≡ text.old ++ node_head node.now) }
{
    text.put(b"node ")?;
    text.put(node.name.as_slice())?;
    text.id_after(b" ", node.id)?;
    text.put(b"\n")
}

fn put_files(text: &mut Text, files: &[FileLine]) -> Result<(), OutOfMemory>
    ensures { OnOk result (text.new ≡ text.old ++ flat_map file_head files.now) }
{
    for file in files {
        put_file(text, file)?;
    }
    Ok(())
}

fn put_file(text: &mut Text, file: &FileLine) -> Result<(), OutOfMemory>
    ensures { OnOk result (text.new ≡ text.old ++ file_head file.now) }
{
    text.put(b"file ")?;
    text.put(file.name.as_slice())?;
    text.put(b" ")?;
    text.hex(&file.file.0)?;
    text.put(b"\n")
}

/// A line for each node: its neighbours, if it is ready, and the files that it holds.
pub(crate) fn put_ends(text: &mut Text, labels: &Labels, cells: &Cells) -> Result<(), OutOfMemory>
    requires { ids_of cells.now ≡ ids labels.now.nodes }
    ensures { (states : ℕ → State) → AllStand cells.now states → OnOk result (text.new ≡ text.old ++ ends_text labels.now states) }
{
    let nodes = labels.scenario().nodes();
    for place in 0..nodes.len() {
        put_end(text, labels, cells, place, &nodes[place])?;
    }
    Ok(())
}

/// The line of the node at a place.
fn put_end(
    text: &mut Text,
    labels: &Labels,
    cells: &Cells,
    place: usize,
    node: &NodeLine,
) -> Result<(), OutOfMemory>
    requires within { place < length (ids_of cells.now) }
    requires id { id_at cells.now place ≡ node.now.id }
    ensures { (states : ℕ → State) → AllStand cells.now states → OnOk result (text.new ≡ text.old ++ node_end labels.now states node.now) }
{
    text.put(b"node ")?;
    text.put(node.name.as_slice())?;
    put_links(text, labels, cells.reach(place))?;
    text.put(b" holds")?;
    put_held(text, labels.scenario().files(), cells, place)?;
    text.put(b"\n")
}

fn put_links(text: &mut Text, labels: &Labels, reach: Option<Reach>) -> Result<(), OutOfMemory>
    ensures { OnOk result (text.new ≡ text.old ++ links_text labels.now.nodes reach) }
{
    match reach {
        Some(reach) => labels.put_both(text, b" ready between ", reach.left, reach.right),
        None => text.put(b" not ready"),
    }
}

/// The names of the files that the node at a place holds, each behind a space; a dash where there are none.
fn put_held(
    text: &mut Text,
    files: &[FileLine],
    cells: &Cells,
    place: usize,
) -> Result<(), OutOfMemory>
    requires { place < length (ids_of cells.now) }
    ensures { (states : ℕ → State) → AllStand cells.now states →
        OnOk result (text.new ≡ text.old ++ spaced_or_dash (held_names files.now (states (id_at cells.now place)).files)) }
{
    let mut any = false;
    for file in files {
        if cells.holds(place, &file.file).is_some() {
            text.put(b" ")?;
            text.put(file.name.as_slice())?;
            any = true;
        }
    }
    if any { Ok(()) } else { text.put(b" -") }
}
