//! The names of nodes.

ghost use Rattle.std.specs.Prelude.{◌≡◌, ◌==◌, ◌++◌, find, All, IfOk, OnOk};
ghost use Rattle.std.specs.Option.{option_copied};
ghost use Rattle.scenario_reader.specs.declared.node.NodeLine.{NodeLine as PlainNode};
ghost use Rattle.delivery_report.specs.Answers.{name_of, names_of};
ghost use Rattle.delivery_report.specs.Names.{FindsAll, IsRight};

use ring_math::{GUESS_BITS, Id, OutOfMemory, guess_of};
use scenario_reader::NodeLine;
use std::alloc::Global;
use std::collections::BTreeMap;
use std::marker::Model;
use text_writer::Text;

/// The nodes of a scenario, to be found by their identifiers.
#[derive(Drop)]
pub struct Names<'a> {
    nodes: &'a [NodeLine],
    by_id: BTreeMap<u128, &'a NodeLine>,
    /// For each value of the first bits a node whose identifier begins with it, if there is one. Mostly it is the right one, and
    /// it is looked at before it is taken, so that few are sought in the map.
    guesses: Vec<Option<&'a NodeLine>>,
}

impl<'a> Model for Names<'a> {
    ghost use Rattle.std.specs.Prelude.{List, All};
    ghost use Rattle.scenario_reader.specs.declared.node.NodeLine.{NodeLine};
    ghost use Rattle.delivery_report.specs.Names.{FindsAll, IsRight};

    ghost Value = { List NodeLine };

    ghost view = { λ a. a.nodes.now };

    ghost invariant = { λ a. FindsAll a.by_id a.nodes.now × All (IsRight a.nodes.now) a.guesses.items };
}

impl<'a> Names<'a> {
    /// The nodes at hand. Of two with one identifier the first counts.
    pub fn of(alloc: Global, nodes: &'a [NodeLine]) -> Result<Names<'a>, OutOfMemory>
        ensures { IfOk result (λ names. names ≡ nodes.now) }
    {
        let by_id = first_of_each(alloc, nodes)?;
        let guesses = guesses_of(alloc, nodes, &by_id)?;
        Ok(Names {
            nodes,
            by_id,
            guesses,
        })
    }

    fn node(&self, id: Id) -> Option<&'a NodeLine>
        ensures { option_copied result ≡ find (λ (node : PlainNode). node.id == id) self.now }
    {
        match self.guesses.get(guess_of(id)) {
            Some(Some(node)) if node.id == id => Some(*node),
            _ => self.by_id.get(&id.0).copied(),
        }
    }

    /// Writes a node's name; of an identifier that is no node's, the 32 digits. The only error is that memory was refused.
    pub fn write(&self, text: &mut Text, id: Id) -> Result<(), OutOfMemory>
        ensures { OnOk result (text.new ≡ text.old ++ name_of self.now id) }
    {
        match self.node(id) {
            Some(node) => text.put(node.name.as_slice()),
            None => text.id(id),
        }
    }

    /// Writes a word and a node's name. The only error is that memory was refused.
    pub fn write_after(&self, text: &mut Text, word: &[u8], id: Id) -> Result<(), OutOfMemory>
        ensures { OnOk result (text.new ≡ text.old ++ (word.now ++ name_of self.now id)) }
    {
        text.put(word)?;
        self.write(text, id)
    }

    /// Writes names, a space before each. The only error is that memory was refused.
    pub fn write_all(&self, text: &mut Text, ids: &[Id]) -> Result<(), OutOfMemory>
        ensures { OnOk result (text.new ≡ text.old ++ names_of self.now ids.now) }
    {
        for id in ids {
            text.put(b" ")?;
            self.write(text, *id)?;
        }
        Ok(())
    }
}

/// The first node with each identifier.
fn first_of_each(
    alloc: Global,
    nodes: &[NodeLine],
) -> Result<BTreeMap<u128, &NodeLine>, OutOfMemory>
    ensures { IfOk result (λ by_id. FindsAll by_id nodes.now) }
{
    let mut by_id = BTreeMap::new(alloc);
    for node in nodes {
        if !by_id.contains_key(&node.id.0) {
            by_id.insert(node.id.0, node)?;
        }
    }
    Ok(by_id)
}

/// The guesses for these nodes, the first of which with each identifier are known: of those that begin alike the last is guessed.
fn guesses_of<'a>(
    alloc: Global,
    nodes: &[NodeLine],
    by_id: &BTreeMap<u128, &'a NodeLine>,
) -> Result<Vec<Option<&'a NodeLine>>, OutOfMemory>
    requires { FindsAll by_id.now nodes.now }
    ensures { IfOk result (λ guesses. All (IsRight nodes.now) guesses.items) }
{
    let mut guesses = vec![in alloc; None; 1 << GUESS_BITS]?;
    for node in nodes {
        guesses[guess_of(node.id)] = by_id.get(&node.id.0).copied();
    }
    Ok(guesses)
}
