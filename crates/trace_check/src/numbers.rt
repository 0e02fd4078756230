//! The numbers of commands.

ghost use Rattle.std.specs.Prelude.{◌≡◌, ◌++◌, ◌∷◌, [], List, OnOk};
ghost use Rattle.std.specs.Bool.{Decides};
ghost use Rattle.wire_msg.specs.declared.command.Command.{Command as NodeCommand};
ghost use Rattle.overlay_rules.specs.declared.entry.Entry.{Entry as PlainEntry};
ghost use Rattle.overlay_rules.specs.declared.entry.Event.TheVariants as event;
ghost use Rattle.overlay_rules.specs.Record.{IsFresh};
ghost use Rattle.trace_check.specs.Numbers.{AreNumbersOf, is_above};

use ring_math::{Id, OutOfMemory};
use std::alloc::Global;
use std::collections::BTreeMap;

/// The numbers of the commands so far.
#[derive(Drop)]
pub(crate) struct Numbers {
    /// The node of each number.
    pub(crate) used: BTreeMap<u64, u128>,
    /// The greatest number at each node that was given a command.
    pub(crate) greatest: BTreeMap<u128, u64>,
}

impl Numbers {
    /// No number yet. It takes no memory.
    pub(crate) fn new(alloc: Global) -> Numbers
        ensures { AreNumbersOf result [] }
    {
        Numbers {
            used: BTreeMap::new(alloc),
            greatest: BTreeMap::new(alloc),
        }
    }

    /// Whether a command at this node may have this number: it is no other command's, and greater than those at the node.
    pub(crate) fn is_new(&self, node: Id, number: u64) -> bool
        ensures { (past : List PlainEntry) (c : NodeCommand) → AreNumbersOf self.now past → Decides result (IsFresh past (event.Command node number c)) }
    {
        let is_used = self.used.contains_key(&number);
        let is_greater = is_above(number, self.greatest.get(&node.0).copied());
        !is_used && is_greater
    }

    /// One more command, with a number that it may have. After `OutOfMemory` the numbers are of no more use.
    pub(crate) fn add(&mut self, node: Id, number: u64) -> Result<(), OutOfMemory>
        ensures { (past : List PlainEntry) (e : PlainEntry) (c : NodeCommand) → AreNumbersOf self.old past → e.event ≡ event.Command node number c →
            IsFresh past e.event → OnOk result (AreNumbersOf self.new (past ++ e ∷ [])) }
    {
        let id = node.0;
        self.used.insert(number, id)?;
        self.greatest.insert(id, number)?;
        Ok(())
    }
}

/// Whether the number is greater than this one, if there is one.
fn is_above(number: u64, greatest: Option<u64>) -> bool
    ensures { result ≡ is_above number greatest }
{
    match greatest {
        Some(greatest) => greatest < number,
        None => true,
    }
}
