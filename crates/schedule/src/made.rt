//! The nodes and files of a made scenario.

ghost use Rattle.std.specs.Prelude.{◌≡◌, ◌≤◌, ◌<◌, ◌^◌, length, IfOk};
ghost use Rattle.scenario_reader.specs.declared.limits.TheConstants.{MOST_NODES};
ghost use Rattle.wire_msg.specs.declared.limits.TheConstants.{MOST_COPIES};
ghost use Rattle.schedule.specs.Making.{id_from, node_id, file_at, what_of};
ghost use Rattle.schedule.specs.Plan.{IsTask};
ghost use Rattle.schedule.specs.Words.{words_to_come, generator_after};

use crate::file::MadeFile;
use crate::task::Task;
use crate::words::Words;
use ring_math::{Id, OutOfMemory};
use scenario_reader::What;
use std::alloc::Global;
use std::marker::Model;
use wire_msg::{Command, Copies};

/// Nodes that are made of the words of a seed, and files.
#[derive(Drop)]
pub struct Made {
    seed: u64,
    ids: Vec<Id>,
    files: Vec<MadeFile>,
}

impl Model for Made {
    ghost use Rattle.std.specs.Prelude.{◌≡◌, length};
    ghost use Rattle.schedule.specs.Making.{Making, ids_made};

    ghost Value = { Making };

    ghost view = { λ a. record { nodes = length a.ids.items; seed = a.seed; files = a.files.items } };

    ghost invariant = { λ a. a.ids.items ≡ ids_made (length a.ids.items) a.seed };
}

impl Made {
    /// So many nodes, of this seed, and these files.
    pub fn new(
        alloc: Global,
        nodes: u32,
        seed: u64,
        files: Vec<MadeFile>,
    ) -> Result<Made, OutOfMemory>
        requires { nodes ≤ MOST_NODES }
        ensures { IfOk result (λ made. made ≡ record { nodes = nodes; seed = seed; files = files.items }) }
    {
        let mut words = Words::new(seed);
        let mut ids = Vec::new(alloc);
        for node in 0..nodes {
            ids.push(make_id(&mut words, node))?;
        }
        Ok(Made { seed, ids, files })
    }

    /// A seed is below 2^64: a law, which does nothing. For one behind a reference a proof has it in no other way.
    pub(crate) fn range_law(&self)
        ensures { self.now.seed < 2 ^ 64 }
    {
        let _seed = self.seed;
    }

    /// How many nodes there are.
    pub(crate) fn nodes(&self) -> u32
        requires { self.now.nodes ≤ MOST_NODES }
        ensures { result ≡ self.now.nodes }
    {
        self.ids.len() as u32
    }

    pub(crate) fn files(&self) -> &[MadeFile]
        ensures { result.now ≡ self.now.files }
    {
        &self.files
    }

    pub(crate) fn id(&self, node: u32) -> Id
        requires { node < self.now.nodes }
        ensures { result ≡ node_id self.now.seed node }
    {
        self.ids[node as usize]
    }

    fn file(&self, file: u32) -> &MadeFile
        requires { file < length self.now.files }
        ensures { result.now ≡ file_at self.now file }
    {
        &self.files[file as usize]
    }

    /// What a task says, where a command has this number.
    pub(crate) fn what(&self, alloc: Global, number: u64, task: Task) -> Result<What, OutOfMemory>
        requires some { 1 ≤ self.now.nodes }
        requires task { IsTask self.now.nodes (length self.now.files) task }
        ensures { IfOk result (λ w. w ≡ what_of self.now number task) }
    {
        let (node, command) = match task {
            Task::Join(node) => (node, Command::Join { via: self.id(0) }),
            Task::Insert { file, copies } => (0, self.insert(alloc, file, copies)?),
            Task::Fetch { node, file } => {
                let file = self.file(file).file;
                (node, Command::Fetch { file })
            }
            Task::Settle(count) => return Ok(What::Settle(count)),
            Task::Shuffle(count) => {
                let seed = self.seed;
                return Ok(What::Shuffle { seed, count });
            }
        };
        Ok(What::Command {
            number,
            node: self.id(node),
            command,
        })
    }

    fn insert(&self, alloc: Global, file: u32, copies: u8) -> Result<Command, OutOfMemory>
        requires file { file < length self.now.files }
        requires some { 1 ≤ copies }
        requires few { copies ≤ MOST_COPIES }
        ensures { IfOk result (λ c. c ≡ Command.Insert (file_at self.now file).file copies (file_at self.now file).bytes) }
    {
        let made = self.file(file);
        Ok(Command::Insert {
            file: made.file,
            copies: Copies::new(copies).unwrap(),
            bytes: made.bytes.copy(alloc)?,
        })
    }
}

/// The identifier of a node: the next four words, with a first byte that is no other node's.
fn make_id(words: &mut Words, node: u32) -> Id
    requires { node < MOST_NODES }
    ensures id { result ≡ id_from node (words_to_come words.old 4) }
    ensures after { words.new ≡ generator_after words.old 4 }
{
    let mut bytes = [0; 16];
    words.fill(&mut bytes);
    bytes[0] = (node * 167 % 256) as u8;
    Id(u128::from_be_bytes(bytes))
}
