//! Files and names of a made scenario.

ghost use Rattle.std.specs.Prelude.{◌≡◌, ◌≤◌, ◌<◌, ◌++◌, codes, decimal, string_bytes, IfOk, OnOk};
ghost use Rattle.scenario_reader.specs.declared.limits.TheConstants.{MOST_NODES};
ghost use Rattle.schedule.specs.Made.{file_name, file_from, files_made};
ghost use Rattle.schedule.specs.Words.{words_to_come, generator_after};

use crate::task::MADE_FILES;
use crate::words::Words;
use ring_math::{Bytes, FileId, OutOfMemory, file_id};
use scenario_reader::Name;
use std::alloc::Global;

/// A file of a made scenario.
#[derive(Drop)]
pub struct MadeFile {
    /// What the scenario calls it.
    pub name: Name,
    pub file: FileId,
    pub bytes: Bytes,
}

pub(crate) fn node_name(alloc: Global, node: u32) -> Result<String, OutOfMemory>
    ensures { IfOk result (λ name. string_bytes name ≡ codes "n" ++ decimal node) }
{
    Ok(format!(in alloc; "n{node}")?)
}

fn file_name(alloc: Global, file: u32) -> Result<Name, OutOfMemory>
    requires { file < MADE_FILES }
    ensures { IfOk result (λ name. name ≡ file_name file) }
{
    let name = format!(in alloc; "f{file}")?;
    Ok(Name::new(name.as_bytes()).unwrap())
}

/// The files that are made of a seed's words, behind those of so many nodes.
pub(crate) fn make_files(alloc: Global, nodes: u32, seed: u64) -> Result<Vec<MadeFile>, OutOfMemory>
    requires { nodes ≤ MOST_NODES }
    ensures { IfOk result (λ files. files.items ≡ files_made nodes seed) }
{
    let mut words = Words::from_place(seed, 4 * nodes);
    let mut files = Vec::new(alloc);
    for file in 0..MADE_FILES {
        files.push(make_file(alloc, &mut words, file)?)?;
    }
    Ok(files)
}

/// A file: of the next words two are its salt, and then sixteen its bytes.
fn make_file(alloc: Global, words: &mut Words, file: u32) -> Result<MadeFile, OutOfMemory>
    requires { file < MADE_FILES }
    ensures file { IfOk result (λ made. made ≡ file_from file (words_to_come words.old 2) (words_to_come (generator_after words.old 2) 16)) }
    ensures after { OnOk result (words.new ≡ generator_after (generator_after words.old 2) 16) }
{
    let mut salt = [0; 8];
    words.fill(&mut salt);
    let mut bytes = [0; 64];
    words.fill(&mut bytes);
    let name = file_name(alloc, file)?;
    let file = file_id(name.as_slice(), b"", &salt);
    match Bytes::copy_of(alloc, &bytes) {
        Ok(bytes) => Ok(MadeFile { name, file, bytes }),
        Err(_) => Err(OutOfMemory),
    }
}
