//! What nodes, files and commands are called.

ghost use Rattle.std.specs.Prelude.{◌≡◌, ◌++◌, ◌-◌, find, get_or, map, option_copied, IfOk, OnOk};
ghost use Rattle.ring_math.specs.Bytewise.{same_bytes};
ghost use Rattle.scenario_reader.specs.declared.node.FileLine.{FileLine as PlainFile};
ghost use Rattle.delivery_report.specs.Answers.{name_of};
ghost use Rattle.message_table.specs.Labels.{both_text, command_lines, label_of, spaced_or_dash};

use delivery_report::NodeNames;
use ring_math::{FileId, Id, OutOfMemory};
use scenario_reader::{Action, FileLine, Scenario, What};
use std::alloc::Global;
use std::marker::Model;
use text_writer::Text;

/// A scenario whose names are to be found by what they stand for.
#[derive(Drop)]
pub(crate) struct Labels<'a> {
    scenario: &'a Scenario,
    names: NodeNames<'a>,
    /// The line of each command, in the order of their numbers.
    lines: Vec<u32>,
}

impl<'a> Model for Labels<'a> {
    ghost use Rattle.std.specs.Prelude.{◌≡◌};
    ghost use Rattle.scenario_reader.specs.Plain.{PlainScenario};
    ghost use Rattle.message_table.specs.Labels.{command_lines};

    ghost Value = { PlainScenario };

    ghost view = { λ a. a.scenario.now };

    ghost invariant = { λ a. (a.names ≡ a.scenario.now.nodes) × (a.lines.items ≡ command_lines a.scenario.now.actions) };
}

impl<'a> Labels<'a> {
    pub(crate) fn of(alloc: Global, scenario: &'a Scenario) -> Result<Labels<'a>, OutOfMemory>
        ensures { IfOk result (λ labels. labels ≡ scenario.now) }
    {
        let names = NodeNames::of(alloc, scenario.nodes())?;
        let lines = lines_of(alloc, scenario.actions())?;
        Ok(Labels {
            scenario,
            names,
            lines,
        })
    }

    pub(crate) fn scenario(&self) -> &Scenario
        ensures { result.now ≡ self.now }
    {
        self.scenario
    }

    /// The names of the nodes.
    pub(crate) fn names(&self) -> &NodeNames<'a>
        ensures { result.now ≡ self.now.nodes }
    {
        &self.names
    }

    /// The line of the command of this number; 0 where there is none.
    pub(crate) fn line(&self, number: u64) -> u32
        ensures { result ≡ get_or (command_lines self.now.actions) (number - 1) 0 }
    {
        let place = number.saturating_sub(1);
        match self.lines.get(place as usize) {
            Some(line) => *line,
            None => 0,
        }
    }

    /// A word and a node's name.
    pub(crate) fn put_node(&self, text: &mut Text, word: &[u8], id: Id) -> Result<(), OutOfMemory>
        ensures { OnOk result (text.new ≡ text.old ++ (word.now ++ name_of self.now.nodes id)) }
    {
        self.names().write_after(text, word, id)
    }

    /// A word and the names of two nodes.
    pub(crate) fn put_both(
        &self,
        text: &mut Text,
        word: &[u8],
        left: Id,
        right: Id,
    ) -> Result<(), OutOfMemory>
        ensures { OnOk result (text.new ≡ text.old ++ (word.now ++ both_text self.now.nodes left right)) }
    {
        self.put_node(text, word, left)?;
        self.put_node(text, b" and ", right)
    }

    /// A word and a file's name; of an identifier that no file has, the 40 digits.
    pub(crate) fn put_file(
        &self,
        text: &mut Text,
        word: &[u8],
        file: &FileId,
    ) -> Result<(), OutOfMemory>
        ensures { OnOk result (text.new ≡ text.old ++ (word.now ++ label_of self.now.files file.now)) }
    {
        text.put(word)?;
        put_label(text, self.scenario().files(), file)
    }

    /// Files' names, each behind a space; a dash where there are none.
    pub(crate) fn put_files(&self, text: &mut Text, files: &[FileId]) -> Result<(), OutOfMemory>
        ensures { OnOk result (text.new ≡ text.old ++ spaced_or_dash (map (label_of self.now.files) files.now)) }
    {
        if files.is_empty() {
            return text.put(b" -");
        }
        for file in files {
            self.put_file(text, b" ", file)?;
        }
        Ok(())
    }
}

/// The line of each command.
fn lines_of(alloc: Global, actions: &[Action]) -> Result<Vec<u32>, OutOfMemory>
    ensures { IfOk result (λ lines. lines.items ≡ command_lines actions.now) }
{
    let mut lines = Vec::new(alloc);
    for action in actions {
        if let What::Command { .. } = &action.what {
            lines.push(action.line)?;
        }
    }
    Ok(lines)
}

fn put_label(text: &mut Text, files: &[FileLine], file: &FileId) -> Result<(), OutOfMemory>
    ensures { OnOk result (text.new ≡ text.old ++ label_of files.now file.now) }
{
    match line_of(files, file) {
        Some(line) => text.put(line.name.as_slice()),
        None => text.hex(&file.0),
    }
}

/// The first file with this identifier.
fn line_of<'a>(files: &'a [FileLine], file: &FileId) -> Option<&'a FileLine>
    ensures { option_copied result ≡ find (λ (line : PlainFile). same_bytes line.file file.now) files.now }
{
    for line in files {
        if line.file == *file {
            return Some(line);
        }
    }
    None
}
