//! Commands in the words of a scenario.

ghost use Rattle.std.specs.Prelude.{◌≡◌, ◌++◌, OnOk};
ghost use Rattle.message_table.specs.Labels.{command_text};

use crate::labels::Labels;
use ring_math::OutOfMemory;
use text_writer::Text;
use wire_msg::Command;

/// A command, as its line has it behind the node.
pub(crate) fn put_command(
    text: &mut Text,
    labels: &Labels,
    command: &Command,
) -> Result<(), OutOfMemory>
    ensures { OnOk result (text.new ≡ text.old ++ command_text labels.now.nodes labels.now.files command.now) }
{
    match command {
        Command::Join { via } => labels.put_node(text, b"join by ", *via),
        Command::Lookup { key } => text.id_after(b"lookup ", *key),
        Command::Insert { file, copies, .. } => {
            labels.put_file(text, b"insert ", file)?;
            text.number_after(b" ", u64::from(copies.get()))
        }
        Command::Fetch { file } => labels.put_file(text, b"fetch ", file),
        Command::GiveUp => text.put(b"giveup"),
        Command::Reclaim { file } => labels.put_file(text, b"reclaim ", file),
    }
}
