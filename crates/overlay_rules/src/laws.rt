//! What the types of commands say of them.

ghost use Rattle.overlay_rules.specs.Record.{IsSaid};

use wire_msg::Command;

/// What a command says is an identifier, a file or its bytes, by the types of its parts: a law, which does nothing.
pub fn command_law(command: &Command)
    ensures { IsSaid command.now }
{
    match command {
        Command::Join { via: id } | Command::Lookup { key: id } => id.range_law(),
        Command::Insert {
            file,
            copies,
            bytes,
        } => {
            file.range_law();
            let _copies = copies.get();
            bytes.range_law();
        }
        Command::Fetch { file } | Command::Reclaim { file } => file.range_law(),
        Command::GiveUp => {}
    }
}
