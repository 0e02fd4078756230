//! The keys of files that a picture shows.

ghost use Rattle.std.specs.Prelude.{◌≡◌, ◌≤◌, length, take, IfOk, OnOk};
ghost use Rattle.ring_math.specs.Sides.{is_in};
ghost use Rattle.trace_picture.specs.Keys.{keys_in, with_key, with_note, with_notes};

use overlay_rules::{Entries, EntryRef, EventRef};
use ring_math::{Id, OutOfMemory, key_of};
use std::alloc::Global;
use wire_msg::Note;

/// Those of all files that the first `end` entries accepted, each once.
pub(crate) fn accepted_keys(
    alloc: Global,
    entries: &Entries,
    end: usize,
) -> Result<Vec<Id>, OutOfMemory>
    requires { end ≤ length entries.now }
    ensures { IfOk result (λ keys. keys.items ≡ keys_in (take end entries.now)) }
{
    let mut keys = Vec::new(alloc);
    for place in 0..end {
        let EntryRef { event, notes, .. } = entries.at(place);
        // Named, since the prover has to see what type a command is.
        if let EventRef::Command {
            command: _command,
            ..
        } = event
        {}
        add_notes(&mut keys, notes)?;
    }
    Ok(keys)
}

fn add_notes(keys: &mut Vec<Id>, notes: &[Note]) -> Result<(), OutOfMemory>
    ensures { OnOk result (keys.new.items ≡ with_notes keys.old.items notes.now) }
{
    for note in notes {
        add_note(keys, note)?;
    }
    Ok(())
}

/// The key of the file that a note says was accepted.
fn add_note(keys: &mut Vec<Id>, note: &Note) -> Result<(), OutOfMemory>
    ensures { OnOk result (keys.new.items ≡ with_note keys.old.items note.now) }
{
    match note {
        Note::Accepted { file, .. } => add_key(keys, key_of(file)),
        _ => Ok(()),
    }
}

/// One key more, unless it is there.
fn add_key(keys: &mut Vec<Id>, key: Id) -> Result<(), OutOfMemory>
    ensures { OnOk result (keys.new.items ≡ with_key keys.old.items key) }
{
    if !is_in(keys, key) {
        keys.push(key)?;
    }
    Ok(())
}

fn is_in(keys: &[Id], key: Id) -> bool
    ensures { result ≡ is_in keys.now key }
{
    keys.iter().any(|other| *other == key)
}
