//! Writing the fields of a command and of a note at the end of the bytes.

ghost use Rattle.std.specs.Prelude.{◌∷◌, [], OnOk};
ghost use Rattle.wire_codec.specs.Fields.{Field};
ghost use Rattle.wire_codec.specs.Notes.{fields_of_answer, fields_of_command, fields_of_note, tag_of_own};
ghost use Rattle.wire_codec.specs.Writing.{Writes};

use crate::put::{
    put_asked, put_bytes, put_copies, put_file, put_hops, put_id, put_number, put_tag,
};
use crate::put_message::{put_reply, put_why};
use ring_math::OutOfMemory;
use wire_msg::{Answer, Command, Note, Own};

#[tactic(auto, using(crate::proofs::Written::writes_then))]
pub(crate) fn put_command(out: &mut Vec<u8>, command: &Command) -> Result<(), OutOfMemory>
    ensures { OnOk result (Writes out.old.items out.new.items (fields_of_command command.now)) }
{
    match command {
        Command::Join { via } => {
            put_tag(out, 1)?;
            put_id(out, *via)?;
        }
        Command::Lookup { key } => {
            put_tag(out, 2)?;
            put_id(out, *key)?;
        }
        Command::Insert {
            file,
            copies,
            bytes,
        } => {
            put_tag(out, 3)?;
            put_file(out, file)?;
            put_copies(out, *copies)?;
            put_bytes(out, bytes)?;
        }
        Command::Fetch { file } => {
            put_tag(out, 4)?;
            put_file(out, file)?;
        }
        Command::GiveUp => put_tag(out, 5)?,
        Command::Reclaim { file } => {
            put_tag(out, 6)?;
            put_file(out, file)?;
        }
    }
    Ok(())
}

fn put_own(out: &mut Vec<u8>, own: Own) -> Result<(), OutOfMemory>
    ensures { OnOk result (Writes out.old.items out.new.items (Field.Tag (tag_of_own own) ∷ [])) }
{
    let tag = match own {
        Own::GivenUp => 1,
        Own::Already => 2,
        Own::Spent => 3,
    };
    put_tag(out, tag)
}

#[tactic(auto, using(crate::proofs::Written::writes_then))]
fn put_answer(out: &mut Vec<u8>, answer: &Answer) -> Result<(), OutOfMemory>
    ensures { OnOk result (Writes out.old.items out.new.items (fields_of_answer answer.now)) }
{
    match answer {
        Answer::Reply(reply) => {
            put_tag(out, 1)?;
            put_reply(out, reply)?;
        }
        Answer::Joined { left, right } => {
            put_tag(out, 2)?;
            put_id(out, *left)?;
            put_id(out, *right)?;
        }
        Answer::Denied { node, why } => {
            put_tag(out, 3)?;
            put_id(out, *node)?;
            put_why(out, why)?;
        }
        Answer::Stopped { node, own } => {
            put_tag(out, 4)?;
            put_id(out, *node)?;
            put_own(out, *own)?;
        }
        Answer::GaveUp => put_tag(out, 5)?,
        Answer::NothingToGiveUp => put_tag(out, 6)?,
    }
    Ok(())
}

#[tactic(auto, using(crate::proofs::Written::writes_then, crate::proofs::Written::asked_then))]
pub(crate) fn put_note(out: &mut Vec<u8>, note: &Note) -> Result<(), OutOfMemory>
    ensures { OnOk result (Writes out.old.items out.new.items (fields_of_note note.now)) }
{
    match note {
        Note::Accepted { file, bytes } => {
            put_tag(out, 1)?;
            put_file(out, file)?;
            put_bytes(out, bytes)?;
        }
        Note::Delivered {
            origin,
            number,
            key,
            hops,
        } => {
            put_tag(out, 2)?;
            put_asked(out, *origin, *number)?;
            put_id(out, *key)?;
            put_hops(out, *hops)?;
        }
        Note::Answered {
            origin,
            number,
            reply,
        } => {
            put_tag(out, 3)?;
            put_asked(out, *origin, *number)?;
            put_reply(out, reply)?;
        }
        Note::Closed { number, answer } => {
            put_tag(out, 4)?;
            put_number(out, *number)?;
            put_answer(out, answer)?;
        }
        Note::Reclaimed { file } => {
            put_tag(out, 5)?;
            put_file(out, file)?;
        }
    }
    Ok(())
}
