//! Lines that come in pieces, and the process that answers them.

ghost use Rattle.std.specs.Prelude.{◌≡◌, ◌++◌, ◌∷◌, [], None, false, OnOk, List, ℕ, Option};
ghost use Rattle.node_process.specs.Talk.{Talk};
ghost use Rattle.node_service.specs.Cut.{is_end};
ghost use Rattle.node_service.specs.Session.{HasAnswered, HasEnded, HasTaken, IsFar, IsProcessOf};

use node_lines::{MOST_FRAME_LINE, TellFault, read_start};
use node_process::{NodeProcess, put_done, put_refused};
use ring_math::OutOfMemory;
use std::alloc::Global;
use text_writer::Text;

/// What came of the line that has not ended, and the process of the node, once a line has named it. Of a line no more is kept than
/// shows that it is too long.
#[derive(Drop)]
pub(crate) struct Session {
    pub(crate) line: Vec<u8>,
    pub(crate) process: Option<NodeProcess>,
}

impl Session {
    /// Nothing came yet. It takes no memory.
    pub(crate) fn new(alloc: Global) -> Session
        ensures { IsFar result [] None }
    {
        Session {
            line: Vec::new(alloc),
            process: None,
        }
    }

    /// Takes in the bytes of a piece. The answers of the lines that end in it stand at the end of the text.
    pub(crate) fn take_piece(
        &mut self,
        alloc: Global,
        piece: &[u8],
        text: &mut Text,
    ) -> Result<(), OutOfMemory>
        ensures { (line : List ℕ) (p : Option Talk) → IsFar self.old line p → OnOk result (HasTaken line p piece.now self.new text.old text.new) }
    {
        for byte in piece {
            self.take_byte(alloc, *byte, text)?;
        }
        Ok(())
    }

    fn take_byte(&mut self, alloc: Global, byte: u8, text: &mut Text) -> Result<(), OutOfMemory>
        ensures { (line : List ℕ) (p : Option Talk) → IsFar self.old line p → OnOk result (HasTaken line p (byte ∷ []) self.new text.old text.new) }
    {
        if byte == b'\n' {
            self.end_line(alloc, text)
        } else {
            self.keep(byte)
        }
    }

    /// Keeps a byte of a line, unless it shows already that it is too long.
    fn keep(&mut self, byte: u8) -> Result<(), OutOfMemory>
        requires { is_end byte ≡ false }
        ensures { (line : List ℕ) (p : Option Talk) → IsFar self.old line p → OnOk result (IsFar self.new (line ++ byte ∷ []) p) }
    {
        if self.line.len() > MOST_FRAME_LINE {
            return Ok(());
        }
        self.line.push(byte)?;
        Ok(())
    }

    /// The line has come to its end: its answer stands at the end of the text.
    fn end_line(&mut self, alloc: Global, text: &mut Text) -> Result<(), OutOfMemory>
        ensures { (line : List ℕ) (p : Option Talk) → IsFar self.old line p → OnOk result (HasTaken line p (10 ∷ []) self.new text.old text.new) }
    {
        answer_line(alloc, &mut self.process, self.line.as_slice(), text)?;
        self.line.clear();
        Ok(())
    }

    /// Nothing more comes: what came of a line is one, if there is any.
    pub(crate) fn end(&mut self, alloc: Global, text: &mut Text) -> Result<(), OutOfMemory>
        ensures { (line : List ℕ) (p : Option Talk) → IsFar self.old line p → OnOk result (HasEnded line p text.old text.new) }
    {
        if self.line.is_empty() {
            return Ok(());
        }
        answer_line(alloc, &mut self.process, self.line.as_slice(), text)
    }
}

/// Answers a line: by the node that was named, or, if none was, as the line that is to name one.
fn answer_line(
    alloc: Global,
    process: &mut Option<NodeProcess>,
    line: &[u8],
    text: &mut Text,
) -> Result<(), OutOfMemory>
    ensures { (p : Option Talk) → IsProcessOf process.old p → OnOk result (HasAnswered p line.now process.new text.old text.new) }
{
    match process {
        Some(process) => process.answer(alloc, line, text),
        None => name_node(alloc, process, line, text),
    }
}

/// Makes the process of the node that a line names.
fn name_node(
    alloc: Global,
    process: &mut Option<NodeProcess>,
    line: &[u8],
    text: &mut Text,
) -> Result<(), OutOfMemory>
    requires { process.old ≡ None }
    ensures { OnOk result (HasAnswered None line.now process.new text.old text.new) }
{
    match read_start(alloc, line) {
        Ok(start) => {
            *process = Some(NodeProcess::new(alloc, start.me, start.founder)?);
            put_done(text, 0)
        }
        Err(TellFault::Refused(refusal)) => put_refused(text, refusal),
        Err(TellFault::OutOfMemory) => Err(OutOfMemory),
    }
}
