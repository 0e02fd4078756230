//! A node that is served lines from a source, and answers into a sink.

ghost use Rattle.std.specs.Prelude.{◌≡◌, ◌≤◌, [], None, Err, OnOk, OnErr, IfErr, List, ℕ, Option};
ghost use Rattle.outside.specs.Rose.{Rose};
ghost use Rattle.node_process.specs.Talk.{Talk};
ghost use Rattle.node_service.specs.Served.{IsServed, IsServedInPart};
ghost use Rattle.node_service.specs.Serves.{Serves};
ghost use Rattle.node_service.specs.Session.{IsFar};
ghost use Rattle.node_service.specs.Steps.{FailsAtLast, FailsAtPiece, IsLastServed, IsPieceServed};
ghost use Rattle.node_service.specs.Written.{IsBrokenOff, IsTaken};

use crate::fault::ServiceFault;
use crate::session::Session;
use outside::{Piece, Sink, Source, write_all};
use std::alloc::Global;
use text_writer::Text;

/// The most bytes that are asked for in one call of the source.
pub const MOST_PIECE: usize = 4096;

/// Serves a node, from the source's lines to the sink: the first line names it, `node ID` or `founder ID`, and each further one is
/// answered by the node, as `NodeProcess::answer` says. Until a line names the node each is refused; the one that does is answered
/// `done 0`. Lines end at byte 0a, which the last may lack. A line that is too long is read to its end, and refused. The answers to
/// the lines that came to their end with one call of the source are offered to the sink before the next call. It ends with the
/// source. Its memory is that of its node, of one line, and of the answers to one piece, however many lines come.
pub fn serve_node<S: Source, K: Sink>(
    alloc: Global,
    source: &mut S,
    sink: &mut K,
) -> Result<(), ServiceFault>
    // Which calls were made, what came by them, and what was answered to it.
    ensures calls { Serves S.gives S.left K.takes K.taken [] None source.old sink.old result source.new sink.new }
    // With Ok the source was read to its end, and the sink took what is answered to its lines; else the first of that.
    ensures whole { OnOk result (IsServed (S.left source.old) (S.left source.new) (K.taken sink.old) (K.taken sink.new)) }
    ensures part { OnErr result (IsServedInPart (S.left source.old) (K.taken sink.old) (K.taken sink.new)) }
    // Read and Write come only with a fault of the device.
    ensures unread { result ≡ Err ServiceFault.Read → Rose (S.faults source.old) (S.faults source.new) }
    ensures unwritten { result ≡ Err ServiceFault.Write → Rose (K.faults sink.old) (K.faults sink.new) }
    ensures reads { S.faults source.old ≤ S.faults source.new }
    ensures writes { K.faults sink.old ≤ K.faults sink.new }
{
    let mut session = Session::new(alloc);
    serve(alloc, &mut session, source, sink)
}

/// Serves a node from its first line on, one piece after another.
fn serve<S: Source, K: Sink>(
    alloc: Global,
    session: &mut Session,
    source: &mut S,
    sink: &mut K,
) -> Result<(), ServiceFault>
    requires { IsFar session.old [] None }
    ensures calls { Serves S.gives S.left K.takes K.taken [] None source.old sink.old result source.new sink.new }
    ensures unread { result ≡ Err ServiceFault.Read → Rose (S.faults source.old) (S.faults source.new) }
    ensures unwritten { result ≡ Err ServiceFault.Write → Rose (K.faults sink.old) (K.faults sink.new) }
    ensures reads { S.faults source.old ≤ S.faults source.new }
    ensures writes { K.faults sink.old ≤ K.faults sink.new }
{
    let mut buf = [0; MOST_PIECE];
    for _ in 0..u64::MAX {
        match source.read_some(&mut buf) {
            Piece::Got(count) => serve_piece(alloc, session, &buf[..count], sink)?,
            Piece::End => return serve_last(alloc, session, sink),
            Piece::Failed => return Err(ServiceFault::Read),
        }
    }
    Err(ServiceFault::OutOfMemory)
}

/// Answers the lines that end in a piece.
fn serve_piece<K: Sink>(
    alloc: Global,
    session: &mut Session,
    piece: &[u8],
    sink: &mut K,
) -> Result<(), ServiceFault>
    ensures ok { (line : List ℕ) (p : Option Talk) → IsFar session.old line p → OnOk result (IsPieceServed K.takes K.taken line p piece.now session.new sink.old sink.new) }
    ensures err { (line : List ℕ) (p : Option Talk) → IsFar session.old line p → IfErr result (FailsAtPiece K.takes K.taken line p piece.now sink.old sink.new) }
    ensures unwritten { result ≡ Err ServiceFault.Write → Rose (K.faults sink.old) (K.faults sink.new) }
    ensures writes { K.faults sink.old ≤ K.faults sink.new }
{
    let mut text = Text::new(alloc);
    session.take_piece(alloc, piece, &mut text)?;
    hand_over(text, sink)
}

/// Answers what came of a line, where nothing more comes.
fn serve_last<K: Sink>(
    alloc: Global,
    session: &mut Session,
    sink: &mut K,
) -> Result<(), ServiceFault>
    ensures ok { (line : List ℕ) (p : Option Talk) → IsFar session.old line p → OnOk result (IsLastServed K.takes K.taken line p sink.old sink.new) }
    ensures err { (line : List ℕ) (p : Option Talk) → IsFar session.old line p → IfErr result (FailsAtLast K.takes K.taken line p sink.old sink.new) }
    ensures unwritten { result ≡ Err ServiceFault.Write → Rose (K.faults sink.old) (K.faults sink.new) }
    ensures writes { K.faults sink.old ≤ K.faults sink.new }
{
    let mut text = Text::new(alloc);
    session.end(alloc, &mut text)?;
    hand_over(text, sink)
}

/// Offers a text to the sink, to its end.
fn hand_over<K: Sink>(text: Text, sink: &mut K) -> Result<(), ServiceFault>
    ensures ok { OnOk result (IsTaken K.takes K.taken sink.old sink.new text) }
    ensures err { IfErr result (λ fault. (fault ≡ ServiceFault.Write) × IsBrokenOff K.takes K.taken sink.old sink.new text) }
    ensures unwritten { OnErr result (Rose (K.faults sink.old) (K.faults sink.new)) }
    ensures writes { K.faults sink.old ≤ K.faults sink.new }
{
    let text = text.into_frame();
    match write_all(sink, text.as_slice()) {
        Ok(()) => Ok(()),
        Err(_) => Err(ServiceFault::Write),
    }
}
