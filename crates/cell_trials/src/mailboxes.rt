//! What no clause says: that cells with passes come to the end of a join by their mailboxes, that a frame which is refused is
//! served again, and that refused copies are not put twice. Refused memory is asked for once more, so that the tests can be run
//! with each allocation failing in turn.

ghost use Rattle.std.specs.Prelude.{◌≡◌, ◌≤◌, ◌<◌, None, Some, [], length, map, All, Contains, OnOk};
ghost use Rattle.node_mailbox.specs.Pass.{after_split, split_off};
ghost use Rattle.node_mailbox.specs.Post.{AreOf};
ghost use Rattle.node_cell.specs.Carried.{just_given};
ghost use Rattle.node_cell.specs.Equipped.{GoesOn, HasPassesOf};
ghost use Rattle.weave.specs.Cells.{HaveOwnNodes};

use node_cell::{CellFault, CellInput, NodeCell, gather};
use node_mailbox::{Passes, Post};
use ring_math::{Id, OutOfMemory};
use std::alloc::Global;
use std::process::Abort;
use std::sync::Wait;
use trace_check::{Verdict, check, read_trace, write_trace};
use weave::weave;
use wire_codec::encode;
use wire_msg::{Answer, Command, Envelope, Frame, Message, Note};

const A: Id = Id(0x10 << 120);

const B: Id = Id(0x90 << 120);

/// Gives a new cell passes of the post.
fn equip<R: Wait>(
    rt: &R,
    alloc: Global,
    post: &Post,
    own: &mut Passes,
    cell: &mut NodeCell,
) -> Result<(), OutOfMemory>
    requires of { AreOf own.old post.now }
    requires two { All (λ pass. 2 ≤ pass.parts) own.old }
    requires new { (cell.old.history ≡ []) × (cell.old.carried ≡ None) }
    ensures own_of { AreOf own.new post.now }
    ensures own { OnOk result (own.new ≡ map after_split own.old) }
    ensures cell { OnOk result (cell.new ≡ record cell.old { carried = Some (just_given (map split_off own.old)) }) }
    ensures of { OnOk result (HasPassesOf post.now cell.new) }
{
    let passes = own.split(rt, alloc, post)?;
    cell.equip(passes);
    Ok(())
}

/// Puts all that the cell has unsent, each frame once. Refused memory is asked for once more.
#[tactic(auto, using(node_cell::proofs::Serves::goes_on_refl, node_cell::proofs::Serves::goes_on_then))]
fn post_all<R: Wait>(rt: &R, alloc: Global, post: &Post, cell: &mut NodeCell) -> bool
    requires { HasPassesOf post.now cell.old }
    ensures of { HasPassesOf post.now cell.new }
    ensures goes_on { GoesOn cell.old cell.new }
{
    let mut refused = false;
    for _ in 0..1_000 {
        match cell.post_one(rt, alloc, post, 1) {
            Ok(true) => {}
            Ok(false) => return true,
            Err(_) if refused => return false,
            Err(_) => refused = true,
        }
    }
    false
}

/// Serves one frame. Refused memory is asked for once more.
#[tactic(auto, using(node_cell::proofs::Serves::goes_on_refl, node_cell::proofs::Serves::goes_on_then))]
fn serve_one<R: Wait>(
    rt: &R,
    alloc: Global,
    post: &Post,
    cell: &mut NodeCell,
) -> Result<bool, CellFault>
    requires of { HasPassesOf post.now cell.old }
    requires node { Contains post.now.nodes cell.old.node }
    ensures of { HasPassesOf post.now cell.new }
    ensures goes_on { GoesOn cell.old cell.new }
{
    match cell.serve(rt, alloc, post) {
        Err(CellFault::OutOfMemory) => cell.serve(rt, alloc, post),
        served => served,
    }
}

/// Frames go to and fro until no mailbox has one.
fn exchange<R: Wait>(
    rt: &R,
    alloc: Global,
    post: &Post,
    one: &mut NodeCell,
    two: &mut NodeCell,
) -> Result<bool, CellFault>
    requires of { HasPassesOf post.now one.old × HasPassesOf post.now two.old }
    requires nodes { Contains post.now.nodes one.old.node × Contains post.now.nodes two.old.node }
    ensures of { HasPassesOf post.now one.new × HasPassesOf post.now two.new }
    ensures nodes { (one.new.node ≡ one.old.node) × (two.new.node ≡ two.old.node) }
{
    for _ in 0..1_000 {
        if !post_all(rt, alloc, post, one) || !post_all(rt, alloc, post, two) {
            return Ok(false);
        }
        let served_one = serve_one(rt, alloc, post, one)?;
        let served_two = serve_one(rt, alloc, post, two)?;
        if !served_one && !served_two {
            return Ok(true);
        }
    }
    Ok(false)
}

/// The links between which a command's node joined.
fn joined(cell: &NodeCell, command: u64) -> Option<(Id, Id)> {
    for entry in cell.history() {
        for note in entry.notes.as_slice() {
            if let Note::Closed {
                number,
                answer: Answer::Joined { left, right },
            } = note
                && *number == command
            {
                return Some((*left, *right));
            }
        }
    }
    None
}

fn sent_by(cell: &NodeCell) -> usize {
    cell.history().iter().fold(
        0,
        |count, entry| entry.sent.as_slice().len().saturating_add(count),
    )
}

fn taken_by(cell: &NodeCell) -> usize {
    cell.history()
        .iter()
        .filter(|entry| matches!(entry.input, CellInput::Comes(_)))
        .count()
}

/// The second node is told to join by way of the first, and frames go to and fro until none is left: whether that came about.
fn joins_by_mailboxes<R: Wait>(
    rt: &R,
    alloc: Global,
    post: &Post,
    one: &mut NodeCell,
    two: &mut NodeCell,
) -> bool
    requires of { HasPassesOf post.now one.old × HasPassesOf post.now two.old }
    requires nodes { Contains post.now.nodes one.old.node × Contains post.now.nodes two.old.node }
    requires new { two.old.history ≡ [] }
    ensures nodes { (one.new.node ≡ one.old.node) × (two.new.node ≡ two.old.node) }
{
    let command = Command::Join { via: one.me() };
    two.submit(alloc, 1, &command).is_ok() && exchange(rt, alloc, post, one, two) == Ok(true)
}

/// What is said of the record that is woven from the cells of A, the founder, and of B.
fn verdict_on<R: Abort>(rt: &R, alloc: Global, cells: &[NodeCell]) -> Verdict
    requires { HaveOwnNodes cells.now }
{
    let Ok(woven) = weave(alloc, cells) else {
        panic!(rt; "not woven")
    };
    let text = write_trace(alloc, &[A, B], A, &woven).expect(rt, "memory for the trace");
    let trace = read_trace(alloc, text.as_slice()).expect(rt, "it is a trace");
    check(alloc, &trace).expect(rt, "memory for the check")
}

#[test]
fn a_node_joins_by_mailboxes(rt: HostRuntime) {
    let (post, mut own) = Post::new(rt.alloc(), &[A, B]).expect(&rt, "memory for the post");
    let mut one = NodeCell::new(rt.alloc(), A, true).expect(&rt, "memory for a cell");
    let mut two = NodeCell::new(rt.alloc(), B, false).expect(&rt, "memory for a cell");
    equip(&rt, rt.alloc(), &post, &mut own, &mut one).expect(&rt, "memory for passes");
    equip(&rt, rt.alloc(), &post, &mut own, &mut two).expect(&rt, "memory for passes");
    assert!(rt; joins_by_mailboxes(&rt, rt.alloc(), &post, &mut one, &mut two));
    assert_eq!(rt; joined(&two, 1), Some((A, A)));
    assert_eq!(rt; taken_by(&one), sent_by(&two));
    assert_eq!(rt; taken_by(&two), sent_by(&one));
    assert_eq!(rt;
        verdict_on(&rt, rt.alloc(), &[one, two]),
        Verdict::Legal { ready: 2 }
    );
}

#[test]
fn passes_are_gathered(rt: HostRuntime) {
    let (post, mut own) = Post::new(rt.alloc(), &[A]).expect(&rt, "memory for the post");
    let cell = NodeCell::new(rt.alloc(), A, true).expect(&rt, "memory for a cell");
    let mut cells = [cell];
    equip(&rt, rt.alloc(), &post, &mut own, &mut cells[0]).expect(&rt, "memory for passes");
    let mut all = gather(&rt, &post, own, &mut cells);
    assert!(rt; all.take(&rt, &post, 0).is_none());
    assert!(rt; cells[0].next_unsent().is_none());
}

/// A message to A with the last stamp, which no cell can take in.
fn last_frame(alloc: Global) -> Result<Frame, OutOfMemory> {
    let envelope = Envelope {
        sender: B,
        receiver: A,
        stamp: u64::MAX,
        message: Message::Announce,
    };
    encode(alloc, &envelope)
}

/// Serves a cell twice, whose mailbox has this one frame: whether both times it was refused for its stamp.
fn is_refused_twice<R: Wait>(
    rt: &R,
    alloc: Global,
    post: &Post,
    own: &mut Passes,
    cell: &mut NodeCell,
    frame: Frame,
) -> bool
    requires of { AreOf own.old post.now × (0 < length post.now.nodes) }
    requires cell { HasPassesOf post.now cell.old × Contains post.now.nodes cell.old.node }
    ensures cell { HasPassesOf post.now cell.new }
{
    let spent = Err(CellFault::Spent { stamp: u64::MAX });
    own.put(rt, post, 0, frame).is_ok()
        && serve_one(rt, alloc, post, cell) == spent
        && own.take(rt, post, 0).is_none()
        && serve_one(rt, alloc, post, cell) == spent
}

#[test]
fn a_frame_that_is_refused_stays_in_hand(rt: HostRuntime) {
    let (post, mut own) = Post::new(rt.alloc(), &[A]).expect(&rt, "memory for the post");
    let mut cell = NodeCell::new(rt.alloc(), A, true).expect(&rt, "memory for a cell");
    equip(&rt, rt.alloc(), &post, &mut own, &mut cell).expect(&rt, "memory for passes");
    let frame = last_frame(rt.alloc()).expect(&rt, "memory for a frame");
    let wanted = last_frame(rt.alloc()).expect(&rt, "memory for a frame");
    assert!(rt; is_refused_twice(&rt, rt.alloc(), &post, &mut own, &mut cell, frame));
    let (_passes, in_hand) = cell.unequip();
    let in_hand = in_hand.expect(&rt, "a frame in hand");
    assert!(rt; in_hand.as_slice() == wanted.as_slice());
    assert!(rt; cell.history().is_empty());
}

/// Puts the first unsent frame three times in all. Refused memory is asked for once more.
fn post_thrice<R: Wait>(rt: &R, alloc: Global, post: &Post, cell: &mut NodeCell) -> Option<bool>
    requires { HasPassesOf post.now cell.old }
    ensures { HasPassesOf post.now cell.new }
{
    match cell.post_one(rt, alloc, post, 3) {
        Ok(posted) => Some(posted),
        Err(_) => cell.post_one(rt, alloc, post, 3).ok(),
    }
}

/// How many frames come out of the first mailbox.
fn frames_in_first<R: Wait>(rt: &R, post: &Post, own: &mut Passes) -> usize
    requires { AreOf own.old post.now × (0 < length post.now.nodes) }
    ensures { AreOf own.new post.now }
{
    for count in 0..100 {
        if own.take(rt, post, 0).is_none() {
            return count;
        }
    }
    100
}

#[test]
fn three_copies_are_three_in_all(rt: HostRuntime) {
    let (post, mut own) = Post::new(rt.alloc(), &[A, B]).expect(&rt, "memory for the post");
    let mut cell = NodeCell::new(rt.alloc(), B, false).expect(&rt, "memory for a cell");
    equip(&rt, rt.alloc(), &post, &mut own, &mut cell).expect(&rt, "memory for passes");
    let told = cell.submit(rt.alloc(), 1, &Command::Join { via: A });
    assert!(rt; told.is_ok());
    assert_eq!(rt; post_thrice(&rt, rt.alloc(), &post, &mut cell), Some(true));
    assert_eq!(rt; post_thrice(&rt, rt.alloc(), &post, &mut cell), Some(false));
    assert_eq!(rt; frames_in_first(&rt, &post, &mut own), 3);
}
