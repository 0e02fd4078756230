//! Stages, lines that can't be run, and runs of small scenarios by hand and by threads. What is expected is read off the rules of
//! the scenario language and of nodes.

ghost use Rattle.std.specs.Prelude.{◌<◌, All};
ghost use Rattle.weave.specs.Cells.{HasNoPasses, HaveOwnNodes};

use crate::enough::came_at_most;
use crate::hand::ends_after;
use crate::{
    RunFault, cells_served_by_hand, first_unfit_line, hand_over_unread, run, run_by_hand, stages,
};
use node_cell::{CellInput, NodeCell};
use outside::{FreePass, Turnstile};
use overlay_rules::Record;
use scenario_reader::read_scenario;
use schedule::make_scenario;
use std::alloc::Global;
use std::sync::atomic::{AtomicBool, Ordering};
use std::test::Fail;
use std::thread::yield_now;
use wire_msg::{Answer, Note, Reply};

/// Three stages: the last has no settle, and each has the copies of the last dup up to its end.
const STAGED: &[u8] =
    b"node A 10000000000000000000000000000000\nfirst A\ndup 2\nlookup A 00000000000000000000000000000001\nsettle 3\ndup 3\ndup 4\nsettle 0\nlookup A 00000000000000000000000000000002\n";

/// One node, which delivers a lookup to itself.
const LEAST: &[u8] =
    b"node A 10000000000000000000000000000000\nfirst A\nlookup A ff000000000000000000000000000000\nsettle 10\n";

/// Two nodes join; three files are stored and fetched.
const THREADED: &[u8] =
    b"node A 10000000000000000000000000000000\nnode B 90000000000000000000000000000000\nnode C 30000000000000000000000000000000\nfile f 66 - 0000000000000000 61\nfile g 67 - 0000000000000000 62\nfile h 68 - 0000000000000000 63\nfirst A\ndup 2\njoin B A\nsettle 1000\njoin C B\nsettle 1000\ninsert A f 1\ninsert B g 2\ninsert C h 3\nsettle 1000\nfetch A f\nfetch B g\nfetch C h\nsettle 1000\n";

/// A node joins, with a budget of one frame for each node.
const HURRIED: &[u8] =
    b"node A 10000000000000000000000000000000\nnode B 90000000000000000000000000000000\nfirst A\njoin B A\nsettle 1\n";

/// Noise comes to the first node twice in a stage of two copies, and to both in a stage of three.
const NOISY: &[u8] =
    b"node A 10000000000000000000000000000000\nnode B 90000000000000000000000000000000\nfirst A\ndup 2\nnoise A 00\nnoise A -\nsettle 9\nnoise B 01\nnoise A 02\ndup 3\nsettle 9\n";

/// Fifteen nodes join at once, and then each of them is told so again, one after another. Three files of the same bytes are stored
/// at once, and then fetched at once. That makes 36 commands.
const CROWDED: &[u8] =
    b"node A 08000000000000000000000000000000\nnode B 18000000000000000000000000000000\nnode C 28000000000000000000000000000000\nnode D 38000000000000000000000000000000\nnode E 48000000000000000000000000000000\nnode F 58000000000000000000000000000000\nnode G 68000000000000000000000000000000\nnode H 78000000000000000000000000000000\nnode I 88000000000000000000000000000000\nnode J 98000000000000000000000000000000\nnode K a8000000000000000000000000000000\nnode L b8000000000000000000000000000000\nnode M c8000000000000000000000000000000\nnode N d8000000000000000000000000000000\nnode O e8000000000000000000000000000000\nnode P f8000000000000000000000000000000\nfile f 66 - 0000000000000000 616263\nfile g 67 - 0000000000000000 616263\nfile h 68 - 0000000000000000 616263\nfirst A\njoin B A\njoin C A\njoin D A\njoin E A\njoin F A\njoin G A\njoin H A\njoin I A\njoin J A\njoin K A\njoin L A\njoin M A\njoin N A\njoin O A\njoin P A\nsettle 2000\njoin B A\nsettle 2000\njoin C A\nsettle 2000\njoin D A\nsettle 2000\njoin E A\nsettle 2000\njoin F A\nsettle 2000\njoin G A\nsettle 2000\njoin H A\nsettle 2000\njoin I A\nsettle 2000\njoin J A\nsettle 2000\njoin K A\nsettle 2000\njoin L A\nsettle 2000\njoin M A\nsettle 2000\njoin N A\nsettle 2000\njoin O A\nsettle 2000\njoin P A\nsettle 2000\ninsert B f 1\ninsert G g 2\ninsert P h 3\nsettle 2000\nfetch P f\nfetch C g\nfetch K h\nsettle 2000\n";

/// One node, which delivers two lookups to itself, and may take one frame.
const LATE: &[u8] =
    b"node A 10000000000000000000000000000000\nfirst A\nlookup A ff000000000000000000000000000000\nlookup A 01000000000000000000000000000000\nsettle 1\n";

/// A shuffle, and then a deliver.
const CHOOSING: &[u8] =
    b"node A 10000000000000000000000000000000\nfirst A\nsettle 1\nshuffle 1 2\ndeliver 0\n";

/// For each stage, how many actions it has, its budget and its copies.
fn shapes(alloc: Global, input: &[u8]) -> Result<Vec<(usize, u32, u8)>, Fail> {
    let scenario = read_scenario(alloc, input)?;
    let mut shapes = Vec::new(alloc);
    for stage in &stages(alloc, &scenario)? {
        shapes.push((stage.actions.len(), stage.budget, stage.copies))?;
    }
    Ok(shapes)
}

#[test]
fn stages_end_with_a_settle(rt: HostRuntime) -> Result<(), Fail> {
    let shapes = shapes(rt.alloc(), STAGED)?;
    assert!(rt; shapes.iter().copied().eq([(3, 3, 2), (3, 0, 4), (1, 0, 4)]));
    Ok(())
}

#[test]
fn the_first_unfit_line_is_found(rt: HostRuntime) -> Result<(), Fail> {
    let choosing = read_scenario(rt.alloc(), CHOOSING)?;
    assert_eq!(rt; first_unfit_line(&choosing), Some(4));
    let least = read_scenario(rt.alloc(), LEAST)?;
    assert_eq!(rt; first_unfit_line(&least), None);
    Ok(())
}

/// 64 nodes, 20 files and the founder's line stand before three joins and a shuffle.
#[test]
fn the_node_that_is_one_too_many_is_found(rt: HostRuntime) -> Result<(), Fail> {
    let few = make_scenario(rt.alloc(), 64, 7)?;
    assert_eq!(rt; first_unfit_line(&few), Some(89));
    let many = make_scenario(rt.alloc(), 65, 7)?;
    assert_eq!(rt; first_unfit_line(&many), Some(65));
    Ok(())
}

#[test]
fn what_chooses_messages_is_not_run(rt: HostRuntime) -> Result<(), Fail> {
    let choosing = read_scenario(rt.alloc(), CHOOSING)?;
    let refused = run_by_hand(rt.alloc(), &choosing);
    assert!(rt; matches!(refused, Err(RunFault::NotForRun { line: 4 })));
    Ok(())
}

#[test]
fn one_node_runs_alone(rt: HostRuntime) -> Result<(), Fail> {
    let least = read_scenario(rt.alloc(), LEAST)?;
    let steps = run_by_hand(rt.alloc(), &least)?;
    assert_eq!(rt; steps.entries.len(), 2);
    assert_eq!(rt; steps.entries.sent().len(), 1);
    Ok(())
}

fn is_joined(note: &Note) -> bool {
    matches!(
        note,
        Note::Closed {
            answer: Answer::Joined { .. },
            ..
        }
    )
}

fn is_stored(note: &Note) -> bool {
    matches!(
        note,
        Note::Closed {
            answer: Answer::Reply(Reply::Stored { .. }),
            ..
        }
    )
}

fn is_found(note: &Note) -> bool {
    matches!(
        note,
        Note::Closed {
            answer: Answer::Reply(Reply::Found { .. }),
            ..
        }
    )
}

/// How many nodes joined.
fn joined(steps: &Record) -> usize {
    let notes = steps.entries.notes();
    notes.iter().filter(|note| is_joined(note)).count()
}

/// How many files were stored.
fn stored(steps: &Record) -> usize {
    let notes = steps.entries.notes();
    notes.iter().filter(|note| is_stored(note)).count()
}

/// How many nodes joined, and how many files were stored and found.
fn answers(steps: &Record) -> [usize; 3] {
    let notes = steps.entries.notes();
    let found = notes.iter().filter(|note| is_found(note)).count();
    [joined(steps), stored(steps), found]
}

/// By hand each message comes once, and none is left: eight commands, and each message.
#[test]
fn three_nodes_run_by_hand(rt: HostRuntime) -> Result<(), Fail> {
    let threaded = read_scenario(rt.alloc(), THREADED)?;
    let steps = run_by_hand(rt.alloc(), &threaded)?;
    assert_eq!(rt; answers(&steps).as_slice(), [2, 3, 3].as_slice());
    let sent = steps.entries.sent().len();
    assert_eq!(rt; steps.entries.len(), sent.saturating_add(8));
    Ok(())
}

/// By threads each message comes twice, as often as it is put.
#[test]
fn three_nodes_run_by_threads(rt: HostRuntime) -> Result<(), Fail> {
    let threaded = read_scenario(rt.alloc(), THREADED)?;
    let steps = run(&rt, rt.alloc(), &threaded, &FreePass)?;
    assert_eq!(rt; answers(&steps).as_slice(), [2, 3, 3].as_slice());
    let sent = steps.entries.sent().len();
    assert_eq!(rt;
        steps.entries.len(),
        sent.saturating_mul(2).saturating_add(8)
    );
    Ok(())
}

/// By another node, or by itself, since it is ready already.
fn is_denied(note: &Note) -> bool {
    matches!(
        note,
        Note::Closed {
            answer: Answer::Denied { .. } | Answer::Stopped { .. },
            ..
        }
    )
}

/// The bytes of the files in the crowded scenario are found.
fn is_found_whole(note: &Note) -> bool {
    match note {
        Note::Closed {
            answer: Answer::Reply(Reply::Found { bytes, .. }),
            ..
        } => bytes.as_slice() == b"abc".as_slice(),
        _ => false,
    }
}

/// How many nodes joined, how many joins were denied, how many files were stored and found whole, and how many entries there are
/// past one for each message.
fn answers_in_crowd(steps: &Record) -> [usize; 5] {
    let notes = steps.entries.notes();
    let denied = notes.iter().filter(|note| is_denied(note)).count();
    let whole = notes.iter().filter(|note| is_found_whole(note)).count();
    let sent = steps.entries.sent().len();
    let past = steps.entries.len().saturating_sub(sent);
    [joined(steps), denied, stored(steps), whole, past]
}

/// Which joins are denied differs from run to run, and which node holds a file. Each node joins, by its first command or by its
/// second, and its other one is denied; so all are ready. No message is left: there are as many entries as commands and messages.
#[test]
fn each_of_twenty_runs_answers_right(rt: HostRuntime) -> Result<(), Fail> {
    let crowded = read_scenario(rt.alloc(), CROWDED)?;
    for _ in 0..20 {
        let steps = run(&rt, rt.alloc(), &crowded, &FreePass)?;
        assert_eq!(rt;
            answers_in_crowd(&steps).as_slice(),
            [15, 15, 3, 3, 36].as_slice()
        );
    }
    Ok(())
}

/// How many entries the first node has, and the stamp of the entry that sent what came last to it.
fn last_at_first(cells: &[NodeCell]) -> Option<(usize, u64)> {
    let history = cells.first()?.history();
    match &history.last()?.input {
        CellInput::Comes(envelope) => Some((history.len(), envelope.stamp)),
        CellInput::Command { .. } | CellInput::Noise => None,
    }
}

/// Hands over what is left to each node, as if it might take nine frames more.
fn hand_over_left(alloc: Global, cells: &mut [NodeCell]) -> Result<(), Fail>
    requires apart { HaveOwnNodes cells.old }
    requires without { All HasNoPasses cells.old }
{
    let ends = ends_after(alloc, cells, 9)?;
    hand_over_unread(alloc, cells, &ends)?;
    Ok(())
}

/// Two commands and the message of the first came. The message of the second is handed over, and nothing else.
#[test]
fn what_is_left_is_handed_over(rt: HostRuntime) -> Result<(), Fail> {
    let late = read_scenario(rt.alloc(), LATE)?;
    let _founder = late.founder();
    let mut cells = cells_served_by_hand(rt.alloc(), &late)?;
    assert_eq!(rt; last_at_first(&cells), Some((3, 1)));
    hand_over_left(rt.alloc(), &mut cells)?;
    assert_eq!(rt; last_at_first(&cells), Some((4, 2)));
    Ok(())
}

/// How often a thread looks for the other's mark.
const MOST_LOOKS: u32 = 10_000_000;

/// Where two threads meet at their first turn, each of which then sees the other's mark.
#[derive(Drop)]
struct Meeting {
    came: [AtomicBool; 2],
    saw: [AtomicBool; 2],
}

impl Turnstile for Meeting {
    fn pass(&self, node: usize, turn: u64) {
        if turn == 0 && node < 2 {
            self.came[node].store(true, Ordering::SeqCst);
            self.look(node);
        }
    }
}

impl Meeting {
    fn look(&self, node: usize)
        requires { node < 2 }
    {
        for _ in 0..MOST_LOOKS {
            if self.came[1 - node].load(Ordering::SeqCst) {
                self.saw[node].store(true, Ordering::SeqCst);
                return;
            }
            yield_now();
        }
    }
}

/// Served one after the other, the first would look for the second in vain.
#[test]
fn two_nodes_meet(rt: HostRuntime) -> Result<(), Fail> {
    let hurried = read_scenario(rt.alloc(), HURRIED)?;
    let meeting = Meeting {
        came: [AtomicBool::new(false), AtomicBool::new(false)],
        saw: [AtomicBool::new(false), AtomicBool::new(false)],
    };
    run(&rt, rt.alloc(), &hurried, &meeting)?;
    assert!(rt; meeting.saw[0].load(Ordering::SeqCst));
    assert!(rt; meeting.saw[1].load(Ordering::SeqCst));
    Ok(())
}

/// Two noises come twice, and two three times: there are no other entries.
#[test]
fn noise_comes_as_often_as_it_is_put(rt: HostRuntime) -> Result<(), Fail> {
    let noisy = read_scenario(rt.alloc(), NOISY)?;
    let steps = run(&rt, rt.alloc(), &noisy, &FreePass)?;
    assert_eq!(rt; steps.entries.len(), 10);
    assert_eq!(rt; steps.entries.sent().len(), 0);
    Ok(())
}

/// What the stages have for each node is put by threads alone.
#[test]
fn no_noise_comes_by_hand(rt: HostRuntime) -> Result<(), Fail> {
    let noisy = read_scenario(rt.alloc(), NOISY)?;
    let steps = run_by_hand(rt.alloc(), &noisy)?;
    assert_eq!(rt; steps.entries.len(), 0);
    Ok(())
}

/// Where each message came twice, that is not more often than twice, and more often than once.
#[test]
fn copies_are_counted(rt: HostRuntime) -> Result<(), Fail> {
    let threaded = read_scenario(rt.alloc(), THREADED)?;
    let steps = run(&rt, rt.alloc(), &threaded, &FreePass)?;
    assert!(rt; came_at_most(rt.alloc(), &steps.entries, 2)?);
    assert!(rt; !came_at_most(rt.alloc(), &steps.entries, 1)?);
    Ok(())
}
