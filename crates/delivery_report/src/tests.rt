ghost use Rattle.std.specs.Prelude.{IfOk};
ghost use Rattle.overlay_rules.specs.Record.{IsSetting};
ghost use Rattle.schedule.specs.Schedule.{setting_of};

use super::*;
use overlay_rules::{Entries, Entry, Event};
use ring_math::{Bytes, FileId, Id, IdsBuilder};
use scenario_reader::{Name, read_scenario};
use std::test::Fail;
use wire_msg::{Answer, Command, Envelope, Envelopes, Message, Note, Notes, Own, Reply, Why};

const A: Id = Id(0x10 << 120);

const B: Id = Id(0x20 << 120);

const C: Id = Id(0x30 << 120);

const STRANGER: Id = Id(0x0123_4567_89ab_cdef_0123_4567_89ab_cdef);

fn named(name: &[u8], id: Id, line: u32) -> Result<NodeLine, Fail> {
    let name = Name::new(name).ok_or("no name")?;
    Ok(NodeLine { name, id, line })
}

fn nodes(alloc: Global) -> Result<Vec<NodeLine>, Fail> {
    let mut nodes = Vec::new(alloc);
    nodes.push(named(b"A", A, 1)?)?;
    nodes.push(named(b"B", B, 2)?)?;
    nodes.push(named(b"C_3", C, 3)?)?;
    Ok(nodes)
}

fn announcement(sender: Id, receiver: Id) -> Envelope {
    Envelope {
        sender,
        receiver,
        stamp: 1,
        message: Message::Announce,
    }
}

fn delivered(number: u64, key: Id, hops: u16) -> Note {
    Note::Delivered {
        origin: A,
        number,
        key,
        hops,
    }
}

fn looked_up(node: Id, number: u64, key: Id) -> Event {
    Event::Command {
        node,
        number,
        command: Command::Lookup { key },
    }
}

/// The report of what was done, which is no more. What is dropped by a call is one step here, and at the end of a block one for each
/// list in it.
fn reported(alloc: Global, commands: u64, steps: Record) -> Result<Frame, Fail> {
    let text = printed(alloc, commands, &steps);
    drop(steps);
    text
}

fn printed(alloc: Global, commands: u64, steps: &Record) -> Result<Frame, Fail> {
    let nodes = nodes(alloc)?;
    Ok(report_of(alloc, &nodes, commands, steps)?)
}

fn asked(alloc: Global, key: Id) -> Result<Entry, Fail> {
    let mut messages = Envelopes::new(alloc);
    messages.push(Envelope {
        sender: A,
        receiver: A,
        stamp: 1,
        message: Message::LookupReply {
            number: 1,
            reply: Reply::Delivered { node: A, hops: 0 },
        },
    })?;
    let mut notes = Notes::new(alloc);
    notes.push(delivered(1, key, 0))?;
    notes.push(Note::Answered {
        origin: A,
        number: 1,
        reply: Reply::Delivered { node: A, hops: 0 },
    })?;
    Ok(Entry {
        event: looked_up(A, 1, key),
        messages,
        notes,
    })
}

fn answered(alloc: Global) -> Result<Entry, Fail> {
    let mut notes = Notes::new(alloc);
    notes.push(Note::Closed {
        number: 1,
        answer: Answer::Reply(Reply::Delivered { node: A, hops: 0 }),
    })?;
    Ok(Entry {
        event: Event::Deliver { message: 0 },
        messages: Envelopes::new(alloc),
        notes,
    })
}

/// A node alone looks up a key, and is answered by itself.
fn least_run(alloc: Global) -> Result<Record, Fail> {
    let mut entries = Entries::new(alloc);
    entries.push(asked(alloc, Id(0xff << 120))?)?;
    entries.push(answered(alloc)?)?;
    Ok(Record {
        entries,
        skipped: 0,
    })
}

#[test]
fn the_least_run_is_reported(rt: HostRuntime) -> Result<(), Fail> {
    let steps = least_run(rt.alloc())?;
    let text = reported(rt.alloc(), 1, steps)?;
    let expected = b"1 delivered by A hops 0
delivery 1 of ff000000000000000000000000000000 by A hops 0
summary entries 2 sent 1 undelivered 0 deliveries 1 skipped 0 ready 1
";
    assert_eq!(rt; text.as_slice(), expected.as_slice());
    Ok(())
}

/// Each form of answer.
fn answers(alloc: Global) -> Result<Vec<Answer>, Fail> {
    let mut answers = Vec::new(alloc);
    add_replies(alloc, &mut answers)?;
    add_endings(&mut answers)?;
    Ok(answers)
}

fn add_endings(answers: &mut Vec<Answer>) -> Result<(), Fail> {
    let why = Why::Moved { left: B, right: C };
    answers.push(Answer::Joined { left: A, right: B })?;
    answers.push(denied(Why::Busy { joiner: C }))?;
    answers.push(denied(why))?;
    answers.push(denied(Why::NotReady))?;
    answers.push(stopped(Own::GivenUp))?;
    answers.push(stopped(Own::Already))?;
    answers.push(stopped(Own::Spent))?;
    answers.push(Answer::GaveUp)?;
    answers.push(Answer::NothingToGiveUp)?;
    Ok(())
}

fn denied(why: Why) -> Answer {
    Answer::Denied { node: A, why }
}

fn stopped(own: Own) -> Answer {
    Answer::Stopped { node: A, own }
}

fn add_replies(alloc: Global, answers: &mut Vec<Answer>) -> Result<(), Fail> {
    add_reply(answers, Reply::Delivered { node: A, hops: 3 })?;
    add_reply(answers, stored(alloc)?)?;
    add_reply(answers, found(alloc, b"abc")?)?;
    add_reply(answers, found(alloc, b"")?)?;
    add_reply(answers, Reply::NotFound { node: A })?;
    add_reply(answers, Reply::Collision { node: A })?;
    add_reply(answers, Reply::TooFew { node: A, known: 2 })?;
    add_reply(answers, Reply::Busy { node: A, joiner: C })?;
    add_reply(answers, Reply::NotReady { node: A })?;
    add_reply(answers, Reply::Full { node: A })?;
    add_reply(answers, Reply::Gone { node: STRANGER })?;
    add_reply(answers, Reply::Reclaimed { node: A })
}

fn add_reply(answers: &mut Vec<Answer>, reply: Reply) -> Result<(), Fail> {
    answers.push(Answer::Reply(reply))?;
    Ok(())
}

fn stored(alloc: Global) -> Result<Reply, Fail> {
    let mut holders = IdsBuilder::new();
    for holder in [A, B, C] {
        if !holders.push(holder) {
            return Err("there is room for 17 holders")?;
        }
    }
    let holders = holders.finish(alloc)?;
    Ok(Reply::Stored { holders })
}

fn found(alloc: Global, bytes: &[u8]) -> Result<Reply, Fail> {
    let bytes = Bytes::copy_of(alloc, bytes)?;
    Ok(Reply::Found { node: A, bytes })
}

fn closing(alloc: Global, number: u64, answer: Answer) -> Result<Entry, Fail> {
    let mut notes = Notes::new(alloc);
    notes.push(Note::Closed { number, answer })?;
    Ok(Entry {
        event: Event::Noise { node: A },
        messages: Envelopes::new(alloc),
        notes,
    })
}

/// The commands are closed in the reverse order of their numbers. One of them is a join, so two nodes are ready.
fn record_of(alloc: Global, mut answers: Vec<Answer>) -> Result<Record, Fail> {
    let mut entries = Entries::new(alloc);
    while let Some(answer) = answers.pop() {
        let number = answers.len() as u64 + 1;
        entries.push(closing(alloc, number, answer)?)?;
    }
    Ok(Record {
        entries,
        skipped: 0,
    })
}

#[test]
fn each_answer_is_printed(rt: HostRuntime) -> Result<(), Fail> {
    let answers = answers(rt.alloc())?;
    let steps = record_of(rt.alloc(), answers)?;
    let text = reported(rt.alloc(), 22, steps)?;
    let expected = b"1 delivered by A hops 3
2 stored at A B C_3
3 found by A 616263
4 found by A -
5 missing by A
6 collision by A
7 too few by A known 2
8 busy by A for C_3
9 not ready by A
10 full by A
11 gone by 0123456789abcdef0123456789abcdef
12 reclaimed by A
13 joined between A and B
14 denied by A busy with C_3
15 denied by A moved to B and C_3
16 denied by A not ready
17 denied by A given up
18 denied by A already
19 denied by A spent
20 gave up
21 nothing to give up
22 unanswered
summary entries 21 sent 0 undelivered 0 deliveries 0 skipped 0 ready 2
";
    assert_eq!(rt; text.as_slice(), expected.as_slice());
    Ok(())
}

/// Announcements from senders to receivers.
fn announced(alloc: Global, between: &[(Id, Id)]) -> Result<Envelopes, Fail> {
    let mut messages = Envelopes::new(alloc);
    for (sender, receiver) in between {
        messages.push(announcement(*sender, *receiver))?;
    }
    Ok(messages)
}

/// Notes of deliveries: the numbers of the lookups, their keys and hops.
fn noted(alloc: Global, deliveries: &[(u64, Id, u16)]) -> Result<Notes, Fail> {
    let mut notes = Notes::new(alloc);
    for (number, key, hops) in deliveries {
        notes.push(delivered(*number, *key, *hops))?;
    }
    Ok(notes)
}

fn looking(
    alloc: Global,
    lookup: (Id, u64, Id),
    between: &[(Id, Id)],
    deliveries: &[(u64, Id, u16)],
) -> Result<Entry, Fail> {
    let messages = announced(alloc, between)?;
    let notes = noted(alloc, deliveries)?;
    let (node, number, key) = lookup;
    Ok(Entry {
        event: looked_up(node, number, key),
        messages,
        notes,
    })
}

fn coming(
    alloc: Global,
    message: u64,
    between: &[(Id, Id)],
    delivery: (u64, Id, u16),
) -> Result<Entry, Fail> {
    let messages = announced(alloc, between)?;
    let notes = noted(alloc, &[delivery])?;
    Ok(Entry {
        event: Event::Deliver { message },
        messages,
        notes,
    })
}

fn add_deliveries(alloc: Global, entries: &mut Entries) -> Result<(), Fail> {
    entries.push(looking(alloc, (A, 1, B), &[(A, B), (A, C)], &[])?)?;
    entries.push(coming(alloc, 0, &[(B, STRANGER)], (1, B, 1))?)?;
    entries.push(coming(alloc, 0, &[], (1, B, 1))?)?;
    entries.push(coming(alloc, 2, &[], (3, STRANGER, 65535))?)?;
    entries.push(looking(alloc, (C, 2, C), &[], &[(2, C, 0)])?)?;
    Ok(())
}

/// Of three messages the first is delivered twice, the second never, and the third at an identifier that is no node's.
fn deliveries(alloc: Global) -> Result<Record, Fail> {
    let mut entries = Entries::new(alloc);
    add_deliveries(alloc, &mut entries)?;
    Ok(Record {
        entries,
        skipped: 7,
    })
}

#[test]
fn each_delivery_has_its_line(rt: HostRuntime) -> Result<(), Fail> {
    let steps = deliveries(rt.alloc())?;
    let text = reported(rt.alloc(), 0, steps)?;
    let expected = b"delivery 1 of 20000000000000000000000000000000 by B hops 1
delivery 1 of 20000000000000000000000000000000 by B hops 1
delivery 3 of 0123456789abcdef0123456789abcdef by 0123456789abcdef0123456789abcdef hops 65535
delivery 2 of 30000000000000000000000000000000 by C_3 hops 0
summary entries 5 sent 3 undelivered 1 deliveries 4 skipped 7 ready 1
";
    assert_eq!(rt; text.as_slice(), expected.as_slice());
    Ok(())
}

/// The summary of what was done, which is no more.
fn summed_up(alloc: Global, commands: u64, steps: Record) -> Result<Frame, Fail> {
    let text = brief_of(alloc, commands, &steps);
    drop(steps);
    Ok(text?)
}

#[test]
fn the_summary_has_a_tally(rt: HostRuntime) -> Result<(), Fail> {
    let answers = answers(rt.alloc())?;
    let steps = record_of(rt.alloc(), answers)?;
    let text = summed_up(rt.alloc(), 25, steps)?;
    let expected = b"summary entries 21 sent 0 undelivered 0 deliveries 0 skipped 0 ready 2
tally joined 1 denied 6 stored 1 found 2 missing 1 unanswered 4 other 10
";
    assert_eq!(rt; text.as_slice(), expected.as_slice());
    Ok(())
}

/// A scenario of one node, at which a key is looked up and nothing is delivered.
fn alone(alloc: Global) -> Result<Scenario, Fail>
    ensures { IfOk result (λ scenario. IsSetting (setting_of scenario)) }
{
    let input =
        b"node A 10000000000000000000000000000000\nfirst A\nlookup A ff000000000000000000000000000000\nlookup A 0f000000000000000000000000000000\n";
    let scenario = read_scenario(alloc, input)?;
    if scenario.nodes().len() != 1 {
        return Err("one node is declared")?;
    }
    Ok(scenario)
}

fn report_of_nothing(alloc: Global) -> Result<Frame, Fail> {
    let scenario = alone(alloc)?;
    let steps = Record {
        entries: Entries::new(alloc),
        skipped: 3,
    };
    let text = report(alloc, &scenario, &steps);
    drop(steps);
    drop(scenario);
    Ok(text?)
}

fn summary_of_nothing(alloc: Global) -> Result<Frame, Fail> {
    let scenario = alone(alloc)?;
    let steps = Record {
        entries: Entries::new(alloc),
        skipped: 3,
    };
    let text = summary(alloc, &scenario, &steps);
    drop(steps);
    drop(scenario);
    Ok(text?)
}

#[test]
fn what_was_not_done_is_reported(rt: HostRuntime) -> Result<(), Fail> {
    let text = report_of_nothing(rt.alloc())?;
    let expected = b"1 unanswered
2 unanswered
summary entries 0 sent 0 undelivered 0 deliveries 0 skipped 3 ready 1
";
    assert_eq!(rt; text.as_slice(), expected.as_slice());
    Ok(())
}

#[test]
fn what_was_not_done_is_summed_up(rt: HostRuntime) -> Result<(), Fail> {
    let text = summary_of_nothing(rt.alloc())?;
    let expected = b"summary entries 0 sent 0 undelivered 0 deliveries 0 skipped 3 ready 1
tally joined 0 denied 0 stored 0 found 0 missing 0 unanswered 2 other 0
";
    assert_eq!(rt; text.as_slice(), expected.as_slice());
    Ok(())
}
