//! The least run over devices that fail at any call, and the modes that take no scenario, over devices in memory.

ghost use Rattle.std.specs.Prelude.{◌<◌, length};

mod messages;

use crate::top::top;
use outside::{FreePass, MemorySink, MemorySource};
use ring_math::OutOfMemory;
use std::alloc::{AllocError, Global};
use std::rc::RcStr;
use std::sync::Wait;
use std::thread::Threads;

/// The least run: one founder, one lookup, its reply.
const LEAST_RUN: &[u8; 100] =
    b"node A 10000000000000000000000000000000\nfirst A\nlookup A ff000000000000000000000000000000\nsettle 10\n";

const LEAST_REPORT: &[u8; 153] =
    b"1 delivered by A hops 0\ndelivery 1 of ff000000000000000000000000000000 by A hops 0\nsummary entries 2 sent 1 undelivered 0 deliveries 1 skipped 0 ready 1\n";

/// How a run over devices in memory ended: its status, what the source has left, and what the sink took.
#[derive(Drop)]
struct Ended {
    status: u8,
    left: Vec<u8>,
    taken: Vec<u8>,
}

/// Runs the program with these words behind its name, over these devices.
fn ran_over<R: Threads + Wait + Sync>(
    rt: &R,
    alloc: Global,
    asked: &[&str],
    source: &mut MemorySource,
    sink: &mut MemorySink,
) -> Result<Ended, AllocError> {
    let mut words = Vec::new(alloc);
    words.push(RcStr::from_str(alloc, "pastry")?)?;
    for word in asked {
        words.push(RcStr::from_str(alloc, word)?)?;
    }
    let outcome = top(rt, alloc, &words, source, sink, &FreePass);
    Ok(Ended {
        status: outcome.status,
        left: source.left().to_vec(alloc)?,
        taken: sink.taken().to_vec(alloc)?,
    })
}

/// The least run from a source that gives so many bytes a call and fails at a call.
fn from_source<R: Threads + Wait + Sync>(
    rt: &R,
    alloc: Global,
    per_call: usize,
    fails: u64,
) -> Result<Ended, AllocError>
    requires { 0 < per_call }
{
    let mut source = MemorySource::new(alloc, LEAST_RUN, per_call, &[fails]).map_err(refused)?;
    let mut sink = MemorySink::new(alloc, 1000, 1000, &[]).map_err(refused)?;
    ran_over(rt, alloc, &["play"], &mut source, &mut sink)
}

/// The least run into a sink that takes so many bytes a call and fails at a call.
fn into_sink<R: Threads + Wait + Sync>(
    rt: &R,
    alloc: Global,
    per_call: usize,
    fails: u64,
) -> Result<Ended, AllocError>
    requires { 0 < per_call }
{
    let mut source = MemorySource::new(alloc, LEAST_RUN, 1000, &[]).map_err(refused)?;
    let mut sink = MemorySink::new(alloc, 1000, per_call, &[fails]).map_err(refused)?;
    ran_over(rt, alloc, &["play"], &mut source, &mut sink)
}

fn refused(_refusal: OutOfMemory) -> AllocError {
    AllocError
}

#[test]
fn a_source_may_fail_at_any_call(rt: HostRuntime) -> Result<(), AllocError> {
    for call in 1..17 {
        let ended = from_source(&rt, rt.alloc(), 7, call)?;
        assert_eq!(rt; ended.status, 4, "at call {call}");
        assert!(rt; ended.taken.is_empty(), "at call {call}");
    }
    let ended = from_source(&rt, rt.alloc(), 7, 17)?;
    assert_eq!(rt; ended.status, 0);
    assert_eq!(rt; ended.taken.as_slice(), LEAST_REPORT.as_slice());
    let ended = from_source(&rt, rt.alloc(), 40, 2)?;
    assert_eq!(rt; ended.status, 4);
    assert!(rt; ended.taken.is_empty());
    Ok(())
}

#[test]
fn a_sink_may_fail_at_any_call(rt: HostRuntime) -> Result<(), AllocError> {
    for call in 1..17u64 {
        let ended = into_sink(&rt, rt.alloc(), 10, call)?;
        assert_eq!(rt; ended.status, 5, "at call {call}");
        let due = &LEAST_REPORT[..10 * (call as usize - 1)];
        assert_eq!(rt; ended.taken.as_slice(), due, "at call {call}");
    }
    let ended = into_sink(&rt, rt.alloc(), 10, 17)?;
    assert_eq!(rt; ended.status, 0);
    assert_eq!(rt; ended.taken.as_slice(), LEAST_REPORT.as_slice());
    let ended = into_sink(&rt, rt.alloc(), 16, 2)?;
    assert_eq!(rt; ended.status, 5);
    assert_eq!(rt; ended.taken.as_slice(), b"1 delivered by A".as_slice());
    Ok(())
}

/// A run with these words over a source that is left as it is, since it has no scenario.
fn without_scenario<R: Threads + Wait + Sync>(
    rt: &R,
    alloc: Global,
    asked: &[&str],
) -> Result<Ended, AllocError> {
    let mut source = MemorySource::new(alloc, b"no scenario", 1000, &[]).map_err(refused)?;
    let mut sink = MemorySink::new(alloc, 1000, 1000, &[]).map_err(refused)?;
    ran_over(rt, alloc, asked, &mut source, &mut sink)
}

fn has(text: &[u8], part: &[u8]) -> bool
    requires { 0 < length part.now }
{
    text.windows(part.len()).any(|window| window == part)
}

/// Of twelve nodes all are ready at the end, and each of the twenty files is stored and found.
#[test]
fn a_made_scenario_is_summed_up(rt: HostRuntime) -> Result<(), AllocError> {
    let ended = without_scenario(&rt, rt.alloc(), &["big", "--nodes", "12", "--seed=7"])?;
    assert_eq!(rt; ended.status, 0);
    assert_eq!(rt; ended.left.as_slice(), b"no scenario".as_slice());
    assert!(rt; ended.taken.starts_with(b"summary entries "));
    assert!(rt; has(&ended.taken, b" ready 12\ntally joined "));
    assert!(rt; has(&ended.taken, b" stored 20 found 20 "));
    Ok(())
}

#[test]
fn other_words_are_usage(rt: HostRuntime) -> Result<(), AllocError> {
    let ended = without_scenario(&rt, rt.alloc(), &["big", "--nodes", "1"])?;
    assert_eq!(rt; ended.status, 2);
    assert_eq!(rt; ended.left.as_slice(), b"no scenario".as_slice());
    assert!(rt; ended.taken.is_empty());
    Ok(())
}
