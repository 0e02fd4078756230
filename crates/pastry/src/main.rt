//! pastry: plays scenarios of a Pastry overlay, and prints what came of them.
#![tactic(auto)]

mod cause;
mod checking;
mod grouping;
mod help;
mod large;
mod laws;
mod message;
mod modes;
mod outcome;
mod output;
mod playing;
mod pointing;
mod progress;
mod reading;
mod serving;
mod table;
mod telling;
#[cfg(test)]
mod tests;
mod threads;
mod top;
mod verdict;
mod watched;

use cli_words::{Mode, read_words};
use fragments::large_scenario;
use outcome::TopFault;
use outside::{FromReader, ToWriter};
use progress::Progress;
use scenario_reader::{LineFault, Scenario};
use schedule::make_scenario;
use std::alloc::Global;
use std::process::ExitCode;
use std::rc::RcStr;
use std::{io, mem};
use telling::{
    tell_memory, tell_refused_words, tell_scenario_fault, tell_script_fault, tell_system_fault,
    tell_trace_fault, tell_unfit, tell_unreadable_words, tell_wrong,
};
use top::top;
use watched::{Seen, WatchedReader, WatchedWriter};

/// The words of the command line, the program's name first.
fn command_words(rt: &HostRuntime, alloc: Global) -> io::Result<Vec<RcStr>> {
    let mut words = Vec::new(alloc);
    for word in std::env::args(rt)? {
        words.push(RcStr::from_string(word)?)?;
    }
    Ok(words)
}

/// Ends a run whose words could not be had: one of them is no text, or there is too little memory.
fn end_without_words(rt: &HostRuntime, error: &io::Error) -> ExitCode {
    if error.kind() == io::ErrorKind::InvalidData {
        tell_unreadable_words(rt);
        ExitCode::from(2)
    } else {
        tell_memory(rt);
        ExitCode::from(6)
    }
}

/// The scenario that `big` or `large` makes; None in another mode, or if memory for it is refused.
fn scenario_made(alloc: Global, words: &[RcStr]) -> Option<Scenario> {
    match read_words(alloc, words) {
        Ok(Mode::Big { nodes, seed }) => make_scenario(alloc, nodes, seed).ok(),
        Ok(Mode::Large { nodes, seed, size }) => large_scenario(alloc, nodes, seed, size).ok(),
        _ => None,
    }
}

/// Tells progress which scenario is made, if one is.
fn expect_made(alloc: Global, words: &[RcStr], progress: &Progress<'_>) {
    if !progress.is_told() {
        return;
    }
    if let Some(scenario) = scenario_made(alloc, words) {
        progress.expect(&scenario);
    }
}

/// What is to be kept of the input for messages: a trace is long, and no message shows it, and what a node is told never ends.
fn seen_by(alloc: Global, words: &[RcStr]) -> Seen {
    match read_words(alloc, words) {
        Ok(Mode::Check | Mode::Draw { .. } | Mode::OneNode) => Seen::unkept(alloc),
        _ => Seen::new(alloc),
    }
}

/// Whether the words ask for a mode in which the nodes are threads.
fn runs_threads(alloc: Global, words: &[RcStr]) -> bool {
    matches!(read_words(alloc, words), Ok(Mode::Run | Mode::TraceRun))
}

/// What a run met: its words, what it saw of its input, and why its output failed.
#[derive(Drop)]
struct Met<'a> {
    words: &'a [RcStr],
    input: &'a Seen,
    output_fault: Option<io::Error>,
}

/// Tells that the input is none of the language of its mode.
fn tell_refused_input(rt: &HostRuntime, fault: &LineFault, met: &Met<'_>) {
    let alloc = rt.alloc();
    match read_words(alloc, met.words) {
        Ok(Mode::Groups) => tell_script_fault(rt, alloc, fault, met.input.bytes()),
        _ => tell_scenario_fault(rt, alloc, fault, met.input.bytes()),
    }
}

/// Tells on standard error why a run did not end well. That this fails is not told: there is nowhere left to tell it.
fn tell(rt: &HostRuntime, fault: &TopFault, met: &Met<'_>) {
    let alloc = rt.alloc();
    match fault {
        TopFault::Usage => tell_refused_words(rt, alloc, met.words),
        TopFault::Scenario(fault) => tell_refused_input(rt, fault, met),
        TopFault::Run(fault) => tell_unfit(rt, *fault, met.input.bytes()),
        TopFault::Trace(fault) => tell_trace_fault(rt, fault),
        TopFault::Read => tell_system_fault(rt, "the input could not be read", met.input.fault),
        TopFault::Write => tell_system_fault(
            rt,
            "the output could not be written",
            met.output_fault,
        ),
        TopFault::OutOfMemory => tell_memory(rt),
        TopFault::Wrong { entry, part } => tell_wrong(rt, *entry, *part),
    }
}

fn main(rt: HostRuntime) -> ExitCode {
    let alloc = rt.alloc();
    let words = match command_words(&rt, alloc) {
        Ok(words) => words,
        Err(error) => return end_without_words(&rt, &error),
    };
    let progress = Progress::new(&rt, runs_threads(alloc, &words));
    expect_made(alloc, &words, &progress);
    let mut input = seen_by(alloc, &words);
    let mut output_fault = None;
    let mut source = FromReader::new(WatchedReader {
        reader: rt.stdin(),
        seen: &mut input,
        progress: &progress,
    });
    let mut sink = ToWriter::new(WatchedWriter {
        writer: rt.stdout(),
        fault: &mut output_fault,
        progress: &progress,
    });
    let outcome = top(&rt, alloc, &words, &mut source, &mut sink, &progress);
    progress.wipe();
    if let Some(fault) = &outcome.fault {
        let met = Met {
            words: &words,
            input: &input,
            output_fault,
        };
        tell(&rt, fault, &met);
    }
    let status = outcome.status;
    // The system takes back all memory at once; a long record would give it back entry by entry.
    mem::forget(outcome);
    ExitCode::from(status)
}
