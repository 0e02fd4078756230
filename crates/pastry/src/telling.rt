//! What is told on standard error of a run that did not end well. That telling fails is not told: there is nowhere left to
//! tell it.

use crate::cause::Cause;
use crate::help::{Help, ask_for_help};
use crate::message::{Before, Explained, ExplainedScript, Grouped, Unfit};
use cli_words::check_words;
use overlay_harness::RunFault;
use scenario_reader::LineFault;
use std::alloc::Global;
use std::io;
use std::rc::RcStr;
use trace_check::{MOST_TRACE_BYTES, Part, TraceFault};

/// The words of the command line are refused: which one and why, unless help was asked for, and which words there are.
pub(crate) fn tell_refused_words(rt: &HostRuntime, alloc: Global, words: &[RcStr]) {
    if !ask_for_help(words) {
        if let Err(error) = check_words(alloc, words) {
            if let Ok(text) = format!(in alloc; "{error}") {
                let _ = eprintln!(rt; "pastry: {}", Cause(text.as_str()));
            }
        }
    }
    let _ = eprintln!(rt; "{Help}");
}

/// A word of the command line is no text.
pub(crate) fn tell_unreadable_words(rt: &HostRuntime) {
    let _ = eprintln!(rt; "pastry: a word of the command line is not UTF-8 text\n{Help}");
}

/// The input, of which this was seen, is no scenario.
pub(crate) fn tell_scenario_fault(
    rt: &HostRuntime,
    alloc: Global,
    fault: &LineFault,
    text: Option<&[u8]>,
) {
    let _ = match text {
        Some(text) => {
            let before = Before::new(alloc, fault, text);
            eprintln!(rt;
                "pastry: {}",
                Explained {
                    fault,
                    text,
                    before
                }
            )
        }
        None => eprintln!(rt;
            "pastry: the input is no scenario, and too little memory is left to show where"
        ),
    };
}

/// The input, of which this was seen, is no script of groups.
pub(crate) fn tell_script_fault(
    rt: &HostRuntime,
    alloc: Global,
    fault: &LineFault,
    text: Option<&[u8]>,
) {
    let _ = match text {
        Some(text) => { eprintln!(rt; "pastry: {}", ExplainedScript::new(alloc, fault, text)) }
        None => eprintln!(rt;
            "pastry: the input is no script of groups, and too little memory is left to show where"
        ),
    };
}

/// The input, of which this was seen, is a scenario that can't be run.
pub(crate) fn tell_unfit(rt: &HostRuntime, fault: RunFault, text: Option<&[u8]>) {
    match fault {
        RunFault::NotForRun { line } => {
            let _ = eprintln!(rt; "pastry: {}", Unfit { number: line, text });
        }
        RunFault::OutOfMemory => tell_memory(rt),
    }
}

/// The input is no trace.
pub(crate) fn tell_trace_fault(rt: &HostRuntime, fault: &TraceFault) {
    let _ = match fault {
        TraceFault::TooLong { .. } => eprintln!(rt;
            "pastry: the input is longer than a trace can be, which is {} bytes",
            Grouped(MOST_TRACE_BYTES as u64)
        ),
        TraceFault::Line { line } => eprintln!(rt;
            "pastry: line {line}: expected a line of a trace that may stand here (docs/TRACES.md); a trace ends with its line \"end\""
        ),
        TraceFault::OutOfMemory => eprintln!(rt; "pastry: too little memory"),
    };
}

/// The record of a trace is not legal, and this is the first entry that may not stand where it stands.
pub(crate) fn tell_wrong(rt: &HostRuntime, entry: u64, part: Part) {
    let what = match part {
        Part::Event => {
            "cannot happen there: its node is none of the trace's, its message was not sent before, or its number is not new"
        }
        Part::Sent => "did not send what the rules say",
        Part::Notes => "did not note what the rules say",
    };
    let _ = eprintln!(rt; "pastry: entry {entry}, counted from 1, {what}");
}

/// A device failed, for this reason of the system if it gave one.
pub(crate) fn tell_system_fault(rt: &HostRuntime, what: &str, reason: Option<io::Error>) {
    let _ = match reason {
        Some(reason) => eprintln!(rt; "pastry: {what}: {reason}"),
        None => eprintln!(rt; "pastry: {what}"),
    };
}

/// There is too little memory.
pub(crate) fn tell_memory(rt: &HostRuntime) {
    let _ = eprintln!(rt; "pastry: too little memory");
}
