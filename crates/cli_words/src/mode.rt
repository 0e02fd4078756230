//! What the words of the command line ask for.

use std::alloc::AllocError;

/// What the program is to do.
#[derive(Clone, Copy, Debug, PartialEq, Eq)]
pub enum Mode {
    /// Plays a scenario and writes its report.
    Play,
    /// Runs a scenario, each node as a thread, and writes the report of that run.
    Run,
    /// Plays the scenario that is made of so many nodes, 2 to 256, and a seed, and writes its summary.
    Big { nodes: u32, seed: u64 },
    /// Plays a scenario and writes its record as a trace.
    Trace,
    /// Runs a scenario, each node as a thread, and writes the record of that run as a trace.
    TraceRun,
    /// Reads a trace and writes whether its record is legal.
    Check,
    /// Plays a scenario with an access point at each node that remembers up to so many files, 1 to 4,096, and writes its report.
    Points { room: usize },
    /// Plays the scenario that is made of so many nodes, 2 to 256, a seed, and a large file of so many bytes, at most 835,584,
    /// and writes what became of the file.
    Large { nodes: u32, seed: u64, size: u32 },
    /// Reads a scenario and writes a line for each entry, message and note of its play, for people.
    Messages,
    /// Reads a script of groups, plays both its parts, and writes the reports of both.
    Groups,
    /// Reads a trace and writes a picture of its ring and of so many of its entries, at most 10,000, from one on that is counted
    /// from 0.
    Draw { from: u64, entries: u32 },
    /// Is one node, which reads a line for each thing that it is told, and writes what it does.
    OneNode,
}

/// Why words were not read.
#[derive(Clone, Copy, Debug, PartialEq, Eq)]
pub enum WordFault {
    /// The words are no use of the program.
    Usage,
    OutOfMemory,
}

impl From<AllocError> for WordFault {
    ghost use Rattle.std.specs.Prelude.{◌≡◌};
    ghost use Rattle.cli_words.specs.declared.mode.WordFault.TheVariants.{OutOfMemory};

    ghost from_gives = { λ _ e. e ≡ OutOfMemory };

    fn from(_error: AllocError) -> WordFault {
        WordFault::OutOfMemory
    }
}
