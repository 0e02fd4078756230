//! What a run of the program comes to.

ghost use Rattle.std.specs.Prelude.{◌≡◌, Some, None};
ghost use Rattle.pastry.specs.Faults.{status_of};

use overlay_harness::RunFault;
use overlay_rules::Record;
use scenario_reader::LineFault;
use trace_check::Part;
use trace_text::TraceFault;

/// Why a run did not end well.
#[derive(Drop)]
pub enum TopFault {
    /// The words are not those of the command line.
    Usage,
    /// The input is no scenario: its fault, with line and place.
    Scenario(LineFault),
    /// The input is no trace: it is too long, or this is its first line that may not stand at its place.
    Trace(TraceFault),
    /// The input could not be read.
    Read,
    /// The output could not be written.
    Write,
    /// The scenario is none for `run`: its first line that a run can't have.
    Run(RunFault),
    /// Memory was refused. It may come in the place of any other answer.
    OutOfMemory,
    /// The record of a trace is not legal. Its first entry, counted from 1, that may not stand where it stands, and what of it
    /// is wrong; the output says so too.
    Wrong { entry: u64, part: Part },
}

/// What a run came to.
#[derive(Drop)]
pub struct Outcome {
    /// The exit status: 0, or that of the fault.
    pub status: u8,
    pub fault: Option<TopFault>,
    /// The record that was played, exactly with status 0 and 5; of a trace that was checked, its record, if it is legal; of a node
    /// that was served, none.
    pub played: Option<Record>,
}

impl TopFault {
    /// The exit status of a fault.
    fn status(&self) -> u8
        ensures { result ≡ status_of (Some self.now) }
    {
        match self {
            TopFault::Usage => 2,
            TopFault::Scenario(_) | TopFault::Trace(_) => 3,
            TopFault::Read => 4,
            TopFault::Write => 5,
            TopFault::OutOfMemory => 6,
            TopFault::Run(_) => 8,
            TopFault::Wrong { .. } => 10,
        }
    }
}

impl Outcome {
    /// All was done.
    pub fn done(steps: Record) -> Outcome
        ensures status { result.status ≡ status_of result.fault }
        ensures fault { result.fault ≡ None }
        ensures played { result.played ≡ Some steps }
    {
        Outcome {
            status: 0,
            fault: None,
            played: Some(steps),
        }
    }

    /// All was done, and there is no record to hand out.
    pub fn over() -> Outcome
        ensures status { result.status ≡ status_of result.fault }
        ensures fault { result.fault ≡ None }
        ensures played { result.played ≡ None }
    {
        Outcome {
            status: 0,
            fault: None,
            played: None,
        }
    }

    /// The run ended with a fault, and may have a record to hand out.
    pub fn failed(fault: TopFault, played: Option<Record>) -> Outcome
        ensures status { result.status ≡ status_of result.fault }
        ensures fault { result.fault ≡ Some fault }
        ensures played { result.played ≡ played }
    {
        Outcome {
            status: fault.status(),
            fault: Some(fault),
            played,
        }
    }

    /// Nothing was played.
    pub fn refused(fault: TopFault) -> Outcome
        ensures status { result.status ≡ status_of result.fault }
        ensures fault { result.fault ≡ Some fault }
        ensures played { result.played ≡ None }
    {
        Outcome::failed(fault, None)
    }
}
