//! What is said of the use of the program.

use crate::message::Grouped;
use cli_words::{
    DEFAULT_DRAWN, DEFAULT_FROM, DEFAULT_NODES, DEFAULT_ROOM, DEFAULT_SEED, DEFAULT_SIZE,
    FEWEST_MADE_NODES, LEAST_ROOM, MOST_DRAWN, MOST_MADE_NODES, MOST_ROOM, MOST_SIZE,
};
use std::fmt;
use std::rc::RcStr;

/// Words by which programs are asked for help.
const REQUESTS: [&str; 4] = ["--help", "-h", "help", "--version"];

/// Whether words ask for help: there is none behind the program's name, or one of those by which programs are asked for it.
pub(crate) fn ask_for_help(words: &[RcStr]) -> bool {
    let asked = words.get(1..).unwrap_or(&[]);
    asked.is_empty() || asked.iter().any(|word| REQUESTS.contains(&word.as_str()))
}

const MODES: &str = "\
usage: pastry play < SCENARIO
       pastry run < SCENARIO
       pastry big [--nodes N] [--seed N]
       pastry trace [--threads] < SCENARIO
       pastry check < TRACE
       pastry draw [--from N] [--entries N] < TRACE
       pastry messages < SCENARIO
       pastry points [--room N] < SCENARIO
       pastry large [--nodes N] [--seed N] [--size N]
       pastry groups < SCRIPT
       pastry node < LINES

  play        plays the scenario on standard input, and writes its report
  run         runs it, with each node as a thread, and writes the report of what came of that
  big         plays a scenario that it makes itself, and writes its summary and a tally
  trace       plays the scenario on standard input, and writes all that happened, as docs/TRACES.md has it
  check       reads what trace wrote, or anybody, and writes whether that could have happened
  draw        reads the same, and writes a picture of the ring and of its messages, which a browser shows
  messages    plays the scenario on standard input, and writes every message with its number, for people to read
  points      plays the scenario with a cache at each node, which answers what it has seen found, and writes its report
  large       stores a large file in fragments and fetches it again, in a scenario that it makes, and writes what came of it
  groups      plays a scenario and then groups of its nodes, as docs/GROUPS.md has them, and writes the reports of both
  node        is one node in a network of processes: it answers each line that it reads, as docs/NODE.md has it
";

const STATUSES: &str = "\
Statuses: 0 done, 2 these words are refused, 3 the input is no scenario (for check and draw: no trace; for groups: no script),
4 the input could not be read, 5 the output could not be written, 6 too little memory, 8 the scenario can't be run, 10 the trace
is wrong, 120 the program could not be run before its proofs. README.md begins with an example, docs/TUTORIAL.md leads on from
there, and docs/SCENARIOS.md has the language.";

/// The modes, the options, the statuses, and where to read on. `scripts/usage` has the same text.
#[derive(Clone, Copy)]
pub(crate) struct Help;

impl fmt::Display for Help {
    fn fmt<W: fmt::Write>(&self, f: &mut fmt::Formatter<W>) -> fmt::Result {
        let most = u64::MAX;
        write!(
            f,
            "{MODES}
  --nodes N   how many nodes big and large make: {FEWEST_MADE_NODES} to {MOST_MADE_NODES}, {DEFAULT_NODES} if not given
  --seed N    the number from which they make their scenarios: 0 to {most}, {DEFAULT_SEED} if not given
  --room N    how many files a cache of points remembers: {LEAST_ROOM} to {MOST_ROOM}, {DEFAULT_ROOM} if not given
  --size N    how many bytes the file of large has: 0 to {MOST_SIZE}, {DEFAULT_SIZE} if not given
  --from N    the first entry that draw shows, counted from 0: 0 to {most}, {DEFAULT_FROM} if not given
  --entries N how many entries draw shows: 0 to {MOST_DRAWN}, {DEFAULT_DRAWN} if not given
  --threads   has trace run the scenario as run does, and write what happened in that

{STATUSES}"
        )
    }
}
