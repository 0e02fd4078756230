//! The modes by their names.

ghost use Rattle.std.specs.Prelude.{◌≡◌};
ghost use Rattle.cli_words.specs.Command.{mode_named, trace_mode};

use crate::mode::Mode;

/// The names of the modes, each of which [`mode_named`] knows.
pub(crate) static MODES: [&str; 11] = [
    "play", "run", "big", "trace", "check", "points", "large", "messages", "groups", "draw", "node",
];

/// What the options say, given or not.
#[derive(Clone, Copy)]
pub(crate) struct Options {
    pub(crate) nodes: u32,
    pub(crate) seed: u64,
    pub(crate) room: u32,
    pub(crate) size: u32,
    pub(crate) from: u64,
    pub(crate) entries: u32,
    pub(crate) threads: bool,
}

/// The mode that writes a trace: of a run by threads, or of a play.
fn trace_mode(threads: bool) -> Mode
    ensures { result ≡ trace_mode threads }
{
    if threads { Mode::TraceRun } else { Mode::Trace }
}

/// The mode of this name, with those of these options that it has.
pub(crate) fn mode_named(name: &str, options: Options) -> Option<Mode>
    ensures { result ≡ mode_named options name.entry.now }
{
    let Options {
        nodes,
        seed,
        room,
        size,
        from,
        entries,
        threads,
    } = options;
    match name {
        "play" => Some(Mode::Play),
        "run" => Some(Mode::Run),
        "big" => Some(Mode::Big { nodes, seed }),
        "trace" => Some(trace_mode(threads)),
        "check" => Some(Mode::Check),
        "points" => Some(Mode::Points {
            room: room as usize,
        }),
        "large" => Some(Mode::Large { nodes, seed, size }),
        "messages" => Some(Mode::Messages),
        "groups" => Some(Mode::Groups),
        "draw" => Some(Mode::Draw { from, entries }),
        "node" => Some(Mode::OneNode),
        _ => None,
    }
}
