//! The command line as `clap` is told it.

ghost use Rattle.std.specs.Prelude.{◌≡◌, false, codes, pos, IfOk, IfErr};
ghost use Rattle.clap.specs.Words.{app_of, rule_of};
ghost use Rattle.clap.specs.Simple.{new_app};
ghost use Rattle.clap.specs.declared.builder.value_parser.ValueParser.TheVariants.{Signed, Unsigned};
ghost use Rattle.cli_words.specs.Command.{IsCommand, AreModes, without_help, mode_rule, option_rule, threads_rule};

use crate::limits::{
    DEFAULT_DRAWN_TEXT, DEFAULT_FROM_TEXT, DEFAULT_NODES_TEXT, DEFAULT_ROOM_TEXT,
    DEFAULT_SEED_TEXT, DEFAULT_SIZE_TEXT, FEWEST_MADE_NODES, LEAST_ROOM, MOST_DRAWN,
    MOST_MADE_NODES, MOST_ROOM, MOST_SIZE,
};
use crate::mode::WordFault;
use crate::modes::MODES;
use clap::builder::ValueParser;
use clap::{Arg, ArgAction, Command, value_parser};
use std::alloc::Global;

fn mode_arg<'a>(alloc: Global) -> Arg<'a>
    ensures rule { (names : _) × AreModes names × (rule_of result ≡ mode_rule names) }
    ensures local { result.global ≡ false }
{
    Arg::new(alloc, "mode")
        .required(true)
        .action(ArgAction::Set)
        .value_parser(MODES.as_slice())
}

/// The numbers from the least to the most.
fn u32_values<'a>(least: u32, most: u32) -> ValueParser<'a>
    ensures { result ≡ Signed (pos least) (pos most) }
{
    value_parser!(u32).range(i64::from(least)..=i64::from(most))
}

/// An option with one of these values, and the text that stands where it is not given.
fn option_arg<'a>(
    alloc: Global,
    name: &'a str,
    values: ValueParser<'a>,
    otherwise: &'a str,
) -> Arg<'a>
    ensures rule { rule_of result ≡ option_rule name.now values.entry otherwise.now }
    ensures local { result.global ≡ false }
{
    Arg::new(alloc, name)
        .long(name)
        .action(ArgAction::Set)
        .value_parser(values)
        .default_value(otherwise)
}

/// An option whose value is a number from the least to the most, with the text that stands where it is not given.
fn u32_arg<'a>(alloc: Global, name: &'a str, least: u32, most: u32, otherwise: &'a str) -> Arg<'a>
    ensures rule { rule_of result ≡ option_rule name.now (Signed (pos least) (pos most)) otherwise.now }
    ensures local { result.global ≡ false }
{
    option_arg(alloc, name, u32_values(least, most), otherwise)
}

/// An option whose value is any number below 2^64.
fn u64_arg<'a>(alloc: Global, name: &'a str, otherwise: &'a str) -> Arg<'a>
    ensures rule { rule_of result ≡ option_rule name.now (Unsigned 0 18446744073709551615) otherwise.now }
    ensures local { result.global ≡ false }
{
    option_arg(alloc, name, value_parser!(u64), otherwise)
}

/// Whether a trace is that of a run by threads.
fn threads_arg<'a>(alloc: Global) -> Arg<'a>
    ensures rule { rule_of result ≡ threads_rule }
    ensures local { result.global ≡ false }
{
    Arg::new(alloc, "threads")
        .long("threads")
        .action(ArgAction::SetTrue)
}

/// No argument yet, and neither help nor version.
fn bare_command<'a>(alloc: Global) -> Command<'a>
    ensures { app_of result ≡ without_help (new_app (codes "pastry")) }
{
    Command::new(alloc, "pastry")
        .disable_help_flag(true)
        .disable_version_flag(true)
}

/// One mode, six options and a flag, and neither help nor version.
pub(crate) fn command<'a>(alloc: Global) -> Result<Command<'a>, WordFault>
    ensures err { IfErr result (λ e. e ≡ WordFault.OutOfMemory) }
    ensures ok { IfOk result (λ c. IsCommand c) }
{
    let command = bare_command(alloc)
        .arg(mode_arg(alloc))?
        .arg(u32_arg(
            alloc,
            "nodes",
            FEWEST_MADE_NODES,
            MOST_MADE_NODES,
            DEFAULT_NODES_TEXT,
        ))?
        .arg(u64_arg(alloc, "seed", DEFAULT_SEED_TEXT))?
        .arg(u32_arg(alloc, "room", LEAST_ROOM, MOST_ROOM, DEFAULT_ROOM_TEXT))?
        .arg(u32_arg(alloc, "size", 0, MOST_SIZE, DEFAULT_SIZE_TEXT))?
        .arg(u64_arg(alloc, "from", DEFAULT_FROM_TEXT))?
        .arg(u32_arg(alloc, "entries", 0, MOST_DRAWN, DEFAULT_DRAWN_TEXT))?
        .arg(threads_arg(alloc))?;
    Ok(command)
}
