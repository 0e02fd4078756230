//! Reading the words of the command line.

ghost use Rattle.std.specs.Prelude.{◌≡◌, ◌≢◌, ◌⊎◌, Err, Some, IfOk, IsOkAnd, IsErrAnd, List, codes, option_map, map};
ghost use Rattle.std.specs.Rc.{rc_str_bytes};
ghost use Rattle.clap.specs.Words.{rows_of, found_of, first_of, kind_of};
ghost use Rattle.cli_words.specs.Command.{Reads, Judges, AreModes, HasNumbersInRange, mode_of, number_of, options_of, is_set};
ghost use Rattle.cli_words.specs.Plain.{Piece, ArePlain, mode_by};

use crate::command::command;
use crate::limits::{
    DEFAULT_DRAWN, DEFAULT_FROM, DEFAULT_NODES, DEFAULT_ROOM, DEFAULT_SEED, DEFAULT_SIZE,
};
use crate::mode::{Mode, WordFault};
use crate::modes::{Options, mode_named};
use clap::error::ErrorKind;
use clap::{ArgMatches, Error};
use std::alloc::{AllocError, Global};
use std::rc::RcStr;

/// The number of an option below 2^32, or another where it is not given.
fn u32_in(matches: &ArgMatches<'_>, option: &str, otherwise: u32) -> u32
    ensures { result ≡ number_of option.entry.now 4294967295 otherwise (rows_of (found_of matches.now)) }
{
    match matches.get_one::<u32>(option) {
        Some(number) => number,
        None => otherwise,
    }
}

/// The number of an option below 2^64, or another where it is not given.
fn u64_in(matches: &ArgMatches<'_>, option: &str, otherwise: u64) -> u64
    ensures { result ≡ number_of option.entry.now 18446744073709551615 otherwise (rows_of (found_of matches.now)) }
{
    match matches.get_one::<u64>(option) {
        Some(number) => number,
        None => otherwise,
    }
}

/// Whether the flag is given.
fn threads_in(matches: &ArgMatches<'_>) -> bool
    ensures { result ≡ is_set (codes "threads") (rows_of (found_of matches.now)) }
{
    match matches.get_str("threads") {
        Some(text) => text == "true",
        None => false,
    }
}

fn options_in(matches: &ArgMatches<'_>) -> Options
    ensures { result ≡ options_of (rows_of (found_of matches.now)) }
{
    Options {
        nodes: u32_in(matches, "nodes", DEFAULT_NODES),
        seed: u64_in(matches, "seed", DEFAULT_SEED),
        room: u32_in(matches, "room", DEFAULT_ROOM),
        size: u32_in(matches, "size", DEFAULT_SIZE),
        from: u64_in(matches, "from", DEFAULT_FROM),
        entries: u32_in(matches, "entries", DEFAULT_DRAWN),
        threads: threads_in(matches),
    }
}

fn name_in<'a>(matches: &ArgMatches<'a>) -> Option<&'a str>
    ensures { option_map (λ s. s.now) result ≡ first_of (codes "mode") (rows_of (found_of matches.now)) }
{
    matches.get_str("mode")
}

fn mode_in(matches: &ArgMatches<'_>) -> Option<Mode>
    ensures { result ≡ mode_of (rows_of (found_of matches.now)) }
{
    mode_named(name_in(matches)?, options_in(matches))
}

fn fault_in(error: &Error) -> WordFault
    ensures memory { result ≡ WordFault.OutOfMemory → kind_of error.now ≡ ErrorKind.OutOfMemory }
    ensures usage { result ≡ WordFault.Usage → kind_of error.now ≢ ErrorKind.OutOfMemory }
{
    match error.kind() {
        ErrorKind::OutOfMemory => WordFault::OutOfMemory,
        _ => WordFault::Usage,
    }
}

/// Reads the words of the command line, of which the first is the program's name. `Usage` comes exactly where the reading of
/// the command refuses them for another cause than memory, and `OutOfMemory` may come in its place. Plain words are never
/// `Usage`. The numbers of a mode that is answered are in their ranges.
pub fn read_words(alloc: Global, words: &[RcStr]) -> Result<Mode, WordFault>
    ensures reads { (result ≡ Err WordFault.OutOfMemory) ⊎ ((names : _) × AreModes names × Reads names (map rc_str_bytes words.now) result) }
    ensures plain { (pieces : List Piece) → ArePlain pieces (map rc_str_bytes words.now) → (result ≡ Err WordFault.OutOfMemory) ⊎ IsOkAnd result (λ mode. mode_by pieces ≡ Some mode) }
    ensures range { IfOk result HasNumbersInRange }
{
    read(alloc, words)
}

/// The reading of the command.
fn read(alloc: Global, words: &[RcStr]) -> Result<Mode, WordFault>
    ensures { (result ≡ Err WordFault.OutOfMemory) ⊎ ((names : _) × AreModes names × Reads names (map rc_str_bytes words.now) result) }
{
    let command = command(alloc)?;
    match command.try_get_matches_from(words) {
        Ok(matches) => mode_in(&matches).ok_or(WordFault::Usage),
        Err(error) => Err(fault_in(&error)),
    }
}

/// Whether the command takes these words. An error has the command's text: which word it refuses, and what is wanted there.
/// An error of memory may come in the place of any answer.
pub fn check_words(alloc: Global, words: &[RcStr]) -> Result<(), Error>
    ensures { IsErrAnd result (λ e. kind_of e ≡ ErrorKind.OutOfMemory) ⊎ ((names : _) × AreModes names × Judges names (map rc_str_bytes words.now) result) }
{
    let command = match command(alloc) {
        Ok(command) => command,
        Err(_) => return Err(Error::from(AllocError)),
    };
    match command.try_get_matches_from(words) {
        Ok(_matches) => Ok(()),
        Err(error) => Err(error),
    }
}
