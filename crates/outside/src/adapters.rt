//! std's reader and writer as a source and a sink. Nothing is told of what they hold, so these few lines are what is
//! trusted of the outside world.

ghost use Rattle.std.specs.Prelude.{◌≡◌};

use crate::traits::{Piece, Sink, Source, Taken};
use std::io::{Read, Write};
use std::marker::Model;

/// A reader as a source, which contracts see as the count of its faults. Each `Err` of the reader is a fault, and a read
/// of 0 bytes is the end.
#[derive(Drop)]
pub struct FromReader<R> {
    reader: R,
    faults: u64,
}

impl<R> Model for FromReader<R> {
    ghost use Rattle.std.specs.Prelude.{ℕ};

    ghost Value = { ℕ };

    ghost view = { λ s. s.faults };
}

impl<R: Read> FromReader<R> {
    /// The reader with no fault so far.
    pub fn new(reader: R) -> FromReader<R>
        ensures { result ≡ 0 }
    {
        FromReader { reader, faults: 0 }
    }
}

impl<R: Read> Source for FromReader<R> {
    ghost use Rattle.std.specs.Prelude.{None, ◌≡◌};
    ghost use Rattle.outside.specs.Calls.{faults_after};
    ghost use Rattle.outside.specs.Source.{is_failed};

    ghost left = { λ _. None };

    ghost faults = { λ faults. faults };

    ghost gives = { λ before _ piece after. after ≡ faults_after before (is_failed piece) };

    fn read_some(&mut self, buf: &mut [u8]) -> Piece {
        match self.reader.read(buf) {
            Ok(0) => Piece::End,
            Ok(count) => Piece::Got(count),
            Err(_) => {
                self.faults = self.faults.saturating_add(1);
                Piece::Failed
            }
        }
    }
}

/// A writer as a sink, which contracts see as the count of its faults. Each `Err` of the writer is a fault, and so is a
/// write of 0 bytes.
#[derive(Drop)]
pub struct ToWriter<W> {
    writer: W,
    faults: u64,
}

impl<W> Model for ToWriter<W> {
    ghost use Rattle.std.specs.Prelude.{ℕ};

    ghost Value = { ℕ };

    ghost view = { λ s. s.faults };
}

impl<W: Write> ToWriter<W> {
    /// The writer with no fault so far.
    pub fn new(writer: W) -> ToWriter<W>
        ensures { result ≡ 0 }
    {
        ToWriter { writer, faults: 0 }
    }
}

impl<W: Write> Sink for ToWriter<W> {
    ghost use Rattle.std.specs.Prelude.{None, ◌≡◌};
    ghost use Rattle.outside.specs.Calls.{faults_after};
    ghost use Rattle.outside.specs.Sink.{is_failed};

    ghost taken = { λ _. None };

    ghost faults = { λ faults. faults };

    ghost takes = { λ before _ answer after. after ≡ faults_after before (is_failed answer) };

    fn put(&mut self, bytes: &[u8]) -> Taken {
        match self.writer.write(bytes) {
            Ok(0) | Err(_) => {
                self.faults = self.faults.saturating_add(1);
                Taken::Failed
            }
            Ok(count) => Taken::Took(count),
        }
    }
}
