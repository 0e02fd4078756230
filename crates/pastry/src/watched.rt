//! Standard input and output, with what messages need to know of them.

use crate::progress::Progress;
use scenario_reader::read_scenario;
use std::alloc::Global;
use std::io;
use std::io::{Read, Write};

/// What was seen of an input.
#[derive(Drop)]
pub(crate) struct Seen {
    alloc: Global,
    /// The bytes that were read; None once memory for them was refused, or where they are not kept.
    bytes: Option<Vec<u8>>,
    /// Why it could not be read.
    pub(crate) fault: Option<io::Error>,
}

impl Seen {
    /// Nothing yet.
    pub(crate) fn new(alloc: Global) -> Seen {
        Seen {
            alloc,
            bytes: Some(Vec::new(alloc)),
            fault: None,
        }
    }

    /// Nothing, and nothing is to be kept: no message shows this input.
    pub(crate) fn unkept(alloc: Global) -> Seen {
        Seen {
            alloc,
            bytes: None,
            fault: None,
        }
    }

    /// The bytes that were read; None if memory for them was refused, or they are not kept.
    pub(crate) fn bytes(&self) -> Option<&[u8]> {
        match &self.bytes {
            Some(bytes) => Some(bytes.as_slice()),
            None => None,
        }
    }

    /// Keeps more bytes, if there is memory for them.
    fn keep(&mut self, bytes: &[u8]) {
        let is_kept = match &mut self.bytes {
            Some(kept) => kept.extend_from_slice(bytes).is_ok(),
            None => false,
        };
        if !is_kept {
            self.bytes = None;
        }
    }

    /// Tells progress how much was read, and at the end which scenario it is.
    fn tell(&self, progress: &Progress<'_>, is_end: bool) {
        let Some(bytes) = &self.bytes else {
            return;
        };
        progress.tell_read(bytes.len());
        if is_end && progress.is_told() {
            if let Ok(scenario) = read_scenario(self.alloc, bytes) {
                progress.expect(&scenario);
            }
        }
    }
}

/// A reader of which is seen what it gives.
#[derive(Drop)]
pub(crate) struct WatchedReader<'a, R> {
    pub(crate) reader: R,
    pub(crate) seen: &'a mut Seen,
    pub(crate) progress: &'a Progress<'a>,
}

impl<R: Read> Read for WatchedReader<'_, R> {
    ghost remaining = { λ r. R.remaining r.reader };

    fn read(&mut self, buf: &mut [u8]) -> io::Result<usize> {
        match self.reader.read(buf) {
            Ok(count) => {
                self.seen.keep(&buf[..count]);
                self.seen.tell(self.progress, count == 0);
                Ok(count)
            }
            Err(error) => {
                self.seen.fault = Some(error);
                Err(error)
            }
        }
    }
}

/// A writer of which is seen why it fails. The line of progress is wiped before it is first written to.
#[derive(Drop)]
pub(crate) struct WatchedWriter<'a, W> {
    pub(crate) writer: W,
    pub(crate) fault: &'a mut Option<io::Error>,
    pub(crate) progress: &'a Progress<'a>,
}

impl<W: Write> Write for WatchedWriter<'_, W> {
    ghost contents = { λ w. W.contents w.writer };

    fn write(&mut self, buf: &[u8]) -> io::Result<usize> {
        self.progress.wipe();
        match self.writer.write(buf) {
            Ok(count) => Ok(count),
            Err(error) => {
                *self.fault = Some(error);
                Err(error)
            }
        }
    }

    fn flush(&mut self) -> io::Result<()> {
        self.writer.flush()
    }
}
