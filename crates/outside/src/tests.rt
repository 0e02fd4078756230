ghost use Rattle.std.specs.Prelude.{◌≢◌, ◌<◌, Err, IsOk};

use super::*;
use std::alloc::Global;
use std::io::{self, Read, Write};
use std::test::Fail;

/// The bytes 0, 1, 2 and so on, so many of them.
fn counting(alloc: Global, len: u8) -> Result<Vec<u8>, Fail> {
    Ok((0..len).collect(alloc)?)
}

fn source_of(
    alloc: Global,
    bytes: &[u8],
    per_call: usize,
    fails: &[u64],
) -> Result<MemorySource, Fail>
    requires { 0 < per_call }
{
    Ok(
        MemorySource::new(alloc, bytes, per_call, fails)
            .ok()
            .ok_or("no memory")?,
    )
}

fn sink_of(alloc: Global, room: usize, per_call: usize, fails: &[u64]) -> Result<MemorySink, Fail>
    requires { 0 < per_call }
{
    Ok(
        MemorySink::new(alloc, room, per_call, fails)
            .ok()
            .ok_or("no memory")?,
    )
}

// 100 bytes come in 15 calls of 7 bytes at most, and the 16th call finds the end.
#[test]
fn a_source_fails_at_the_call_that_was_chosen(rt: HostRuntime) -> Result<(), Fail> {
    let bytes = counting(rt.alloc(), 100)?;
    for call in 1u8..=16 {
        let mut source = source_of(rt.alloc(), &bytes, 7, &[u64::from(call)])?;
        let read = read_to_limit(rt.alloc(), &mut source, 1000);
        assert_eq!(rt; read.err(), Some(ReadFault::Read), "failing at {call}");
        let given = (usize::from(call - 1) * 7).min(bytes.len());
        assert_eq!(rt;
            source.left(),
            &bytes.as_slice()[given..],
            "failing at {call}"
        );
    }
    let mut source = source_of(rt.alloc(), &bytes, 7, &[17])?;
    let read = read_to_limit(rt.alloc(), &mut source, 1000)
        .ok()
        .ok_or("refused")?;
    assert_eq!(rt; read.as_slice(), bytes.as_slice());
    assert!(rt; source.left().is_empty());
    Ok(())
}

// 153 bytes go out in 16 calls of 10 bytes at most.
#[test]
fn a_sink_fails_at_the_call_that_was_chosen(rt: HostRuntime) -> Result<(), Fail> {
    let bytes = counting(rt.alloc(), 153)?;
    for call in 1u8..=16 {
        let mut sink = sink_of(rt.alloc(), 200, 10, &[u64::from(call)])?;
        assert_eq!(rt;
            write_all(&mut sink, &bytes),
            Err(WriteFault),
            "failing at {call}"
        );
        let taken = (usize::from(call - 1) * 10).min(bytes.len());
        assert_eq!(rt;
            sink.taken(),
            &bytes.as_slice()[..taken],
            "failing at {call}"
        );
    }
    let mut sink = sink_of(rt.alloc(), 200, 10, &[17])?;
    assert_eq!(rt; write_all(&mut sink, &bytes), Ok(()));
    assert_eq!(rt; sink.taken(), bytes.as_slice());
    Ok(())
}

#[test]
fn a_sink_fails_once_its_room_is_used(rt: HostRuntime) -> Result<(), Fail> {
    let mut sink = sink_of(rt.alloc(), 5, 3, &[])?;
    assert_eq!(rt; write_all(&mut sink, b"abcde"), Ok(()));
    assert_eq!(rt; write_all(&mut sink, b""), Ok(()));
    assert_eq!(rt; write_all(&mut sink, b"f"), Err(WriteFault));
    assert_eq!(rt; sink.taken(), b"abcde".as_slice());
    Ok(())
}

#[test]
fn reading_stops_at_the_limit(rt: HostRuntime) -> Result<(), Fail> {
    let mut source = source_of(rt.alloc(), b"over the limit", 1000, &[])?;
    let none = read_to_limit(rt.alloc(), &mut source, 0)
        .ok()
        .ok_or("refused")?;
    assert!(rt; none.is_empty());
    let some = read_to_limit(rt.alloc(), &mut source, 4)
        .ok()
        .ok_or("refused")?;
    assert_eq!(rt; some.as_slice(), b"over".as_slice());
    assert_eq!(rt; source.left(), b" the limit".as_slice());
    Ok(())
}

fn is_shared<T: Send + Sync>(_shared: &T) {}

/// Over a steady source, want of memory is the only fault.
fn read_steadily(
    alloc: Global,
    source: &mut SteadySource,
    most: usize,
) -> Result<Vec<u8>, ReadFault>
    ensures { result ≢ Err ReadFault.Read }
{
    read_to_limit(alloc, source, most)
}

/// Over a steady sink there is no fault.
fn write_steadily(sink: &mut SteadySink, bytes: &[u8]) -> Result<(), WriteFault>
    ensures { IsOk result }
{
    write_all(sink, bytes)
}

#[test]
fn steady_devices_do_not_fail(rt: HostRuntime) -> Result<(), Fail> {
    let bytes: Vec<u8> = (0..10_000u32).map(|i| (i % 251) as u8).collect(rt.alloc())?;
    let mut source = SteadySource::new(rt.alloc(), &bytes, 5000)
        .ok()
        .ok_or("no memory")?;
    let read = read_steadily(rt.alloc(), &mut source, 20_000)
        .ok()
        .ok_or("refused")?;
    assert_eq!(rt; read.as_slice(), bytes.as_slice());
    assert_eq!(rt; write_steadily(&mut SteadySink::new(7), &bytes), Ok(()));
    Ok(())
}

#[test]
fn a_free_pass_holds_nobody_up() {
    is_shared(&FreePass);
    FreePass.pass(0, 1);
}

/// Gives and takes at most four bytes a call, and fails at the third call.
#[derive(Drop)]
struct Halting<T> {
    inner: T,
    calls: u8,
}

impl<T> Halting<T> {
    fn turn(&mut self, len: usize) -> io::Result<usize> {
        self.calls = self.calls.saturating_add(1);
        if self.calls == 3 {
            return Err(io::Error::from(io::ErrorKind::Other));
        }
        Ok(len.min(4))
    }
}

impl<T: Read> Read for Halting<T> {
    fn read(&mut self, buf: &mut [u8]) -> io::Result<usize> {
        let len = self.turn(buf.len())?.min(buf.len());
        self.inner.read(&mut buf[..len])
    }
}

impl<T: Write> Write for Halting<T> {
    fn write(&mut self, buf: &[u8]) -> io::Result<usize> {
        let len = self.turn(buf.len())?.min(buf.len());
        self.inner.write(&buf[..len])
    }

    fn flush(&mut self) -> io::Result<()> {
        Ok(())
    }
}

#[test]
fn a_reader_is_a_source(rt: HostRuntime) -> Result<(), Fail> {
    let inner = b"read from a file".as_slice();
    let mut source = FromReader::new(Halting { inner, calls: 0 });
    let failed = read_to_limit(rt.alloc(), &mut source, 100);
    assert_eq!(rt; failed.err(), Some(ReadFault::Read));
    // The first two calls gave eight bytes, and the third none. The next reading goes on behind them.
    let rest = read_to_limit(rt.alloc(), &mut source, 100)
        .ok()
        .ok_or("refused")?;
    assert_eq!(rt; rest.as_slice(), b"m a file".as_slice());
    let mut buf = [0; 4];
    assert_eq!(rt; source.read_some(&mut buf), Piece::End);
    Ok(())
}

#[test]
fn a_writer_is_a_sink(rt: HostRuntime) -> Result<(), Fail> {
    let mut written = [0; 12];
    let inner = written.as_mut_slice();
    let mut sink = ToWriter::new(Halting { inner, calls: 0 });
    assert_eq!(rt; write_all(&mut sink, b"written out"), Err(WriteFault));
    // Two calls took eight bytes and the third none. Four more fit, and a write of 0 bytes is a fault.
    assert_eq!(rt; write_all(&mut sink, b"1234"), Ok(()));
    assert_eq!(rt; sink.put(b"5"), Taken::Failed);
    drop(sink);
    assert_eq!(rt; written.as_slice(), b"written 1234".as_slice());
    Ok(())
}
