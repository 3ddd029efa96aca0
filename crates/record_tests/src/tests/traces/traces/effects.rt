// How often a reader and a writer are called and with what, and that memory is taken by what was read:
// no clause says it.
use super::{large_bytes, large_calls};
use std::alloc::Global;
use std::io;
use std::io::{Error, ErrorKind, Read, Write};
use std::test::Fail;
use trace_file::{Trace, TraceFault, TraceReader, WriteTraceFault, read_trace, write_trace};

/// How many calls the long trace has, each with 2,333 bytes, and with 4 bytes of the certificate.
const CALLS: u32 = 100;

/// How many bytes it has.
const LONG: usize = 12 + 100 * 2337;

/// A header that counts as many calls as a trace may have, 268,435,456.
const MOST: [u8; 12] = *b"KGTRACE1\x10\x00\x00\x00";

/// A reader that fails at one of its calls, gives what it has at the others, and notes how it is called.
#[derive(Drop)]
struct CountedReads<'a> {
    rest: &'a [u8],
    fails_at: u32,
    calls: u32,
    least: usize,
    most: usize,
}

impl Read for CountedReads<'_> {
    fn read(&mut self, buf: &mut [u8]) -> io::Result<usize> {
        self.calls = self.calls.saturating_add(1);
        self.least = self.least.min(buf.len());
        self.most = self.most.max(buf.len());
        if self.calls == self.fails_at {
            return Err(Error::from(ErrorKind::Interrupted));
        }
        let count = self.rest.len().min(buf.len());
        let (front, rest) = self.rest.split_at(count);
        buf[..count].copy_from_slice(front);
        self.rest = rest;
        Ok(count)
    }
}

/// A writer that fails at one of its calls, takes at most this many bytes at the others, and notes how it
/// is called.
#[derive(Drop)]
struct CountedWrites {
    fails_at: u32,
    room: usize,
    calls: u32,
    flushes: u32,
    taken: usize,
}

impl Write for CountedWrites {
    fn write(&mut self, buf: &[u8]) -> io::Result<usize> {
        self.calls = self.calls.saturating_add(1);
        if self.calls == self.fails_at {
            return Err(Error::from(ErrorKind::Interrupted));
        }
        let count = buf.len().min(self.room);
        self.taken = self.taken.saturating_add(count);
        Ok(count)
    }

    fn flush(&mut self) -> io::Result<()> {
        self.flushes = self.flushes.saturating_add(1);
        Ok(())
    }
}

/// What is read, the long trace if nothing is named, the number of the read that fails, how often the reader is called, and the
/// fault.
#[derive(Clone, Copy)]
struct Reads(Option<&'static [u8]>, u32, u32, Option<TraceFault>);

static READS: [Reads; 9] = [
    Reads(None, 0, 59, None),
    Reads(None, 1, 1, Some(TraceFault::ReadFault { at: 0 })),
    Reads(None, 30, 30, Some(TraceFault::ReadFault { at: 118_784 })),
    Reads(None, 59, 59, Some(TraceFault::ReadFault { at: 233_712 })),
    Reads(Some(&MOST), 0, 2, Some(TraceFault::Truncated { at: 12 })),
    Reads(Some(&MOST), 2, 2, Some(TraceFault::ReadFault { at: 12 })),
    Reads(
        Some(b"KGTRACE9"),
        0,
        1,
        Some(TraceFault::BadMagic { at: 7 }),
    ),
    Reads(
        Some(b"KGTRACE9"),
        2,
        1,
        Some(TraceFault::BadMagic { at: 7 }),
    ),
    Reads(
        Some(b"KGTRACE1\x00\x00\x00\x00\x00"),
        2,
        1,
        Some(TraceFault::TrailingBytes { at: 12 }),
    ),
];

// Whether a reader is called so, for 4,096 bytes each time, and this is the fault.
fn is_read(alloc: Global, long: &[u8], row: &Reads) -> bool {
    let mut reader = CountedReads {
        rest: row.0.unwrap_or(long),
        fails_at: row.1,
        calls: 0,
        least: usize::MAX,
        most: 0,
    };
    let fault = read_trace(alloc, &mut reader).err();
    fault == row.3 && reader.calls == row.2 && reader.least == 4096 && reader.most == 4096
}

#[test]
fn a_piece_is_read_at_a_time_and_no_read_follows_a_failed_one_or_a_fault(
    rt: HostRuntime,
) -> Result<(), Fail> {
    let long = large_bytes(rt.alloc(), CALLS, 1)?;
    assert!(rt; long.len() == LONG);
    for number in 0..READS.len() {
        assert!(rt; is_read(rt.alloc(), &long, &READS[number]), "row {number}");
    }
    Ok(())
}

/// A writer whose write of this number fails, with room for so many bytes a write; how often it is called, and the fault.
#[derive(Clone, Copy)]
struct Writes(u32, usize, u32, Option<WriteTraceFault>);

// Whether the long trace is written so, and nothing is flushed.
fn is_written(trace: &Trace, row: &Writes) -> bool {
    let mut writer = CountedWrites {
        fails_at: row.0,
        room: row.1,
        calls: 0,
        flushes: 0,
        taken: 0,
    };
    let written = write_trace(&trace.history, &trace.certificate, &mut writer);
    written.err() == row.3
        && writer.calls == row.2
        && writer.flushes == 0
        && (writer.taken == LONG) == row.3.is_none()
}

// Three calls are written at a time, and the last one with the certificate.
static WRITES: [Writes; 6] = [
    Writes(0, usize::MAX, 34, None),
    Writes(0, 1, 233_712, None),
    Writes(1, usize::MAX, 1, Some(WriteTraceFault::WriteFault)),
    Writes(17, usize::MAX, 17, Some(WriteTraceFault::WriteFault)),
    Writes(34, usize::MAX, 34, Some(WriteTraceFault::WriteFault)),
    Writes(0, 0, 1, Some(WriteTraceFault::WriteFault)),
];

#[test]
fn writes_are_few_none_follows_a_failed_one_and_nothing_is_flushed(
    rt: HostRuntime,
) -> Result<(), Fail> {
    let trace = large_calls(rt.alloc(), CALLS, 1)?;
    for number in 0..WRITES.len() {
        assert!(rt; is_written(&trace, &WRITES[number]), "row {number}");
    }
    Ok(())
}

// A reader that was fed a header which counts calls.
fn awaiting(alloc: Global) -> Result<TraceReader, TraceFault> {
    let mut parts = TraceReader::new(alloc);
    parts.feed(&MOST)?;
    Ok(parts)
}

// Whether a reader says that its calls did not come.
fn is_cut(parts: TraceReader) -> bool {
    parts.finish().err() == Some(TraceFault::Truncated { at: 12 })
}

/// Readers that were fed a header which counts calls that do not come. Did each take four bytes for each
/// call that is counted, all would take 195 TiB, which is more than a process can have.
#[test]
fn no_memory_is_taken_for_calls_that_are_counted_and_do_not_come(
    rt: HostRuntime,
) -> Result<(), Fail> {
    let mut readers = Vec::new(rt.alloc());
    for _ in 0..200_000u32 {
        readers.push(awaiting(rt.alloc())?)?;
    }
    for parts in readers {
        assert!(rt; is_cut(parts));
    }
    Ok(())
}
