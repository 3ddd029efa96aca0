// How often a reader and a writer are called, which no clause says, and that any hasher gives the same verdict.
use certificate_checker::{
    JudgeFault, Judged, Verdict, check_with_hasher, judge, judge_with_hasher,
};
use key_hash::RandomSeed;
use record_pages::{Key, Value};
use std::alloc::Global;
use std::hash::{BuildHasher, Hasher, RandomState};
use std::io;
use std::io::{Error, ErrorKind, Read, Write};
use std::test::Fail;
use trace_file::{Act, Call, Certificate, History, Trace, write_trace};

/// A trace of no call.
const EMPTY: [u8; 12] = *b"KGTRACE1\x00\x00\x00\x00";

/// A reader that fails at one of its calls, gives what it has at the others, and notes how it is called.
#[derive(Drop)]
struct CountedReads<'a> {
    rest: &'a [u8],
    fails_at: u32,
    calls: u32,
    least: usize,
    most: usize,
}

impl Read for CountedReads<'_> {
    fn read(&mut self, buf: &mut [u8]) -> io::Result<usize> {
        self.calls = self.calls.saturating_add(1);
        self.least = self.least.min(buf.len());
        self.most = self.most.max(buf.len());
        if self.calls == self.fails_at {
            return Err(Error::from(ErrorKind::Interrupted));
        }
        let count = self.rest.len().min(buf.len());
        let (front, rest) = self.rest.split_at(count);
        buf[..count].copy_from_slice(front);
        self.rest = rest;
        Ok(count)
    }
}

/// A writer that fails at one of its calls, and takes at most this many bytes at the others.
#[derive(Drop)]
struct CountedWrites {
    fails_at: u32,
    most: usize,
    calls: u32,
    flushes: u32,
    taken: usize,
}

impl Write for CountedWrites {
    fn write(&mut self, buf: &[u8]) -> io::Result<usize> {
        self.calls = self.calls.saturating_add(1);
        if self.calls == self.fails_at {
            return Err(Error::from(ErrorKind::Interrupted));
        }
        let count = buf.len().min(self.most);
        self.taken = self.taken.saturating_add(count);
        Ok(count)
    }

    fn flush(&mut self) -> io::Result<()> {
        self.flushes = self.flushes.saturating_add(1);
        Ok(())
    }
}

/// A hasher, and what makes it, that gives all keys one hash.
#[derive(Clone, Copy)]
struct OneHash;

impl Hasher for OneHash {
    ghost write = { λ hasher _. hasher };

    ghost finish = { λ _. 0 };

    fn finish(&self) -> u64 {
        0
    }

    fn write(&mut self, _bytes: &[u8]) {}
}

impl BuildHasher for OneHash {
    type Hasher = OneHash;

    ghost build_hasher = { λ it. it };

    fn build_hasher(&self) -> OneHash {
        *self
    }
}

/// A put of the key and the value of this number, or a hit of them from 200 on.
fn call_of(alloc: Global, number: u32) -> Result<Call, Fail> {
    let byte = [(number % 200) as u8];
    let key = Key::new(alloc, &byte)?;
    let value = Value::new(alloc, &byte)?;
    let act = if number < 200 {
        Act::Put(value, 400)
    } else {
        Act::Hit(value, u64::from(number))
    };
    Ok(Call {
        caller: 0,
        start: u64::from(number),
        end: u64::from(number),
        key,
        act,
    })
}

/// Puts of 200 keys, each with a value of its own, and then a hit of each, as they were put.
fn puts_and_hits(alloc: Global) -> Result<Trace, Fail> {
    let mut history = History::new(alloc);
    let mut certificate = Certificate::new(alloc);
    for number in 0..400u32 {
        history.push(call_of(alloc, number)?)?;
        certificate.push(number)?;
    }
    Ok(Trace {
        history,
        certificate,
    })
}

/// Whether the trace of no call is judged so under a drawn state.
fn judges_no_call(alloc: Global, state: RandomState) -> bool {
    let mut reader: &[u8] = &EMPTY;
    let mut out: Vec<u8> = Vec::new(alloc);
    let judged = judge_with_hasher(alloc, state, &mut reader, &mut out);
    judged == Ok(Judged::Accepted) && out.as_slice() == b"accepted 0 calls\n".as_slice()
}

#[test]
fn any_hasher_gives_the_same(rt: HostRuntime) -> Result<(), Fail> {
    let alloc = rt.alloc();
    let trace = puts_and_hits(alloc)?;
    let seed = RandomSeed::draw(&rt)?;
    let random = check_with_hasher(alloc, seed, &trace.history, &trace.certificate);
    let one = check_with_hasher(alloc, OneHash, &trace.history, &trace.certificate);
    assert!(rt;
        random == Ok(Verdict::Accepted)
            && one == Ok(Verdict::Accepted)
            && judges_no_call(alloc, RandomState::new(&rt)?)
    );
    Ok(())
}

/// What is read, the long trace if nothing is named, the number of the read that fails, how often the reader is called, and the
/// line.
#[derive(Clone, Copy)]
struct Reads(Option<&'static [u8]>, u32, u32, &'static [u8]);

static READS: [Reads; 9] = [
    Reads(Some(&EMPTY), 0, 2, b"accepted 0 calls\n"),
    Reads(Some(&EMPTY), 1, 1, b"bad trace ReadFault at 0\n"),
    Reads(Some(&EMPTY), 2, 2, b"bad trace ReadFault at 12\n"),
    Reads(None, 0, 5, b"accepted 400 calls\n"),
    Reads(None, 3, 3, b"bad trace ReadFault at 8192\n"),
    Reads(None, 5, 5, b"bad trace ReadFault at 14412\n"),
    Reads(
        Some(b"KGTRACE1\x10\x00\x00\x00"),
        0,
        2,
        b"bad trace Truncated at 12\n",
    ),
    Reads(Some(b"KGTRACE9"), 2, 1, b"bad trace BadMagic at 7\n"),
    Reads(
        Some(b"KGTRACE1\x00\x00\x00\x00K"),
        2,
        1,
        b"bad trace TrailingBytes at 12\n",
    ),
];

/// Whether a reader is called so, for 4,096 bytes each time, and this is the line.
fn is_read(alloc: Global, long: &[u8], row: &Reads) -> bool {
    let mut reader = CountedReads {
        rest: row.0.unwrap_or(long),
        fails_at: row.1,
        calls: 0,
        least: usize::MAX,
        most: 0,
    };
    let mut out: Vec<u8> = Vec::new(alloc);
    judge(alloc, &mut reader, &mut out).is_ok()
        && out.as_slice() == row.3
        && reader.calls == row.2
        && reader.least == 4096
        && reader.most == 4096
}

/// The puts and hits in bytes.
fn long_trace(alloc: Global) -> Result<Vec<u8>, Fail> {
    let trace = puts_and_hits(alloc)?;
    let mut long = Vec::new(alloc);
    write_trace(&trace.history, &trace.certificate, &mut long)?;
    Ok(long)
}

#[test]
fn a_piece_is_read_at_a_time_and_no_read_follows_a_failed_one_or_a_fault(
    rt: HostRuntime,
) -> Result<(), Fail> {
    let long = long_trace(rt.alloc())?;
    assert!(rt; long.len() == 12 + 400 * 36);
    for number in 0..READS.len() {
        assert!(rt; is_read(rt.alloc(), &long, &READS[number]), "row {number}");
    }
    Ok(())
}

/// A writer whose write of this number fails, and that takes so many bytes a write; how often it is called, how many bytes it
/// takes, and what the trace of no call is judged to be.
#[derive(Clone, Copy)]
struct Writes(u32, usize, u32, usize, Result<Judged, JudgeFault>);

static WRITES: [Writes; 4] = [
    Writes(0, 100, 1, 17, Ok(Judged::Accepted)),
    Writes(0, 4, 5, 17, Ok(Judged::Accepted)),
    Writes(1, 100, 1, 0, Err(JudgeFault::WriteFault)),
    Writes(3, 4, 3, 8, Err(JudgeFault::WriteFault)),
];

/// Whether the line is written so, and nothing is flushed.
fn is_written(alloc: Global, row: &Writes) -> bool {
    let mut reader: &[u8] = &EMPTY;
    let mut writer = CountedWrites {
        fails_at: row.0,
        most: row.1,
        calls: 0,
        flushes: 0,
        taken: 0,
    };
    judge(alloc, &mut reader, &mut writer) == row.4
        && writer.calls == row.2
        && writer.flushes == 0
        && writer.taken == row.3
}

#[test]
fn a_line_is_written_once_and_no_write_follows_a_failed_one(rt: HostRuntime) {
    for number in 0..WRITES.len() {
        assert!(rt; is_written(rt.alloc(), &WRITES[number]), "row {number}");
    }
}
