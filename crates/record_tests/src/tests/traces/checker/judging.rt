// Traces by their bytes, with the lines that they must get, and readers and writers that fail.
use certificate_checker::{JudgeFault, Judged, judge};
use std::alloc::Global;
use std::io;
use std::io::{Error, ErrorKind, Read, Write};

/// The trace of one put, by caller 0 from 1 to 3, of the value `1` at the key `a`.
static ONE_PUT: [u8; 40] =
    *b"KGTRACE1\x00\x00\x00\x01\x01\x00\x00\x00\x00\x00\x00\x00\x00\x00\x01\x00\x00\x00\x00\x00\x00\x00\x03\x01a\x00\x011\x00\x00\x00\x00";

/// The same in the newer form, where what is put never expires.
static TIMED_PUT: [u8; 48] =
    *b"KGTRACE2\x00\x00\x00\x01\x01\x00\x00\x00\x00\x00\x00\x00\x00\x00\x01\x00\x00\x00\x00\x00\x00\x00\x03\x01a\x00\x011\xff\xff\xff\xff\xff\xff\xff\xff\x00\x00\x00\x00";

/// A reader that gives a byte at a time, and then is at its end or fails.
#[derive(Drop)]
struct Slow<'a> {
    rest: &'a [u8],
    fails: bool,
}

impl Read for Slow<'_> {
    fn read(&mut self, buf: &mut [u8]) -> io::Result<usize> {
        let Some((first, rest)) = self.rest.split_first() else {
            return if self.fails {
                Err(Error::from(ErrorKind::Interrupted))
            } else {
                Ok(0)
            };
        };
        if buf.is_empty() {
            return Ok(0);
        }
        buf[0] = *first;
        self.rest = rest;
        Ok(1)
    }
}

/// A writer that takes nothing.
#[derive(Drop)]
struct Broken;

impl Write for Broken {
    fn write(&mut self, _buf: &[u8]) -> io::Result<usize> {
        Err(Error::from(ErrorKind::BrokenPipe))
    }

    fn flush(&mut self) -> io::Result<()> {
        Ok(())
    }
}

/// Whether an input that is read a byte at a time gets this line, and is judged so.
fn is_judged(alloc: Global, input: &[u8], fails: bool, line: &[u8], kind: Judged) -> bool {
    let mut reader = Slow { rest: input, fails };
    let mut out: Vec<u8> = Vec::new(alloc);
    judge::<Slow, Vec<u8>>(alloc, &mut reader, &mut out) == Ok(kind) && out.as_slice() == line
}

/// A trace, and the line and the judgement that it gets.
#[derive(Clone, Copy)]
struct Row(&'static [u8], &'static [u8], Judged);

static ROWS: [Row; 9] = [
    Row(
        b"KGTRACE1\x00\x00\x00\x00",
        b"accepted 0 calls\n",
        Judged::Accepted,
    ),
    Row(b"", b"bad trace Truncated at 0\n", Judged::BadTrace),
    Row(b"K\x00", b"bad trace Truncated at 2\n", Judged::BadTrace),
    Row(
        b"KGTRACE1\x00",
        b"bad trace Truncated at 9\n",
        Judged::BadTrace,
    ),
    Row(
        b"KGTRACE9\x00\x00\x00\x00",
        b"bad trace BadMagic at 7\n",
        Judged::BadTrace,
    ),
    Row(
        b"KGTRACE1\x10\x00\x00\x01",
        b"bad trace TooMany at 8\n",
        Judged::BadTrace,
    ),
    Row(
        b"KGTRACE1\x10\x00\x00\x00",
        b"bad trace Truncated at 12\n",
        Judged::BadTrace,
    ),
    Row(
        b"KGTRACE1\x00\x00\x00\x01\x05",
        b"bad trace BadKind at 12\n",
        Judged::BadTrace,
    ),
    Row(
        b"KGTRACE1\x00\x00\x00\x00\x00",
        b"bad trace TrailingBytes at 12\n",
        Judged::BadTrace,
    ),
];

/// Two bytes that are put at an offset of the trace of one put, and the line and the judgement that it gets then.
#[derive(Clone, Copy)]
struct Changed(usize, [u8; 2], &'static [u8], Judged);

static CHANGED: [Changed; 4] = [
    Changed(
        38,
        [0, 1],
        b"rejected NotAPlace place 0\n",
        Judged::Rejected,
    ),
    Changed(
        29,
        [0, 0],
        b"rejected BadInterval position 0\n",
        Judged::Rejected,
    ),
    Changed(31, [0, b'a'], b"bad trace BadKey at 31\n", Judged::BadTrace),
    Changed(33, [8, 1], b"bad trace BadValue at 33\n", Judged::BadTrace),
];

/// Whether the changed trace gets its line.
fn is_told(alloc: Global, changed: &Changed) -> bool {
    let mut trace = ONE_PUT;
    for (byte, new) in trace.iter_mut().skip(changed.0).zip(&changed.1) {
        *byte = *new;
    }
    is_judged(alloc, &trace, false, changed.2, changed.3)
}

#[test]
fn each_trace_has_its_line(rt: HostRuntime) {
    let line = b"accepted 1 calls\n";
    assert!(rt;
        is_judged(rt.alloc(), &ONE_PUT, false, line, Judged::Accepted)
            && is_judged(rt.alloc(), &TIMED_PUT, false, line, Judged::Accepted)
    );
    for number in 0..ROWS.len() {
        let row = ROWS[number];
        assert!(rt;
            is_judged(rt.alloc(), row.0, false, row.1, row.2),
            "row {number}"
        );
    }
    for number in 0..CHANGED.len() {
        assert!(rt; is_told(rt.alloc(), &CHANGED[number]), "change {number}");
    }
}

/// Whether the trace of one put is given up if its line can't be written.
fn is_given_up(alloc: Global) -> bool {
    let mut reader = ONE_PUT.as_slice();
    judge::<&[u8], Broken>(alloc, &mut reader, &mut Broken) == Err(JudgeFault::WriteFault)
}

#[test]
fn readers_and_writers_may_fail(rt: HostRuntime) {
    let alloc = rt.alloc();
    let kind = Judged::BadTrace;
    assert!(rt;
        is_judged(alloc, b"", true, b"bad trace ReadFault at 0\n", kind)
            && is_judged(
                alloc,
                &ONE_PUT[..20],
                true,
                b"bad trace ReadFault at 20\n",
                kind
            )
            && is_given_up(alloc)
    );
}
