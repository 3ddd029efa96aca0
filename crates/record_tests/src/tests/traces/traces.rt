// Traces in bytes that were made by hand, faults with their offsets, and readers and writers that fail.
ghost use Rattle.std.specs.Prelude.{◌<◌};

use record_pages::{Key, Value};
use std::alloc::Global;
use std::io;
use std::io::{Read, Write};
use std::process::Abort;
use std::test::Fail;
use trace_file::{
    Act, ActRef, Call, CallRef, Certificate, History, Trace, TraceFault, TraceReader,
    WriteTraceFault, read_trace, write_trace,
};

mod effects;

/// One put of `1` at `a`, from stamp 1 to stamp 3, by caller 0, and its certificate.
static ONE_PUT: [u8; 40] = [
    0x4b, 0x47, 0x54, 0x52, 0x41, 0x43, 0x45, 0x31, 0, 0, 0, 1, 1, 0, 0, 0, 0, 0, 0, 0, 0, 0, 1, 0,
    0, 0, 0, 0, 0, 0, 3, 1, 0x61, 0, 1, 0x31, 0, 0, 0, 0,
];

/// The same call in the newer form: what it puts never expires.
static TIMED_PUT: [u8; 48] = [
    0x4b, 0x47, 0x54, 0x52, 0x41, 0x43, 0x45, 0x32, 0, 0, 0, 1, 1, 0, 0, 0, 0, 0, 0, 0, 0, 0, 1, 0,
    0, 0, 0, 0, 0, 0, 3, 1, 0x61, 0, 1, 0x31, 0xff, 0xff, 0xff, 0xff, 0xff, 0xff, 0xff, 0xff, 0, 0,
    0, 0,
];

/// A call of each kind: caller 0 puts `1` at `a`, caller 258 hits it, caller 0 removes `bc`, and caller 258 misses it.
/// The certificate lists the removal first.
static EACH_KIND: [u8; 120] = [
    0x4b, 0x47, 0x54, 0x52, 0x41, 0x43, 0x45, 0x31, 0, 0, 0, 4, 1, 0, 0, 0, 0, 0, 0, 0, 0, 0, 1, 0,
    0, 0, 0, 0, 0, 0, 3, 1, 0x61, 0, 1, 0x31, 3, 1, 2, 0, 0, 0, 0, 0, 0, 0, 2, 0, 0, 0, 0, 0, 0, 0,
    5, 1, 0x61, 0, 1, 0x31, 2, 0, 0, 0, 0, 0, 0, 0, 0, 0, 4, 0, 0, 0, 0, 0, 0, 0, 6, 2, 0x62, 0x63,
    4, 1, 2, 0, 0, 0, 0, 0, 0, 0, 7, 0, 0, 0, 0, 0, 0, 1, 0, 2, 0x62, 0x63, 0, 0, 0, 2, 0, 0, 0, 0,
    0, 0, 0, 1, 0, 0, 0, 3,
];

/// The same calls in the newer form: the put expires at `0x0102030405060708`, and the hit's moment is `0x090a0b0c0d0e0f10`.
static TIMED_KINDS: [u8; 136] = [
    0x4b, 0x47, 0x54, 0x52, 0x41, 0x43, 0x45, 0x32, 0, 0, 0, 4, 1, 0, 0, 0, 0, 0, 0, 0, 0, 0, 1, 0,
    0, 0, 0, 0, 0, 0, 3, 1, 0x61, 0, 1, 0x31, 1, 2, 3, 4, 5, 6, 7, 8, 3, 1, 2, 0, 0, 0, 0, 0, 0, 0,
    2, 0, 0, 0, 0, 0, 0, 0, 5, 1, 0x61, 0, 1, 0x31, 9, 10, 11, 12, 13, 14, 15, 16, 2, 0, 0, 0, 0,
    0, 0, 0, 0, 0, 4, 0, 0, 0, 0, 0, 0, 0, 6, 2, 0x62, 0x63, 4, 1, 2, 0, 0, 0, 0, 0, 0, 0, 7, 0, 0,
    0, 0, 0, 0, 1, 0, 2, 0x62, 0x63, 0, 0, 0, 2, 0, 0, 0, 0, 0, 0, 0, 1, 0, 0, 0, 3,
];

/// No call.
static EMPTY: [u8; 12] = [0x4b, 0x47, 0x54, 0x52, 0x41, 0x43, 0x45, 0x31, 0, 0, 0, 0];

/// The fault that these bytes give.
fn fault_of(alloc: Global, bytes: &[u8]) -> Option<TraceFault> {
    let mut reader = bytes;
    read_trace(alloc, &mut reader).err()
}

/// A reader that gives at most this many bytes at a time, and fails once before a byte.
#[derive(Drop)]
struct Uneven<'a> {
    bytes: &'a [u8],
    most: usize,
    fails_before: usize,
}

impl Read for Uneven<'_> {
    fn read(&mut self, buf: &mut [u8]) -> io::Result<usize> {
        if self.fails_before == 0 {
            self.fails_before = usize::MAX;
            return Err(io::Error::from(io::ErrorKind::Interrupted));
        }
        let count = self
            .bytes
            .len()
            .min(buf.len())
            .min(self.most)
            .min(self.fails_before);
        let (front, rest) = self.bytes.split_at(count);
        buf[..count].copy_from_slice(front);
        self.bytes = rest;
        self.fails_before -= count;
        Ok(count)
    }
}

/// A writer that takes this many bytes and then fails once.
#[derive(Drop)]
struct Limited {
    room: usize,
}

impl Write for Limited {
    fn write(&mut self, buf: &[u8]) -> io::Result<usize> {
        if self.room == 0 {
            self.room = usize::MAX;
            return Err(io::Error::from(io::ErrorKind::Interrupted));
        }
        let count = buf.len().min(self.room);
        self.room -= count;
        Ok(count)
    }

    fn flush(&mut self) -> io::Result<()> {
        Ok(())
    }
}

/// Whether the trace has the call and the certificate of `ONE_PUT`.
fn has_one_put(trace: &Trace) -> bool {
    if trace.history.len() != 1 || trace.certificate.len() != 1 {
        return false;
    }
    let call = trace.history.at(0);
    is(&call, 0, 1, 3, b"a") && is_put(&call.act, u64::MAX) && trace.certificate.at(0) == 0
}

/// Whether the trace is that of `ONE_PUT`, and is written in the newer form.
fn is_one_put(alloc: Global, trace: &Trace) -> bool {
    match written(alloc, trace) {
        Ok(written) => has_one_put(trace) && written.as_slice() == TIMED_PUT.as_slice(),
        Err(_) => false,
    }
}

/// Whether these bytes are read as that trace.
fn are_one_put(alloc: Global, bytes: &[u8]) -> bool {
    match trace_of(alloc, bytes) {
        Ok(trace) => is_one_put(alloc, &trace),
        Err(_) => false,
    }
}

#[test]
fn one_put_is_read_and_written_again(rt: HostRuntime) {
    assert!(rt; are_one_put(rt.alloc(), &ONE_PUT) && are_one_put(rt.alloc(), &TIMED_PUT));
}

/// Whether a call has this caller, these stamps and this key.
fn is(call: &CallRef<'_>, caller: u16, start: u64, end: u64, key: &[u8]) -> bool {
    call.caller == caller && call.start == start && call.end == end && call.key == key
}

/// Whether the value `1` is put, and expires then.
fn is_put(act: &ActRef<'_>, expires: u64) -> bool {
    match act {
        ActRef::Put(value, at) => {
            *value == b"1".as_slice() && *at == expires && act.time() == expires
        }
        _ => false,
    }
}

/// Whether the value `1` is hit, at this moment.
fn is_hit(act: &ActRef<'_>, moment: u64) -> bool {
    match act {
        ActRef::Hit(value, at) => {
            *value == b"1".as_slice() && *at == moment && act.time() == moment
        }
        _ => false,
    }
}

/// Whether these are the calls of `EACH_KIND`, with this expiry and this moment.
fn are_each_kind(history: &History, expires: u64, moment: u64) -> bool {
    if history.len() != 4 {
        return false;
    }
    let (put, hit) = (history.at(0), history.at(1));
    let (removed, missed) = (history.at(2), history.at(3));
    is(&put, 0, 1, 3, b"a")
        && is_put(&put.act, expires)
        && is(&hit, 258, 2, 5, b"a")
        && is_hit(&hit.act, moment)
        && is(&removed, 0, 4, 6, b"bc")
        && matches!(removed.act, ActRef::Remove)
        && is(&missed, 258, 7, 256, b"bc")
        && matches!(missed.act, ActRef::Miss)
}

/// Whether these bytes are read as those calls.
fn have_each_kind(alloc: Global, bytes: &[u8], expires: u64, moment: u64) -> bool {
    match trace_of(alloc, bytes) {
        Ok(trace) => are_each_kind(&trace.history, expires, moment),
        Err(_) => false,
    }
}

#[test]
fn each_kind_is_read_and_written_again(rt: HostRuntime) -> Result<(), Fail> {
    assert!(rt;
        have_each_kind(rt.alloc(), &EACH_KIND, u64::MAX, 0)
            && have_each_kind(
                rt.alloc(),
                &TIMED_KINDS,
                0x0102_0304_0506_0708,
                0x090a_0b0c_0d0e_0f10
            )
            && come_back(rt.alloc(), &TIMED_KINDS, 4)?
    );
    Ok(())
}

/// Whether a trace that is cut at any length is told to be, and as it is has no fault.
fn are_cuts_told(alloc: Global, whole: &[u8]) -> bool {
    for len in 0..whole.len() {
        let want = Some(TraceFault::Truncated { at: len as u64 });
        if fault_of(alloc, &whole[..len]) != want {
            return false;
        }
    }
    fault_of(alloc, whole).is_none()
}

#[test]
fn a_trace_cut_anywhere_is_truncated_there(rt: HostRuntime) {
    let alloc = rt.alloc();
    assert!(rt;
        are_cuts_told(alloc, &ONE_PUT)
            && are_cuts_told(alloc, &TIMED_PUT)
            && are_cuts_told(alloc, &EMPTY)
    );
}

/// A byte that is put at a place of `ONE_PUT`, and the fault that it gives.
#[derive(Clone, Copy)]
struct Changed(usize, u8, TraceFault);

static FAULTS: [Changed; 16] = [
    Changed(0, 0x4c, TraceFault::BadMagic { at: 0 }),
    Changed(1, 0, TraceFault::BadMagic { at: 1 }),
    Changed(2, 0, TraceFault::BadMagic { at: 2 }),
    Changed(3, 0, TraceFault::BadMagic { at: 3 }),
    Changed(4, 0, TraceFault::BadMagic { at: 4 }),
    Changed(5, 0, TraceFault::BadMagic { at: 5 }),
    Changed(6, 0x58, TraceFault::BadMagic { at: 6 }),
    Changed(7, 0x39, TraceFault::BadMagic { at: 7 }),
    Changed(7, 0x32, TraceFault::Truncated { at: 40 }),
    Changed(8, 0x10, TraceFault::TooMany { at: 8 }),
    Changed(12, 0, TraceFault::BadKind { at: 12 }),
    Changed(12, 5, TraceFault::BadKind { at: 12 }),
    Changed(31, 0, TraceFault::BadKey { at: 31 }),
    Changed(33, 8, TraceFault::BadValue { at: 33 }),
    Changed(12, 2, TraceFault::TrailingBytes { at: 37 }),
    Changed(11, 2, TraceFault::BadKind { at: 36 }),
];

/// Whether a changed byte gives its fault.
fn is_told(alloc: Global, changed: &Changed) -> bool {
    let mut bytes = ONE_PUT;
    if changed.0 < bytes.len() {
        bytes[changed.0] = changed.1;
    }
    fault_of(alloc, &bytes) == Some(changed.2)
}

#[test]
fn each_fault_has_its_offset(rt: HostRuntime) {
    for number in 0..FAULTS.len() {
        assert!(rt; is_told(rt.alloc(), &FAULTS[number]), "fault {number}");
    }
}

// Feeds the bytes, this many at a time, and says how many were fed.
fn feed_all(parts: &mut TraceReader, bytes: &[u8], size: usize) -> Result<u64, TraceFault>
    requires { 0 < size }
{
    for piece in bytes.chunks(size) {
        parts.feed(piece)?;
    }
    Ok(parts.bytes_fed())
}

// Whether pieces of this size give the trace of one put.
fn is_whole_in(alloc: Global, size: usize) -> bool
    requires { 0 < size }
{
    let mut parts = TraceReader::new(alloc);
    let fed = feed_all(&mut parts, &TIMED_PUT, size);
    match parts.finish() {
        Ok(trace) => fed == Ok(48) && is_one_put(alloc, &trace),
        Err(_) => false,
    }
}

#[test]
fn pieces_give_what_the_whole_gives(rt: HostRuntime) {
    for size in 1..8usize {
        assert!(rt; is_whole_in(rt.alloc(), size), "pieces of {size}");
    }
}

// Whether a reader refuses a piece so, or takes it.
fn takes(parts: &mut TraceReader, piece: &[u8], fault: Option<TraceFault>) -> bool {
    parts.feed(piece).err() == fault
}

#[test]
fn a_fault_in_pieces_stays(rt: HostRuntime) {
    let mut parts = TraceReader::new(rt.alloc());
    let trailing = Some(TraceFault::TrailingBytes { at: 12 });
    let stays = takes(&mut parts, &EMPTY, None)
        && takes(&mut parts, &[0], trailing)
        && takes(&mut parts, &[], trailing);
    let fault = parts.finish().err();
    assert!(rt; stays && fault == trailing);
}

#[test]
fn what_is_missing_is_told_at_the_end(rt: HostRuntime) {
    let mut parts = TraceReader::new(rt.alloc());
    let is_taken = takes(&mut parts, &ONE_PUT[..9], None);
    let fault = parts.finish().err();
    assert!(rt; is_taken && fault == Some(TraceFault::Truncated { at: 9 }));
}

// The fault of `ONE_PUT` if at most this many bytes are read at a time, and a read fails once before a byte.
fn fault_before(alloc: Global, most: usize, fails_before: usize) -> Option<TraceFault> {
    let mut reader = Uneven {
        bytes: ONE_PUT.as_slice(),
        most,
        fails_before,
    };
    read_trace(alloc, &mut reader).err()
}

// Whether that fault is of the failed read, at that byte.
fn fails_there(alloc: Global, most: usize, fails_before: usize) -> bool {
    let at = fails_before as u64;
    fault_before(alloc, most, fails_before) == Some(TraceFault::ReadFault { at })
}

#[test]
fn a_failed_read_is_not_tried_again(rt: HostRuntime) {
    let alloc = rt.alloc();
    assert!(rt;
        fails_there(alloc, 4096, 0)
            && fails_there(alloc, 4096, 20)
            && fails_there(alloc, 1, 40)
            && fault_before(alloc, 1, usize::MAX).is_none()
    );
}

fn trace_of(alloc: Global, bytes: &[u8]) -> Result<Trace, TraceFault> {
    let mut reader = bytes;
    read_trace(alloc, &mut reader)
}

// Whether a trace is written, or why not, to a writer with room for this many bytes.
fn written_within(trace: &Trace, room: usize) -> Result<(), WriteTraceFault> {
    let mut writer = Limited { room };
    write_trace(&trace.history, &trace.certificate, &mut writer)
}

// Whether a trace of 48 bytes is written if there is room, and is a write fault if there is too little.
fn needs_room(trace: &Trace) -> bool {
    let fault = Err(WriteTraceFault::WriteFault);
    written_within(trace, 0) == fault
        && written_within(trace, 47) == fault
        && written_within(trace, 49).is_ok()
}

#[test]
fn no_room_and_a_certificate_of_another_length_are_told(rt: HostRuntime) -> Result<(), Fail> {
    let mut trace = trace_of(rt.alloc(), &ONE_PUT)?;
    assert!(rt; needs_room(&trace));
    trace.certificate.push(0)?;
    assert!(rt; written_within(&trace, 0) == Err(WriteTraceFault::WrongCount));
    Ok(())
}

fn largest_key(alloc: Global) -> Result<Key, Fail> {
    Ok(Key::new(alloc, [b'k'; 255].as_slice())?)
}

fn largest_value(alloc: Global, byte: u8) -> Result<Value, Fail> {
    Ok(Value::new(alloc, [byte; 2048].as_slice())?)
}

fn act_of(kind: u32, value: Value, time: u64) -> Act {
    match kind {
        0 => Act::Put(value, time),
        1 => Act::Remove,
        2 => Act::Hit(value, time),
        _ => Act::Miss,
    }
}

// A call with a key and a value of the greatest length.
fn large_call(alloc: Global, number: u32, kind: u32) -> Result<Call, Fail> {
    let key = largest_key(alloc)?;
    let value = largest_value(alloc, (number % 256) as u8)?;
    Ok(Call {
        caller: 7,
        start: u64::from(number),
        end: u64::from(number) + 1,
        key,
        act: act_of(kind, value, u64::from(number)),
    })
}

// So many large calls, of so many kinds in turn: puts alone, or four.
fn large_calls(alloc: Global, count: u32, kinds: u32) -> Result<Trace, Fail>
    requires { 0 < kinds }
{
    let mut history = History::new(alloc);
    let mut certificate = Certificate::new(alloc);
    for number in 0..count {
        history.push(large_call(alloc, number, number % kinds)?)?;
        certificate.push(number)?;
    }
    Ok(Trace {
        history,
        certificate,
    })
}

fn written(alloc: Global, trace: &Trace) -> Result<Vec<u8>, WriteTraceFault> {
    let mut written = Vec::new(alloc);
    write_trace(&trace.history, &trace.certificate, &mut written)?;
    Ok(written)
}

// So many large calls in bytes.
fn large_bytes(alloc: Global, count: u32, kinds: u32) -> Result<Vec<u8>, Fail>
    requires { 0 < kinds }
{
    let trace = large_calls(alloc, count, kinds)?;
    Ok(written(alloc, &trace)?)
}

// Whether these bytes are a trace of so many calls, which is written as the same bytes again.
fn come_back(alloc: Global, bytes: &[u8], count: usize) -> Result<bool, Fail> {
    let trace = trace_of(alloc, bytes)?;
    let again = written(alloc, &trace)?;
    Ok(trace.history.len() == count && again.as_slice() == bytes)
}

#[test]
fn calls_of_each_kind_come_back(rt: HostRuntime) -> Result<(), Fail> {
    let bytes = large_bytes(rt.alloc(), 4000, 4)?;
    assert!(rt; come_back(rt.alloc(), bytes.as_slice(), 4000)?);
    Ok(())
}
