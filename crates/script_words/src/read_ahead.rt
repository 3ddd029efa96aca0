// The bytes of a script that were read and not yet taken, and the lines in them.
ghost use Rattle.std.specs.Prelude.{◌≡◌, ◌+◌, ◌-◌, ◌<◌, ◌≤◌, ◌⊎◌, true, false, [], length, take, drop, IfOk, OnOk, OnErr, vec_len};
ghost use Rattle.std.specs.Io.KnownBytes.{Keeps, Consumes, IsAtEnd, prepend_known};
ghost use Rattle.script_words.specs.Lines.{first_line, is_ready_within, TakesWithin};

use crate::line_read::LineRead;
use crate::read_line_fault::ReadLineFault;
use memchr::memchr;
use std::alloc::{AllocError, Global};
use std::io::Read;
use std::marker::Model;

/// The most bytes of a script's line, without its line feed.
pub const MAX_LINE_LEN: usize = 4096;

/// How many bytes one read asks for.
const READ_LEN: usize = 4096;

/// The bytes that were read and not yet taken as lines, of at most `LINE` bytes each without its line feed. It holds at most
/// `LINE` and 4,096 bytes. One value belongs to one reader.
#[derive(Drop)]
pub struct ReadAhead<const LINE: usize> {
    bytes: Vec<u8>,
    // how many of the bytes are taken
    at: usize,
    over: bool,
}

impl<const LINE: usize> Model for ReadAhead<LINE> {
    ghost use Rattle.std.specs.Prelude.{◌≤◌, ◌+◌, drop, vec_len};
    ghost use Rattle.script_words.specs.Lines.{Ahead};

    ghost Value = { Ahead };

    ghost view = { λ r. record { bytes = drop r.at r.bytes.items; over = r.over } };

    ghost invariant = { λ r. (r.at ≤ vec_len r.bytes) × (vec_len r.bytes ≤ LINE + 4096) };
}

impl<const LINE: usize> ReadAhead<LINE> {
    /// Nothing was read yet. It takes memory at its first read.
    pub fn new(alloc: Global) -> ReadAhead<LINE>
        ensures { result ≡ record { bytes = []; over = false } }
    {
        ReadAhead {
            bytes: Vec::new(alloc),
            at: 0,
            over: false,
        }
    }

    /// The bytes.
    fn ahead(&self) -> &[u8]
        ensures value { result.now ≡ self.now.bytes }
        ensures few { length result.now ≤ LINE + 4096 }
    {
        let bytes = self.bytes.as_slice();
        &bytes[self.at..]
    }

    /// Whether the next line can be taken with no further read.
    pub fn is_ready(&self) -> bool
        ensures ready { result ≡ is_ready_within LINE self.now }
        ensures few { length self.now.bytes ≤ LINE + 4096 }
    {
        let ahead = self.ahead();
        self.over || ahead.len() > LINE || line_len(ahead) < ahead.len()
    }

    /// Reads once more. A reader that gives nothing is at its end.
    pub fn fill<R: Read>(&mut self, reader: &mut R) -> Result<(), ReadLineFault>
        requires { length self.old.bytes ≤ LINE }
        ensures few { length self.new.bytes ≤ LINE + 4096 }
        ensures kept { Keeps (prepend_known self.old.bytes (R.remaining reader.old))
            (prepend_known self.new.bytes (R.remaining reader.new)) }
        ensures more { OnOk result ((length self.old.bytes < length self.new.bytes) ⊎ (self.new.over ≡ true)) }
        ensures end { OnOk result (self.new.over ≡ true → IsAtEnd (R.remaining reader.new)) }
        ensures err { OnErr result (self.new ≡ self.old) }
    {
        remove_front(&mut self.bytes, self.at);
        self.at = 0;
        match read_behind(reader, &mut self.bytes) {
            Ok(count) => {
                self.over = count == 0;
                Ok(())
            }
            Err(fault) => Err(fault),
        }
    }

    /// Takes the next line into `line`, without its line feed.
    pub fn take_line(&mut self, line: &mut Vec<u8>) -> Result<LineRead, AllocError>
        requires { is_ready_within LINE self.old ≡ true }
        ensures room { OnOk result (vec_len line.new ≤ LINE) }
        ensures takes { IfOk result (λ read. TakesWithin LINE self.old read line.new.items self.new) }
        ensures err { OnErr result (self.new ≡ self.old) }
    {
        line.clear();
        let ahead = self.ahead();
        if ahead.is_empty() {
            return Ok(LineRead::End);
        }
        let len = line_len(ahead);
        if len > LINE {
            return Ok(LineRead::TooLong);
        }
        line.extend_from_slice(&ahead[..len])?;
        self.at = (self.at + len + 1).min(self.bytes.len());
        Ok(LineRead::Line)
    }
}

/// How many bytes the first line has.
fn line_len(bytes: &[u8]) -> usize
    ensures value { result ≡ length (first_line bytes.now) }
    ensures within { result ≤ length bytes.now }
{
    match memchr(b'\n', bytes) {
        Some(len) => len,
        None => bytes.len(),
    }
}

/// Takes bytes off the front.
fn remove_front(bytes: &mut Vec<u8>, count: usize)
    requires { count ≤ vec_len bytes.old }
    ensures items { bytes.new.items ≡ drop count bytes.old.items }
    ensures len { vec_len bytes.new ≡ vec_len bytes.old - count }
{
    let len = bytes.len();
    bytes.as_mut_slice().copy_within(count..len, 0);
    bytes.truncate(len - count);
}

/// Reads once, after these bytes, and says how many came.
fn read_behind<R: Read>(reader: &mut R, bytes: &mut Vec<u8>) -> Result<usize, ReadLineFault>
    ensures few { vec_len bytes.new ≤ vec_len bytes.old + 4096 }
    ensures front { take (vec_len bytes.old) bytes.new.items ≡ bytes.old.items }
    ensures len { IfOk result (λ n. vec_len bytes.new ≡ vec_len bytes.old + n) }
    ensures read { IfOk result (λ n. Consumes (R.remaining reader.old) (R.remaining reader.new)
        (drop (vec_len bytes.old) bytes.new.items)) }
    ensures end { IfOk result (λ n. n ≡ 0 → IsAtEnd (R.remaining reader.new)) }
    ensures err { OnErr result (bytes.new.items ≡ bytes.old.items) }
    ensures kept { OnErr result (Keeps (R.remaining reader.old) (R.remaining reader.new)) }
{
    let len = bytes.len();
    bytes.resize(len + READ_LEN, 0)?;
    match read_at(reader, bytes.as_mut_slice(), len) {
        Ok(count) => {
            bytes.truncate(len + count);
            Ok(count)
        }
        Err(fault) => {
            bytes.truncate(len);
            Err(fault)
        }
    }
}

/// Reads once, into the bytes from a place on.
fn read_at<R: Read>(reader: &mut R, bytes: &mut [u8], at: usize) -> Result<usize, ReadLineFault>
    requires { at < length bytes.old }
    ensures front { take at bytes.new ≡ take at bytes.old }
    ensures fits { IfOk result (λ n. at + n ≤ length bytes.new) }
    ensures read { IfOk result (λ n. Consumes (R.remaining reader.old) (R.remaining reader.new)
        (take n (drop at bytes.new))) }
    ensures end { IfOk result (λ n. n ≡ 0 → IsAtEnd (R.remaining reader.new)) }
    ensures kept { OnErr result (Keeps (R.remaining reader.old) (R.remaining reader.new)) }
{
    match reader.read(&mut bytes[at..]) {
        Ok(count) => Ok(count),
        Err(_) => Err(ReadLineFault::ReadFault),
    }
}
