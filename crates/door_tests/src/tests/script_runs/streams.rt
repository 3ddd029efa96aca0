// The input and the output of a test's script.
use std::alloc::Global;
use std::io;
use std::io::{Error, ErrorKind, Read, Write};

/// An input that gives a piece at each read, up to the next `|`, or a byte at a time if it is slow. It fails once when there are so
/// many bytes left, and then goes on. It is at its end once, and after that it fails.
#[derive(Drop)]
pub struct Input<'a> {
    pub rest: &'a [u8],
    pub is_slow: bool,
    pub fails_at: Option<usize>,
    pub is_over: bool,
}

impl Input<'_> {
    // What the next read may give.
    fn piece(&self) -> &[u8] {
        if self.is_slow {
            return self.rest.get(..1).unwrap_or(self.rest);
        }
        match self.rest.iter().position(|b| *b == b'|') {
            Some(end) => self.rest.get(..end).unwrap_or(self.rest),
            None => self.rest,
        }
    }
}

impl Read for Input<'_> {
    fn read(&mut self, buf: &mut [u8]) -> io::Result<usize> {
        if self.is_over || self.fails_at == Some(self.rest.len()) {
            self.fails_at = None;
            return Err(Error::from(if self.is_slow {
                ErrorKind::Interrupted
            } else {
                ErrorKind::BrokenPipe
            }));
        }
        self.is_over = self.rest.is_empty();
        let mut piece = self.piece();
        let count = piece.read(buf)?;
        self.rest = match self.rest.get(count..) {
            Some([b'|', rest @ ..]) => rest,
            Some(rest) => rest,
            None => self.rest,
        };
        Ok(count)
    }
}

/// What an output refuses.
#[derive(Clone, Copy, PartialEq, Eq)]
pub enum Refuses {
    Nothing,
    Writes,
    Flushes,
}

/// An output that keeps what it takes, counts its flushes, and knows how many bytes it had at the last one.
#[derive(Drop)]
pub struct Output {
    pub bytes: Vec<u8>,
    pub refuses: Refuses,
    pub flushes: u64,
    pub flushed: u64,
}

impl Output {
    /// One that has taken nothing.
    pub fn new(alloc: Global, refuses: Refuses) -> Output {
        Output {
            bytes: Vec::new(alloc),
            refuses,
            flushes: 0,
            flushed: 0,
        }
    }
}

/// Fails if the output refuses this.
fn unless(is_refused: bool) -> io::Result<()> {
    if is_refused {
        return Err(Error::from(ErrorKind::BrokenPipe));
    }
    Ok(())
}

impl Write for Output {
    fn write(&mut self, buf: &[u8]) -> io::Result<usize> {
        unless(self.refuses == Refuses::Writes)?;
        self.bytes.write(buf)
    }

    fn flush(&mut self) -> io::Result<()> {
        self.flushes = self.flushes.wrapping_add(1);
        self.flushed = self.bytes.len() as u64;
        unless(self.refuses == Refuses::Flushes)
    }
}
