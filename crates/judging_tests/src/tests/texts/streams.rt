// Readers and writers that give or take little, that fail, or that never end.
use crate::tests::reading::{came_of, read};
use history_text::{BadLine, LineCause, ReadTextFault, Reading, WriteTextFault, write_text};
use std::alloc::Global;
use std::io;
use std::io::{Error, ErrorKind, Read, Write};
use std::test::Fail;

/// Three calls, of which two are written.
static TEXT: &[u8] = b"x 1 2 put k v\n# none\ny 3 - remove k\nx 5 6 hit k v 7";

/// A reader that gives bytes `x` and never ends.
#[derive(Drop)]
struct Endless {
    given: usize,
}

impl Read for Endless {
    fn read(&mut self, buf: &mut [u8]) -> io::Result<usize> {
        for byte in buf.iter_mut() {
            *byte = b'x';
        }
        self.given = self.given.saturating_add(buf.len());
        Ok(buf.len())
    }
}

/// A reader that gives a byte at a time, and after them fails or is at its end.
#[derive(Drop)]
struct Slow<'a> {
    rest: &'a [u8],
    fails: bool,
    calls_behind: u32,
}

impl Read for Slow<'_> {
    fn read(&mut self, buf: &mut [u8]) -> io::Result<usize> {
        let Some((first, rest)) = self.rest.split_first() else {
            self.calls_behind = self.calls_behind.saturating_add(1);
            return if self.fails {
                Err(Error::from(ErrorKind::Interrupted))
            } else {
                Ok(0)
            };
        };
        if buf.is_empty() {
            return Ok(0);
        }
        buf[0] = *first;
        self.rest = rest;
        Ok(1)
    }
}

/// A writer that takes this many bytes, and then fails.
#[derive(Drop)]
struct Full {
    room: usize,
    calls_behind: u32,
}

impl Write for Full {
    fn write(&mut self, buf: &[u8]) -> io::Result<usize> {
        if self.room == 0 {
            self.calls_behind = self.calls_behind.saturating_add(1);
            return Err(Error::from(ErrorKind::BrokenPipe));
        }
        let count = buf.len().min(self.room);
        self.room -= count;
        Ok(count)
    }

    fn flush(&mut self) -> io::Result<()> {
        Ok(())
    }
}

/// The bad line that reading from a reader comes to, if it comes to one.
fn bad_line_of<R: Read>(alloc: Global, reader: &mut R) -> Option<BadLine> {
    match came_of(alloc, Reading::WHOLE, reader) {
        Err(ReadTextFault::Bad(bad)) => Some(bad),
        _ => None,
    }
}

/// Whether this is the number of a bad line, and its cause.
fn is_bad(bad: Option<BadLine>, number: u64, cause: LineCause) -> bool {
    match bad {
        Some(bad) => bad.number == number && bad.cause == cause,
        None => false,
    }
}

#[test]
fn a_line_without_end_is_bad_before_more_is_read(rt: HostRuntime) {
    let mut reader = Endless { given: 0 };
    let bad = bad_line_of(rt.alloc(), &mut reader);
    assert!(rt; is_bad(bad, 1, LineCause::TooLong) && reader.given == 12288);
}

/// Whether three calls are read of a reader, with their lines.
fn is_whole(alloc: Global, reader: &mut Slow<'_>) -> bool {
    match came_of(alloc, Reading::WHOLE, reader) {
        Ok(came) => came.calls == 3 && came.lines.as_slice() == [1u64, 3, 4].as_slice(),
        Err(_) => false,
    }
}

/// Whether a read of a reader fails.
fn is_unread(alloc: Global, reader: &mut Slow<'_>) -> bool {
    matches!(
        came_of(alloc, Reading::WHOLE, reader),
        Err(ReadTextFault::ReadFault)
    )
}

/// A reader of a text, of which nothing was asked yet.
fn slow_reader(rest: &[u8], fails: bool) -> Slow<'_> {
    Slow {
        rest,
        fails,
        calls_behind: 0,
    }
}

#[test]
fn bytes_come_one_at_a_time(rt: HostRuntime) {
    let mut reader = slow_reader(TEXT, false);
    assert!(rt; is_whole(rt.alloc(), &mut reader) && reader.calls_behind == 1);
}

#[test]
fn a_failed_read_is_not_tried_again(rt: HostRuntime) {
    let mut reader = slow_reader(TEXT, true);
    assert!(rt; is_unread(rt.alloc(), &mut reader) && reader.calls_behind == 1);
}

#[test]
fn a_bad_line_is_told_before_a_failed_read(rt: HostRuntime) {
    let mut reader = slow_reader(b"x 1 2 put k v\nx\nx 1", true);
    let bad = bad_line_of(rt.alloc(), &mut reader);
    assert!(rt; is_bad(bad, 2, LineCause::NotWords) && reader.calls_behind == 0);
}

#[test]
fn a_full_writer_is_a_fault(rt: HostRuntime) -> Result<(), Fail> {
    let Ok(text) = read(rt.alloc(), TEXT) else {
        return Err(Fail::from(std::alloc::AllocError));
    };
    for room in [0usize, 1, 14, 15, 40] {
        let mut writer = Full {
            room,
            calls_behind: 0,
        };
        let answer = write_text(rt.alloc(), &text.history, None, &mut writer);
        assert!(rt; answer == Err(WriteTextFault::WriteFault));
        assert!(rt; writer.room == 0);
        assert!(rt; writer.calls_behind == 1);
    }
    Ok(())
}
