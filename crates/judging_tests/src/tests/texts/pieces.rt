//! Reading by pieces.
use crate::tests::reading::Text;
use history_text::{ReadTextFault, Reading, TextHistory, TextReader, write_text};
use std::alloc::{AllocError, Global};
use std::hash::BuildHasherDefault;
use std::io;
use std::io::{Error, ErrorKind, Read};
use std::test::Fail;
use trace_file::History;

/// Five calls, a remark and a bad line.
static TEXT: &[u8] =
    b"x 1 2 put k v\n# none\ny 3 - remove k\nbad\nx 5 6 hit k v 7\nz 8 9 miss k\nx 9 9 put k w";

/// What is written of it.
const TOLD: &[u8] =
    b"c0 1 2 put k v\nc1 3 - remove k\nc0 5 6 hit k v 7\nc2 8 9 miss k\nc0 9 9 put k w\n";

/// A reader that gives few bytes at a time, and after them fails or is at its end.
#[derive(Drop)]
struct Few<'a> {
    rest: &'a [u8],
    few: usize,
    fails: bool,
}

impl Read for Few<'_> {
    fn read(&mut self, buf: &mut [u8]) -> io::Result<usize> {
        if self.rest.is_empty() && self.fails {
            return Err(Error::from(ErrorKind::Interrupted));
        }
        let count = buf.len().min(self.few).min(self.rest.len());
        buf[..count].copy_from_slice(&self.rest[..count]);
        self.rest = &self.rest[count..];
        Ok(count)
    }
}

/// How many pieces a text had, and how many bad lines.
#[derive(Clone, Copy)]
struct Pieces {
    pieces: u32,
    skipped: u64,
}

/// A text with no calls.
fn no_text(alloc: Global) -> Result<Box<Text>, AllocError> {
    Ok(Box::new(alloc, TextHistory::new(alloc, BuildHasherDefault::new()))?)
}

/// Reads a text by pieces of so many calls.
fn by_pieces<R: Read>(
    alloc: Global,
    text: &mut Text,
    reader: &mut R,
    most: usize,
) -> Result<Pieces, ReadTextFault> {
    let reading = Reading {
        skip_bad: true,
        ..Reading::WHOLE
    };
    let mut lines = TextReader::new(alloc, reading);
    for pieces in 1..10u32 {
        if lines.take_calls(alloc, text, reader, most)? {
            let skipped = lines.skipped();
            return Ok(Pieces { pieces, skipped });
        }
    }
    Err(ReadTextFault::OutOfMemory)
}

/// Whether this is what is written of a history.
fn is_told(alloc: Global, history: &History, told: &[u8]) -> bool {
    let mut out = Vec::new(alloc);
    write_text(alloc, history, None, &mut out).is_ok() && out.as_slice() == told
}

/// Whether a text that was read by pieces is the whole.
fn is_whole(alloc: Global, text: &Text) -> bool {
    text.lines.as_slice() == [1u64, 3, 5, 6, 7].as_slice() && is_told(alloc, &text.history, TOLD)
}

/// Whether the text is read right of a reader that gives so few bytes at a time, by pieces of so many calls, of which it has so many.
fn is_right(alloc: Global, few: usize, most: usize, pieces: u32) -> Result<bool, AllocError> {
    let mut reader = Few {
        rest: TEXT,
        few,
        fails: false,
    };
    let mut text = no_text(alloc)?;
    match by_pieces(alloc, &mut text, &mut reader, most) {
        Ok(came) => Ok(came.pieces == pieces && came.skipped == 1 && is_whole(alloc, &text)),
        Err(_) => Ok(false),
    }
}

#[test]
fn pieces_are_the_whole(rt: HostRuntime) -> Result<(), Fail> {
    for few in [1usize, 3, 4096] {
        assert!(rt; is_right(rt.alloc(), few, 1, 6)?, "{few}");
        assert!(rt; is_right(rt.alloc(), few, 2, 3)?, "{few}");
        assert!(rt; is_right(rt.alloc(), few, 1000, 1)?, "{few}");
    }
    Ok(())
}

/// Whether a failed read is told by pieces of so many calls.
fn fails_so(alloc: Global, most: usize) -> Result<bool, AllocError> {
    let mut reader = Few {
        rest: TEXT,
        few: 3,
        fails: true,
    };
    let mut text = no_text(alloc)?;
    match by_pieces(alloc, &mut text, &mut reader, most) {
        Err(ReadTextFault::ReadFault) => Ok(true),
        _ => Ok(false),
    }
}

#[test]
fn a_failed_read_is_told(rt: HostRuntime) -> Result<(), Fail> {
    assert!(rt; fails_so(rt.alloc(), 1)? && fails_so(rt.alloc(), 1000)?);
    Ok(())
}

/// Whether the last call and the second of a text that was read are kept, in this order, with all callers.
fn keeps_some(alloc: Global, text: &mut Text) -> bool {
    text.keep(alloc, &[4, 1, 9]).is_ok()
        && is_told(alloc, &text.history, b"c0 9 9 put k w\nc1 3 - remove k\n")
        && text.lines.as_slice() == [7u64, 3].as_slice()
        && text.callers.len() == 3
}

#[test]
fn some_calls_are_kept(rt: HostRuntime) -> Result<(), Fail> {
    let mut bytes = TEXT;
    let mut text = no_text(rt.alloc())?;
    let came = by_pieces(rt.alloc(), &mut text, &mut bytes, 1000);
    assert!(rt; came.is_ok() && keeps_some(rt.alloc(), &mut text));
    Ok(())
}
