// Readers and writers that fail.
use crate::tests::judging::{checked, judged};
use figures::Form;
use judge_run::{Detail, JudgeEnd, Scope, ShowRequest, TellFault, show_with};
use std::alloc::{AllocError, Global};
use std::io;
use std::io::{Error, ErrorKind, Read, Write};
use std::rt::Files;
use trace_file::FileName;

/// A reader that fails, and a writer that takes three bytes and then fails.
#[derive(Drop)]
struct Failing {
    calls: u32,
    taken: u32,
}

impl Read for Failing {
    fn read(&mut self, _buf: &mut [u8]) -> io::Result<usize> {
        self.calls = self.calls.saturating_add(1);
        Err(Error::from(ErrorKind::Interrupted))
    }
}

impl Write for Failing {
    fn write(&mut self, buf: &[u8]) -> io::Result<usize> {
        self.calls = self.calls.saturating_add(1);
        if self.taken == 0 && buf.len() > 3 {
            self.taken = 3;
            return Ok(3);
        }
        Err(Error::from(ErrorKind::Interrupted))
    }

    fn flush(&mut self) -> io::Result<()> {
        Ok(())
    }
}

/// A stream of which nothing was asked yet.
fn unasked() -> Failing {
    Failing { calls: 0, taken: 0 }
}

/// Judges a text, and says what failed.
fn fault_of_text<R: Read, W: Write>(
    alloc: Global,
    reader: &mut R,
    writer: &mut W,
) -> Option<TellFault> {
    let everything = Detail {
        explain: true,
        all: true,
        page: false,
    };
    judged(
        alloc,
        Form::Lines,
        Scope::WHOLE,
        everything,
        0,
        reader,
        writer,
    )
    .err()
}

/// Whether a text that is not read is a fault, and nothing is told.
fn is_unread_text_told(alloc: Global) -> bool {
    let mut told: Vec<u8> = Vec::new(alloc);
    let mut reader = unasked();
    let fault = fault_of_text(alloc, &mut reader, &mut told);
    fault == Some(TellFault::ReadFault) && reader.calls == 1 && told.is_empty()
}

/// Whether a verdict that is not written is a fault.
fn is_unwritten_verdict_told(alloc: Global) -> bool {
    let mut writer = unasked();
    let mut reader = b"a 1 4 put k v\n".as_slice();
    let fault = fault_of_text(alloc, &mut reader, &mut writer);
    fault == Some(TellFault::WriteFault) && writer.calls == 2
}

/// Whether a trace that is not read is a bad one.
fn is_unread_trace_bad(alloc: Global) -> bool {
    let mut told: Vec<u8> = Vec::new(alloc);
    let mut reader = unasked();
    let end = checked(alloc, Form::Lines, true, &mut reader, &mut told);
    end == Ok(JudgeEnd::BadInput)
        && reader.calls == 1
        && told.as_slice() == b"bad trace ReadFault at 0\n".as_slice()
}

/// A writer that takes all, and can't be flushed.
#[derive(Drop)]
struct Stuck;

impl Write for Stuck {
    fn write(&mut self, buf: &[u8]) -> io::Result<usize> {
        Ok(buf.len())
    }

    fn flush(&mut self) -> io::Result<()> {
        Err(Error::from(ErrorKind::Other))
    }
}

/// The status that showing a trace with no calls ends with, if it is written and not flushed.
fn status_unflushed<R: AllocGlobal + Files>(rt: &R) -> Result<u8, AllocError> {
    let request = ShowRequest {
        file: FileName::new(rt.alloc(), "-")?,
        key: None,
    };
    let mut stdin = b"KGTRACE1\0\0\0\0".as_slice();
    let mut err: Vec<u8> = Vec::new(rt.alloc());
    Ok(show_with(rt, &mut stdin, &request, &mut Stuck, &mut err))
}

/// Neither a read nor a write that failed is tried again, and no flush that failed is passed over.
#[test]
fn streams_that_fail_are_told(rt: HostRuntime) {
    assert!(rt;
        is_unread_text_told(rt.alloc())
            && is_unwritten_verdict_told(rt.alloc())
            && is_unread_trace_bad(rt.alloc())
            && status_unflushed(&rt) == Ok(3)
    );
}
