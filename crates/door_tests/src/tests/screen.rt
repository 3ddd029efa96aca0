//! The second output of a load, which is a terminal or is none.
use std::alloc::Global;
use std::io;
use std::io::{Error, ErrorKind, IsTerminal, Write};

/// What was written, to what is a terminal or is none.
#[derive(Drop)]
pub struct Screen {
    pub bytes: Vec<u8>,
    pub is_terminal: bool,
}

impl Screen {
    /// One on which nothing was written, and which is no terminal.
    pub fn new(alloc: Global) -> Screen {
        Screen {
            bytes: Vec::new(alloc),
            is_terminal: false,
        }
    }
}

impl Write for Screen {
    fn write(&mut self, buf: &[u8]) -> io::Result<usize> {
        if self.bytes.extend_from_slice(buf).is_err() {
            return Err(Error::from(ErrorKind::OutOfMemory));
        }
        Ok(buf.len())
    }

    fn flush(&mut self) -> io::Result<()> {
        Ok(())
    }
}

impl IsTerminal for Screen {
    fn is_terminal(&self) -> bool {
        self.is_terminal
    }
}
