// Why bytes are not a trace.
ghost use Rattle.std.specs.Prelude.{◌≡◌, Some};

use std::error::Error;
use std::fmt;

/// Why a trace was not read: the first fault from its first byte to its last, with its offset.
#[derive(Clone, Copy, PartialEq, Eq)]
pub enum TraceFault {
    /// A byte of the magic differs; the first such byte.
    BadMagic { at: u64 },
    /// There are more calls than a trace may have; the first byte of the count.
    TooMany { at: u64 },
    /// A kind that is not 1 to 4; its byte.
    BadKind { at: u64 },
    /// A key of no bytes; the byte of its length.
    BadKey { at: u64 },
    /// A value of more than 2,048 bytes; the first byte of its length.
    BadValue { at: u64 },
    /// The input ends before the trace does; how many bytes it has.
    Truncated { at: u64 },
    /// A byte stands after the certificate; that byte.
    TrailingBytes { at: u64 },
    /// The reader failed; how many bytes were read before.
    ReadFault { at: u64 },
    /// Memory was refused.
    OutOfMemory,
}

impl TraceFault {
    ghost use Rattle.trace_file.specs.FaultText.{front_of, offset_of};

    // What stands before the offset, or all if there is none.
    fn front(self) -> &'static str
        ensures { result.now ≡ front_of self }
    {
        match self {
            TraceFault::BadMagic { .. } => "BadMagic at ",
            TraceFault::TooMany { .. } => "TooMany at ",
            TraceFault::BadKind { .. } => "BadKind at ",
            TraceFault::BadKey { .. } => "BadKey at ",
            TraceFault::BadValue { .. } => "BadValue at ",
            TraceFault::Truncated { .. } => "Truncated at ",
            TraceFault::TrailingBytes { .. } => "TrailingBytes at ",
            TraceFault::ReadFault { .. } => "ReadFault at ",
            TraceFault::OutOfMemory => "out of memory",
        }
    }

    // The offset, if it has one.
    fn offset(self) -> Option<u64>
        ensures { result ≡ offset_of self }
    {
        match self {
            TraceFault::BadMagic { at } => Some(at),
            TraceFault::TooMany { at } => Some(at),
            TraceFault::BadKind { at } => Some(at),
            TraceFault::BadKey { at } => Some(at),
            TraceFault::BadValue { at } => Some(at),
            TraceFault::Truncated { at } => Some(at),
            TraceFault::TrailingBytes { at } => Some(at),
            TraceFault::ReadFault { at } => Some(at),
            TraceFault::OutOfMemory => None,
        }
    }
}

impl fmt::Display for TraceFault {
    ghost use Rattle.trace_file.specs.FaultText.{trace_fault_text};

    ghost output = { λ fault. Some (trace_fault_text fault) };

    fn fmt<W: fmt::Write>(&self, f: &mut fmt::Formatter<W>) -> fmt::Result {
        match self.offset() {
            Some(at) => write!(f, "{}{at}", self.front()),
            None => write!(f, "{}", self.front()),
        }
    }
}

impl fmt::Debug for TraceFault {
    fn fmt<W: fmt::Write>(&self, f: &mut fmt::Formatter<W>) -> fmt::Result {
        write!(f, "{self}")
    }
}

impl Error for TraceFault {}
