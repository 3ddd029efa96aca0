// What a line asks for.

use crate::exptime::Exptime;
use crate::store_command::StoreCommand;
use crate::verb::{Direction, MetaCommand};

/// What a line asks for. Keys and flags are lent by the line.
#[derive(Clone, Copy, Debug)]
pub enum TextRequest<'a> {
    /// `get`, and `gets`, which wants each value's cas unique number too. The keys follow, one or more.
    Get {
        with_cas: bool,
    },
    /// `gat`, and `gats`: the same, and each value found has a new expiry.
    GetAndTouch {
        exptime: Exptime,
        with_cas: bool,
    },
    /// Stores the data block that follows the line.
    Store(StoreRequest<'a>),
    /// Removes a key.
    Delete {
        key: &'a [u8],
        noreply: bool,
    },
    /// `incr` and `decr`.
    Delta(DeltaRequest<'a>),
    /// Gives a key's value a new expiry.
    Touch {
        key: &'a [u8],
        exptime: Exptime,
        noreply: bool,
    },
    /// Removes all, after a number of seconds, 0 for at once; more than 30 days are seconds since 1970.
    FlushAll {
        delay: u32,
        noreply: bool,
    },
    /// Asks for counts; the argument names which, and is empty for the usual ones. The word after it is empty if there is none.
    Stats {
        argument: &'a [u8],
        further: &'a [u8],
    },
    /// Asks for the server's version.
    Version,
    /// Sets how much the server says.
    Verbosity {
        level: u32,
        noreply: bool,
    },
    /// Ends the connection.
    Quit,
    /// Ends the server, after what is under way if graceful.
    Shutdown {
        graceful: bool,
    },
    /// `mn`: asks for `MN`, which shows that all before it was answered.
    MetaNoop,
    /// A meta command that names a key.
    Meta(MetaRequest<'a>),
}

/// A data block that is to be stored. It has `length` bytes, and follows the line.
#[derive(Clone, Copy, Debug)]
pub struct StoreRequest<'a> {
    /// How it is stored.
    pub mode: StoreCommand,
    /// The key, of 1 to 250 bytes.
    pub key: &'a [u8],
    /// A number that the client keeps with the value.
    pub flags: u32,
    /// When the value expires.
    pub exptime: Exptime,
    /// The bytes of the data block, without its line's end.
    pub length: u32,
    /// The unique number that the key's value has to have; 0 if the mode is not `Cas`.
    pub cas: u64,
    /// Whether no answer is wanted.
    pub noreply: bool,
}

/// A number that is to grow or to shrink.
#[derive(Clone, Copy, Debug)]
pub struct DeltaRequest<'a> {
    /// Whether it grows.
    pub direction: Direction,
    /// The key, of 1 to 250 bytes.
    pub key: &'a [u8],
    /// By how much.
    pub amount: u64,
    /// Whether no answer is wanted.
    pub noreply: bool,
}

/// A meta command that names a key.
#[derive(Clone, Copy, Debug)]
pub struct MetaRequest<'a> {
    /// The command.
    pub command: MetaCommand,
    /// The key, of 1 to 250 bytes; in base64 if there is the flag `b`.
    pub key: &'a [u8],
    /// The bytes of the data block that follows the line; 0 if the command is not `Set`.
    pub length: u32,
    /// The flags as they stand in the line, which one or more spaces part. Each letter stands once.
    pub flags: &'a [u8],
}
