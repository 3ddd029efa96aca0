// What a server answers.

use crate::fixed_reply::FixedReply;
use crate::line_error::LineError;
use crate::meta_answer::MetaAnswer;

/// What a server answers. Keys and data are lent by the caller.
#[derive(Clone, Copy)]
pub enum TextAnswer<'a> {
    /// A value that `get` or one of its kind found.
    Value(ValueFound<'a>),
    /// What was done, or why not.
    Reply(FixedReply),
    /// Why a line was refused.
    Refused(LineError),
    /// The number after `incr` or `decr`.
    Number(u64),
    /// The server's version.
    Version(&'a [u8]),
    /// One line of the answer to `stats`.
    Stat { name: &'a [u8], value: &'a [u8] },
    /// The answer to a meta command.
    Meta(MetaAnswer<'a>),
}

/// A value that was found.
#[derive(Clone, Copy)]
pub struct ValueFound<'a> {
    /// Its key.
    pub key: &'a [u8],
    /// The number that the client keeps with it.
    pub flags: u32,
    /// Its cas unique number, if the client wants it.
    pub cas: Option<u64>,
    /// Its bytes.
    pub data: &'a [u8],
}
