// What stands before the calls of a trace.
use crate::version::Version;

/// What stands before the calls of a trace: which form it has, and how many calls.
#[derive(Clone, Copy)]
pub(crate) struct Header {
    pub(crate) version: Version,
    pub(crate) count: u32,
}
