// A line that was taken apart.
use crate::line_head::LineHead;

/// A line as it was taken apart, but for the bytes of its key and its value.
#[derive(Clone, Copy)]
pub(crate) struct Spelling<'a> {
    pub(crate) caller: &'a [u8],
    pub(crate) head: LineHead,
    pub(crate) time: u64,
}
