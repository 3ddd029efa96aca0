// What a line that is refused leaves.
ghost use Rattle.std.specs.Prelude.{◌≡◌, false};
ghost use Rattle.memcached_text.specs.Refusals.{loud, block_by};

use crate::line_error::LineError;

/// The data block that belongs to a line that is refused.
#[derive(Clone, Copy, Debug)]
pub enum RefusedBlock {
    /// None: the line's command does not store.
    Absent,
    /// One of so many bytes, and its line's end: they are passed over.
    OfLength(u32),
    /// One of which nobody can tell where it ends, for the line's word for its length is missing or is no number of 31 bits. The client
    /// is to be closed.
    Unreadable,
}

/// A line that is refused.
#[derive(Clone, Copy, Debug)]
pub struct LineRefusal {
    /// Why.
    pub fault: LineError,
    /// Whether the client wants no answer: the line's last word is `noreply`.
    pub noreply: bool,
    /// The data block that follows the line.
    pub block: RefusedBlock,
}

impl LineRefusal {
    /// The refusal that is answered, with no data block.
    pub(crate) fn loud(fault: LineError) -> LineRefusal
        ensures { result ≡ loud fault }
    {
        LineRefusal {
            fault,
            noreply: false,
            block: RefusedBlock::Absent,
        }
    }
}

impl RefusedBlock {
    /// The block by its length, if that can be read.
    pub(crate) fn by(length: Option<u32>) -> RefusedBlock
        ensures { result ≡ block_by length }
    {
        match length {
            Some(length) => RefusedBlock::OfLength(length),
            None => RefusedBlock::Unreadable,
        }
    }
}
