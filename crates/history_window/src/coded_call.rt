// A call in numbers.
ghost use Rattle.std.specs.Prelude.{◌≡◌, ◌<◌, Some, length, slice_get};

use crate::peak::Peak;
use crate::ranks::{rank, turn};
use crate::states::{is_hit, is_put, is_write};
use trace_file::CallRef;

/// A call, with its position and with numbers in place of its key and its value.
#[derive(Clone, Copy)]
pub(crate) struct CodedCall {
    /// Its position.
    pub(crate) position: u32,
    /// The number of its key.
    pub(crate) key: u32,
    /// The number of its value at its key.
    pub(crate) value: u64,
    /// The stamp at which it started.
    pub(crate) start: u64,
    /// The stamp at which it ended.
    pub(crate) end: u64,
    /// Whether it writes.
    pub(crate) writes: bool,
    /// Whether it puts a value.
    pub(crate) puts: bool,
    /// Whether it is a hit.
    pub(crate) reads: bool,
}

impl CodedCall {
    ghost use Rattle.std.specs.Prelude.{◌+◌, ◌*◌, ◌^◌, ◌||◌, not};
    ghost use Rattle.trace_file.specs.Lent.{call_shown};
    ghost use Rattle.history_window.specs.Codes.{IsCode};
    ghost use Rattle.history_window.specs.Tables.{first_turn as turn_of_start, last_turn as turn_of_end, put_end as end_of_put, put_start as start_of_put, write_over as over_of_write, write_span as span_of_write, write_turn as turn_of_write};

    /// The call with these numbers of its key and of its value's bytes.
    pub(crate) fn of(position: u32, call: &CallRef<'_>, key: u32, word: u32) -> CodedCall
        ensures key { result.key ≡ key }
        ensures value { result.value ≡ key * 2 ^ 32 + word }
        ensures code { IsCode position (call_shown call.now) result }
    {
        let value = key as u64 * 4294967296 + word as u64;
        let writes = is_write(&call.act);
        let puts = is_put(&call.act);
        let reads = is_hit(&call.act);
        CodedCall {
            position,
            key,
            value,
            start: call.start,
            end: call.end,
            writes,
            puts,
            reads,
        }
    }

    /// Whether it neither writes nor reads.
    pub(crate) fn is_miss(&self) -> bool
        ensures { result ≡ not (self.now.writes || self.now.reads) }
    {
        !(self.writes || self.reads)
    }

    /// The turn at which it starts.
    pub(crate) fn first_turn(&self) -> u128
        ensures { result ≡ turn_of_start self.now }
    {
        turn(self.key, self.start, self.position)
    }

    /// The last turn of the stamp at which it ends.
    pub(crate) fn last_turn(&self) -> u128
        ensures { result ≡ turn_of_end self.now }
    {
        turn(self.key, self.end, u32::MAX)
    }

    /// The rank of its start, if it is a put.
    pub(crate) fn put_start(&self) -> Option<u128>
        ensures { result ≡ start_of_put self.now }
    {
        if self.puts {
            Some(rank(self.value, self.start))
        } else {
            None
        }
    }

    /// The rank of its end, if it is a put.
    pub(crate) fn put_end(&self) -> Option<u128>
        ensures { result ≡ end_of_put self.now }
    {
        if self.puts {
            Some(rank(self.value, self.end))
        } else {
            None
        }
    }

    /// Its turn, if it is a write.
    pub(crate) fn write_turn(&self) -> Option<u128>
        ensures { result ≡ turn_of_write self.now }
    {
        if self.writes {
            Some(self.first_turn())
        } else {
            None
        }
    }

    /// From its end on its start, if it is a write.
    pub(crate) fn write_over(&self) -> Option<Peak>
        ensures { result ≡ over_of_write self.now }
    {
        if !self.writes {
            return None;
        }
        let foot = rank(self.key as u64, self.end);
        let height = rank(self.key as u64, self.start);
        Some(Peak { foot, height })
    }

    /// From its turn on its last turn, if it is a write.
    pub(crate) fn write_span(&self) -> Option<Peak>
        ensures { result ≡ span_of_write self.now }
    {
        if !self.writes {
            return None;
        }
        let foot = self.first_turn();
        let height = self.last_turn();
        Some(Peak { foot, height })
    }
}

/// The call at an index.
pub(crate) fn code_at(codes: &[CodedCall], index: usize) -> CodedCall
    requires { index < length codes.now }
    ensures { slice_get codes.now index ≡ Some result }
{
    codes[index]
}
