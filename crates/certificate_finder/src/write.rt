// A write of a key.
ghost use Rattle.std.specs.Prelude.{◌≡◌, ◌<◌, Some, length, slice_get};
ghost use Rattle.certificate_finder.specs.Writing.{key_rank as rank_of_key};

use crate::numbered_call::NumberedCall;

/// A put or a removal.
#[derive(Clone, Copy)]
pub(crate) struct Write {
    /// Its position.
    pub(crate) position: u32,
    /// The number of its key.
    pub(crate) key: u32,
    /// The stamp at which it started.
    pub(crate) start: u64,
    /// The stamp at which it ended.
    pub(crate) end: u64,
}

impl Write {
    ghost use Rattle.certificate_finder.specs.Writing.{TellsWrite, write_rank};

    /// The write at this position.
    pub(crate) fn of(position: u32, step: &NumberedCall) -> Write
        ensures { TellsWrite position step.now result }
    {
        Write {
            position,
            key: step.key,
            start: step.start,
            end: step.end,
        }
    }

    /// By keys, and within a key by start.
    pub(crate) fn rank(&self) -> u128
        ensures { result ≡ write_rank self.now }
    {
        key_rank(self.key, self.start)
    }
}

/// The rank of a stamp among those of all keys.
pub(crate) fn key_rank(key: u32, stamp: u64) -> u128
    ensures { result ≡ rank_of_key key stamp }
{
    key as u128 * 18446744073709551616 + stamp as u128
}
