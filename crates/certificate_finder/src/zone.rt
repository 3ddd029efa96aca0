// The time in which a write and its hits have to stand.
ghost use Rattle.std.specs.Prelude.{◌≡◌, ◌<◌, Some, length, slice_get};

use crate::witness::Side;
use crate::write::key_rank;

/// A write with the hits that can have read it alone: from the least end of one to the greatest start of one.
#[derive(Clone, Copy)]
pub(crate) struct Zone {
    /// The write's position.
    pub(crate) write: u32,
    /// The number of its key.
    pub(crate) key: u32,
    /// The position of the call that ends first.
    pub(crate) early: u32,
    /// The position of the call that starts last.
    pub(crate) late: u32,
    /// The least end.
    pub(crate) end: u64,
    /// The greatest start.
    pub(crate) start: u64,
}

impl Zone {
    ghost use Rattle.certificate_finder.specs.Unreading.{end_rank};
    ghost use Rattle.certificate_finder.specs.Zones.{zone_rank};

    /// By keys, and within a key by the middle between the least end and the greatest start.
    pub(crate) fn rank(&self) -> u128
        ensures { result ≡ zone_rank self.now }
    {
        self.key as u128 * 36893488147419103232 + (self.end as u128 + self.start as u128)
    }

    /// By keys, and within a key by the least end.
    pub(crate) fn rank_by_end(&self) -> u128
        ensures { result ≡ end_rank self.now }
    {
        key_rank(self.key, self.end)
    }

    /// The write with its two calls, for a witness.
    pub(crate) fn side(&self) -> Side
        ensures { result ≡ record {
          write = self.now.write;
          early = self.now.early;
          late = self.now.late;
        } }
    {
        Side {
            write: self.write,
            early: self.early,
            late: self.late,
        }
    }
}
