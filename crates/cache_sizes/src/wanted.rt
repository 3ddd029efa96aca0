ghost use Rattle.std.specs.Prelude.{◌≡◌, IfNone};

use crate::lanes::lanes_for_sets;
use crate::limits::{MAX_ALL_LANES, MAX_OBJECT_BYTES, MAX_THREADS, MIN_FLASH_BYTES, PAGE_BYTES};
use crate::size_fault::SizeFault;

/// What a user knows of the cache that is wanted.
#[derive(Clone, Copy, PartialEq, Eq)]
pub struct Wanted {
    /// Bytes of flash, at most, of all files together: `MIN_FLASH_BYTES` at least.
    pub flash_bytes: u64,
    /// Bytes of memory, at most, as they are estimated.
    pub memory_bytes: u64,
    /// Bytes of a typical object, of its key and its value: 1 to `MAX_OBJECT_BYTES`.
    pub object_bytes: u32,
    /// Threads that call at once: 1 to `MAX_THREADS`.
    pub threads: u32,
}

impl Wanted {
    ghost use Rattle.cache_sizes.specs.Wanting.{IsInRange};
    ghost use Rattle.cache_sizes.specs.Faults.{first_range_fault};

    // The first number that is out of its range, whatever the memory.
    #[tactic(auto, unfolding(crate::specs::Faults::first_range_fault))]
    pub(crate) fn range_fault(&self) -> Option<SizeFault>
        ensures first { result ≡ first_range_fault self.now }
        ensures ranges { IfNone result (IsInRange self.now) }
    {
        let fault = if self.flash_bytes < MIN_FLASH_BYTES {
            SizeFault::FlashTooSmall
        } else if lanes_for_sets(self.flash_bytes / PAGE_BYTES) > u64::from(MAX_ALL_LANES) {
            SizeFault::FlashTooLarge
        } else if self.object_bytes == 0 {
            SizeFault::NoObjectBytes
        } else if self.object_bytes > MAX_OBJECT_BYTES {
            SizeFault::ObjectTooLarge
        } else if self.threads == 0 {
            SizeFault::NoThreads
        } else if self.threads > MAX_THREADS {
            SizeFault::TooManyThreads
        } else {
            return None;
        };
        Some(fault)
    }
}
