// Why no cache has the sizes that are wanted.
ghost use Rattle.std.specs.Prelude.{◌≡◌};

use thiserror::Error;

/// Why no cache has the sizes that are wanted. Of several reasons it is the first one in this order.
#[derive(Clone, Copy, Debug, PartialEq, Eq, Error)]
pub enum SizeFault {
    /// Less flash than `MIN_FLASH_BYTES`.
    #[error("flash_bytes is too small for a lane")]
    FlashTooSmall,
    /// More flash than `MAX_ALL_LANES` lanes have sets for.
    #[error("flash_bytes is too large for the most lanes")]
    FlashTooLarge,
    /// A typical object of no bytes: a key has one at least.
    #[error("object_bytes is 0")]
    NoObjectBytes,
    /// A typical object of more bytes than `MAX_OBJECT_BYTES`.
    #[error("object_bytes is too large for an object")]
    ObjectTooLarge,
    /// No thread.
    #[error("threads is 0")]
    NoThreads,
    /// More threads than `MAX_THREADS`.
    #[error("threads is too large")]
    TooManyThreads,
    /// Less memory than all lanes take with one typical object in each, as it is estimated. More memory mends it, or
    /// less flash, or fewer threads.
    #[error("memory_bytes is too small for the lanes")]
    MemoryTooSmall,
}

impl SizeFault {
    ghost use Rattle.cache_sizes.specs.Faults.{field_of};

    /// The name of the field of `Wanted` that is at fault.
    pub fn field(self) -> &'static str
        ensures { result.now ≡ field_of self }
    {
        match self {
            SizeFault::FlashTooSmall => "flash_bytes",
            SizeFault::FlashTooLarge => "flash_bytes",
            SizeFault::NoObjectBytes => "object_bytes",
            SizeFault::ObjectTooLarge => "object_bytes",
            SizeFault::NoThreads => "threads",
            SizeFault::TooManyThreads => "threads",
            SizeFault::MemoryTooSmall => "memory_bytes",
        }
    }
}
