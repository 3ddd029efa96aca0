// How a load ends.
ghost use Rattle.std.specs.Prelude.{◌≡◌};
ghost use Rattle.std.specs.Option.{option_map};
ghost use Rattle.serve_load.specs.Ends.{end_of_wrong_hits, status_of, message_of};

use cache_sizes::SizeFault;

/// How a load ended.
#[derive(Clone, Copy, PartialEq, Eq)]
pub enum ServeEnd {
    /// Each caller made all its operations, and no hit was wrong.
    Right,
    /// A hit was wrong.
    WrongHit,
    /// Gets and removes exceed 100 per cent, and nothing was opened.
    SharesExceed,
    /// Bytes of memory are given and no size, and nothing was opened.
    NoSize,
    /// No cache has the size that is asked for, and nothing was opened.
    Size(SizeFault),
    /// Memory was refused, or a thread to a caller.
    OutOfMemory,
    /// A file, the output or the clock failed.
    FileFault,
}

impl ServeEnd {
    /// How a load ended of which each caller made all its operations or a hit was wrong.
    pub fn of_wrong_hits(wrong_hits: u64) -> ServeEnd
        ensures { result ≡ end_of_wrong_hits wrong_hits }
    {
        if wrong_hits == 0 {
            ServeEnd::Right
        } else {
            ServeEnd::WrongHit
        }
    }

    /// The status that the program ends with.
    pub fn status(self) -> u8
        ensures { result ≡ status_of self }
    {
        match self {
            ServeEnd::Right => 0,
            ServeEnd::WrongHit => 1,
            ServeEnd::SharesExceed | ServeEnd::NoSize | ServeEnd::Size(_) => 2,
            ServeEnd::OutOfMemory | ServeEnd::FileFault => 3,
        }
    }

    /// The line that it writes to standard error, if it writes one.
    pub fn message(self) -> Option<&'static str>
        ensures { option_map (λ m. m.now) result ≡ message_of self }
    {
        match self {
            ServeEnd::Right => None,
            ServeEnd::WrongHit => Some("a hit was wrong"),
            ServeEnd::SharesExceed => Some("gets and removes exceed 100"),
            ServeEnd::NoSize => Some("--memory-bytes is given without --size"),
            ServeEnd::Size(fault) => Some(size_message(fault)),
            ServeEnd::OutOfMemory => Some("out of memory"),
            ServeEnd::FileFault => Some("file fault"),
        }
    }
}

ghost use Rattle.serve_load.specs.Ends.{size_message_of};

/// What is reported of a size that no cache has.
fn size_message(fault: SizeFault) -> &'static str
    ensures { result.now ≡ size_message_of fault }
{
    match fault {
        SizeFault::FlashTooSmall => "--size is too small for a cache",
        SizeFault::FlashTooLarge => "--size is too large for a cache",
        SizeFault::NoObjectBytes => "--value-bytes is too small for an object",
        SizeFault::ObjectTooLarge => "--value-bytes is too large for an object",
        SizeFault::NoThreads => "--callers is 0",
        SizeFault::TooManyThreads => "--callers is too large for a cache",
        SizeFault::MemoryTooSmall => "--memory-bytes is too small for a cache of this --size",
    }
}
