// An answer of fixed words.
ghost use Rattle.std.specs.Prelude.{◌≡◌};
ghost use Rattle.memcached_text.specs.Texts.{reply_text};

/// An answer of fixed words: what was done, or why not.
#[derive(Clone, Copy)]
pub enum FixedReply {
    /// The last line of the answer to `get` and `stats`.
    End,
    /// The data block was stored.
    Stored,
    /// It was not, for the mode's condition does not hold.
    NotStored,
    /// It was not, for the value is not that of the cas unique number.
    Exists,
    /// The key has no value.
    NotFound,
    /// The key was removed.
    Deleted,
    /// The value has its new expiry.
    Touched,
    /// Done.
    Ok,
    /// The counts are at 0.
    Reset,
    /// All before `mn` was answered.
    MetaNoop,
    /// `incr` or `decr` of a value that is no number.
    NotNumber,
    /// The server was started without `flush_all`.
    FlushNotAllowed,
    /// The server was started without `shutdown`.
    ShutdownNotEnabled,
    /// The data block is longer than a value may be.
    TooLarge,
    /// Memory was refused, and nothing was stored.
    OutOfMemory,
}

impl FixedReply {
    /// The line, without its end.
    pub fn text(self) -> &'static str
        ensures { result.now ≡ reply_text self }
    {
        match self {
            FixedReply::End => "END",
            FixedReply::Stored => "STORED",
            FixedReply::NotStored => "NOT_STORED",
            FixedReply::Exists => "EXISTS",
            FixedReply::NotFound => "NOT_FOUND",
            FixedReply::Deleted => "DELETED",
            FixedReply::Touched => "TOUCHED",
            FixedReply::Ok => "OK",
            FixedReply::Reset => "RESET",
            FixedReply::MetaNoop => "MN",
            FixedReply::NotNumber => "CLIENT_ERROR cannot increment or decrement non-numeric value",
            FixedReply::FlushNotAllowed => "CLIENT_ERROR flush_all not allowed",
            FixedReply::ShutdownNotEnabled => "ERROR: shutdown not enabled",
            FixedReply::TooLarge => "SERVER_ERROR object too large for cache",
            FixedReply::OutOfMemory => "SERVER_ERROR out of memory storing object",
        }
    }
}
