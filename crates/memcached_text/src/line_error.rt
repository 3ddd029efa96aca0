// Why a line is refused.
ghost use Rattle.std.specs.Prelude.{◌≡◌};
ghost use Rattle.memcached_text.specs.Texts.{fault_text};

/// Why a line is refused.
#[derive(Clone, Copy, Debug)]
pub enum LineError {
    /// The command is not known, or has too few or too many words.
    Unknown,
    /// A key has more than 250 bytes, or a number is none.
    BadFormat,
    /// A `delete` with words after the key that it does not have.
    BadDelete,
    /// The word for the expiry is no number of 64 bits with a sign.
    BadExptime,
    /// The word for the amount is no number of 64 bits.
    BadDelta,
    /// A `shutdown` that is not `shutdown` or `shutdown graceful`.
    BadShutdown,
    /// A data block is not followed by its line's end.
    BadData,
    /// A line has more than 2,048 bytes.
    LineTooLong,
    /// `mg` has more than 19 words.
    TooManyFlags,
    /// Another meta command has more than 19 words.
    FlagsTooLong,
    /// A flag of a meta command stands twice.
    DuplicateFlag,
    /// A flag of a meta command is not known.
    BadFlag,
    /// A flag of `md` or `ma` stands twice, is not known, or has a token that it can't have.
    BadOrDuplicateFlag,
    /// The token of a flag is no number in its range.
    BadToken,
    /// The flag `O` has more than 32 bytes.
    OpaqueTooLong,
    /// The token of the flag `M` has not one byte.
    BadModeToken,
    /// The token of the flag `J` is no number of 64 bits.
    BadInitial,
    /// The token of the flag `D` is no number of 64 bits.
    BadMetaDelta,
    /// The mode of `ms` is none.
    BadSetMode,
    /// The mode of `ma` is none.
    BadArithmeticMode,
    /// A `stats detail` that is not `on`, `off` or `dump`.
    BadDetail,
}

impl LineError {
    /// The line that memcached answers, without its end.
    pub fn text(self) -> &'static str
        ensures { result.now ≡ fault_text self }
    {
        match self {
            LineError::Unknown => "ERROR",
            LineError::BadFormat => "CLIENT_ERROR bad command line format",
            LineError::BadDelete =>
                "CLIENT_ERROR bad command line format.  Usage: delete <key> [noreply]",
            LineError::BadExptime => "CLIENT_ERROR invalid exptime argument",
            LineError::BadDelta => "CLIENT_ERROR invalid numeric delta argument",
            LineError::BadShutdown => "CLIENT_ERROR invalid shutdown mode",
            LineError::BadData => "CLIENT_ERROR bad data chunk",
            LineError::LineTooLong => "CLIENT_ERROR line too long",
            LineError::TooManyFlags => "CLIENT_ERROR options flags are too long",
            LineError::FlagsTooLong => "CLIENT_ERROR options flags too long",
            LineError::DuplicateFlag => "CLIENT_ERROR duplicate flag",
            LineError::BadFlag => "CLIENT_ERROR invalid flag",
            LineError::BadOrDuplicateFlag => "CLIENT_ERROR invalid or duplicate flag",
            LineError::BadToken => "CLIENT_ERROR bad token in command line format",
            LineError::OpaqueTooLong => "CLIENT_ERROR opaque token too long",
            LineError::BadModeToken => "CLIENT_ERROR incorrect length for M token",
            LineError::BadInitial => "CLIENT_ERROR invalid numeric initial value",
            LineError::BadMetaDelta => "CLIENT_ERROR invalid numeric delta value",
            LineError::BadSetMode => "CLIENT_ERROR invalid mode for ms M token",
            LineError::BadArithmeticMode => "CLIENT_ERROR invalid mode for ma M token",
            LineError::BadDetail => "CLIENT_ERROR usage: stats detail on|off|dump",
        }
    }
}
