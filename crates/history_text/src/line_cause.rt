// Why a line of a text spells no call of its history.
ghost use Rattle.std.specs.Prelude.{◌≡◌, Some};

use std::fmt;

/// Why a line of a text is bad. A line has the first cause in this order: those of the whole line, then those of its words
/// from the first to the last, and then those of a history that is full.
#[derive(Clone, Copy, PartialEq, Eq)]
pub enum LineCause {
    /// The line has more than 8,192 bytes.
    TooLong,
    /// There are more than 9,223,372,036,854,775,807 lines, 2^63 - 1.
    TooManyLines,
    /// The line does not have five to seven words of the bytes 21 to 7e, separated by single spaces.
    NotWords,
    /// The start is not a number below 2^63.
    BadStart,
    /// The end is neither `-` nor a number below 2^63.
    BadEnd,
    /// What the call did is none of `put`, `hit`, `miss` and `remove`.
    BadKind,
    /// The line has more or fewer words than such a call has.
    WrongCount,
    /// A hit or a miss has the end `-`. A get that never returned read nothing.
    NoReturn,
    /// A `%` in the key is not followed by two hexadecimal digits.
    BadKeyCode,
    /// The key does not have 1 to 255 bytes.
    BadKeyLen,
    /// A `%` in the value is not followed by two hexadecimal digits.
    BadValueCode,
    /// The value has more than 2,048 bytes.
    BadValueLen,
    /// The expiry of a put is not a number below 2^63.
    BadExpiry,
    /// The moment of a hit is not a number below 2^63.
    BadMoment,
    /// There are more than 268,435,456 calls, the most of a trace.
    TooManyCalls,
    /// There are more than 65,536 callers.
    TooManyCallers,
    /// The call started before the window of calls that are judged as they come. Reading a whole text never gives this cause.
    BeforeWindow,
}

impl LineCause {
    ghost use Rattle.history_text.specs.Causes.{cause_text};
    ghost use Rattle.history_text.specs.Readings.{is_of_line};

    /// Whether the cause is one of the line itself: neither of its length nor of a text that is full. Such a line can be passed over.
    pub(crate) fn is_of_line(self) -> bool
        ensures { result ≡ is_of_line self }
    {
        !matches!(
            self,
            LineCause::TooLong
                | LineCause::TooManyLines
                | LineCause::TooManyCalls
                | LineCause::TooManyCallers
                | LineCause::BeforeWindow
        )
    }

    /// The message of a line with this cause: what is wrong, and what is wanted.
    pub fn text(self) -> &'static str
        ensures { result.now ≡ cause_text self }
    {
        match self {
            LineCause::TooLong => "the line is too long: a line has at most 8192 bytes",
            LineCause::TooManyLines => "too many lines: a text has at most 9223372036854775807",
            LineCause::NotWords =>
                "a line has five to seven words of printable ASCII, separated by single spaces: CALLER START END put|hit|miss|remove KEY [VALUE [TIME]]",
            LineCause::BadStart =>
                "START must be a number below 2^63, in decimal without leading zeros",
            LineCause::BadEnd =>
                "END must be a number below 2^63, in decimal without leading zeros, or - if the call never returned",
            LineCause::BadKind => "the fourth word must be put, hit, miss or remove",
            LineCause::WrongCount =>
                "wrong number of words: put and hit have KEY VALUE and at most one time after them, miss and remove have only KEY",
            LineCause::NoReturn =>
                "END of a hit or a miss must be a number: leave out gets that never returned",
            LineCause::BadKeyCode =>
                "bad percent-encoding in the key: % must be followed by two hexadecimal digits",
            LineCause::BadKeyLen =>
                "the key must have 1 to 255 bytes after percent-decoding: - means no bytes, %2D is a hyphen",
            LineCause::BadValueCode =>
                "bad percent-encoding in the value: % must be followed by two hexadecimal digits",
            LineCause::BadValueLen =>
                "the value must have at most 2048 bytes after percent-decoding: record a hash of a longer one",
            LineCause::BadExpiry =>
                "the expiry of a put must be a number below 2^63, in decimal without leading zeros: leave it out if the value never expires",
            LineCause::BadMoment =>
                "the moment of a hit must be a number below 2^63, in decimal without leading zeros: leave it out to mean 0",
            LineCause::TooManyCalls => "too many calls: a history has at most 268435456",
            LineCause::TooManyCallers => "too many callers: a history has at most 65536",
            LineCause::BeforeWindow =>
                "the call started before the window: sort the calls by START, or give a longer window",
        }
    }
}

impl fmt::Display for LineCause {
    ghost use Rattle.history_text.specs.Causes.{cause_text};

    ghost output = { λ cause. Some (cause_text cause) };

    fn fmt<W: fmt::Write>(&self, f: &mut fmt::Formatter<W>) -> fmt::Result {
        f.write_str(self.text())
    }
}
