// What a call answers.
ghost use Rattle.std.specs.Prelude.{◌≡◌};
ghost use Rattle.c_lane.specs.Statuses.{number_of, status_of_miss, is_miss_status};

use record_pages::MissCause;

/// What a call answers: done, an answer that a cache may always give, or a refusal.
#[derive(Clone, Copy, PartialEq, Eq)]
pub enum Status {
    /// Done.
    Done,
    /// No value of the key.
    Absent,
    /// The value had expired at the moment.
    Expired,
    /// The device failed.
    Unreadable,
    /// A page was not the one that was expected.
    Damaged,
    /// A hit, but the value is longer than the buffer.
    ShortBuffer,
    /// The lease of a fill has ended.
    Stale,
    /// The certificate of a trace is not right.
    Rejected,
    /// The bytes are no trace.
    BadTrace,
    /// The key has no bytes, or more than 255.
    WrongKey,
    /// The value has more than 2,048 bytes.
    TooLarge,
    /// Memory was refused.
    NoMemory,
    /// A number of the shape is out of its range, or there are too few pages.
    WrongOptions,
}

impl Status {
    /// The number by which C knows it: above 0 an answer, below 0 a refusal.
    pub fn number(self) -> i32
        ensures { result ≡ number_of self }
    {
        match self {
            Status::Done => 0,
            Status::Absent => 1,
            Status::Expired => 2,
            Status::Unreadable => 3,
            Status::Damaged => 4,
            Status::ShortBuffer => 5,
            Status::Stale => 6,
            Status::Rejected => 7,
            Status::BadTrace => 8,
            Status::WrongKey => -2,
            Status::TooLarge => -3,
            Status::NoMemory => -4,
            Status::WrongOptions => -5,
        }
    }

    // The status of a miss.
    pub(crate) fn of_miss(cause: MissCause) -> Status
        ensures { result ≡ status_of_miss cause }
    {
        match cause {
            MissCause::Absent => Status::Absent,
            MissCause::Expired => Status::Expired,
            MissCause::Fault => Status::Unreadable,
            MissCause::Damaged => Status::Damaged,
        }
    }

    // Whether it is that of a miss.
    pub(crate) fn is_miss(self) -> bool
        ensures { result ≡ is_miss_status self }
    {
        match self {
            Status::Absent | Status::Expired | Status::Unreadable | Status::Damaged => true,
            _ => false,
        }
    }
}
