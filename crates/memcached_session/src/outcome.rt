// How a step went.
ghost use Rattle.std.specs.Prelude.{◌≡◌};
ghost use Rattle.memcached_session.specs.Counting.{number_of_outcome};

/// How a step went, for a server's counters.
#[derive(Clone, Copy)]
pub enum SessionOutcome {
    /// Nothing is to be counted.
    Nothing,
    /// A value was found.
    Hit,
    /// The key has no value.
    Miss,
    /// An item was stored.
    Stored,
    /// None was, since the command's condition does not hold.
    NotStored,
    /// The item has another cas unique than the one that is asked for.
    Exists,
    /// The item was removed.
    Deleted,
    /// The item has its new expiry.
    Touched,
    /// The number was changed.
    Counted,
    /// The item holds no number.
    NotNumber,
    /// The object is too large.
    TooLarge,
    /// Memory was refused to the store, and the key has no value.
    NoMemory,
    /// The request is refused.
    Refused,
    /// The answer is longer than the room, so it was not written, and the session is to be closed.
    Lost,
}

impl SessionOutcome {
    /// The number by which C knows it.
    pub fn number(self) -> u32
        ensures { result ≡ number_of_outcome self }
    {
        match self {
            SessionOutcome::Nothing => 0,
            SessionOutcome::Hit => 1,
            SessionOutcome::Miss => 2,
            SessionOutcome::Stored => 3,
            SessionOutcome::NotStored => 4,
            SessionOutcome::Exists => 5,
            SessionOutcome::Deleted => 6,
            SessionOutcome::Touched => 7,
            SessionOutcome::Counted => 8,
            SessionOutcome::NotNumber => 9,
            SessionOutcome::TooLarge => 10,
            SessionOutcome::NoMemory => 11,
            SessionOutcome::Refused => 12,
            SessionOutcome::Lost => 13,
        }
    }
}
