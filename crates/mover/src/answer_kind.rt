// What a get answers whose value goes into room of the caller's.
use record_pages::{MissCause, Tier};

/// The answer to a get whose value goes into room of the caller's: a hit with the tier that held it and its expiry, or a miss
/// with its cause.
#[derive(Clone, Copy, PartialEq, Eq)]
pub enum AnswerKind {
    /// The value is in the buffer. It was found in this tier, and expires then: `NEVER` if it does not.
    Hit { tier: Tier, expires: u64 },
    /// No value, and why.
    Miss(MissCause),
}
