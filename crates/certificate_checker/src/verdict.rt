// What the checker answers.
use crate::fault::Fault;

/// The verdict on a history and its certificate.
#[derive(Clone, Copy, PartialEq, Eq)]
pub enum Verdict {
    /// The certificate spells an agreeing, lawful order of the history.
    Accepted,
    /// It does not, and this is the first fault. Another certificate might be accepted.
    Rejected(Fault),
}
