use crate::witness::Witness;
use trace_file::Certificate;

/// What was found for a history.
#[derive(Drop)]
pub enum Found {
    /// It is accepted with this certificate.
    Accepted(Certificate),
    /// It is accepted with none, for this reason.
    Rejected(Witness),
    /// Each of the hits at these positions, at least one, can have read several puts. There is no reason that speaks of none of
    /// them, and there is a key for which no rule gave a certificate; whether there is one was not decided.
    Undecided(Vec<u32>),
}
