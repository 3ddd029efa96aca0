use record_pages::{MissCause, Tier};
use service_lane::Lease;

/// What a look-up gave that leases a key at a miss.
#[derive(Clone, Copy, PartialEq, Eq)]
pub enum LookedUp {
    /// The value is in the buffer. It came from this tier, and expires then: `NEVER` if it does not.
    Hit { tier: Tier, expires: u64 },
    /// There is none, for this cause; and this lease is for a fill by what is read elsewhere.
    Miss(MissCause, Lease),
}
