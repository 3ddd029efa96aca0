// A call as its lane recorded it.
use trace_file::Call;

/// A call of a lane, and the point of time at which it was done.
///
/// The laws on lanes speak of lists of these. Points and stamps are drawn from one clock.
#[derive(Drop)]
pub struct Done {
    /// The call, with its start and end.
    pub call: Call,
    /// The number that was drawn while it was done, above its start and at most its end.
    pub point: u64,
}
