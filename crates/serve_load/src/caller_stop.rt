// Why a caller of a load stopped.
use crate::told_hit::ToldHit;

/// Why a caller of a load stopped.
#[derive(Drop)]
pub(crate) enum CallerStop {
    /// It had made all its operations.
    AllMade,
    /// The time of the load was over.
    TimeOver,
    /// The load was halted, by a wrong hit of another caller or for want of memory or of a thread.
    Halted,
    /// It met this wrong hit.
    Wrong(ToldHit),
}
