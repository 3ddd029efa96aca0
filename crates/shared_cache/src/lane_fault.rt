// Why a lane was not settled.
use crate::list_place::ListPlace;

/// Why a lane's calls did not get their ends.
#[derive(Clone, Copy, Drop)]
pub(crate) enum LaneFault {
    /// Memory was refused.
    OutOfMemory,
    /// The call that is listed here is of the lane, and not the one at its position, or that was listed before.
    Strange { place: ListPlace },
    /// No pass lists the call at this position.
    Unlisted { position: usize },
}
