// Why a lane is not opened.
ghost use Rattle.std.specs.Prelude.{◌≡◌};
ghost use Rattle.service_lane.specs.declared.open_lane_fault.OpenLaneFault.TheVariants.{Store};

use mover::OpenFault;
use thiserror::Error;

/// Why a lane that serves is not opened. They are tested in this order.
#[derive(Clone, Copy, Debug, PartialEq, Eq, Error)]
pub enum OpenLaneFault {
    /// There is to be one slot for leases at least.
    #[error("there is no slot for leases")]
    NoLeaseSlots,
    /// The store is not opened; or memory was refused for the slots.
    #[error("{0}")]
    Store(OpenFault),
}

impl From<OpenFault> for OpenLaneFault {
    ghost from_gives = { λ f e. e ≡ Store f };

    fn from(fault: OpenFault) -> OpenLaneFault {
        OpenLaneFault::Store(fault)
    }
}
