// What a step of upkeep did.
ghost use Rattle.std.specs.Prelude.{◌≡◌};
ghost use Rattle.service_lane.specs.Upkeep.{may_ask};

use klog::Flushed;
use mover::MovedWhole;

/// What a step of upkeep did.
#[derive(Clone, Copy, PartialEq, Eq)]
pub enum Upkept {
    /// Nothing was due, and nothing changed.
    Idle,
    /// A page of the log was to be written, and was written or lost.
    Flushed(Flushed),
    /// Records were to move, and this was done.
    Moved(MovedWhole),
    /// Records were to move, and memory was refused.
    OutOfMemory,
}

/// A step of upkeep.
#[derive(Clone, Copy, PartialEq, Eq)]
pub struct UpkeepStep {
    /// What it did.
    pub did: Upkept,
    /// Whether it may have asked the device. If not, the device is as it was.
    pub asked_device: bool,
    /// Whether something is due after it.
    pub is_due: bool,
}

impl Upkept {
    /// Whether the device may have been asked for it.
    pub(crate) fn may_ask(self) -> bool
        ensures { result ≡ may_ask self }
    {
        match self {
            Upkept::Idle => false,
            Upkept::Moved(MovedWhole::Nothing | MovedWhole::Busy | MovedWhole::Freed) => false,
            Upkept::Moved(_) | Upkept::Flushed(_) | Upkept::OutOfMemory => true,
        }
    }
}
