// What a step of upkeep tells.
ghost use Rattle.std.specs.Prelude.{◌≡◌};
ghost use Rattle.c_lane.specs.Tending.{step_with};

use service_lane::{UpkeepStep, Upkept};

/// What a step of upkeep did, and what it leaves to be done.
#[repr(C)]
#[derive(Clone, Copy)]
pub struct Step {
    /// 0 nothing was due, 1 a page of the log was to be written, 2 records were to move, 3 they were and memory was refused.
    pub did: u32,
    /// 1 if the device may have been asked, else 0.
    pub asked_device: u32,
    /// 1 if something is due after it, else 0.
    pub is_due: u32,
}

impl Step {
    // What a step of a lane tells.
    pub(crate) fn of(step: &UpkeepStep) -> Step
        ensures { result ≡ step_with step.now.did step.now.asked_device step.now.is_due }
    {
        Step {
            did: number_of(step.did),
            asked_device: u32::from(step.asked_device),
            is_due: u32::from(step.is_due),
        }
    }
}

ghost use Rattle.c_lane.specs.Tending.{number_of_did};

// The number of what a step did.
fn number_of(did: Upkept) -> u32
    ensures { result ≡ number_of_did did }
{
    match did {
        Upkept::Idle => 0,
        Upkept::Flushed(_) => 1,
        Upkept::Moved(_) => 2,
        Upkept::OutOfMemory => 3,
    }
}
