//! What tests have alike: keys and values that are made once more if memory was refused, a device that loses what is
//! written, one that tells which calls came, `StaleDevice`, which goes back to an old page, a host that has no random
//! numbers, and texts whose lines are calls, each with what it gives.
#![tactic(auto)]

mod asked_device;
mod blank_device;
mod made;
mod stale;
mod text;
mod text_step;
mod without_random;

pub use asked_device::AskedDevice;
pub use blank_device::BlankDevice;
pub use made::{key, value};
pub use stale::StaleDevice;
pub use text::{Scripted, WrongLine, find_wrong_line, run_line, run_text};
pub use text_step::{MAX_TOLD, Spelled, TextStep, is};
pub use without_random::WithoutRandom;
