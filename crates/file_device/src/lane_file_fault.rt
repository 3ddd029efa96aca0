use crate::file_open_fault::FileOpenFault;
use std::alloc::AllocError;

/// Why the files of lanes were not opened.
#[derive(Drop)]
pub enum LaneFileFault {
    /// Memory was refused, here or by the system.
    OutOfMemory,
    /// The file of this name was not opened, for this reason.
    Unopened(String, FileOpenFault),
}

impl From<AllocError> for LaneFileFault {
    fn from(_fault: AllocError) -> LaneFileFault {
        LaneFileFault::OutOfMemory
    }
}
