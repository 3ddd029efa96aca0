// The lanes' files.
ghost use Rattle.std.specs.Prelude.{IfErr, IfOk};
ghost use Rattle.load_run.specs.Devices.{AreDevicesFor};
ghost use Rattle.load_run.specs.Ends.{IsUnopened};

use crate::run_end::RunEnd;
use crate::run_outcome::RunOutcome;
use crate::shared::PAGE;
use file_device::{FileDevice, LaneFileFault, lanes_in_files};
use load::{FileName, SystemFault};
use record_pages::Layout;
use std::alloc::Global;
use std::fs::File;
use std::rt::Files;

/// A device in a file of this folder for each lane, with the layout's pages.
///
/// The first file that is not opened ends the run: as want of memory if that is why, and else as a fault of the file.
pub fn in_files<R: Files<File = File>>(
    rt: &R,
    alloc: Global,
    layout: &Layout,
    folder: &FileName,
) -> Result<Vec<FileDevice<PAGE>>, RunOutcome>
    ensures all { IfOk result (λ devices.
        AreDevicesFor (λ d. d.pages) layout.now devices.items) }
    ensures refused { IfErr result (λ ended. IsUnopened ended.end) }
{
    match lanes_in_files(rt, alloc, folder.as_str(), layout.lanes, layout.pages()) {
        Ok(devices) => Ok(devices),
        Err(LaneFileFault::OutOfMemory) => Err(RunOutcome::plain(RunEnd::OutOfMemory)),
        Err(LaneFileFault::Unopened(path, fault)) => Err(RunOutcome::system(SystemFault::Device(
            path, fault,
        ))),
    }
}
