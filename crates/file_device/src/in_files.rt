// The lanes' files.
ghost use Rattle.std.specs.Prelude.{◌≡◌, All, IfOk, length};

use crate::file::FileDevice;
use crate::file_open_fault::FileOpenFault;
use crate::lane_file_fault::LaneFileFault;
use crate::path::lane_path;
use std::alloc::Global;
use std::fs::File;
use std::rt::Files;

/// A device of this many pages for each of this many lanes, in a file of this folder, `lane-0.dev` and so on. A file
/// is made if it is absent, and none of those that are opened is taken back if a later one is refused.
///
/// The first file that is not opened is the fault: `OutOfMemory` if memory was refused, and otherwise `Unopened`.
pub fn lanes_in_files<const PAGE: usize, R: Files<File = File>>(
    rt: &R,
    alloc: Global,
    folder: &str,
    lanes: u32,
    pages: u32,
) -> Result<Vec<FileDevice<PAGE>>, LaneFileFault>
    ensures lanes { IfOk result (λ devices. length devices.items ≡ lanes) }
    ensures pages { IfOk result (λ devices. All (λ d. d.pages ≡ pages) devices.items) }
{
    let mut devices = Vec::with_capacity(alloc, lanes as usize)?;
    for lane in 0..lanes {
        let device = open_lane(rt, alloc, folder, lane, pages)?;
        if devices.push(device).is_err() {
            return Err(LaneFileFault::OutOfMemory);
        }
    }
    Ok(devices)
}

/// The device in a lane's file.
fn open_lane<const PAGE: usize, R: Files<File = File>>(
    rt: &R,
    alloc: Global,
    folder: &str,
    lane: u32,
    pages: u32,
) -> Result<FileDevice<PAGE>, LaneFileFault>
    ensures { IfOk result (λ device. device.pages ≡ pages) }
{
    let path = lane_path(alloc, folder, lane)?;
    match FileDevice::open(rt, path.as_str(), pages) {
        Ok(device) => Ok(device),
        Err(FileOpenFault::OutOfMemory) => Err(LaneFileFault::OutOfMemory),
        Err(fault) => Err(LaneFileFault::Unopened(path, fault)),
    }
}
