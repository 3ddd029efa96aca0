// Lanes in memory.
ghost use Rattle.std.specs.Prelude.{◌≡◌, All, IfOk, length};

use page_device::MemoryDevice;
use std::alloc::{AllocError, Global};

/// A device of this many pages for each of this many lanes, in memory.
pub fn lanes_in_memory<const PAGE: usize>(
    alloc: Global,
    lanes: u32,
    pages: u32,
) -> Result<Vec<MemoryDevice<PAGE>>, AllocError>
    ensures lanes { IfOk result (λ devices. length devices.items ≡ lanes) }
    ensures pages { IfOk result (λ devices. All (λ d. length d ≡ pages) devices.items) }
{
    let mut devices = Vec::with_capacity(alloc, lanes as usize)?;
    for _ in 0..lanes {
        devices.push(MemoryDevice::new(alloc, pages)?)?;
    }
    Ok(devices)
}
