//! Reads of a file that was cut behind the back of its device.
ghost use Rattle.std.specs.Prelude.{◌≡◌, ◌^◌, ◌+◌, ◌%◌, IsTrue};

use super::files::{Pages, is_cut, reads, writes};
use page_device::PageDevice;
use std::fs;
use std::test::Fail;

/// Whether a read of a page that the device has fails. That adds one to its failures.
fn read_fails(device: &mut Pages, page: u32) -> bool
    ensures { IsTrue result → device.new.failures ≡ (device.old.failures + 1) % 2 ^ 64 }
{
    let mut bytes = [0; 256];
    page < device.pages() && device.read(page, &mut bytes).is_err()
}

/// Whether page 0 is read and pages 1 and 2 fail, and page 1 is read once it is written again, and page 2 fails still.
fn fails_past_the_end(device: &mut Pages) -> bool {
    reads(device, 0, 3)
        && read_fails(device, 1)
        && read_fails(device, 2)
        && writes(device, 1, 6)
        && reads(device, 1, 6)
        && read_fails(device, 2)
}

#[test]
fn a_page_past_the_end_of_the_file_is_a_fault(rt: HostRuntime) -> Result<(), Fail> {
    let _ = fs::remove_file(&rt, "cut.pages");
    let mut device = Pages::open(&rt, "cut.pages", 4)?;
    assert!(rt;
        writes(&mut device, 0, 3)
            && writes(&mut device, 1, 4)
            && is_cut(&rt, "cut.pages", 511)
            && fails_past_the_end(&mut device)
    );
    Ok(fs::remove_file(&rt, "cut.pages")?)
}
