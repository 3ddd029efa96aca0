// Whether devices are large enough.
ghost use Rattle.std.specs.Prelude.{◌↔◌, ◌<◌, Any, IsTrue};

use crate::device::PageDevice;

/// Whether some device has fewer pages than this.
pub fn is_one_too_small<D: PageDevice<PAGE>, const PAGE: usize>(pages: u32, devices: &[D]) -> bool
    ensures { IsTrue result ↔ Any (λ d. D.page_count d < pages) devices.now }
{
    for device in devices {
        if device.pages() < pages {
            return true;
        }
    }
    false
}
