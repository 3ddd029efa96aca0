// What a device of pages is, and what its calls promise.
ghost use Rattle.std.specs.Prelude.{◌≡◌, ◌<◌, ℕ, Bool, List, Option, OnOk, IsTrue};
ghost use Rattle.page_device.specs.Device.{failures_after, WritesPage, IsKnown};

use crate::device_fault::DeviceFault;

/// A device of a fixed number of pages of `PAGE` bytes each.
///
/// On any device the number of pages and the honesty stay, and `DeviceFault` is answered exactly when the
/// count of failures rises by one. What reads give is said of honest devices alone.
pub trait PageDevice<const PAGE: usize>: Drop {
    /// How many pages it has.
    ghost page_count: { Self → ℕ };

    /// Whether its reads return what was last written.
    ghost honest: { Self → Bool };

    /// The bytes that a page is known to hold, or nothing if no law says what a read of it gives.
    ghost held: { Self → ℕ → Option (List ℕ) };

    /// How many calls have failed, modulo 2^64.
    ghost failures: { Self → ℕ };

    /// The number of pages, which never changes.
    fn pages(&self) -> u32
        ensures { result ≡ page_count self.now };

    /// Reads a page into a buffer. After `DeviceFault` nothing is said of the buffer.
    fn read(&mut self, page: u32, into: &mut [u8; PAGE]) -> Result<(), DeviceFault>
        requires { page < page_count self.old }
        ensures pages { page_count self.new ≡ page_count self.old }
        ensures honest { honest self.new ≡ honest self.old }
        ensures failures { failures self.new ≡ failures_after (failures self.old) result }

        // If it is honest.
        ensures same { IsTrue (honest self.old) → held self.new ≡ held self.old }
        ensures known { IsTrue (honest self.old) →
            OnOk result (IsKnown (held self.old page) into.new) };

    /// Writes a page. After `DeviceFault` nothing is said of what that page holds.
    fn write(&mut self, page: u32, bytes: &[u8; PAGE]) -> Result<(), DeviceFault>
        requires { page < page_count self.old }
        ensures pages { page_count self.new ≡ page_count self.old }
        ensures honest { honest self.new ≡ honest self.old }
        ensures failures { failures self.new ≡ failures_after (failures self.old) result }

        // If it is honest.
        ensures written { IsTrue (honest self.old) →
            WritesPage (held self.old) (held self.new) page bytes.now result };
}
