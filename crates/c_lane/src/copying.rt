// A copy of a value to the front of a buffer.
ghost use Rattle.std.specs.Prelude.{◌≡◌};
ghost use Rattle.c_lane.specs.Copying.{copy_status, copied_into};

use crate::status::Status;

// Copies a value to the front of a buffer, if it fits.
pub(crate) fn copy_front(value: &[u8], into: &mut [u8]) -> Status
    ensures status { result ≡ copy_status value.now into.old }
    ensures into { into.new ≡ copied_into value.now into.old }
{
    let len = value.len();
    if len > into.len() {
        return Status::ShortBuffer;
    }
    into[..len].copy_from_slice(value);
    Status::Done
}
