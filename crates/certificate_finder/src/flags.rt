// Flags by their indexes.
ghost use Rattle.std.specs.Prelude.{◌≡◌, ◌↔◌, ◌<◌, Contains, IsTrue, Some, length, slice_get, true};

use crate::items::item_at;

/// Whether some flag is set.
pub(crate) fn is_some_set(flags: &[bool]) -> bool
    ensures { IsTrue result ↔ Contains flags.now true }
{
    for index in 0..flags.len() {
        if item_at(flags, index) {
            return true;
        }
    }
    false
}
