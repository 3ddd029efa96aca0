// A move in flight.
ghost use Rattle.std.specs.Prelude.{◌≡◌};

use crate::marks::Marks;
use crate::moving::Moving;

/// A move in flight: its number, its set and its records, and a mark for each of these.
#[derive(Drop)]
pub(crate) struct Flight {
    pub(crate) moving: Moving,
    pub(crate) marks: Marks,
}

impl Flight {
    ghost use Rattle.std.specs.Prelude.{◌<◌, length, map, Some, slice_get};
    ghost use Rattle.std.specs.Option.{option_map};
    ghost use Rattle.mover.specs.Flight.{flight_struck};

    /// A key of this hash is struck.
    pub(crate) fn strike(&mut self, hash: u64)
        ensures { self.new ≡ flight_struck hash self.old }
    {
        self.marks.strike(hash);
    }
}
