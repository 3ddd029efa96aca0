// Writes each of which has to stand before the other.
ghost use Rattle.std.specs.Prelude.{◌≡◌, ◌<◌, Some, length, slice_get};

use crate::faults::CrossedWrites;
use crate::witness::Witness;
use crate::zone::Zone;

/// Two zones of one key, each of which has to stand before the other.
#[derive(Clone, Copy)]
pub(crate) struct Crossing {
    /// One of them.
    pub(crate) one: Zone,
    /// The other one.
    pub(crate) other: Zone,
}

impl Crossing {
    ghost use Rattle.certificate_finder.specs.Zones.{crossed_by, writes_of};

    /// The reason that it is.
    pub(crate) fn witness(&self) -> Witness
        ensures { result ≡ crossed_by self.now }
    {
        Witness::Crossed(self.one.side(), self.other.side())
    }

    /// The writes of the two zones.
    pub(crate) fn writes(&self) -> CrossedWrites
        ensures { result ≡ writes_of self.now }
    {
        CrossedWrites {
            one: self.one.side(),
            other: self.other.side(),
        }
    }
}
