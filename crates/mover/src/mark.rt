// What is noted of an item of a move in flight.
ghost use Rattle.std.specs.Prelude.{◌≡◌};

use record_pages::Record;
use set_hash::hash;

/// What is noted of an item of a move in flight: the hash of its key, and whether a key of that hash was struck since
/// the move began.
#[derive(Clone, Copy)]
pub(crate) struct Mark {
    pub(crate) hash: u64,
    pub(crate) struck: bool,
}

impl Mark {
    ghost use Rattle.klog.specs.Log.{Shape};
    ghost use Rattle.mover.specs.Flight.{fresh_mark, mark_struck};

    /// The mark of a record of which no key was struck.
    pub(crate) fn of(entry: &Record) -> Mark
        ensures { (shape : Shape) → result ≡ fresh_mark shape entry.now }
    {
        Mark {
            hash: hash(entry.key.bytes()),
            struck: false,
        }
    }

    /// The mark once a key of this hash is struck.
    pub(crate) fn after_strike(self, hash: u64) -> Mark
        ensures { result ≡ mark_struck hash self }
    {
        Mark {
            struck: self.struck || self.hash == hash,
            ..self
        }
    }
}
