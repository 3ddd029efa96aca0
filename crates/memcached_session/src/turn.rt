// What a server gives a step.

/// What a server gives a step beside the bytes.
#[repr(C)]
#[derive(Clone, Copy)]
pub struct SessionTurn {
    /// The moment, in seconds since 1970. It may go backwards.
    pub moment: u64,
    /// The number that the last `flush_all` drew, or 0 before the first: an item whose cas unique is below it is not live.
    pub flushed: u64,
    /// A number that no earlier item had: it is the item's if the step stores one. A step whose `Want::Lane` has no `gives_number` does
    /// not look at it.
    pub cas: u64,
    /// Not 0 if the server does not do what the step asks of it, a flush or its end; the answer says so then.
    pub refuses: u32,
    /// 0.
    pub reserved: u32,
}

ghost use Rattle.std.specs.Prelude.{◌≡◌};
ghost use Rattle.memcached_session.specs.Framing.{lane_turn_of};

use crate::lane_turn::LaneTurn;
use item_lane::CommandTurn;

impl SessionTurn {
    /// The same for a step with a lane, with its word of admission.
    pub fn with_word(&self, word: u32) -> LaneTurn
        ensures { result ≡ lane_turn_of self.now word }
    {
        let command = CommandTurn {
            moment: self.moment,
            flushed: self.flushed,
            word,
        };
        LaneTurn {
            command,
            cas: self.cas,
        }
    }
}
