// The last turn that a lane was given.
ghost use Rattle.std.specs.Prelude.{◌≡◌};
ghost use Rattle.turn_register.specs.Following.{no_turn, follows, last_after};

use crate::turn::{ALL_HIDDEN, GIVES, RegisterTurn};

/// What the turns were that a lane was given.
#[derive(Clone, Copy)]
pub struct LastTurn {
    /// The moment of the last.
    pub moment: u64,
    /// The greatest number of a flush that one had.
    pub flushed: u64,
    /// The last number that one gave.
    pub cas: u64,
}

impl LastTurn {
    /// A lane was given none yet.
    pub const fn none() -> LastTurn
        ensures { result ≡ no_turn }
    {
        LastTurn {
            moment: 0,
            flushed: 0,
            cas: 0,
        }
    }

    /// Whether a turn may follow: it is whole and no flush, its moment is not before the last one, the flush that it saw is not before one
    /// that was seen, and a number that it gives is above the last one and above that of its flush.
    pub fn is_followed_by(&self, turn: &RegisterTurn) -> bool
        ensures { result ≡ follows self.now turn.now }
    {
        turn.at == 0
            && turn.kind <= GIVES
            && self.moment <= turn.moment
            && (turn.flushed == ALL_HIDDEN || self.flushed <= turn.flushed)
            && (turn.kind != GIVES || self.cas < turn.cas && turn.flushed < turn.cas)
    }

    /// The same after a turn that follows.
    pub fn after(&self, turn: &RegisterTurn) -> LastTurn
        ensures { result ≡ last_after self.now turn.now }
    {
        LastTurn {
            moment: turn.moment,
            flushed: if turn.flushed == ALL_HIDDEN {
                self.flushed
            } else {
                turn.flushed
            },
            cas: if turn.kind == GIVES {
                turn.cas
            } else {
                self.cas
            },
        }
    }
}
