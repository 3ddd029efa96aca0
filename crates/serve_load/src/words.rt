// What a caller knows of its keys.
ghost use Rattle.std.specs.Prelude.{◌≡◌, ◌<◌};
ghost use Rattle.serve_load.specs.Words.{step_of_fill, word_after_fill};

use service_cache::SeatPutFault;
use service_lane::Filled;

/// What a caller knows of a key of its own.
#[derive(Clone, Copy, PartialEq, Eq)]
pub struct Known {
    /// The number of the key.
    pub key: u32,
    /// 0 if the key has no value, and otherwise 1 more than the number of the operation that put it.
    pub word: u32,
}

/// How a call of a caller went.
#[derive(Clone, Copy, PartialEq, Eq)]
pub(crate) enum CallEnd {
    /// It was answered, and a hit was right.
    Done,
    /// Memory was refused, and nothing was stored.
    Refused,
    /// A hit was not right, of a key of which this was known.
    WrongHit(Known),
}

impl CallEnd {
    ghost use Rattle.serve_load.specs.Calls.{refusals_of, wrong_of};

    /// What was known of the key of a hit that was not right; none if there was no such hit.
    pub(crate) fn wrong(self) -> Option<Known>
        ensures { result ≡ wrong_of self }
    {
        match self {
            CallEnd::Done | CallEnd::Refused => None,
            CallEnd::WrongHit(known) => Some(known),
        }
    }

    /// How many operations were refused of one that went so.
    pub(crate) fn refusals(self) -> u32
        ensures { result ≡ refusals_of self }
    {
        match self {
            CallEnd::Done | CallEnd::WrongHit(_) => 0,
            CallEnd::Refused => 1,
        }
    }
}

/// The word that a caller knows of a key after its fill in the operation with this number, if it knew this one before.
pub(crate) fn word_after_fill(filled: Result<Filled, SeatPutFault>, known: u32, number: u32) -> u32
    requires { number < 4294967295 }
    ensures { result ≡ word_after_fill filled known number }
{
    match filled {
        Ok(Filled::Stored(_)) => number + 1,
        Ok(Filled::Stale) | Err(_) => known,
    }
}

/// How a fill went.
pub(crate) fn step_of_fill(filled: Result<Filled, SeatPutFault>) -> CallEnd
    ensures { result ≡ step_of_fill filled }
{
    match filled {
        Ok(_) => CallEnd::Done,
        Err(_) => CallEnd::Refused,
    }
}
