// The rule of a book, and what its steps tell.
use crate::lanes::KeyLanes;
use crate::written::Written;
use logbook::{Gain, Opening, Play, Rule};
use std::marker::PhantomData;

/// The rule of a book: it has a word for each lane, which is the number of the lane's writes in its list.
pub struct Law<L: KeyLanes> {
    of: PhantomData<L>,
}

impl<L: KeyLanes> Rule<Written, u64> for Law<L> {
    ghost use Rattle.std.specs.Prelude.{[]};
    ghost use base.Fml.{ftrue};
    ghost use Rattle.deed_book.specs.Rules.{IsKept};

    ghost holds = { λ cells log. IsKept L.lanes L.lane_of cells log };

    ghost first = { [] };

    ghost hinted = { λ n log. Unit {0} };

    ghost shows = { λ log. [] };

    ghost keeps = { λ names log. ftrue };

    ghost moves = { λ ask before after answer. Unit {0} };
}

/// A book begins with no write.
pub struct Empty;

impl Opening<(), Written> for Empty {
    ghost use Rattle.std.specs.Prelude.{[]};

    ghost log = { λ lanes about. [] };
}

/// Callers trade nothing.
pub struct Nothing;

impl Gain<Written, u64> for Nothing {
    ghost use base.Fml.{ftrue};

    ghost after = { λ names about answer. ftrue };
}

/// A step that looks.
pub struct Look<L: KeyLanes> {
    of: PhantomData<L>,
}

impl<L: KeyLanes> Play<Written, u64> for Look<L> {
    ghost use Rattle.deed_book.specs.Rules.{Looks};

    ghost then = { Looks L.lane_of };
}

/// A step that enters a write.
pub struct Enter<L: KeyLanes> {
    of: PhantomData<L>,
}

impl<L: KeyLanes> Play<Written, u64> for Enter<L> {
    ghost use Rattle.deed_book.specs.Rules.{Enters};

    ghost then = { Enters L.lane_of };
}
