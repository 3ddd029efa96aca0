// What a caller has seen of a book.
ghost use Rattle.std.specs.Prelude.{◌≡◌};
ghost use mathlib.Core.List.{IsPrefix};

use crate::lanes::{BookName, KeyLanes};
use crate::rule::Law;
use crate::written::Written;
use logbook::Seen;
use std::marker::{Model, PhantomData};

/// What a caller has seen of a book: a beginning of its list of writes. It has no bytes.
///
/// Whoever hands another a seat, or a copy, hands on what they have seen.
#[derive(Drop)]
pub struct Seat<L: KeyLanes, J: BookName> {
    pub(crate) seen: Seen<Written, u64, Law<L>>,
    pub(crate) of: PhantomData<J>,
}

impl<L: KeyLanes, J: BookName> Model for Seat<L, J> {
    ghost use Rattle.std.specs.Prelude.{◌≡◌, List, []};
    ghost use Rattle.certificate_checker.specs.Deeds.{Deed};

    ghost Value = { List Deed };

    ghost view = { λ s. s.seen.log };

    ghost invariant = { λ s. (s.seen.book ≡ J.book) × (s.seen.names ≡ []) };
}

impl<L: KeyLanes, J: BookName> Seat<L, J> {
    /// A copy.
    pub fn again(&self) -> Seat<L, J>
        ensures { result ≡ self.now }
    {
        Seat {
            seen: self.seen.again(),
            of: PhantomData,
        }
    }

    /// Afterwards it has seen what both have seen.
    pub fn learn(&mut self, other: &Seat<L, J>)
        ensures this { IsPrefix self.old self.new }
        ensures that { IsPrefix other.now self.new }
    {
        self.seen.learn(&other.seen);
    }
}
