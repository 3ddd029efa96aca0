// A lane's register in a book.
ghost use Rattle.std.specs.Prelude.{◌≡◌, ◌≤◌, ◌<◌, ◌^◌, ◌↔◌, [], length, Err, IfErr, OnOk, OnErr};
ghost use mathlib.Core.List.{IsPrefix};
ghost use Rattle.trace_file.specs.declared.act.Act.{Act};
ghost use Rattle.deed_book.specs.Rules.{head_of};
ghost use Rattle.deed_book.specs.Parts.{part_of};
ghost use Rattle.deed_book.specs.Registers.{Catches, EntersIn};
ghost use Rattle.deed_book.specs.declared.register.EntryFault.{EntryFault};

use crate::lanes::{BookName, KeyLanes};
use crate::offered_write::{Asks, OfferedWrite, Putting, Removing};
use crate::rule::{Enter, Law, Look, Nothing};
use crate::seat::Seat;
use crate::written::Written;
use logbook::{Seen, Word};
use record_pages::{Key, Value};
use std::marker::{Model, PhantomData};
use thiserror::Error;

/// The most writes that a lane enters.
pub const MAX_WRITES: u64 = 1 << 62;

/// Why a write is not entered, or a list is not known to the end.
#[derive(Clone, Copy, Debug, PartialEq, Eq, Error)]
pub enum EntryFault {
    /// The word of the lane shows writes that the register did not enter. It never comes, since only the register has the
    /// word; but no proof says so. A seat of another book is no cause: its type is another.
    #[error("another register has entered writes of this lane")]
    Foreign,
    /// The lane has entered `MAX_WRITES`.
    #[error("the book has no room for another write of this lane")]
    Full,
}

/// A lane's register in a book: its number, and what it has seen of the list of all writes, in which each of its lane's is
/// its own.
#[derive(Drop)]
pub struct Register<L: KeyLanes, J: BookName> {
    number: usize,
    written: u64,
    head: Word<Written, u64, Law<L>>,
    seen: Seen<Written, u64, Law<L>>,
    of: PhantomData<J>,
}

impl<L: KeyLanes, J: BookName> Model for Register<L, J> {
    ghost use Rattle.deed_book.specs.Registers.{Registered, IsRegister};

    ghost Value = { Registered };

    ghost view = { λ r. record { number = r.number; deeds = r.seen.log } };

    ghost invariant = { λ r. IsRegister L.lanes L.lane_of J.book r.number r.written r.head r.seen.book
        r.seen.names r.seen.log };
}

impl<L: KeyLanes, J: BookName> Register<L, J> {
    // The register of a lane that has entered nothing.
    pub(crate) fn begun(
        number: usize,
        head: Word<Written, u64, Law<L>>,
        seen: Seen<Written, u64, Law<L>>,
    ) -> Register<L, J>
        requires number { number < L.lanes }
        requires head { head ≡ head_of J.book number }
        requires seen { (seen.book ≡ J.book) × (seen.names ≡ []) × (seen.log ≡ []) }
        ensures { result ≡ record { number = number; deeds = [] } }
    {
        Register {
            number,
            written: 0,
            head,
            seen,
            of: PhantomData,
        }
    }

    /// The number of its lane.
    pub fn number(&self) -> usize
        ensures number { result ≡ self.now.number }
        ensures within { result < L.lanes }
    {
        self.number
    }

    /// A seat that has seen what it has seen.
    pub fn seat(&self) -> Seat<L, J>
        ensures { result ≡ self.now.deeds }
    {
        Seat {
            seen: self.seen.again(),
            of: PhantomData,
        }
    }

    /// A put that is to be entered.
    pub fn put(&self, key: &Key, value: &Value, expires: u64) -> OfferedWrite<L>
        ensures { result ≡ record { key = key.now; act = Act.Put value.now expires } }
    {
        OfferedWrite {
            offer: self.seen.plain::<Nothing, Putting, Asks>(&Putting {
                key,
                value,
                expires,
            }),
        }
    }

    /// A removal that is to be entered.
    pub fn removal(&self, key: &[u8]) -> OfferedWrite<L>
        ensures { result ≡ record { key = key.now; act = Act.Remove } }
    {
        OfferedWrite {
            offer: self
                .seen
                .plain::<Nothing, Removing, Asks>(&Removing { key }),
        }
    }

    /// Sees the list as it is, and so does the seat. The writes of its lane are those that it had seen, or it is refused as
    /// `Foreign`.
    pub fn look(&mut self, seat: &mut Seat<L, J>) -> Result<(), EntryFault>
        ensures seen { OnOk result (Catches L.lane_of self.old seat.old self.new seat.new) }
        ensures cause { IfErr result (λ fault. fault ≡ EntryFault.Foreign) }
        ensures refused { OnErr result ((self.new ≡ self.old) × (seat.new ≡ seat.old)) }
    {
        let mut seen = self.joined(seat);
        let mut offer = seen.plain::<Nothing, Removing, Asks>(&Removing { key: &[] });
        let found = self.head.load::<Look<L>, Nothing>(&mut seen, &mut offer);
        if found != self.written {
            return Err(EntryFault::Foreign);
        }
        seat.seen = seen.again();
        self.seen = seen;
        Ok(())
    }

    /// Enters a write of a key of its lane after all that it and the seat have seen, and both have seen it then. It is `Full`
    /// exactly if the lane has entered `MAX_WRITES`.
    pub fn enter(
        &mut self,
        seat: &mut Seat<L, J>,
        mut entry: OfferedWrite<L>,
    ) -> Result<(), EntryFault>
        requires { L.lane_of entry.key ≡ self.old.number }
        ensures entered { OnOk result (EntersIn L.lane_of self.old seat.old entry self.new seat.new) }
        ensures full { (result ≡ Err EntryFault.Full)
            ↔ (2 ^ 62 ≤ length (part_of L.lane_of self.old.number self.old.deeds)) }
        ensures refused { OnErr result ((self.new ≡ self.old) × (seat.new ≡ seat.old)) }
    {
        let written = self.written;
        if written >= MAX_WRITES {
            return Err(EntryFault::Full);
        }
        let mut seen = self.joined(seat);
        let mut pen = seen.no_pen();
        let found = self.head.compare_exchange::<Enter<L>, Nothing>(
            written,
            written + 1,
            &mut seen,
            &mut entry.offer,
            &mut pen,
        );
        if found != written {
            return Err(EntryFault::Foreign);
        }
        seat.seen = seen.again();
        self.seen = seen;
        self.written = written + 1;
        Ok(())
    }

    // What both it and a seat have seen.
    fn joined(&self, seat: &Seat<L, J>) -> Seen<Written, u64, Law<L>>
        ensures book { result.book ≡ J.book }
        ensures alone { result.names ≡ [] }
        ensures ours { IsPrefix self.now.deeds result.log }
        ensures theirs { IsPrefix seat.now result.log }
    {
        let mut seen = self.seen.again();
        seen.learn(&seat.seen);
        seen
    }
}
