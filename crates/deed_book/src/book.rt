// A book that begins.
ghost use Rattle.std.specs.Prelude.{◌≡◌, ◌+◌, ◌<◌, []};

use crate::lanes::{BookName, KeyLanes};
use crate::register::Register;
use crate::rule::{Empty, Law};
use crate::seat::Seat;
use crate::written::Written;
use logbook::{Pens, Seen, Start, Word};
use std::marker::{Model, PhantomData};

/// A book with no write, which has no name yet.
#[derive(Drop)]
pub struct UnnamedBook<L: KeyLanes> {
    seen: Seen<Written, u64, Law<L>>,
    pens: Pens,
}

impl<L: KeyLanes> Model for UnnamedBook<L> {
    ghost use Rattle.logbook.specs.Pages.{Book, book_coded};
    ghost use Rattle.deed_book.specs.Registers.{HandsOut};

    ghost Value = { Book };

    ghost coded = { book_coded };

    ghost view = { λ b. b.seen.book };

    ghost invariant = { λ b. HandsOut L.lanes b.seen.book 0 b.seen.book b.seen.names b.seen.log
        b.pens.book b.pens.next b.pens.left };
}

impl<L: KeyLanes> UnnamedBook<L> {
    /// A book for this many lanes.
    pub fn open(lanes: usize) -> UnnamedBook<L>
        requires { lanes ≡ L.lanes }
    {
        let (seen, pens) = Seen::open_row::<(), Empty>(&(), Start::alone(), lanes);
        UnnamedBook { seen, pens }
    }

    /// The book with a name.
    pub fn with_name<J: BookName>(self) -> NamedBook<L, J>
        requires { self ≡ J.book }
        ensures { result ≡ 0 }
    {
        let UnnamedBook { seen, pens } = self;
        NamedBook {
            given: 0,
            seen,
            pens,
            of: PhantomData,
        }
    }
}

/// A book with no write, which hands out a register for each lane in turn, once. Contracts see it as how many it has handed out.
#[derive(Drop)]
pub struct NamedBook<L: KeyLanes, J: BookName> {
    given: usize,
    seen: Seen<Written, u64, Law<L>>,
    pens: Pens,
    of: PhantomData<J>,
}

impl<L: KeyLanes, J: BookName> Model for NamedBook<L, J> {
    ghost use Rattle.std.specs.Prelude.{ℕ};
    ghost use Rattle.deed_book.specs.Registers.{HandsOut};

    ghost Value = { ℕ };

    ghost view = { λ b. b.given };

    ghost invariant = { λ b. HandsOut L.lanes J.book b.given b.seen.book b.seen.names b.seen.log
        b.pens.book b.pens.next b.pens.left };
}

impl<L: KeyLanes, J: BookName> NamedBook<L, J> {
    /// A seat that has seen nothing.
    pub fn seat(&self) -> Seat<L, J>
        ensures { result ≡ [] }
    {
        Seat {
            seen: self.seen.again(),
            of: PhantomData,
        }
    }

    /// The register of the next lane.
    pub fn register(&mut self) -> Register<L, J>
        requires { self.old < L.lanes }
        ensures register { result ≡ record { number = self.old; deeds = [] } }
        ensures given { self.new ≡ self.old + 1 }
    {
        let number = self.given;
        let mut pen = self.pens.take();
        let head = Word::tracked(0, &mut pen);
        self.given += 1;
        Register::begun(number, head, self.seen.again())
    }
}
