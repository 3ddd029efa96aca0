// Why a call with a seat is refused.
ghost use Rattle.std.specs.Prelude.{◌≡◌};
ghost use Rattle.service_cache.specs.declared.seat_fault.SeatFault.TheVariants as seat_faults;
ghost use Rattle.service_cache.specs.declared.seat_fault.SeatPutFault.TheVariants as put_faults;
ghost use Rattle.service_cache.specs.Refusals.{RefusesGet, RefusesRemoval};

use deed_book::EntryFault;
use record_pages::{Key, KeyFault, PutFault};
use thiserror::Error;

/// Why a get or a removal with a seat is refused.
#[derive(Clone, Copy, Debug, PartialEq, Eq, Error)]
pub enum SeatFault {
    /// The bytes are no key's.
    #[error("{0}")]
    Key(KeyFault),
    /// The lane's word shows another's writes, or has no room for more. It never comes while only one cache has the book.
    #[error("{0}")]
    Book(EntryFault),
}

impl SeatFault {
    /// Why a call of these bytes is refused whose lane shows writes of another register: what the bytes are refused for comes
    /// first.
    pub fn foreign(key: &[u8]) -> SeatFault
        ensures get { RefusesGet key.now result }
        ensures removal { RefusesRemoval key.now result }
    {
        if key.is_empty() {
            return SeatFault::Key(KeyFault::KeyEmpty);
        }
        if key.len() > Key::MAX_LEN {
            return SeatFault::Key(KeyFault::KeyTooLong);
        }
        SeatFault::Book(EntryFault::Foreign)
    }
}

/// Why a put or a fill with a seat is refused.
#[derive(Clone, Copy, Debug, PartialEq, Eq, Error)]
pub enum SeatPutFault {
    /// The store refused the object.
    #[error("{0}")]
    Put(PutFault),
    /// The lane's word shows another's writes, or has no room for more. It never comes while only one cache has the book.
    #[error("{0}")]
    Book(EntryFault),
}

impl From<KeyFault> for SeatFault {
    ghost from_gives = { λ f e. e ≡ seat_faults.Key f };

    fn from(fault: KeyFault) -> SeatFault {
        SeatFault::Key(fault)
    }
}

impl From<EntryFault> for SeatFault {
    ghost from_gives = { λ f e. e ≡ seat_faults.Book f };

    fn from(fault: EntryFault) -> SeatFault {
        SeatFault::Book(fault)
    }
}

impl From<PutFault> for SeatPutFault {
    ghost from_gives = { λ f e. e ≡ put_faults.Put f };

    fn from(fault: PutFault) -> SeatPutFault {
        SeatPutFault::Put(fault)
    }
}

impl From<EntryFault> for SeatPutFault {
    ghost from_gives = { λ f e. e ≡ put_faults.Book f };

    fn from(fault: EntryFault) -> SeatPutFault {
        SeatPutFault::Book(fault)
    }
}
