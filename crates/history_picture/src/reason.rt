// Why a history, or a history with its certificate, is rejected.
use crate::latest::Latest;
use certificate_finder::{Excluded, Side, UnreadHit, Witness};

/// Why a history is rejected, with a certificate or with none. A place is an index into the certificate, and each other
/// number a position of the history.
#[derive(Drop)]
pub enum Reason {
    /// The call here ends before it starts.
    Interval(u32),
    /// The hit here can have read no put of its key and value: these are all of them, each with what excludes it.
    Hit(u32, Vec<Excluded>),
    /// Two writes of a key, each of which has to stand before the other.
    Crossed(Side, Side),
    /// A hit that can have read several puts, and read none: whichever it read, two writes of its key would be crossed.
    Unread(UnreadHit),
    /// The call at a place precedes another one, at an earlier place: the place, the call, the other.
    OutOfOrder(usize, u32, u32),
    /// The hit at a place is not of its key's latest value there: the place, the hit, the latest.
    WrongHit(usize, u32, Latest),
    /// The position at a place stands at an earlier one too: the place, the position.
    Repeated(usize, u32),
    /// The number at a place is no position: the place, the number.
    NotAPlace(usize, u32),
    /// There are not as many places as calls.
    WrongCount,
}

impl Reason {
    ghost use Rattle.std.specs.Prelude.{◌≡◌};
    ghost use Rattle.history_picture.specs.Reasons.{reason_of};

    /// The reason that a witness is.
    pub fn of_witness(witness: Witness) -> Reason
        ensures { result ≡ reason_of witness }
    {
        match witness {
            Witness::Interval(position) => Reason::Interval(position),
            Witness::Hit(hit, puts) => Reason::Hit(hit, puts),
            Witness::Crossed(one, other) => Reason::Crossed(one, other),
            Witness::Unread(unread) => Reason::Unread(unread),
        }
    }
}
