// Why a history and a certificate are rejected.
ghost use Rattle.std.specs.Prelude.{◌≡◌, Some};

use std::fmt;

/// A fault of a history with its certificate.
///
/// Intervals are tested first, over all calls, then the count, then the places in order, with the four
/// tests at each place in the order of the variants.
#[derive(Clone, Copy, PartialEq, Eq)]
pub enum Fault {
    /// The call at this position ends before it starts.
    BadInterval { position: usize },
    /// There are not as many places as calls.
    WrongCount,
    /// The position at this place is not below the number of calls.
    NotAPlace { place: usize },
    /// The position at this place stands at an earlier one too.
    Repeated { place: usize },
    /// The call at this place ends before a call at an earlier one starts.
    OutOfOrder { place: usize },
    /// The call at this place hits a value that is not its key's latest, or has expired at its moment.
    WrongHit { place: usize },
}

impl fmt::Display for Fault {
    ghost use Rattle.certificate_checker.specs.FaultText.{fault_text};

    ghost output = { λ fault. Some (fault_text fault) };

    fn fmt<W: fmt::Write>(&self, f: &mut fmt::Formatter<W>) -> fmt::Result {
        match self {
            Fault::BadInterval { position } => write!(f, "BadInterval position {position}"),
            Fault::WrongCount => write!(f, "WrongCount"),
            Fault::NotAPlace { place } => write!(f, "NotAPlace place {place}"),
            Fault::Repeated { place } => write!(f, "Repeated place {place}"),
            Fault::OutOfOrder { place } => write!(f, "OutOfOrder place {place}"),
            Fault::WrongHit { place } => write!(f, "WrongHit place {place}"),
        }
    }
}
