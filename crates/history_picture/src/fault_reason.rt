// The reason that a fault of a certificate is.
ghost use Rattle.std.specs.Prelude.{◌≡◌, ◌↔◌, IsTrue, Some, slice_get, ℕ};
ghost use Rattle.history_picture.specs.Places.{IsEarlier, IsOutOfOrder, IsReasonOf, IsWrongHit, PrecedesAt};

use crate::call_at::call_at;
use crate::latest_of::latest_of;
use crate::reason::Reason;
use certificate_checker::Fault;
use trace_file::{Certificate, History};

impl Reason {
    /// The reason that a fault of a history with its certificate is, with the calls that show it. A place that the
    /// certificate has not is treated as one of a call that is not there.
    pub fn of_fault(history: &History, certificate: &Certificate, fault: Fault) -> Reason
        ensures { IsReasonOf history.now certificate.now fault result }
    {
        match fault {
            Fault::BadInterval { position } => {
                Reason::Interval(u32::try_from(position).unwrap_or(u32::MAX))
            }
            Fault::WrongCount => Reason::WrongCount,
            Fault::NotAPlace { place } => Reason::NotAPlace(place, position_at(certificate, place)),
            Fault::Repeated { place } => Reason::Repeated(place, position_at(certificate, place)),
            Fault::OutOfOrder { place } => out_of_order(history, certificate, place),
            Fault::WrongHit { place } => wrong_hit(history, certificate, place),
        }
    }
}

/// The position at a place, 2^32 - 1 if the certificate has not the place.
fn position_at(certificate: &Certificate, place: usize) -> u32
    ensures { (position : ℕ) → slice_get certificate.now place ≡ Some position
        → result ≡ position }
{
    if place < certificate.len() {
        certificate.at(place)
    } else {
        u32::MAX
    }
}

/// The reason for a call at a place that is out of order.
fn out_of_order(history: &History, certificate: &Certificate, place: usize) -> Reason
    ensures { (position : ℕ) → slice_get certificate.now place ≡ Some position
        → IsOutOfOrder history.now certificate.now place position result }
{
    let position = position_at(certificate, place);
    let earlier = preceded(history, certificate, place, position).unwrap_or(position);
    Reason::OutOfOrder(place, position, earlier)
}

/// The reason for a hit at a place that is wrong.
fn wrong_hit(history: &History, certificate: &Certificate, place: usize) -> Reason
    ensures { (position : ℕ) → slice_get certificate.now place ≡ Some position
        → IsWrongHit history.now certificate.now place position result }
{
    let position = position_at(certificate, place);
    let latest = latest_of(history, certificate, place, position);
    Reason::WrongHit(place, position, latest)
}

/// The first call before a place that this one precedes.
fn preceded(history: &History, certificate: &Certificate, place: usize, call: u32) -> Option<u32>
    ensures { IsEarlier history.now certificate.now place call result }
{
    for earlier in 0..place.min(certificate.len()) {
        let position = certificate.at(earlier);
        if precedes(history, call, position) {
            return Some(position);
        }
    }
    None
}

/// Whether the call at a position ended before the one at another started.
fn precedes(history: &History, one: u32, other: u32) -> bool
    ensures { IsTrue result ↔ PrecedesAt history.now one other }
{
    let Some(one) = call_at(history, one) else {
        return false;
    };
    let Some(other) = call_at(history, other) else {
        return false;
    };
    one.end < other.start
}
