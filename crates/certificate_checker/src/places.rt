// The two passes of the check: over a history for its intervals, over the places of its certificate.
ghost use Rattle.std.specs.Prelude.{◌≡◌, ◌<◌, IfOk};
ghost use Rattle.certificate_checker.specs.Faults.{IsFirstBadInterval, IsFirstOfPlaces};

use crate::fault::Fault;
use crate::lent_value::LentValue;
use crate::values::{allows, note};
use std::alloc::{AllocError, Global};
use std::collections::HashMap;
use std::hash::BuildHasher;
use trace_file::{Certificate, History, LentWord};

/// The position of the first call that ends before it starts.
pub(crate) fn bad_interval(history: &History) -> Option<usize>
    ensures { IsFirstBadInterval history.now result }
{
    for position in 0..history.len() {
        let call = history.at(position);
        if call.end < call.start {
            return Some(position);
        }
    }
    None
}

/// The first fault of the places in order, with keys hashed by `hash_builder`.
pub(crate) fn first_fault_of_places<S: BuildHasher + Drop>(
    alloc: Global,
    hash_builder: S,
    history: &History,
    certificate: &Certificate,
) -> Result<Option<Fault>, AllocError>
    ensures { IfOk result (λ found. IsFirstOfPlaces history.now certificate.now found) }
{
    let mut seen = vec![in alloc; false; history.len()]?;
    let mut greatest_start = 0;
    let mut values: HashMap<LentWord<'_>, LentValue<'_>, S> = HashMap::with_hasher(
        alloc,
        hash_builder,
    );
    for place in 0..certificate.len() {
        let position = certificate.at(place) as usize;
        if position >= history.len() {
            return Ok(Some(Fault::NotAPlace { place }));
        }
        if seen[position] {
            return Ok(Some(Fault::Repeated { place }));
        }
        seen[position] = true;
        let call = history.at(position);
        if call.end < greatest_start {
            return Ok(Some(Fault::OutOfOrder { place }));
        }
        greatest_start = greatest_start.max(call.start);
        if !allows(&values, call) {
            return Ok(Some(Fault::WrongHit { place }));
        }
        note(&mut values, call)?;
    }
    Ok(None)
}
