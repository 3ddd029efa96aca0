// Finding a certificate for a history that brings none.
ghost use Rattle.std.specs.Prelude.{◌≢◌, ◌<◌, ◌^◌, List, [], All, IfOk, length};
ghost use Rattle.trace_file.specs.declared.call.Call.{Call};
ghost use Rattle.certificate_checker.specs.Acceptance.{IsAccepted};
ghost use Rattle.certificate_finder.specs.Finding.{AreForward, AreUndecided, IfAccepted, IfRejected, IfUndecided, IsFound, IsToldFirst};
ghost use Rattle.certificate_finder.specs.Owning.{AreSureOwners};
ghost use Rattle.certificate_finder.specs.Putting.{ArePuts};
ghost use Rattle.certificate_finder.specs.Steps.{AreSteps, IsFit};
ghost use Rattle.certificate_finder.specs.Witnesses.{IsWitness};
ghost use Rattle.certificate_finder.specs.Zones.{AreUncrossed};

use crate::crossings::crossings_of;
use crate::deciding::certificate_by_rules;
use crate::excuses::excluded_of;
use crate::found::Found;
use crate::hit_reads::HitReads;
use crate::hits::hit_reads_of;
use crate::items::item_at;
use crate::line::certificate_by_zones;
use crate::numbered_call::NumberedCall;
use crate::numbering::steps_of;
use crate::owning::Owners;
use crate::put::Put;
use crate::reversed::reversed_of;
use crate::unread::first_unread_of;
use crate::witness::Witness;
use crate::zoning::zones_of;
use std::alloc::{AllocError, Global};
use std::hash::{BuildHasher, BuildHasherDefault, FoldHasher};
use trace_file::History;

/// The most calls of a history that is looked at.
pub const MAX_CALLS: usize = 2147483647;

/// Finds a certificate for a history, or a reason why there can be none, or the hits for which nothing was decided.
///
/// A history that has several reasons is told of the first call that ends before it starts. If there is none, it is told of
/// the hit that can have read no put and ends first, or of those that end at one stamp the first one in the history. It is told
/// of crossed writes only if it has neither. It is told of a hit that several puts fit, and that would cross two writes whichever of them
/// it read, only if it has nothing else and no rule gives a certificate: of the one that ends first. `find_faults` lists all.
///
/// A hit can have read a put of its key and value that began before the hit ended and had not expired at its moment,
/// and after which no write of the key lies that ended before the hit began. If each hit can have read at most one, it
/// is decided. Otherwise five rules choose a put for each other hit, one rule after the other. Each key takes the first one by
/// whose choice no two of its writes each have to stand before the other, until each key has one. If a key has none, each such hit is
/// looked at: nothing is decided only if it can have read a put without crossing it with another write.
///
/// Its time is `n log n` for `n` calls if the keys and values were not picked to be slow: the map that it numbers them
/// by hashes them by a seed that anyone can read. Whoever judges a stranger's history calls `find_with_hasher`. Each
/// rule that is tried takes as much again, and for each hit a step for each put that overlaps those it can have read:
/// many if many long puts of one key have one value. It takes about 250 bytes a call, and copies no key and no value. `AllocError` comes if memory was refused, and if there
/// are more than `MAX_CALLS` calls.
pub fn find(alloc: Global, history: &History) -> Result<Found, AllocError>
    ensures accepted { IfOk result (λ found. IfAccepted found (IsAccepted history.now)) }
    ensures rejected { IfOk result (λ found. IfRejected found (IsWitness history.now)) }
    ensures first { IfOk result (λ found. IfRejected found (IsToldFirst history.now)) }
    ensures undecided { IfOk result (λ found. IfUndecided found (AreUndecided history.now)) }
{
    let known: BuildHasherDefault<FoldHasher> = BuildHasherDefault::new();
    match find_with_hasher(alloc, known, history) {
        Ok(found) => Ok(found),
        Err(refused) => Err(refused),
    }
}

/// The same with keys and values hashed by `hash_builder`, such as a `RandomState` of the runtime, whose seed was
/// unknown to whoever wrote the history.
pub fn find_with_hasher<S: BuildHasher + Drop>(
    alloc: Global,
    hash_builder: S,
    history: &History,
) -> Result<Found, AllocError>
    ensures accepted { IfOk result (λ found. IfAccepted found (IsAccepted history.now)) }
    ensures rejected { IfOk result (λ found. IfRejected found (IsWitness history.now)) }
    ensures first { IfOk result (λ found. IfRejected found (IsToldFirst history.now)) }
    ensures undecided { IfOk result (λ found. IfUndecided found (AreUndecided history.now)) }
{
    if history.len() > MAX_CALLS {
        return Err(AllocError);
    }
    let reversed = reversed_of(alloc, history)?;
    let bad = reversed.as_slice();
    if !bad.is_empty() {
        let first = item_at(bad, 0);
        return Ok(Found::Rejected(Witness::Interval(first)));
    }
    let steps = steps_of(alloc, hash_builder, history)?;
    match found_of(alloc, steps.as_slice()) {
        Ok(found) => Ok(found),
        Err(refused) => Err(refused),
    }
}

/// What is found for a history whose calls are in numbers.
fn found_of(alloc: Global, steps: &[NumberedCall]) -> Result<Found, AllocError>
    requires few { length steps.now < 2 ^ 31 }
    requires fit { All IsFit steps.now }
    ensures { IfOk result (λ found. (history : List Call) → AreSteps history steps.now
        → AreForward history → IsFound history found) }
{
    let reads = hit_reads_of(alloc, steps)?;
    let HitReads {
        puts,
        owners,
        wrong,
    } = reads;
    let listed = wrong.as_slice();
    if !listed.is_empty() {
        let first = item_at(listed, 0);
        let excluded = excluded_of(alloc, steps, puts.as_slice(), first.position)?;
        return Ok(Found::Rejected(Witness::Hit(first.position, excluded)));
    }
    match arranged(alloc, steps, puts, owners) {
        Ok(found) => Ok(found),
        Err(refused) => Err(refused),
    }
}

/// What is found if each call has its owner.
fn arranged(
    alloc: Global,
    steps: &[NumberedCall],
    puts: Vec<Put>,
    owners: Owners,
) -> Result<Found, AllocError>
    requires few { length steps.now < 2 ^ 31 }
    requires fit { All IsFit steps.now }
    requires puts { ArePuts steps.now puts.items }
    requires owners { AreSureOwners steps.now (length steps.now) owners.owners.items owners.unsure.items }
    ensures { IfOk result (λ found. (history : List Call) → AreSteps history steps.now
        → AreForward history → IsFound history found) }
{
    let Owners { owners, unsure, .. } = owners;
    let owned = owners.as_slice();
    let zones = zones_of(alloc, steps, owned)?;
    let listed = zones.as_slice();
    let crossings = crossings_of(alloc, listed)?;
    let crossed = crossings.as_slice();
    if !crossed.is_empty() {
        let first = item_at(crossed, 0);
        return Ok(Found::Rejected(first.witness()));
    }
    let doubtful = unsure.as_slice();
    if doubtful.is_empty() {
        drop(puts);
        let certificate = certificate_by_zones(alloc, steps, owned, zones)?;
        return Ok(Found::Accepted(certificate));
    }
    match chosen(alloc, steps, puts.as_slice(), owned, unsure) {
        Ok(found) => Ok(found),
        Err(refused) => Err(refused),
    }
}

/// What is found if hits can have read several puts, and no two writes are crossed without them.
fn chosen(
    alloc: Global,
    steps: &[NumberedCall],
    puts: &[Put],
    owners: &[u32],
    unsure: Vec<u32>,
) -> Result<Found, AllocError>
    requires few { length steps.now < 2 ^ 31 }
    requires fit { All IsFit steps.now }
    requires puts { ArePuts steps.now puts.now }
    requires owners { AreSureOwners steps.now (length steps.now) owners.now unsure.items }
    requires some { unsure.items ≢ [] }
    requires uncrossed { AreUncrossed steps.now owners.now }
    ensures { IfOk result (λ found. (history : List Call) → AreSteps history steps.now
        → AreForward history → IsFound history found) }
{
    let doubtful = unsure.as_slice();
    let by_rules = certificate_by_rules(alloc, steps, owners, doubtful)?;
    if let Some(certificate) = by_rules {
        return Ok(Found::Accepted(certificate));
    }
    match first_unread_of(alloc, steps, puts, owners, doubtful)? {
        Some(first) => Ok(Found::Rejected(Witness::Unread(first))),
        None => Ok(Found::Undecided(unsure)),
    }
}
