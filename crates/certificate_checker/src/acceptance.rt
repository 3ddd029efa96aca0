// The check of a history and its certificate.
ghost use Rattle.std.specs.Prelude.{◌≡◌, ◌↔◌, IfOk};
ghost use Rattle.certificate_checker.specs.Acceptance.{IsAccepted};
ghost use Rattle.certificate_checker.specs.Faults.{IsFirstFault, IsFirstOrNone};

use crate::fault::Fault;
use crate::places::{bad_interval, first_fault_of_places};
use crate::verdict::Verdict;
use std::alloc::{AllocError, Global};
use std::hash::{BuildHasher, BuildHasherDefault, FoldHasher};
use trace_file::{Certificate, History};

/// Accepts exactly the pairs whose certificate spells an agreeing, lawful order of the history, and
/// answers the first fault of any other pair.
///
/// It makes one pass over the history and one over the certificate, in memory linear in the number of
/// calls, and copies no key and no value. Its time is linear too if the keys were not picked to be
/// slow: the map that it looks keys up in hashes them by a seed that anyone can read. Whoever judges a
/// stranger's history calls `check_with_hasher`.
/// `AllocError` comes if memory was refused.
pub fn check(
    alloc: Global,
    history: &History,
    certificate: &Certificate,
) -> Result<Verdict, AllocError>
    ensures accepted { IfOk result (λ v.
        (v ≡ Verdict.Accepted) ↔ IsAccepted history.now certificate.now) }
    ensures rejected { IfOk result (λ v. (fault : Fault) →
        v ≡ Verdict.Rejected fault → IsFirstFault history.now certificate.now fault) }
{
    let known: BuildHasherDefault<FoldHasher> = BuildHasherDefault::new();
    match check_with_hasher(alloc, known, history, certificate) {
        Ok(verdict) => Ok(verdict),
        Err(refused) => Err(refused),
    }
}

/// The same with keys hashed by `hash_builder`, such as a `RandomState` of the runtime, whose seed
/// was unknown to whoever wrote the history. Then no keys can be picked beforehand that are known to
/// make it slow.
pub fn check_with_hasher<S: BuildHasher + Drop>(
    alloc: Global,
    hash_builder: S,
    history: &History,
    certificate: &Certificate,
) -> Result<Verdict, AllocError>
    ensures accepted { IfOk result (λ v.
        (v ≡ Verdict.Accepted) ↔ IsAccepted history.now certificate.now) }
    ensures rejected { IfOk result (λ v. (fault : Fault) →
        v ≡ Verdict.Rejected fault → IsFirstFault history.now certificate.now fault) }
{
    Ok(
        match first_fault(alloc, hash_builder, history, certificate)? {
            None => Verdict::Accepted,
            Some(fault) => Verdict::Rejected(fault),
        },
    )
}

/// The first fault, if there is one.
fn first_fault<S: BuildHasher + Drop>(
    alloc: Global,
    hash_builder: S,
    history: &History,
    certificate: &Certificate,
) -> Result<Option<Fault>, AllocError>
    ensures { IfOk result (λ found. IsFirstOrNone history.now certificate.now found) }
{
    if let Some(position) = bad_interval(history) {
        return Ok(Some(Fault::BadInterval { position }));
    }
    if certificate.len() != history.len() {
        return Ok(Some(Fault::WrongCount));
    }
    match first_fault_of_places(alloc, hash_builder, history, certificate) {
        Ok(found) => Ok(found),
        Err(refused) => Err(refused),
    }
}
