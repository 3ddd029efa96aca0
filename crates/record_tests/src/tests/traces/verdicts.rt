//! What an accepted verdict says, of any history and certificate: the contract here denies what a wrong body of the checker
//! would accept, or refuse.
ghost use Rattle.std.specs.Prelude.{◌≡◌, ◌≢◌, ◌≤◌, [], All, AllPairs, IfOk};
ghost use Rattle.certificate_checker.specs.Orders.{in_order};
ghost use Rattle.record_tests.specs.HitsLatest.{HitsLatest};

use certificate_checker::{Verdict, check, latest_is_current};
use std::alloc::{AllocError, Global};
use trace_file::{Certificate, History};

/// What is accepted ends no call before its start and lists no position twice. In its order a hit that follows a put of its
/// key, with no write of the key between, has that put's value, live at the hit's moment. A history of no calls is accepted.
/// Of other hits the clause of `check` says the rest.
pub fn check_what_it_accepts(
    alloc: Global,
    history: &History,
    certificate: &Certificate,
) -> Result<Verdict, AllocError>
    ensures forward { IfOk result (λ v.
        v ≡ Verdict.Accepted → All (λ call. call.start ≤ call.end) history.now) }
    ensures once { IfOk result (λ v.
        v ≡ Verdict.Accepted → AllPairs (λ p q. p ≢ q) certificate.now) }
    ensures latest { IfOk result (λ v.
        v ≡ Verdict.Accepted → HitsLatest (in_order history.now certificate.now)) }
    ensures empty { IfOk result (λ v.
        history.now ≡ [] → certificate.now ≡ [] → v ≡ Verdict.Accepted) }
{
    latest_is_current();
    match check(alloc, history, certificate) {
        Ok(verdict) => Ok(verdict),
        Err(refused) => Err(refused),
    }
}
