// The line that tells a verdict.
ghost use Rattle.std.specs.Prelude.{◌≡◌, IfOk, string_bytes};
ghost use Rattle.certificate_checker.specs.VerdictLine.{verdict_line, TellsVerdict};

use crate::acceptance::check_with_hasher;
use crate::verdict::Verdict;
use std::alloc::{AllocError, Global};
use std::hash::{BuildHasher, BuildHasherDefault, FoldHasher};
use trace_file::{Certificate, History};

/// The line that tells the verdict on a history and its certificate, without a line feed:
/// `accepted N calls`, or `rejected` with the first fault. `AllocError` comes if memory was refused.
/// As `check`, it is for histories whose keys were not picked to be slow.
pub fn verdict_line_of(
    alloc: Global,
    history: &History,
    certificate: &Certificate,
) -> Result<String, AllocError>
    ensures { IfOk result (λ line. TellsVerdict history.now certificate.now (string_bytes line)) }
{
    let known: BuildHasherDefault<FoldHasher> = BuildHasherDefault::new();
    match verdict_line_with_hasher(alloc, known, history, certificate) {
        Ok(line) => Ok(line),
        Err(refused) => Err(refused),
    }
}

/// The same with keys hashed by `hash_builder`: see `check_with_hasher`.
pub fn verdict_line_with_hasher<S: BuildHasher + Drop>(
    alloc: Global,
    hash_builder: S,
    history: &History,
    certificate: &Certificate,
) -> Result<String, AllocError>
    ensures { IfOk result (λ line. TellsVerdict history.now certificate.now (string_bytes line)) }
{
    let verdict = check_with_hasher(alloc, hash_builder, history, certificate)?;
    match verdict.line(alloc, history.len()) {
        Ok(line) => Ok(line),
        Err(refused) => Err(refused),
    }
}

impl Verdict {
    /// The line of a verdict on this many calls, without a line feed: `accepted N calls`, or `rejected` with the first
    /// fault. `AllocError` comes if memory was refused.
    pub fn line(self, alloc: Global, calls: usize) -> Result<String, AllocError>
        ensures { IfOk result (λ line. string_bytes line ≡ verdict_line self calls) }
    {
        match self {
            Verdict::Accepted => format!(in alloc; "accepted {calls} calls"),
            Verdict::Rejected(fault) => format!(in alloc; "rejected {fault}"),
        }
    }
}
