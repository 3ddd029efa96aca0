// How many calls of each kind were forgotten.
ghost use Rattle.std.specs.Prelude.{◌≡◌, ◌+◌, ◌≤◌, ◌^◌, [], IfErr, IfOk, OnErr, None, unwrap_or};
ghost use Rattle.judge_run.specs.Kinds.{counts_in};
ghost use Rattle.judge_run.specs.Streams.{AreFewer, IsGrown, IsOver};

use crate::forgotten::Forgotten;
use crate::kinds::calls_of;
use history_text::ReadTextFault;
use trace_file::{CallKind, History};

/// How many calls of each kind a history has.
#[derive(Drop)]
pub(crate) struct KindCounts {
    puts: usize,
    removals: usize,
    hits: usize,
    misses: usize,
}

/// How many calls of each kind a history has.
pub(crate) fn counts_of(history: &History) -> KindCounts
    ensures { result ≡ counts_in history.now }
{
    KindCounts {
        puts: calls_of(history, CallKind::Put),
        removals: calls_of(history, CallKind::Remove),
        hits: calls_of(history, CallKind::Hit),
        misses: calls_of(history, CallKind::Miss),
    }
}

/// A number, and by how much another one became less, if 64 bits can hold the sum.
fn more(count: u64, before: usize, after: usize) -> Result<u64, ReadTextFault>
    requires { after ≤ before }
    ensures sum { IfOk result (λ sum. before + count ≡ after + sum) }
    ensures fault { IfErr result (λ fault. fault ≡ ReadTextFault.CountFull) }
    ensures over { OnErr result (2 ^ 64 ≤ before + count) }
{
    match count.checked_add((before - after) as u64) {
        Some(sum) => Ok(sum),
        None => Err(ReadTextFault::CountFull),
    }
}

/// How many puts were added with these, if 64 bits can hold it.
fn added_with(added: u64, from_start: Option<usize>) -> Result<u64, ReadTextFault>
    ensures sum { IfOk result (λ sum. sum ≡ added + unwrap_or from_start 0) }
    ensures fault { IfErr result (λ fault. fault ≡ ReadTextFault.CountFull) }
    ensures over { OnErr result (2 ^ 64 ≤ added + unwrap_or from_start 0) }
{
    match from_start {
        Some(values) => more(added, values, 0),
        None => Ok(added),
    }
}

/// What was forgotten, with the calls that went, of those that were judged, and the puts that were added to them; if 64 bits can hold
/// each number.
pub(crate) fn grown(
    forgotten: Forgotten,
    before: &KindCounts,
    after: &KindCounts,
    from_start: Option<usize>,
) -> Result<Forgotten, ReadTextFault>
    requires { AreFewer after.now before.now }
    ensures grown { IfOk result (λ more. IsGrown forgotten more before.now after.now from_start) }
    ensures fault { IfErr result (λ fault. fault ≡ ReadTextFault.CountFull) }
    ensures over { OnErr result (IsOver forgotten before.now from_start) }
{
    let puts = more(forgotten.puts, before.puts, after.puts)?;
    let removals = more(forgotten.removals, before.removals, after.removals)?;
    let hits = more(forgotten.hits, before.hits, after.hits)?;
    let misses = more(forgotten.misses, before.misses, after.misses)?;
    let added = added_with(forgotten.added, from_start)?;
    Ok(Forgotten {
        puts,
        removals,
        hits,
        misses,
        added,
    })
}

/// What was forgotten, with these calls too, which wait to be judged; if 64 bits can hold each number.
pub(crate) fn with_waiting(
    forgotten: Forgotten,
    waiting: &History,
) -> Result<Forgotten, ReadTextFault>
    ensures grown { IfOk result (λ more. IsGrown forgotten more (counts_in waiting.now) (counts_in []) None) }
    ensures fault { IfErr result (λ fault. fault ≡ ReadTextFault.CountFull) }
    ensures over { OnErr result (IsOver forgotten (counts_in waiting.now) None) }
{
    let none = KindCounts {
        puts: 0,
        removals: 0,
        hits: 0,
        misses: 0,
    };
    match grown(forgotten, &counts_of(waiting), &none, None) {
        Ok(more) => Ok(more),
        Err(fault) => Err(fault),
    }
}
