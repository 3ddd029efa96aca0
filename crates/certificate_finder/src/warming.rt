// Histories whose cache was filled before they begin.
ghost use Rattle.std.specs.Prelude.{◌≡◌, ◌<◌, ◌++◌, All, IfOk, length};
ghost use Rattle.trace_file.specs.Calls.{IsCall};
ghost use Rattle.trace_file.specs.Lent.{call_shown};
ghost use Rattle.certificate_finder.specs.Warming.{IsWarmed, warm_put as put_of_call, warm_puts};

use crate::finding::MAX_CALLS;
use crate::items::item_at;
use crate::numbering::steps_of;
use crate::warm_hits::warm_hits_of;
use crate::warmed::Warmed;
use record_pages::NEVER;
use std::alloc::{AllocError, Global};
use std::hash::{BuildHasher, BuildHasherDefault, FoldHasher};
use trace_file::{ActRef, CallRef, History};

/// The caller of the puts that are added to a history.
pub const WARM_CALLER: u16 = 65535;

/// Warms a history: takes values that its hits read and nobody put as there from the start, one of a key.
///
/// A key's value is that of the first of its hits whose values no put of the key has in the history: the one that starts first,
/// or of those that start at one stamp the first in the history. If a write of the key ended before that hit started, the key has no
/// such value. The values are put by calls that are added after those of the history. They start and end at 0, never expire, and
/// have no line in a recorded text; `hits` says for which hit each was added. No call of the history moves.
///
/// Its time is that of sorting the puts. `find` and `find_faults` then judge the warmed history. If its clocks may differ, widen the
/// history first, and warm it then. `AllocError` comes if memory was refused, and if there are more than `MAX_CALLS` calls.
pub fn warm(alloc: Global, history: History) -> Result<Warmed, AllocError>
    ensures { IfOk result (IsWarmed history) }
{
    let known: BuildHasherDefault<FoldHasher> = BuildHasherDefault::new();
    match warm_with_hasher(alloc, known, history) {
        Ok(warm) => Ok(warm),
        Err(refused) => Err(refused),
    }
}

/// The same with keys and values hashed by `hash_builder`, as for `find_with_hasher`.
pub fn warm_with_hasher<S: BuildHasher + Drop>(
    alloc: Global,
    hash_builder: S,
    history: History,
) -> Result<Warmed, AllocError>
    ensures { IfOk result (IsWarmed history) }
{
    if history.len() > MAX_CALLS {
        return Err(AllocError);
    }
    let steps = steps_of(alloc, hash_builder, &history)?;
    let hits = warm_hits_of(alloc, steps.as_slice())?;
    let puts = warm_puts_of(alloc, &history, hits.as_slice())?;
    match with_puts(alloc, history, &puts) {
        Ok(history) => Ok(Warmed { history, hits }),
        Err(refused) => Err(refused),
    }
}

/// The puts of the values of these hits, before all calls.
fn warm_puts_of(alloc: Global, history: &History, hits: &[u32]) -> Result<History, AllocError>
    requires { All (λ hit. hit < length history.now) hits.now }
    ensures { IfOk result (λ puts. puts ≡ warm_puts history.now hits.now) }
{
    let mut puts = History::new(alloc);
    for index in 0..hits.len() {
        let position = item_at(hits, index);
        let call = history.at(position as usize);
        puts.push_ref(&warm_put(&call))?;
    }
    Ok(puts)
}

/// The put of a call's value, before all calls.
fn warm_put<'a>(call: &CallRef<'a>) -> CallRef<'a>
    requires { IsCall (call_shown call.now) }
    ensures put { call_shown result ≡ put_of_call (call_shown call.now) }
    ensures lawful { IsCall (call_shown result) }
{
    CallRef {
        caller: WARM_CALLER,
        start: 0,
        end: 0,
        key: call.key,
        act: ActRef::Put(call.act.value(), NEVER),
    }
}

/// A history with these puts after its calls.
fn with_puts(alloc: Global, history: History, puts: &History) -> Result<History, AllocError>
    requires { All (λ put. put.end ≡ 0) puts.now }
    ensures { IfOk result (λ warm. warm ≡ history ++ puts.now) }
{
    let mut warm = history;
    let ends = vec![in alloc; 0u64; puts.len()]?;
    warm.extend_ending(puts, ends.as_slice())?;
    Ok(warm)
}
