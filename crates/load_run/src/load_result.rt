// The history that a run made.
ghost use Rattle.std.specs.Prelude.{◌≡◌, All, IfOk, IsTrue, count_by, length};
ghost use Rattle.certificate_checker.specs.Acceptance.{IsAccepted};
ghost use Rattle.load_run.specs.Wholes.{IsWhole, is_short};

use crate::run_crew::RunCrew;
use crate::telling::{operations, tell_step};
use crossbeam_channel::{Receiver, bounded};
use load::{Load, run_crew};
use page_device::PageDevice;
use policy_laws::EvictionPolicy;
use shared_cache::{FinishFault, Finished, Pass, SharedCache};
use std::alloc::{AllocError, Global};
use std::io::{IsTerminal, Write};
use std::sync::Wait;
use std::thread::Threads;
use std::time::Clock;

/// What the callers left: their passes, and how many stopped at a refusal.
#[derive(Drop)]
struct Left {
    passes: Vec<Pass>,
    stopped: usize,
}

/// What the threads of a load made: what is left of their cache, and how many callers stopped at a refusal.
#[derive(Drop)]
pub struct LoadResult<D> {
    /// The history, its certificate, and the devices, in the order of their lanes.
    pub finished: Finished<D>,
    /// Callers that stopped at a refusal.
    pub stopped: usize,
}

/// Runs the threads of a load over a cache that was just opened, and ends the cache.
///
/// Each caller makes its operations in a thread of its own, with one of these passes, and stops at its first refusal; the
/// workers flush and move in each lane beside them, until all callers have ended. A worker for which no thread can be made is
/// left out. The numbers of the cache are its own: of those that the load has for one only that of the lanes has to be the
/// same. How many calls were made is reported to `err` meanwhile, if that is a terminal.
///
/// `OutOfMemory` if memory was refused outside a caller, or a thread to a caller; any other fault is the one for which the cache
/// was not finished, as `MissingPass` if it has more callers than there are passes. The cache, the passes and the devices are
/// dropped with each. Its head is long, since it has five type parameters and six arguments.
pub fn make_history<
    D: PageDevice<PAGE> + Send,
    P: EvictionPolicy + Drop + Sync,
    const PAGE: usize,
    R: Threads + Wait + Sync + Clock,
    E: Write + IsTerminal,
>(
    rt: &R,
    alloc: Global,
    load: &Load,
    cache: SharedCache<D, P, PAGE>,
    passes: Vec<Pass>,
    err: &mut E,
) -> Result<LoadResult<D>, FinishFault>
    requires lanes { load.now.layout.lanes ≡ cache.layout.lanes }
    requires ties { All (λ p. p.sight.clock ≡ cache.clock) passes.items }
    requires callers { length passes.items ≡ load.now.callers }
    ensures accepted { IfOk result (λ made.
        All (λ d. IsTrue (D.honest d)) made.finished.devices.items
        → IsAccepted made.finished.history made.finished.certificate) }
    ensures devices { IfOk result (λ made.
        length made.finished.devices.items ≡ load.now.layout.lanes) }
    ensures whole { IfOk result (λ made.
        IsWhole load.now (length made.finished.history) made.stopped) }
{
    let Ok((to, from)) = bounded::<Pass, _>(alloc, load.callers as usize) else {
        return Err(FinishFault::OutOfMemory);
    };
    let crew = RunCrew {
        alloc,
        cache: &cache,
        load,
    };
    let _ended = run_crew(rt, &crew, passes, load.workers, operations(load), &to, err);
    let Ok(left) = take_left(rt, alloc, load, &from) else {
        return Err(FinishFault::OutOfMemory);
    };
    tell_step(err, load, "laying the calls out");
    match cache.finish(rt, left.passes) {
        Ok(finished) => Ok(LoadResult {
            finished,
            stopped: left.stopped,
        }),
        Err(fault) => Err(fault),
    }
}

/// Takes out the passes that the callers of a load left. `AllocError` if one left none: it had no thread, or no memory to
/// send.
fn take_left<R: Wait>(
    rt: &R,
    alloc: Global,
    load: &Load,
    from: &Receiver<Pass>,
) -> Result<Left, AllocError>
    ensures all { IfOk result (λ left. length left.passes.items ≡ load.now.callers) }
    ensures stopped { IfOk result (λ left.
        left.stopped ≡ count_by (is_short load.now.operations) left.passes.items) }
{
    let mut passes = Vec::with_capacity(alloc, load.callers as usize)?;
    let mut stopped = 0;
    for _ in 0..load.callers {
        let Ok(pass) = from.try_recv(rt) else {
            return Err(AllocError);
        };
        stopped += usize::from(is_short(&pass, load.operations));
        passes.push(pass)?;
    }
    Ok(Left { passes, stopped })
}

/// Whether a pass does not list this many calls: its caller stopped at a refusal.
fn is_short(pass: &Pass, operations: u32) -> bool
    ensures { result ≡ is_short operations pass.now }
{
    pass.len() != operations as usize
}
