// What the threads of a load made.
ghost use Rattle.std.specs.Prelude.{◌≡◌, ◌≤◌, ◌<◌, ◌*◌, [], All, IfErr, IfOk, false, length, map, true};
ghost use Rattle.load.specs.Served.{ranks_of};
ghost use Rattle.service_cache.specs.Serving.{lanes_of};
ghost use Rattle.serve_load.specs.Calls.{IsOneOf, IsTally};
ghost use Rattle.serve_load.specs.declared.caller_tally.CallerTally.{CallerTally};
ghost use Rattle.serve_load.specs.Ends.{IsFailure};
ghost use Rattle.serve_load.specs.Reports.{IsMade, IsReportOf};
ghost use Rattle.serve_load.specs.Tallies.{AddUp, upto};

use crate::caller::Caller;
use crate::lane_end::{LaneEnd, lane_ends, total_of};
use crate::report::Report;
use crate::serve_crew::{ServeCrew, operations};
use crate::serve_end::ServeEnd;
use crate::serve_outcome::ServeOutcome;
use crate::sums::{Sums, sums_of};
use crate::tally::{Tally, Tallying};
use crate::told_hit::ToldHit;
use crossbeam_channel::bounded;
use deed_book::{BookName, KeyLanes, Seat};
use load::{Ranks, ServeLoad, SystemFault, ranks_of, run_crew};
use page_device::PageDevice;
use policy_laws::EvictionPolicy;
use service_cache::ServiceCache;
use std::alloc::{AllocError, Global};
use std::io::{IsTerminal, Write};
use std::marker::PhantomData;
use std::sync::Wait;
use std::sync::atomic::AtomicU64;
use std::thread::Threads;
use std::time::{Clock, Instant};

/// What the callers of a load made, and in how many milliseconds.
#[derive(Drop)]
struct Ran {
    sums: Sums,
    milliseconds: u64,
}

/// The report on a load, and the wrong hits at which its callers stopped.
#[derive(Drop)]
pub(crate) struct Reported {
    pub(crate) report: Report,
    pub(crate) hits: Vec<ToldHit>,
}

/// Runs the threads of a load over a cache that was just opened, and says what they made.
///
/// `OutOfMemory` if memory was refused outside a caller, or a thread to a caller, `FileFault` if the clock failed.
pub(crate) fn make<
    D: PageDevice<PAGE> + Send,
    P: EvictionPolicy + Drop + Sync,
    const PAGE: usize,
    L: KeyLanes + Send + Sync,
    J: BookName + Send + Sync,
    M: Tallying + Send + Sync,
    R: Threads + Wait + Sync + Clock,
    E: Write + IsTerminal,
>(
    rt: &R,
    alloc: Global,
    load: &ServeLoad,
    cache: &ServiceCache<D, P, PAGE, L, J>,
    err: &mut E,
) -> Result<Reported, ServeOutcome>
    requires lanes { 0 < lanes_of cache.now }
    requires most { M.most ≡ load.now.operations }
    requires seconds { M.seconds ≡ load.now.seconds }
    requires tallies { (counted : CallerTally) → IsTally load.now counted → M.is_tally counted }
    requires only { (counted : CallerTally) → M.is_tally counted → IsTally load.now counted }
    ensures made { IfOk result (λ made. IsMade load.now made.report made.hits.items) }
    ensures refused { IfErr result (λ ended. IsFailure ended.end) }
{
    let Ok(ranks) = ranks_of(alloc, load) else {
        return Err(ServeOutcome::plain(ServeEnd::OutOfMemory));
    };
    let ran = match run::<D, P, PAGE, L, J, M, R, E>(rt, alloc, load, &ranks, cache, err) {
        Ok(ran) => ran,
        Err(ended) => return Err(ended),
    };
    if lacks_callers(&ran.sums, load) {
        return Err(ServeOutcome::plain(ServeEnd::OutOfMemory));
    }
    let Ok(ends) = lane_ends(rt, alloc, cache) else {
        return Err(ServeOutcome::plain(ServeEnd::OutOfMemory));
    };
    Ok(Reported {
        report: report_of(&ran.sums, ran.milliseconds, &total_of(&ends)),
        hits: ran.sums.hits,
    })
}

/// Runs the callers and workers of a load, and adds up what the callers counted.
fn run<
    D: PageDevice<PAGE> + Send,
    P: EvictionPolicy + Drop + Sync,
    const PAGE: usize,
    L: KeyLanes + Send + Sync,
    J: BookName + Send + Sync,
    M: Tallying + Send + Sync,
    R: Threads + Wait + Sync + Clock,
    E: Write + IsTerminal,
>(
    rt: &R,
    alloc: Global,
    load: &ServeLoad,
    ranks: &Option<Ranks>,
    cache: &ServiceCache<D, P, PAGE, L, J>,
    err: &mut E,
) -> Result<Ran, ServeOutcome>
    requires lanes { 0 < lanes_of cache.now }
    requires ranks { ranks.now ≡ ranks_of load.now }
    requires most { M.most ≡ load.now.operations }
    requires seconds { M.seconds ≡ load.now.seconds }
    requires tallies { (counted : CallerTally) → IsTally load.now counted → M.is_tally counted }
    ensures most { IfOk result (λ ran. ran.sums.operations ≤ load.now.callers * load.now.operations) }
    ensures whole { IfOk result (λ ran. load.now.seconds ≡ 0
        → ran.sums.whole * load.now.operations ≤ ran.sums.operations) }
    ensures sums { IfOk result (λ ran. AddUp M.is_tally load.now.callers
        ran.sums.operations ran.sums.refused ran.sums.whole ran.sums.hits.items) }
    ensures refused { IfErr result (λ ended. IsFailure ended.end) }
{
    let Ok(callers) = callers_of(alloc, load, cache.seat()) else {
        return Err(ServeOutcome::plain(ServeEnd::OutOfMemory));
    };
    let Ok((to, from)) = bounded::<Tally<M>, _>(alloc, load.callers as usize) else {
        return Err(ServeOutcome::plain(ServeEnd::OutOfMemory));
    };
    let start = match Instant::now(rt) {
        Ok(start) => start,
        Err(error) => return Err(ServeOutcome::system(SystemFault::Clock(error))),
    };
    let crew = ServeCrew {
        alloc,
        cache,
        load,
        ranks,
        start,
        halted: AtomicU64::new(0),
        of: PhantomData::<M>,
    };
    let ended = match run_crew(rt, &crew, callers, load.workers, operations(load), &to, err) {
        Ok(ended) => ended,
        Err(error) => return Err(ServeOutcome::system(SystemFault::Clock(error))),
    };
    let Ok(sums) = sums_of::<M, R>(rt, alloc, load, &from) else {
        return Err(ServeOutcome::plain(ServeEnd::OutOfMemory));
    };
    Ok(Ran {
        sums,
        milliseconds: milliseconds_between(start, ended),
    })
}

/// Whether a caller did not end by itself though no hit was wrong.
fn lacks_callers(sums: &Sums, load: &ServeLoad) -> bool
    ensures lacks { result ≡ true
        → (length sums.now.hits.items ≡ 0) × (sums.now.whole < load.now.callers) }
    ensures all { result ≡ false
        → length sums.now.hits.items ≡ 0 → load.now.callers ≤ sums.now.whole }
{
    if !sums.hits.is_empty() {
        return false;
    }
    sums.whole < u64::from(load.callers)
}

/// The milliseconds from one moment to another.
fn milliseconds_between(start: Instant, end: Instant) -> u64 {
    u64::try_from(end.duration_since(start).as_millis()).unwrap_or(u64::MAX)
}

/// The callers of a load, numbered from 0, each with a copy of this seat.
fn callers_of<L: KeyLanes, J: BookName>(
    alloc: Global,
    load: &ServeLoad,
    seat: Seat<L, J>,
) -> Result<Vec<Caller<L, J>>, AllocError>
    requires { seat ≡ [] }
    ensures numbers { IfOk result (λ callers.
        map (λ c. c.number) callers.items ≡ upto load.now.callers) }
    ensures begun { IfOk result (λ callers. All (λ c. IsOneOf load.now
        c.number c.generator c.words.items c.seat) callers.items) }
{
    let mut callers = Vec::with_capacity(alloc, load.callers as usize)?;
    for number in 0..load.callers {
        callers.push(Caller::new(alloc, load, number as u16, seat.again())?)?;
    }
    Ok(callers)
}

/// The report on what the callers did together in this many milliseconds, and on what the lanes of their cache tell
/// together.
fn report_of(sums: &Sums, milliseconds: u64, total: &LaneEnd) -> Report
    requires { sums.now.operations ≤ 64000000000 }
    ensures { IsReportOf sums.now milliseconds total.now result }
{
    Report {
        operations: sums.operations,
        refused: sums.refused,
        wrong_hits: sums.hits.len() as u64,
        milliseconds,
        timed: sums.times.timed(),
        counts: total.counts,
        memory_objects: total.memory_objects,
        log_records: total.log_records,
    }
}
