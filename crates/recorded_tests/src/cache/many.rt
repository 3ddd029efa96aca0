//! Many callers at once, beside workers that flush and move.
ghost use Rattle.std.specs.Prelude.{◌≡◌, ◌≤◌, All};

use super::gate::Gate;
use super::opened::{Cache, PLAIN, Setup, opened};
use super::test_device::TestDevice;
use certificate_checker::{Verdict, check};
use record_pages::{Answer, Config, Key, NEVER, Tier, Value};
use shared_cache::{CallFault, Finished, Pass};
use std::alloc::{AllocError, Global};
use std::sync::atomic::{AtomicBool, AtomicU32, Ordering};
use std::sync::{Arc, Wait};
use std::test::Fail;
use std::thread::{Threads, join, map_vec, yield_now};

// Four lanes of four sets, in which all is small.
const SMALL: Config = Config {
    lanes: 4,
    sets: 4,
    memory: 4,
    segments: 4,
    segment_pages: 2,
    entries: 64,
    threshold: 1,
    admit: 32768,
};

static OF_EIGHT: Setup = Setup {
    config: SMALL,
    callers: 8,
    ..PLAIN
};

// How many calls each caller makes.
const CALLS: u32 = 100_000;

// How many keys there are, of which each lane has some.
const KEYS: u64 = 100;

// How often a worker makes a round before it gives up.
const ROUNDS: u32 = 100_000_000;

// How many calls a caller makes from one wait for the workers to the next.
const PACE: u32 = 2_000;

// How often a caller looks for the workers' next round and yields before it goes on.
const TURNS: u32 = 100_000;

/// How far the threads are.
#[derive(Drop)]
struct Progress {
    // The calls are done.
    done: AtomicBool,
    // How often a worker has gone round all lanes.
    went: AtomicU32,
}

/// How many calls went each way: a value found in memory, in the log or in a set, another answer, or a refusal.
type Tally = [u32; 5];

const MEMORY: usize = 0;

const LOG: usize = 1;

const SET: usize = 2;

const OTHER: usize = 3;

const REFUSED: usize = 4;

/// A caller's pass after its calls, and how they went.
#[derive(Drop)]
struct Called {
    pass: Pass,
    tally: Tally,
}

// The next of the numbers that a caller draws.
fn next(drawn: u64) -> u64 {
    drawn
        .wrapping_mul(6_364_136_223_846_793_005)
        .wrapping_add(1_442_695_040_888_963_407)
}

// Makes a call that a number picks: of ten calls five are gets, four puts and one a removal. Says which way it went.
fn call<R: Wait>(rt: &R, alloc: Global, cache: &Cache, pass: &mut Pass, drawn: u64) -> usize
    requires { pass.old.sight.clock ≡ cache.now.clock }
    ensures { pass.new.sight.clock ≡ cache.now.clock }
{
    let bytes = [b'k', ((drawn >> 33) % KEYS) as u8];
    let Ok(key) = Key::new(alloc, &bytes) else {
        return REFUSED;
    };
    match (drawn >> 41) % 10 {
        0..=4 => way_of(&cache.get(rt, pass, &key, 0)),
        5 => way_if(cache.remove(rt, pass, &key).is_ok()),
        _ => {
            let Ok(value) = Value::new(alloc, &drawn.to_be_bytes()) else {
                return REFUSED;
            };
            let word = ((drawn >> 17) % 65536) as u32;
            way_if(cache.put(rt, pass, key, value, word, NEVER).is_ok())
        }
    }
}

fn way_of(answer: &Result<Answer, CallFault>) -> usize {
    match answer {
        Ok(Answer::Hit(_, Tier::Memory)) => MEMORY,
        Ok(Answer::Hit(_, Tier::Log)) => LOG,
        Ok(Answer::Hit(_, Tier::Set)) => SET,
        Ok(Answer::Miss(_)) => OTHER,
        Err(_) => REFUSED,
    }
}

fn way_if(is_answered: bool) -> usize {
    if is_answered { OTHER } else { REFUSED }
}

// Counts so many calls more that went a way.
fn count(tally: &mut Tally, way: usize, calls: u32) {
    if let Some(counted) = tally.get_mut(way) {
        *counted = counted.wrapping_add(calls);
    }
}

// Waits until a worker has gone round all lanes since this many times, or for so many turns. So the workers keep up with
// the callers whatever the schedule.
fn keep_pace(progress: &Progress, before: u32) -> u32 {
    for _ in 0..TURNS {
        let went = progress.went.load(Ordering::SeqCst);
        if went != before {
            return went;
        }
        yield_now();
    }
    before
}

// Makes all calls of a caller.
fn calls<R: Wait>(
    rt: &R,
    alloc: Global,
    cache: &Cache,
    progress: &Progress,
    mut pass: Pass,
) -> Called
    requires { pass.sight.clock ≡ cache.now.clock }
{
    let mut tally = [0; 5];
    let mut drawn = u64::from(pass.caller());
    let mut went = 0;
    for number in 0..CALLS {
        drawn = next(drawn);
        let way = call(rt, alloc, cache, &mut pass, drawn);
        count(&mut tally, way, 1);
        if number % PACE == 0 {
            went = keep_pace(progress, went);
        }
    }
    Called { pass, tally }
}

// Makes the calls of all callers, each in a thread of its own.
fn all_calls<R: Threads + Wait + Sync>(
    rt: &R,
    alloc: Global,
    cache: &Cache,
    progress: &Progress,
    passes: Vec<Pass>,
) -> Result<Vec<Called>, AllocError>
    requires { All (λ p. p.sight.clock ≡ cache.now.clock) passes.items }
{
    map_vec(
        rt,
        passes,
        &|pass: Pass| -> Called
            requires { pass.sight.clock ≡ cache.now.clock }
        { calls(rt, alloc, cache, progress, pass) },
    )
}

// Flushes each lane and moves in it, time after time, until the calls are done.
fn rounds<R: Wait>(rt: &R, cache: &Cache, progress: &Progress)
    requires { 4 ≤ cache.now.layout.lanes }
{
    for number in 0..ROUNDS {
        if progress.done.load(Ordering::SeqCst) {
            break;
        }
        let lane = number % 4;
        cache.flush_round(rt, lane);
        let _moved = cache.move_round(rt, lane);
        if lane == 3 {
            progress.went.fetch_add(1, Ordering::SeqCst);
        }
    }
}

// Makes the calls of all callers beside two workers.
fn beside_workers<R: Threads + Wait + Sync>(
    rt: &R,
    alloc: Global,
    cache: &Cache,
    passes: Vec<Pass>,
) -> Result<Vec<Called>, AllocError>
    requires ties { All (λ p. p.sight.clock ≡ cache.now.clock) passes.items }
    requires lanes { 4 ≤ cache.now.layout.lanes }
{
    let progress = Progress {
        done: AtomicBool::new(false),
        went: AtomicU32::new(0),
    };
    let (_, (_, called)) = join(
        rt,
        ||
            requires { 4 ≤ cache.now.layout.lanes }
        { rounds(rt, cache, &progress) },
        || -> ((), Result<Vec<Called>, AllocError>)
            requires { (4 ≤ cache.now.layout.lanes)
                × All (λ p. p.sight.clock ≡ cache.now.clock) passes.items }
        { beside_a_worker(rt, alloc, cache, &progress, passes) },
    );
    called
}

// The same beside one of them.
fn beside_a_worker<R: Threads + Wait + Sync>(
    rt: &R,
    alloc: Global,
    cache: &Cache,
    progress: &Progress,
    passes: Vec<Pass>,
) -> ((), Result<Vec<Called>, AllocError>)
    requires ties { All (λ p. p.sight.clock ≡ cache.now.clock) passes.items }
    requires lanes { 4 ≤ cache.now.layout.lanes }
{
    join(
        rt,
        ||
            requires { 4 ≤ cache.now.layout.lanes }
        { rounds(rt, cache, progress) },
        || -> Result<Vec<Called>, AllocError>
            requires { All (λ p. p.sight.clock ≡ cache.now.clock) passes.items }
        { until_done(rt, alloc, cache, progress, passes) },
    )
}

// Makes the calls of all callers, and says so when they are done.
fn until_done<R: Threads + Wait + Sync>(
    rt: &R,
    alloc: Global,
    cache: &Cache,
    progress: &Progress,
    passes: Vec<Pass>,
) -> Result<Vec<Called>, AllocError>
    requires { All (λ p. p.sight.clock ≡ cache.now.clock) passes.items }
{
    let called = all_calls(rt, alloc, cache, progress, passes);
    progress.done.store(true, Ordering::SeqCst);
    called
}

fn add(tally: &mut Tally, more: Tally) {
    for way in 0..5usize {
        count(tally, way, more[way]);
    }
}

// Takes the passes, and adds how their calls went.
fn gathered(alloc: Global, called: Vec<Called>, tally: &mut Tally) -> Result<Vec<Pass>, Fail> {
    let mut passes = Vec::with_capacity(alloc, called.len())?;
    for of_one in called {
        add(tally, of_one.tally);
        passes.push(of_one.pass)?;
    }
    Ok(passes)
}

// What is left of a cache after the calls of its callers. Adds how they went.
fn left<R: Threads + Wait + Sync>(
    rt: &R,
    alloc: Global,
    cache: Box<Cache>,
    passes: Vec<Pass>,
    tally: &mut Tally,
) -> Result<Box<Finished<TestDevice>>, Fail>
    requires ties { All (λ p. p.sight.clock ≡ cache.value.clock) passes.items }
    requires lanes { 4 ≤ cache.value.layout.lanes }
{
    let called = beside_workers(rt, alloc, &*cache, passes)?;
    let passes = gathered(alloc, called, tally)?;
    let cache = Box::into_inner(cache);
    Ok(Box::new(alloc, cache.finish(rt, passes)?)?)
}

// Whether no call was refused, and values were found in each tier.
fn is_in_all(tally: &Tally) -> bool {
    tally[REFUSED] == 0 && tally[MEMORY] > 0 && tally[LOG] > 0 && tally[SET] > 0
}

// Makes all calls in threads, and says whether values were found in each tier and the checker accepts so many calls.
fn are_found<R: Threads + Wait + Sync>(rt: &R, alloc: Global) -> Result<bool, Fail> {
    let gate = Arc::new(alloc, Gate::new())?;
    let (cache, passes) = opened(alloc, &OF_EIGHT, &gate)?;
    let mut tally = [0; 5];
    let finished = left(rt, alloc, cache, passes, &mut tally)?;
    Ok(is_in_all(&tally) && has_calls(alloc, &finished, 800_000))
}

fn has_calls(alloc: Global, finished: &Finished<TestDevice>, calls: usize) -> bool {
    finished.history.len() == calls
        && matches!(
            check(alloc, &finished.history, &finished.certificate),
            Ok(Verdict::Accepted)
        )
}

#[test]
fn many_threads_find_values_in_all_tiers(rt: HostRuntime) -> Result<(), Fail> {
    assert!(rt; are_found(&rt, rt.alloc())?);
    Ok(())
}
