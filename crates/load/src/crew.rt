// The threads of a load.
ghost use Rattle.std.specs.Prelude.{◌≡◌, ◌<◌, ℕ, All};

use crate::turns::{lane_after, rest};
use crate::watching::watch;
use crossbeam_channel::Sender;
use std::io::{IsTerminal, Write};
use std::sync::Wait;
use std::sync::atomic::{AtomicU64, Ordering};
use std::thread::{Scope, Threads};
use std::time::{Clock, Instant};
use std::{io, thread};

/// What the threads of a load do with the cache that they share.
pub trait Crew<R>: Sync {
    /// A caller that has made no operation.
    type Caller: Send + Drop;

    /// What a caller leaves.
    type Left: Send + Drop;

    /// What the crew needs of its cache.
    ghost can_run: { Self → Type 0 };

    /// How many lanes the cache has.
    ghost lanes: { Self → ℕ };

    /// Which callers are of the load.
    ghost is_of: { Self → Self.Caller → Type 0 };

    /// How many lanes the cache has.
    fn lanes(&self) -> u32
        requires { can_run self.now }
        ensures { result ≡ lanes self.now };

    /// Makes the operations of a caller, and counts them in `made`.
    fn call(&self, rt: &R, caller: Self::Caller, made: &AtomicU64) -> Self::Left
        requires can { can_run self.now }
        requires caller { is_of self.now caller };

    /// Does what is due in a lane, up to a bound, and answers whether that was anything.
    fn tend(&self, rt: &R, lane: u32) -> bool
        requires can { can_run self.now }
        requires lane { lane < lanes self.now };

    /// Does what is due in a lane after all callers have ended.
    fn tend_last(&self, rt: &R, lane: u32)
        requires can { can_run self.now }
        requires lane { lane < lanes self.now };

    /// Is told of a caller for which no thread can be made.
    fn lose_caller(&self);
}

/// Runs each caller in a thread, which sends what it leaves when it ended, beside the workers, until all have ended. A caller
/// for which no thread can be made sends nothing, and the crew is told. How many of all operations were made is told to `err`
/// meanwhile, if that is a terminal. Answers the moment at which all callers had ended, unless the clock failed.
pub fn run_crew<C: Crew<R>, R: Threads + Wait + Sync + Clock, E: Write + IsTerminal>(
    rt: &R,
    crew: &C,
    mut callers: Vec<C::Caller>,
    workers: u32,
    all: u64,
    to: &Sender<C::Left>,
    err: &mut E,
) -> io::Result<Instant>
    requires can { C.can_run crew.now }
    requires callers { All (C.is_of crew.now) callers.items }
    requires lanes { 0 < C.lanes crew.now }
{
    let running = AtomicU64::new(callers.len() as u64);
    let running = &running;
    let made = AtomicU64::new(0);
    let made = &made;
    thread::scope(
        thread::scope_env(),
        rt,
        |scope|
            requires can { C.can_run crew.now }
            requires callers { All (C.is_of crew.now) callers.items }
            requires lanes { 0 < C.lanes crew.now }
        {
            start_workers(scope, rt, crew, workers, running);
            start_callers(scope, rt, crew, &mut callers, running, made, to);
            watch(rt, all, running, made, err);
            wait_for(rt, running);
            Instant::now(rt)
        },
    )
}

/// Starts a thread for each worker. One for which no thread can be made is done without.
fn start_workers<'s, C: Crew<R>, R: Threads + Wait + Sync, E>(
    scope: &Scope<'s, E>,
    rt: &'s R,
    crew: &'s C,
    workers: u32,
    running: &'s AtomicU64,
)
    requires can { C.can_run crew.now }
    requires lanes { 0 < C.lanes crew.now }
{
    for worker in 0..workers {
        let _ = scope.spawn(
            move ||
                requires can { C.can_run crew.now }
                requires lanes { 0 < C.lanes crew.now }
            { work(rt, crew, worker, running) },
        );
    }
}

/// Starts a thread for each caller, which sends what it leaves when it ended. Of one for which no thread can be made the crew
/// is told.
fn start_callers<'s, C: Crew<R>, R: Threads + Wait + Sync, E>(
    scope: &Scope<'s, E>,
    rt: &'s R,
    crew: &'s C,
    callers: &mut Vec<C::Caller>,
    running: &'s AtomicU64,
    made: &'s AtomicU64,
    to: &'s Sender<C::Left>,
)
    requires can { C.can_run crew.now }
    requires callers { All (C.is_of crew.now) callers.old.items }
{
    while let Some(caller) = callers.pop() {
        let started = scope.spawn(
            move ||
                requires can { C.can_run crew.now }
                requires caller { C.is_of crew.now caller }
            {
                let left = crew.call(rt, caller, made);
                let _ = to.send(rt, left);
                end_one(running);
            },
        );
        if started.is_err() {
            crew.lose_caller();
            end_one(running);
        }
    }
}

/// Does the upkeep of each lane in turn, beginning with the one of the worker's number, until all callers ended, and then of each
/// lane once more. If there was nothing to do in as many lanes as there are, one after the other, it leaves their locks alone for
/// a while.
fn work<C: Crew<R>, R: Wait>(rt: &R, crew: &C, worker: u32, running: &AtomicU64)
    requires can { C.can_run crew.now }
    requires lanes { 0 < C.lanes crew.now }
{
    let lanes = crew.lanes();
    let mut lane = worker % lanes;
    let mut idle = 0;
    for _ in rt.forever() {
        let callers = running.load(Ordering::SeqCst);
        if callers == 0 {
            break;
        }
        idle = if crew.tend(rt, lane) { 0 } else { idle + 1 };
        if idle == lanes {
            rest(rt, running, callers);
            idle = 0;
        }
        lane = lane_after(lane, lanes);
    }
    for lane in 0..lanes {
        crew.tend_last(rt, lane);
    }
}

/// Counts a caller as ended, and wakes who waits for that.
fn end_one(running: &AtomicU64) {
    running.fetch_sub(1, Ordering::SeqCst);
    running.wake_all();
}

/// Waits until no caller is running.
fn wait_for<R: Wait>(rt: &R, running: &AtomicU64) {
    for _ in rt.forever() {
        let callers = running.load(Ordering::SeqCst);
        if callers == 0 {
            return;
        }
        running.park(rt, (callers & 0xffff_ffff) as u32);
    }
}
