//! The cache of a test's text, what its two callers do, and what is left of it.
ghost use Rattle.std.specs.Prelude.{◌≡◌, ◌<◌, All, IfOk};

use super::gate::Gate;
use super::opened::{Cache, PLAIN, Setup, opened};
use super::run::{CallerText, Ran, call, run};
use super::test_device::TestDevice;
use certificate_checker::{Fault, Verdict, check};
use shared_cache::{FinishFault, Finished, Pass};
use std::alloc::Global;
use std::io::Eprint;
use std::sync::{Arc, Wait};
use std::test::Fail;
use std::thread::{Threads, join};
use test_devices::{Scripted, TextStep, is, run_text};
use trace_file::History;

/// A cache that is open, its passes, and the lane of the rounds.
#[derive(Drop)]
struct Shared {
    cache: Box<Cache>,
    first: Pass,
    second: Pass,
    lane: u32,
    ghost first_tie: { first.sight.clock ≡ cache.value.clock },
    ghost second_tie: { second.sight.clock ≡ cache.value.clock },
    ghost within: { lane < cache.value.layout.lanes },
}

/// A cache that is to be ended, with those of its passes and of the kept ones that stand from one place to another, or after its callers
/// went on in threads.
#[derive(Drop)]
struct Job {
    shared: Box<Shared>,
    kept: Vec<Pass>,
    from: usize,
    to: usize,
    way: Way,
}

/// How two callers go on before their cache is ended.
#[derive(Clone, Copy)]
enum Way {
    /// Not at all.
    Ended,
    /// Each in a thread of its own.
    SideBySide,
    /// Each in a thread of its own, the second after the end of the first.
    OneByOne,
    /// Each in a thread of its own, the second once the gate is reached, which it opens then.
    AtTheGate,
}

/// What the steps of a text are of: the cache that is open, passes that are kept of another one, and the caches that are to be ended.
#[derive(Drop)]
struct Table<'a, R> {
    rt: &'a R,
    setup: Setup,
    lane: u32,
    gate: Arc<Gate, Global>,
    shared: Option<Box<Shared>>,
    kept: Vec<Pass>,
    jobs: Vec<Job>,
}

/// How caches ended, the first last, and what is left of the one that was looked at last.
#[derive(Drop)]
struct Left {
    ended: Vec<Ended>,
    left: Option<Box<Finished<TestDevice>>>,
}

/// What is left of a cache, or why it was not ended.
type Ended = Result<Box<Finished<TestDevice>>, FinishFault>;

/// What two callers do, each in a thread of its own.
#[derive(Clone, Copy)]
pub struct Beside<'a> {
    pub first: &'a [u8],
    pub second: &'a [u8],
}

/// No caller does anything in a thread.
pub const ALONE: Beside<'static> = Beside {
    first: b"",
    second: b"",
};

/// Makes the calls of a text, ends each of its caches, and makes the steps of another text with what is left of them.
pub fn play<R: Threads + Wait + Sync + Eprint>(
    rt: &R,
    alloc: Global,
    text: &[u8],
    beside: Beside<'_>,
    left: &[u8],
) -> Result<(), Fail> {
    let mut table = Table {
        rt,
        setup: PLAIN,
        lane: 0,
        gate: Arc::new(alloc, Gate::new())?,
        shared: None,
        kept: Vec::new(alloc),
        jobs: Vec::new(alloc),
    };
    run_text(alloc, &mut table, text)?;
    let ended = end_all(rt, alloc, table.jobs, &table.gate, beside)?;
    run_text(alloc, &mut Left { ended, left: None }, left)
}

// Ends caches, the last first.
fn end_all<R: Threads + Wait + Sync + Eprint>(
    rt: &R,
    alloc: Global,
    jobs: Vec<Job>,
    gate: &Gate,
    beside: Beside<'_>,
) -> Result<Vec<Ended>, Fail> {
    let mut jobs = jobs;
    let mut ended = Vec::new(alloc);
    for _ in 0..jobs.len() {
        if let Some(job) = jobs.pop() {
            ended.push(end_job(rt, alloc, job, gate, beside)?)?;
        }
    }
    Ok(ended)
}

fn end_job<R: Threads + Wait + Sync + Eprint>(
    rt: &R,
    alloc: Global,
    job: Job,
    gate: &Gate,
    beside: Beside<'_>,
) -> Result<Ended, Fail> {
    let Job {
        shared,
        kept,
        from,
        to,
        way,
    } = job;
    match way {
        Way::Ended => end(rt, alloc, Box::into_inner(shared), kept, from, to),
        _ => end_after(rt, alloc, Box::into_inner(shared), gate, way, beside),
    }
}

impl<'a, R: Wait> Scripted for Table<'a, R> {
    ghost use Rattle.std.specs.Prelude.{⊤};

    ghost can_act = { ⊤ };

    fn act(&mut self, alloc: Global, step: &mut TextStep<'_>) -> Result<(), Fail> {
        let word = step.word();
        if is(word, b"config") {
            return self.open(alloc, step);
        }
        if is(word, b"keep") {
            return self.keep();
        }
        if is(word, b"finish") {
            return self.finish(step.small() as usize, step.small() as usize, Way::Ended);
        }
        if is(word, b"side-by-side") {
            return self.finish(0, 2, Way::SideBySide);
        }
        if is(word, b"one-by-one") {
            return self.finish(0, 2, Way::OneByOne);
        }
        if is(word, b"at-the-gate") {
            return self.finish(0, 2, Way::AtTheGate);
        }
        if self.shared.is_none() {
            self.set_up(word, step);
            return Ok(());
        }
        match &mut self.shared {
            Some(shared) => call_first(self.rt, alloc, &mut **shared, word, step),
            None => Err("a cache".into()),
        }
    }
}

impl Scripted for Left {
    ghost use Rattle.std.specs.Prelude.{⊤};

    ghost can_act = { ⊤ };

    fn act(&mut self, alloc: Global, step: &mut TextStep<'_>) -> Result<(), Fail> {
        let word = step.word();
        if is(word, b"ended") {
            return self.look_at_next(step);
        }
        let Some(left) = &self.left else {
            return Err("what is left of a cache".into());
        };
        look(alloc, &**left, word, step);
        Ok(())
    }
}

impl<'a, R> Table<'a, R> {
    // Says what the next cache is made of, or which lane its rounds are of.
    fn set_up(&mut self, word: &[u8], step: &mut TextStep<'_>) {
        if is(word, b"lane") {
            self.lane = step.small();
        } else if is(word, b"hold-reads") {
            self.setup.holds_reads = true;
        } else if is(word, b"hold-plans") {
            self.setup.holds_plans = true;
        } else if is(word, b"refuse") {
            self.setup.refused = step.small();
        } else if is(word, b"together") {
            self.setup.together = step.small();
        } else if is(word, b"stale") {
            self.setup.stale = step.small();
        } else {
            step.refuse();
        }
    }

    // Opens a cache of a configuration.
    fn open(&mut self, alloc: Global, step: &mut TextStep<'_>) -> Result<(), Fail> {
        self.setup.config = step.config();
        self.shared = Some(open_shared(alloc, &self.setup, &self.gate, self.lane)?);
        self.setup = PLAIN;
        Ok(())
    }

    // Drops the cache, and keeps its passes, whose calls were all made at once.
    fn keep(&mut self) -> Result<(), Fail> {
        let Some(shared) = self.shared.take() else {
            return Err("a cache".into());
        };
        if !is_at_once(&shared.first) {
            return Err("out of memory at a call".into());
        }
        keep_both(Box::into_inner(shared), &mut self.kept)
    }

    // Has the cache ended with those of its passes and then of the kept ones that stand from one place to another.
    fn finish(&mut self, from: usize, to: usize, way: Way) -> Result<(), Fail> {
        let Some(shared) = self.shared.take() else {
            return Err("a cache".into());
        };
        if !self.kept.is_empty() && !is_at_once(&shared.first) {
            return Err("out of memory at a call".into());
        }
        let kept = self.kept.split_off(0)?;
        self.jobs.push(Job {
            shared,
            kept,
            from,
            to,
            way,
        })?;
        Ok(())
    }
}

impl Left {
    // Tells how the next cache ended, and looks at what is left of it. It fails if memory was refused.
    fn look_at_next(&mut self, step: &mut TextStep<'_>) -> Result<(), Fail> {
        match self.ended.pop() {
            Some(Ok(left)) => {
                self.left = Some(left);
                step.tell(b"finished");
                Ok(())
            }
            Some(Err(FinishFault::OutOfMemory)) => Err("out of memory".into()),
            Some(Err(fault)) => {
                tell_fault(fault, step);
                Ok(())
            }
            None => Err("a cache".into()),
        }
    }
}

// Tells of what is left of a cache.
fn look(alloc: Global, left: &Finished<TestDevice>, word: &[u8], step: &mut TextStep<'_>) {
    if is(word, b"calls") {
        step.tell_number(left.history.len() as u64);
    } else if is(word, b"verdict") {
        tell_verdict(alloc, left, step);
    } else if is(word, b"device") {
        tell_device(left.devices.as_slice(), step);
    } else if is(word, b"turns") {
        step.tell(if are_in_turn(&left.history) {
            b"in turn"
        } else {
            b"at once"
        });
    } else {
        step.refuse();
    }
}

// An empty cache, and the passes of its two callers.
fn open_shared(
    alloc: Global,
    setup: &Setup,
    gate: &Arc<Gate, Global>,
    lane: u32,
) -> Result<Box<Shared>, Fail> {
    if lane >= setup.config.lanes {
        return Err("a lane".into());
    }
    let (cache, passes) = opened(alloc, setup, gate)?;
    let (first, second) = two_of(&*cache, passes)?;
    let shared = Shared {
        cache,
        first,
        second,
        lane,
    };
    Ok(Box::new(alloc, shared)?)
}

// The two passes of a cache of two callers, the lesser first.
fn two_of(cache: &Cache, passes: Vec<Pass>) -> Result<(Pass, Pass), Fail>
    requires { All (λ p. p.sight.clock ≡ cache.now.clock) passes.items }
    ensures { IfOk result (λ two. (two.0.sight.clock ≡ cache.now.clock)
        × (two.1.sight.clock ≡ cache.now.clock)) }
{
    let mut passes = passes;
    let (Some(second), Some(first)) = (passes.pop(), passes.pop()) else {
        return Err("two passes".into());
    };
    Ok((first, second))
}

// Makes a call of the first caller, or a round of the lane.
fn call_first<R: Wait>(
    rt: &R,
    alloc: Global,
    shared: &mut Shared,
    word: &[u8],
    step: &mut TextStep<'_>,
) -> Result<(), Fail> {
    call(
        rt,
        alloc,
        &*shared.cache,
        &mut shared.first,
        shared.lane,
        word,
        step,
    )
}

// Whether all calls of a pass were made at once: each took three stamps, and no memory was refused, for a call that is made once
// more starts later than another cache's.
fn is_at_once(pass: &Pass) -> bool {
    pass.seen() % 3 == 0 && pass.seen() / 3 == pass.len() as u64
}

fn keep_both(shared: Shared, kept: &mut Vec<Pass>) -> Result<(), Fail> {
    let Shared {
        cache: _,
        first,
        second,
        lane: _,
    } = shared;
    kept.push(first)?;
    kept.push(second)?;
    Ok(())
}

// Ends a cache with those of its passes and the kept ones that stand from one place to another.
fn end<R: Threads + Sync>(
    rt: &R,
    alloc: Global,
    shared: Shared,
    kept: Vec<Pass>,
    from: usize,
    to: usize,
) -> Result<Ended, Fail> {
    let Shared {
        cache,
        first,
        second,
        lane: _,
    } = shared;
    let passes = some_of(alloc, first, second, kept, from, to)?;
    finished(rt, alloc, cache, passes)
}

// Those of two passes and then the kept ones that stand from one place to another.
fn some_of(
    alloc: Global,
    first: Pass,
    second: Pass,
    kept: Vec<Pass>,
    from: usize,
    to: usize,
) -> Result<Vec<Pass>, Fail> {
    let mut passes = Vec::from_array(alloc, [first, second])?;
    for pass in kept {
        passes.push(pass)?;
    }
    passes.truncate(to);
    let from = from.min(passes.len());
    Ok(passes.split_off(from)?)
}

// Ends a cache with these passes.
fn finished<R: Threads + Sync>(
    rt: &R,
    alloc: Global,
    cache: Box<Cache>,
    passes: Vec<Pass>,
) -> Result<Ended, Fail> {
    match Box::into_inner(cache).finish(rt, passes) {
        Ok(left) => Ok(Ok(Box::new(alloc, left)?)),
        Err(fault) => Ok(Err(fault)),
    }
}

// Ends a cache after both callers went on in threads. It fails if a line of theirs is wrong.
fn end_after<R: Threads + Wait + Sync + Eprint>(
    rt: &R,
    alloc: Global,
    shared: Shared,
    gate: &Gate,
    way: Way,
    beside: Beside<'_>,
) -> Result<Ended, Fail> {
    let Shared {
        cache,
        first,
        second,
        lane,
    } = shared;
    let first = CallerText {
        pass: first,
        lane,
        text: beside.first,
    };
    let second = CallerText {
        pass: second,
        lane,
        text: beside.second,
    };
    let (first, second) = if matches!(way, Way::OneByOne) {
        let first = in_a_thread(rt, alloc, &*cache, first);
        (first, in_a_thread(rt, alloc, &*cache, second))
    } else {
        let is_held = matches!(way, Way::AtTheGate);
        in_threads(rt, alloc, &*cache, gate, is_held, first, second)
    };
    let passes = both_of(alloc, first, second)?;
    finished(rt, alloc, cache, passes)
}

// The passes of two callers, none of whose lines was wrong.
fn both_of(alloc: Global, first: Ran, second: Ran) -> Result<Vec<Pass>, Fail> {
    if first.is_right && second.is_right {
        Ok(Vec::from_array(alloc, [first.pass, second.pass])?)
    } else {
        Err("a line of a thread".into())
    }
}

// A caller in a thread of its own.
fn in_a_thread<R: Threads + Wait + Sync + Eprint>(
    rt: &R,
    alloc: Global,
    cache: &Cache,
    calls: CallerText<'_>,
) -> Ran
    requires clock { calls.pass.sight.clock ≡ cache.now.clock }
    requires lane { calls.lane < cache.now.layout.lanes }
{
    let (ran, ()) = join(
        rt,
        || -> Ran
            requires { (calls.pass.sight.clock ≡ cache.now.clock)
                × (calls.lane < cache.now.layout.lanes) }
        { run(rt, alloc, cache, calls) },
        || (),
    );
    ran
}

// Both callers, each in a thread of its own. If no thread can be made a wait at the gate runs out.
fn in_threads<R: Threads + Wait + Sync + Eprint>(
    rt: &R,
    alloc: Global,
    cache: &Cache,
    gate: &Gate,
    is_held: bool,
    first: CallerText<'_>,
    second: CallerText<'_>,
) -> (Ran, Ran)
    requires first { first.pass.sight.clock ≡ cache.now.clock }
    requires first_lane { first.lane < cache.now.layout.lanes }
    requires second { second.pass.sight.clock ≡ cache.now.clock }
    requires second_lane { second.lane < cache.now.layout.lanes }
{
    join(
        rt,
        || -> Ran
            requires { (first.pass.sight.clock ≡ cache.now.clock)
                × (first.lane < cache.now.layout.lanes) }
        { run(rt, alloc, cache, first) },
        || -> Ran
            requires { (second.pass.sight.clock ≡ cache.now.clock)
                × (second.lane < cache.now.layout.lanes) }
        {
            let is_reached = is_held && gate.is_reached();
            let ran = run(rt, alloc, cache, second);
            if is_reached {
                gate.open();
            }
            ran
        },
    )
}

fn tell_fault(fault: FinishFault, step: &mut TextStep<'_>) {
    match fault {
        FinishFault::MissingPass { caller } => {
            step.tell(b"missing");
            step.tell_number(u64::from(caller));
        }
        FinishFault::Strange { caller, call } => {
            step.tell(b"strange");
            step.tell_number(u64::from(caller));
            step.tell_number(call as u64);
        }
        FinishFault::Unlisted { lane, position } => {
            step.tell(b"unlisted");
            step.tell_number(u64::from(lane));
            step.tell_number(position as u64);
        }
        _ => step.tell(b"another fault"),
    }
}

// Tells what the checker says of what is left of a cache.
fn tell_verdict(alloc: Global, left: &Finished<TestDevice>, step: &mut TextStep<'_>) {
    match check(alloc, &left.history, &left.certificate) {
        Ok(Verdict::Accepted) => step.tell(b"accepted"),
        Ok(Verdict::Rejected(Fault::WrongHit { place })) => {
            step.tell(b"wrong hit");
            step.tell_number(place as u64);
        }
        Ok(_) => step.tell(b"rejected"),
        Err(_) => step.tell(b"out of memory"),
    }
}

// Takes the number of a lane, and tells the number of its device, and how many of its pages of the log and of sets were written.
fn tell_device(devices: &[TestDevice], step: &mut TextStep<'_>) {
    match devices.get(step.small() as usize) {
        Some(device) => {
            step.tell_number(u64::from(device.number));
            step.tell_number(u64::from(device.log_writes));
            step.tell_number(u64::from(device.set_writes));
        }
        None => step.tell(b"none"),
    }
}

// Whether each call of the second caller starts above each end of the first one's.
fn are_in_turn(history: &History) -> bool {
    let mut ended = 0;
    let mut started = u64::MAX;
    for position in 0..history.len() {
        let call = history.at(position);
        if call.caller == 0 {
            ended = call.end.max(ended);
        } else {
            started = call.start.min(started);
        }
    }
    0 < ended && ended < started && started < u64::MAX
}
