//! The calls of a shared cache, by their words.
ghost use Rattle.std.specs.Prelude.{◌≡◌, ◌<◌};

use super::super::texts::{name_of_flush, name_of_pushed, tell_answer};
use super::opened::Cache;
use record_pages::{Answer, NEVER, Pushed};
use shared_cache::{CallFault, Moved, Pass};
use std::alloc::{AllocError, Global};
use std::io::Eprint;
use std::process::Termination;
use std::sync::Wait;
use std::test::Fail;
use test_devices::{Scripted, TextStep, is, key, run_text, value};

// The moment of each get.
const MOMENT: u64 = 5;

/// A caller of a cache, and the lane of its rounds.
#[derive(Drop)]
struct Caller<'a, R> {
    rt: &'a R,
    cache: &'a Cache,
    pass: Pass,
    lane: u32,
    ghost tie: { pass.sight.clock ≡ cache.now.clock },
    ghost within: { lane < cache.now.layout.lanes },
}

impl<'a, R: Wait> Scripted for Caller<'a, R> {
    ghost use Rattle.std.specs.Prelude.{⊤};

    ghost can_act = { ⊤ };

    fn act(&mut self, alloc: Global, step: &mut TextStep<'_>) -> Result<(), Fail> {
        let word = step.word();
        call(
            self.rt,
            alloc,
            self.cache,
            &mut self.pass,
            self.lane,
            word,
            step,
        )
    }
}

/// A caller's pass, the lane of its rounds, and the text of the calls that it makes.
#[derive(Drop)]
pub struct CallerText<'a> {
    pub pass: Pass,
    pub lane: u32,
    pub text: &'a [u8],
}

/// A pass after the calls of a text, and whether no line of it was wrong.
#[derive(Drop)]
pub struct Ran {
    pub pass: Pass,
    pub is_right: bool,
}

/// Makes the calls of a text, if it has any, up to the first line that is wrong, which is printed.
pub fn run<R: Wait + Eprint>(rt: &R, alloc: Global, cache: &Cache, calls: CallerText<'_>) -> Ran
    requires clock { calls.pass.sight.clock ≡ cache.now.clock }
    requires lane { calls.lane < cache.now.layout.lanes }
{
    let CallerText { pass, lane, text } = calls;
    let mut caller = Caller {
        rt,
        cache,
        pass,
        lane,
    };
    let is_right = text.is_empty() || is_run(rt, alloc, &mut caller, text);
    Ran {
        pass: caller.pass,
        is_right,
    }
}

fn is_run<R: Wait + Eprint>(
    rt: &R,
    alloc: Global,
    caller: &mut Caller<'_, R>,
    text: &[u8],
) -> bool {
    let ended = run_text(alloc, caller, text);
    let is_right = ended.is_ok();
    let _ = ended.report(rt);
    is_right
}

/// Makes the call that a word names, and tells what it gives.
pub fn call<R: Wait>(
    rt: &R,
    alloc: Global,
    cache: &Cache,
    pass: &mut Pass,
    lane: u32,
    word: &[u8],
    step: &mut TextStep<'_>,
) -> Result<(), Fail>
    requires clock { pass.old.sight.clock ≡ cache.now.clock }
    requires lane { lane < cache.now.layout.lanes }
    ensures { pass.new.sight.clock ≡ cache.now.clock }
{
    if is(word, b"put") || is(word, b"put-until") {
        return put(rt, alloc, cache, pass, word, step);
    }
    if is(word, b"get") {
        return get(rt, alloc, cache, pass, step);
    }
    if is(word, b"remove") {
        return remove(rt, alloc, cache, pass, step);
    }
    if is(word, b"meet") {
        meet(pass, step);
        return Ok(());
    }
    if is(word, b"listed") {
        step.tell_number(pass.len() as u64);
        return Ok(());
    }
    turn(rt, cache, lane, word, step);
    Ok(())
}

// Tells a pass of a stamp.
fn meet(pass: &mut Pass, step: &mut TextStep<'_>)
    ensures { pass.new.sight.clock ≡ pass.old.sight.clock }
{
    if pass.meet(step.number()).is_err() {
        step.tell(b"clock full");
    }
}

// What is put: the bytes of a key and of a value, the word that decides of the pair that leaves memory, and when the value expires.
#[derive(Clone, Copy)]
struct Asked<'a> {
    name: &'a [u8],
    bytes: &'a [u8],
    low: u32,
    expires: u64,
}

// Puts a pair, once more if memory was refused.
fn put<R: Wait>(
    rt: &R,
    alloc: Global,
    cache: &Cache,
    pass: &mut Pass,
    word: &[u8],
    step: &mut TextStep<'_>,
) -> Result<(), Fail>
    requires { pass.old.sight.clock ≡ cache.now.clock }
    ensures { pass.new.sight.clock ≡ cache.now.clock }
{
    let name = step.bytes();
    let bytes = step.bytes();
    let low = step.small();
    let expires = if is(word, b"put") {
        NEVER
    } else {
        step.number()
    };
    let asked = Asked {
        name: name.as_slice(),
        bytes: bytes.as_slice(),
        low,
        expires,
    };
    match put_once(rt, alloc, cache, pass, &asked)? {
        Err(CallFault::OutOfMemory) => {
            let again = put_once(rt, alloc, cache, pass, &asked)?;
            Ok(tell_stored(again, step))
        }
        other => Ok(tell_stored(other, step)),
    }
}

// Puts a pair.
fn put_once<R: Wait>(
    rt: &R,
    alloc: Global,
    cache: &Cache,
    pass: &mut Pass,
    asked: &Asked<'_>,
) -> Result<Result<Pushed, CallFault>, Fail>
    requires { pass.old.sight.clock ≡ cache.now.clock }
    ensures { pass.new.sight.clock ≡ cache.now.clock }
{
    let key = key(alloc, asked.name)?;
    let value = value(alloc, asked.bytes)?;
    Ok(cache.put(rt, pass, key, value, asked.low, asked.expires))
}

fn tell_stored(stored: Result<Pushed, CallFault>, step: &mut TextStep<'_>) {
    step.tell(match stored {
        Ok(pushed) => name_of_pushed(pushed),
        Err(fault) => name_of_fault(&fault),
    });
}

// Gets a key, once more if memory was refused.
fn get<R: Wait>(
    rt: &R,
    alloc: Global,
    cache: &Cache,
    pass: &mut Pass,
    step: &mut TextStep<'_>,
) -> Result<(), Fail>
    requires { pass.old.sight.clock ≡ cache.now.clock }
    ensures { pass.new.sight.clock ≡ cache.now.clock }
{
    let key = step.key(alloc)?;
    match cache.get(rt, pass, &key, MOMENT) {
        Err(CallFault::OutOfMemory) => Ok(tell_got(cache.get(rt, pass, &key, MOMENT), step)),
        other => Ok(tell_got(other, step)),
    }
}

fn tell_got(answer: Result<Answer, CallFault>, step: &mut TextStep<'_>) {
    match answer {
        Ok(answer) => tell_answer(&answer, step),
        Err(fault) => step.tell(name_of_fault(&fault)),
    }
}

// Removes a key, once more if memory was refused.
fn remove<R: Wait>(
    rt: &R,
    alloc: Global,
    cache: &Cache,
    pass: &mut Pass,
    step: &mut TextStep<'_>,
) -> Result<(), Fail>
    requires { pass.old.sight.clock ≡ cache.now.clock }
    ensures { pass.new.sight.clock ≡ cache.now.clock }
{
    let key = step.key(alloc)?;
    match cache.remove(rt, pass, &key) {
        Err(CallFault::OutOfMemory) => Ok(tell_removed(cache.remove(rt, pass, &key), step)),
        other => Ok(tell_removed(other, step)),
    }
}

fn tell_removed(removed: Result<(), CallFault>, step: &mut TextStep<'_>) {
    if let Err(fault) = removed {
        step.tell(name_of_fault(&fault));
    }
}

fn name_of_fault(fault: &CallFault) -> &'static [u8] {
    match fault {
        CallFault::TooLarge => b"too large",
        CallFault::ClockFull => b"clock full",
        CallFault::OutOfMemory => b"out of memory",
        _ => b"another fault",
    }
}

// Takes a step of flushing the lane, or moves in it; a move that is refused is tried once more, unless it is to be made once.
fn turn<R: Wait>(rt: &R, cache: &Cache, lane: u32, word: &[u8], step: &mut TextStep<'_>)
    requires { lane < cache.now.layout.lanes }
{
    if is(word, b"flush") {
        step.tell(name_of_flush(cache.flush_round(rt, lane)));
    } else if is(word, b"move-once") {
        step.tell(name_of_move(cache.move_round(rt, lane)));
    } else if is(word, b"move") {
        step.tell(name_of_move(match cache.move_round(rt, lane) {
            Err(_) => cache.move_round(rt, lane),
            other => other,
        }));
    } else {
        step.refuse();
    }
}

fn name_of_move(moved: Result<Moved, AllocError>) -> &'static [u8] {
    match moved {
        Ok(Moved::Nothing) => b"nothing",
        Ok(Moved::Busy) => b"busy",
        Ok(Moved::Readmitted) => b"readmitted",
        Ok(Moved::Dropped) => b"dropped",
        Ok(Moved::PageLost) => b"page lost",
        Ok(Moved::Freed) => b"freed",
        Ok(Moved::Written) => b"written",
        Ok(Moved::Forgotten) => b"forgotten",
        Ok(Moved::StalePlan) => b"stale plan",
        Ok(Moved::BadPlan) => b"bad plan",
        Err(_) => b"refused",
    }
}
