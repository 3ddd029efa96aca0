//! The cache of a test's text, and the seat that its calls bring.
use super::calls::each_is_found;
use super::many::{is_right_alone, is_right_tended};
use super::seats::no_call_is_refused;
use super::seeds::{declined, entered, lanes_of_keys};
use super::tending::{are_small, fill_memory, tends_its_lane};
use super::threads::{are_right, are_right_tended};
use super::*;
use service_lane::Lease;
use std::thread::Threads;
use test_devices::{Scripted, run_text};

/// A cache, with a seat, a lease that a step keeps, and a number that a step keeps for its test.
#[derive(Drop)]
pub struct Called<'a, D: PageDevice<256>, L: KeyLanes, J: BookName, R> {
    pub rt: &'a R,
    pub cache: &'a Cache<D, L, J>,
    pub seat: Seat<L, J>,
    pub lease: Lease,
    kept: u64,
}

impl<'a, D: PageDevice<256>, L: KeyLanes, J: BookName, R: Wait> Scripted
    for Called<'a, D, L, J, R> {
    ghost use Rattle.std.specs.Prelude.{⊤};

    ghost can_act = { ⊤ };

    fn act(&mut self, alloc: Global, step: &mut TextStep<'_>) -> Result<(), Fail> {
        let word = step.word();
        if is(word, b"right") {
            let is_right = self.is_right(alloc, step.word())?;
            if !is_right {
                step.refuse();
            }
            return Ok(());
        }
        if is(word, b"keep") {
            self.kept = self.number(alloc, step.word())?;
            return Ok(());
        }
        if is(word, b"tell") {
            let number = self.number(alloc, step.word())?;
            step.tell_number(number);
            return Ok(());
        }
        self.call(alloc, word, step)
    }
}

impl<'a, D: PageDevice<256>, L: KeyLanes, J: BookName, R: Wait> Called<'a, D, L, J, R> {
    // Whether what a word says is so.
    fn is_right(&self, alloc: Global, word: &[u8]) -> Result<bool, Fail> {
        let (rt, cache) = (self.rt, self.cache);
        if is(word, b"each-is-found") {
            return each_is_found(rt, alloc, cache);
        }
        Ok(if is(word, b"alone") {
            is_right_alone(rt, alloc, cache)
        } else if is(word, b"tended") {
            is_right_tended(rt, alloc, cache)
        } else if is(word, b"lane-by-lane") {
            tends_its_lane(rt, alloc, cache)
        } else {
            is(word, b"small") && are_small(rt, cache)
        })
    }

    // The number of a word.
    fn number(&mut self, alloc: Global, word: &[u8]) -> Result<u64, Fail> {
        let (rt, cache) = (self.rt, self.cache);
        if is(word, b"declined") {
            return declined(rt, alloc, cache, &mut self.seat);
        }
        if is(word, b"lanes-of-keys") {
            return lanes_of_keys(rt, alloc, cache, &mut self.seat);
        }
        if is(word, b"filled") {
            return fill_memory(rt, alloc, cache, &mut self.seat);
        }
        if is(word, b"entered") {
            return Ok(entered(rt, alloc, cache));
        }
        Ok(u64::from(cache.lanes()))
    }
}

// Whether what callers in threads do is right, if a text is the word for it.
fn right_in_threads<
    D: PageDevice<256> + Send,
    L: KeyLanes + Send + Sync,
    J: BookName + Send + Sync,
    R: Threads + Wait + Sync,
>(rt: &R, alloc: Global, cache: &Cache<D, L, J>, text: &[u8]) -> Option<bool> {
    if is(text, b"threads") {
        Some(are_right(rt, alloc, cache))
    } else if is(text, b"threads-tended") {
        Some(are_right_tended(rt, alloc, cache))
    } else if is(text, b"not-refused") {
        Some(no_call_is_refused(rt, alloc, cache))
    } else {
        None
    }
}

/// Makes the calls of a text, of a cache, and gives the number that they kept for the test. Of one word a text says what callers in
/// threads do, and keeps 0.
pub fn kept<
    D: PageDevice<256> + Send,
    L: KeyLanes + Send + Sync,
    J: BookName + Send + Sync,
    R: Threads + Wait + Sync,
>(rt: &R, alloc: Global, cache: &Cache<D, L, J>, text: &[u8]) -> Result<u64, Fail> {
    match right_in_threads(rt, alloc, cache, text) {
        Some(true) => Ok(0),
        Some(false) => Err("right calls of threads".into()),
        None => kept_by_steps(rt, alloc, cache, text),
    }
}

// The same of a text of steps.
fn kept_by_steps<D: PageDevice<256>, L: KeyLanes, J: BookName, R: Wait>(
    rt: &R,
    alloc: Global,
    cache: &Cache<D, L, J>,
    text: &[u8],
) -> Result<u64, Fail> {
    let mut called = Called {
        rt,
        cache,
        seat: cache.seat(),
        lease: Lease {
            writes: 0,
            hash: 0,
            lane: 0,
        },
        kept: 0,
    };
    run_text(alloc, &mut called, text)?;
    Ok(called.kept)
}
