//! The load over a shared cache, which reaches each tier.
ghost use Rattle.std.specs.Prelude.{◌≡◌, ◌<◌};
ghost use Rattle.shared_cache.specs.Caches.{KeepsTie};

use super::seen::{CountedCache, Seen};
use crate::tests::asked_loads::run_by;
use history_recorder::Operation;
use load::{Load, next_operation};
use rand_pcg::Lcg64Xsh32;
use record_pages::{Answer, Tier};
use shared_cache::{CallFault, Pass};
use std::alloc::Global;
use std::sync::Wait;
use std::test::Fail;

/// The bits of a hit in memory, in the log and in the set, and that of a refusal.
const MEMORY: u8 = 1;

const LOG: u8 = 2;

const SET: u8 = 4;

const REFUSED: u8 = 8;

/// The bit of an answer. A miss has none.
fn bit_of(answer: Result<Answer, CallFault>) -> u8 {
    match answer {
        Ok(Answer::Hit(_, tier)) => bit_of_tier(tier),
        Ok(Answer::Miss(_)) => 0,
        Err(_) => REFUSED,
    }
}

fn bit_of_tier(tier: Tier) -> u8 {
    match tier {
        Tier::Memory => MEMORY,
        Tier::Log => LOG,
        Tier::Set => SET,
    }
}

/// Makes a call, and a round of each kind in the one lane, and gives the bit of what came of it.
fn step<R: Wait>(rt: &R, cache: &CountedCache, pass: &mut Pass, operation: Operation) -> u8
    requires ties { pass.old.sight.clock ≡ cache.now.clock }
    requires lanes { 0 < cache.now.layout.lanes }
    ensures { KeepsTie pass.old pass.new }
{
    cache.flush_round(rt, 0);
    let _moved = cache.move_round(rt, 0);
    match operation {
        Operation::Get(key, moment) => bit_of(cache.get(rt, pass, &key, moment)),
        Operation::Put(key, value, word, expires) => {
            match cache.put(rt, pass, key, value, word, expires) {
                Ok(_) => 0,
                Err(_) => REFUSED,
            }
        }
        Operation::Remove(key) => match cache.remove(rt, pass, &key) {
            Ok(()) => 0,
            Err(_) => REFUSED,
        },
    }
}

/// Makes the operations of a load's first caller, and gives the bits of all that came of them.
fn drive<R: Wait>(rt: &R, alloc: Global, cache: &CountedCache, load: &Load, mut pass: Pass) -> u8
    requires ties { pass.sight.clock ≡ cache.now.clock }
    requires lanes { 0 < cache.now.layout.lanes }
{
    let mut generator = Lcg64Xsh32::new(u64::from(load.seed), 0);
    let mut bits = 0;
    for number in 0..load.operations {
        match next_operation(alloc, &mut generator, load, 0, number) {
            Ok(operation) => bits |= step(rt, cache, &mut pass, operation),
            Err(_) => bits |= REFUSED,
        }
    }
    bits
}

/// One lane of small sets, and 20,000 operations.
static WORDS: &str =
    "k run --lanes 1 --sets 4 --memory 4 --segments 4 --segment-pages 1 --entries 64 --threshold 1 --admit 32768 --operations 20000 --keys 200 --trace t";

/// The bits of what came of a load's first caller, over a cache of its own.
fn bits_of_load<R: Wait>(rt: &R, alloc: Global, load: &Load) -> Result<u8, Fail> {
    let seen = Seen::new(alloc, load, 1)?;
    let (cache, mut passes) = seen.open(alloc, load, 1)?;
    match passes.pop() {
        Some(pass) => Ok(drive(rt, alloc, &cache, load, pass)),
        None => Ok(0),
    }
}

#[test]
fn a_load_hits_in_each_tier(rt: HostRuntime) -> Result<(), Fail> {
    let load = run_by(rt.alloc(), WORDS)?;
    let bits = bits_of_load(&rt, rt.alloc(), &*load)?;
    assert!(rt; bits == MEMORY | LOG | SET);
    Ok(())
}
