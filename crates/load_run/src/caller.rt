// A caller of a run.
ghost use Rattle.std.specs.Prelude.{◌≡◌, OnOk, OnErr};
ghost use Rattle.load.specs.Operations.{next_of};
ghost use Rattle.shared_cache.specs.Caches.{KeepsTie};
ghost use Rattle.load_run.specs.Calls.{IsCalled, IsEnded, first_generator};

use history_recorder::Operation;
use load::{Load, next_operation};
use page_device::PageDevice;
use policy_laws::EvictionPolicy;
use rand_pcg::Lcg64Xsh32;
use shared_cache::{CallFault, Pass, SharedCache};
use std::alloc::Global;
use std::sync::Wait;
use std::sync::atomic::{AtomicU64, Ordering};

/// Makes the calls of a caller, by a generator of its own, and counts them by the thousand.
pub fn start_caller<D: PageDevice<PAGE>, P: EvictionPolicy + Drop, const PAGE: usize, R: Wait>(
    rt: &R,
    alloc: Global,
    cache: &SharedCache<D, P, PAGE>,
    load: &Load,
    made: &AtomicU64,
    pass: Pass,
) -> Pass
    requires { pass.sight.clock ≡ cache.now.clock }
    ensures { IsEnded cache.now.layout load.now
        (first_generator load.now.seed pass.caller) pass result }
{
    let generator = Lcg64Xsh32::new(u64::from(load.seed), u64::from(pass.caller()));
    make_calls(rt, alloc, cache, load, made, generator, pass)
}

/// Makes the calls of a caller, and stops at its first refusal.
pub fn make_calls<D: PageDevice<PAGE>, P: EvictionPolicy + Drop, const PAGE: usize, R: Wait>(
    rt: &R,
    alloc: Global,
    cache: &SharedCache<D, P, PAGE>,
    load: &Load,
    made: &AtomicU64,
    mut generator: Lcg64Xsh32,
    mut pass: Pass,
) -> Pass
    requires { pass.sight.clock ≡ cache.now.clock }
    ensures { IsEnded cache.now.layout load.now generator pass result }
{
    for number in 0..load.operations {
        let Ok(()) = make_next(rt, alloc, cache, load, &mut generator, &mut pass, number) else {
            return pass;
        };
        count(made, number);
    }
    pass
}

/// Counts a thousand calls more if the call with this number is the last of a thousand.
fn count(made: &AtomicU64, number: u32) {
    if number % 1000 == 999 {
        made.fetch_add(1000, Ordering::SeqCst);
    }
}

/// Makes the call of a caller with this number.
fn make_next<D: PageDevice<PAGE>, P: EvictionPolicy + Drop, const PAGE: usize, R: Wait>(
    rt: &R,
    alloc: Global,
    cache: &SharedCache<D, P, PAGE>,
    load: &Load,
    generator: &mut Lcg64Xsh32,
    pass: &mut Pass,
    number: u32,
) -> Result<(), CallFault>
    requires { pass.old.sight.clock ≡ cache.now.clock }
    ensures made { OnOk result (IsCalled cache.now.layout
        (next_of load.now pass.old.caller number generator.old).operation pass.old pass.new) }
    ensures refused { OnErr result (pass.new.calls ≡ pass.old.calls) }
    ensures generator { generator.new
        ≡ (next_of load.now pass.old.caller number generator.old).generator }
    ensures tie { KeepsTie pass.old pass.new }
{
    let Ok(operation) = next_operation(alloc, generator, load, pass.caller(), number) else {
        return Err(CallFault::OutOfMemory);
    };
    match make(rt, cache, pass, operation) {
        Ok(()) => Ok(()),
        Err(fault) => Err(fault),
    }
}

/// Makes a call.
fn make<D: PageDevice<PAGE>, P: EvictionPolicy + Drop, const PAGE: usize, R: Wait>(
    rt: &R,
    cache: &SharedCache<D, P, PAGE>,
    pass: &mut Pass,
    operation: Operation,
) -> Result<(), CallFault>
    requires { pass.old.sight.clock ≡ cache.now.clock }
    ensures made { OnOk result (IsCalled cache.now.layout operation pass.old pass.new) }
    ensures refused { OnErr result (pass.new.calls ≡ pass.old.calls) }
    ensures tie { KeepsTie pass.old pass.new }
{
    match operation {
        Operation::Get(key, moment) => match cache.get(rt, pass, &key, moment) {
            Ok(_) => Ok(()),
            Err(fault) => Err(fault),
        },
        Operation::Put(key, value, word, expires) => {
            match cache.put(rt, pass, key, value, word, expires) {
                Ok(_) => Ok(()),
                Err(fault) => Err(fault),
            }
        }
        Operation::Remove(key) => match cache.remove(rt, pass, &key) {
            Ok(()) => Ok(()),
            Err(fault) => Err(fault),
        },
    }
}
