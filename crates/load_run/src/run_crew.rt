// What the threads of a run do.
ghost use Rattle.std.specs.Prelude.{◌≡◌, ◌<◌};
ghost use Rattle.load_run.specs.Fitting.{CacheFits};

use crate::caller::start_caller;
use klog::Flushed;
use load::{Crew, Load};
use page_device::PageDevice;
use policy_laws::EvictionPolicy;
use shared_cache::{Moved, Pass, SharedCache};
use std::alloc::Global;
use std::sync::Wait;
use std::sync::atomic::AtomicU64;

/// What the threads of a run do: each caller makes its calls with a pass, and the workers flush and move.
#[derive(Drop)]
pub struct RunCrew<'a, D: PageDevice<PAGE>, P: EvictionPolicy + Drop, const PAGE: usize> {
    pub(crate) alloc: Global,
    pub(crate) cache: &'a SharedCache<D, P, PAGE>,
    pub(crate) load: &'a Load,
    ghost lanes: { load.now.layout.lanes ≡ cache.now.layout.lanes },
}

impl<
    'a,
    D: PageDevice<PAGE> + Send,
    P: EvictionPolicy + Drop + Sync,
    const PAGE: usize,
    R: Wait,
> Crew<R> for RunCrew<'a, D, P, PAGE> {
    type Caller = Pass;

    type Left = Pass;

    ghost can_run = { λ c. CacheFits D.row P.row PAGE.row D.PageDevice P.EvictionPolicy };

    ghost lanes = { λ c. c.cache.now.layout.lanes };

    ghost is_of = { λ c pass. pass.sight.clock ≡ c.cache.now.clock };

    fn lanes(&self) -> u32 {
        self.load.layout.lanes
    }

    fn call(&self, rt: &R, caller: Pass, made: &AtomicU64) -> Pass {
        start_caller(rt, self.alloc, self.cache, self.load, made, caller)
    }

    fn tend(&self, rt: &R, lane: u32) -> bool {
        go_round(rt, self.cache, lane)
    }

    fn tend_last(&self, _rt: &R, _lane: u32) {}

    fn lose_caller(&self) {}
}

/// One round of flushing and one of moving in a lane. Whether there was something to do.
fn go_round<D: PageDevice<PAGE>, P: EvictionPolicy + Drop, const PAGE: usize, R: Wait>(
    rt: &R,
    cache: &SharedCache<D, P, PAGE>,
    lane: u32,
) -> bool
    requires { lane < cache.now.layout.lanes }
{
    let flushed = cache.flush_round(rt, lane);
    let moved = cache.move_round(rt, lane);
    flushed != Flushed::Nothing || moved != Ok(Moved::Nothing)
}
