// What the threads of a load do.
ghost use Rattle.std.specs.Prelude.{◌≡◌, ◌<◌, ◌*◌};
ghost use Rattle.load.specs.Served.{ranks_of};
ghost use Rattle.service_cache.specs.Serving.{lanes_of};
ghost use Rattle.serve_load.specs.Calls.{IsOneOf, IsTally};
ghost use Rattle.serve_load.specs.Fitting.{CacheFits};
ghost use Rattle.serve_load.specs.declared.caller_tally.CallerTally.{CallerTally};

use crate::caller::Caller;
use crate::shared_load::SharedLoad;
use crate::tally::{Tally, Tallying};
use deed_book::{BookName, KeyLanes};
use load::{Crew, Ranks, ServeLoad};
use page_device::PageDevice;
use policy_laws::EvictionPolicy;
use service_cache::ServiceCache;
use service_lane::Upkept;
use std::alloc::Global;
use std::marker::PhantomData;
use std::sync::Wait;
use std::sync::atomic::{AtomicU64, Ordering};
use std::time::{Clock, Instant};

/// How many steps a worker does in a lane before it goes on to the next.
const STEPS: u32 = 16;

/// How many steps a worker does at the most in a lane in its last round.
const LAST_STEPS: u32 = 65536;

/// What the threads of a load do: each caller makes its operations and counts them, and the workers do what is due. A caller for
/// which no thread can be made halts the load.
#[derive(Drop)]
pub(crate) struct ServeCrew<
    'a,
    D: PageDevice<PAGE>,
    P: EvictionPolicy + Drop,
    const PAGE: usize,
    L: KeyLanes,
    J: BookName,
    M: Tallying,
> {
    pub(crate) alloc: Global,
    pub(crate) cache: &'a ServiceCache<D, P, PAGE, L, J>,
    pub(crate) load: &'a ServeLoad,
    pub(crate) ranks: &'a Option<Ranks>,
    pub(crate) start: Instant,
    pub(crate) halted: AtomicU64,
    pub(crate) of: PhantomData<M>,
    ghost drawn: { ranks.now ≡ ranks_of load.now },
    ghost most: { M.most ≡ load.now.operations },
    ghost seconds: { M.seconds ≡ load.now.seconds },
    ghost tallies: { (counted : CallerTally) → IsTally load.now counted → ∥ M.is_tally counted ∥₁ },
}

impl<
    'a,
    D: PageDevice<PAGE> + Send,
    P: EvictionPolicy + Drop + Sync,
    const PAGE: usize,
    L: KeyLanes + Send + Sync,
    J: BookName + Send + Sync,
    M: Tallying + Send + Sync,
    R: Wait + Clock,
> Crew<R> for ServeCrew<'a, D, P, PAGE, L, J, M> {
    type Caller = Caller<L, J>;

    type Left = Tally<M>;

    ghost can_run = { λ c. CacheFits D.row P.row PAGE.row L.row J.row D.PageDevice P.EvictionPolicy L.KeyLanes J.BookName };

    ghost lanes = { λ c. lanes_of c.cache.now };

    ghost is_of = { λ c k. IsOneOf c.load.now k.number k.generator k.words.items k.seat };

    fn lanes(&self) -> u32 {
        self.cache.lanes()
    }

    fn call(&self, rt: &R, caller: Caller<L, J>, made: &AtomicU64) -> Tally<M> {
        let shared = SharedLoad {
            alloc: self.alloc,
            load: self.load,
            ranks: self.ranks,
            made,
            halted: &self.halted,
        };
        caller.make_all::<D, P, PAGE, M, R>(rt, self.cache, &shared, self.start)
    }

    fn tend(&self, rt: &R, lane: u32) -> bool {
        tend(rt, self.cache, lane, STEPS)
    }

    fn tend_last(&self, rt: &R, lane: u32) {
        let _tended = tend(rt, self.cache, lane, LAST_STEPS);
    }

    fn lose_caller(&self) {
        self.halted.store(1, Ordering::SeqCst);
    }
}

/// Does what is due in a lane, up to this many steps, or to one that is refused memory. Whether a step was done.
fn tend<
    D: PageDevice<PAGE>,
    P: EvictionPolicy + Drop,
    const PAGE: usize,
    L: KeyLanes,
    J: BookName,
    R: Wait,
>(rt: &R, cache: &ServiceCache<D, P, PAGE, L, J>, lane: u32, steps: u32) -> bool
    requires { lane < lanes_of cache.now }
{
    let mut tended = false;
    for _ in 0..steps {
        let step = cache.upkeep_step(rt, lane);
        match step.did {
            Upkept::Idle | Upkept::OutOfMemory => return tended,
            Upkept::Flushed(_) | Upkept::Moved(_) => tended = true,
        }
        if !step.is_due {
            return true;
        }
    }
    tended
}

/// All operations of a load.
pub(crate) fn operations(load: &ServeLoad) -> u64
    ensures { result ≡ load.now.callers * load.now.operations }
{
    u64::from(load.callers) * u64::from(load.operations)
}
