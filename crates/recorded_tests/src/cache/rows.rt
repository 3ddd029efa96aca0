//! What users of a shared cache rely on, of any cache, any device and any policy: the contract of each function here denies
//! what a wrong body would do.
ghost use Rattle.std.specs.Prelude.{◌≡◌, ◌≢◌, ◌+◌, ◌<◌, ◌≤◌, ◌^◌, ◌++◌, [], ◌∷◌, ℕ, Some, IfOk, IfSome, IsTrue, sum_by};
ghost use Rattle.record_pages.specs.Expiry.{timed, value_at};
ghost use Rattle.record_pages.specs.Sizes.{object_size, room};
ghost use Rattle.record_pages.specs.declared.answer.Answer.{Answer};
ghost use Rattle.record_pages.specs.declared.answer.Answer.TheVariants.{Miss};
ghost use Rattle.record_pages.specs.declared.miss_cause.MissCause.TheVariants.{Fault};
ghost use Rattle.record_pages.specs.declared.tier.Tier.TheVariants.{Memory};
ghost use Rattle.record_pages.specs.declared.timed_value.TimedValue.{TimedValue};
ghost use Rattle.memory_cache.specs.MemoryList.{value_in};
ghost use Rattle.mover.specs.Get.{answer, answer_by};
ghost use Rattle.mover.specs.Lane.{lane_of};
ghost use Rattle.trace_file.specs.declared.act.Act.{Act};
ghost use Rattle.trace_file.specs.declared.call.Call.{Call};
ghost use Rattle.recorded_lane.specs.Lane.{IsOfLane, act_of};
ghost use Rattle.recorded_lane.specs.declared.noted.Noted.{Noted};
ghost use Rattle.shared_cache.specs.Finished.{done_of};
ghost use Rattle.shared_cache.specs.Listed.{Listed};
ghost use Rattle.shared_cache.specs.declared.response.Response.TheVariants.{Got};

use page_device::PageDevice;
use policy_laws::EvictionPolicy;
use record_pages::{Answer, Key, Value};
use shared_cache::{
    ActAnswer, ActFault, CallFault, Clock, FinishFault, Finished, LaneBook, Pass, Request,
    SharedCache,
};
use std::sync::Wait;
use std::thread::Threads;

/// What is put: a value of a key, by the word of its admission, until a moment.
#[derive(Drop)]
pub struct PutObject {
    /// The key.
    pub key: Key,
    /// Its value.
    pub value: Value,
    /// The word of its admission.
    pub word: u32,
    /// The moment at which it expires, or `NEVER`.
    pub expires: u64,
}

/// A get under a lane's lock is answered what memory has of its key, over any device. Over an honest one that does not fail
/// it is answered what the lane shows. Its answer is what is recorded. So no hit is told as a miss, no value is made up, and
/// no lane is made anew.
pub fn a_get_is_answered_what_the_book_shows<D: PageDevice<PAGE>, const PAGE: usize>(
    book: &mut LaneBook<D, PAGE>,
    clock: &Clock,
    pass: &mut Pass,
    start: u64,
    key: &Key,
    moment: u64,
) -> Result<ActAnswer, ActFault>
    requires clock { pass.old.sight.clock ≡ clock.now }
    requires start { start ≤ pass.old.sight.seen }
    requires own { IsOfLane book.old.store.layout book.old.lane key.now }
    ensures memory { (v : TimedValue) → value_in key.now book.old.store.memory.pairs ≡ Some v →
        IfOk result (λ acted. acted.outcome ≡ Got (answer_by (value_at moment v) Memory)) }
    ensures shown { IsTrue (D.honest book.old.store.device) → IfOk result (λ acted. (told : Answer) →
        acted.outcome ≡ Got told → told ≢ Miss Fault →
        told ≡ answer (lane_of D.held book.old.store) key.now moment) }
    ensures recorded { IfOk result (λ acted. (told : Answer) → acted.outcome ≡ Got told →
        (n : Noted) × (book.new.calls ≡ book.old.calls ++ n ∷ []) × (n.act ≡ act_of moment told)) }
{
    match book.act(clock, pass, start, Request::Get(key, moment)) {
        Ok(acted) => Ok(acted),
        Err(fault) => Err(fault),
    }
}

/// What a put stored under a lane's lock is what the next get of its key is answered, over any device, or that it has expired.
/// So no lane is made anew at each lock. Every lane meets the premise: its memory has room for a pair.
pub fn a_put_is_what_the_next_get_is_answered<D: PageDevice<PAGE>, const PAGE: usize>(
    book: &mut LaneBook<D, PAGE>,
    clock: &Clock,
    pass: &mut Pass,
    start: u64,
    object: PutObject,
    again: &Key,
    moment: u64,
) -> Option<ActAnswer>
    requires clock { pass.old.sight.clock ≡ clock.now }
    requires start { start ≤ pass.old.sight.seen }
    requires own { IsOfLane book.old.store.layout book.old.lane object.key }
    requires fits { object_size object.key object.value ≤ room PAGE }
    requires same { again.now ≡ object.key }
    ensures { 1 ≤ book.old.store.memory.capacity → IfSome result (λ acted.
        acted.outcome
        ≡ Got (answer_by (value_at moment (timed object.value object.expires)) Memory)) }
{
    let PutObject {
        key,
        value,
        word,
        expires,
    } = object;
    let put = Request::Put(key, value, word, expires);
    let Ok(_) = book.act(clock, pass, start, put) else {
        return None;
    };
    match book.act(clock, pass, start, Request::Get(again, moment)) {
        Ok(acted) => Some(acted),
        Err(_) => None,
    }
}

/// A put and then a get are the last two calls that their pass lists. The put is listed with its key and value, and ended
/// before the get started. The get is listed with the answer that its caller got. So no put is made a get, and no end is
/// always the last stamp.
pub fn a_put_and_a_get_are_listed_in_turn<
    D: PageDevice<PAGE>,
    P: EvictionPolicy + Drop,
    const PAGE: usize,
    R: Wait,
>(
    rt: &R,
    cache: &SharedCache<D, P, PAGE>,
    pass: &mut Pass,
    object: PutObject,
    other: &Key,
    moment: u64,
) -> Option<Answer>
    requires { pass.old.sight.clock ≡ cache.now.clock }
    ensures { IfSome result (λ told. (put : Listed) × (got : Listed)
        × (pass.new.calls ≡ pass.old.calls ++ put ∷ got ∷ [])
        × (put.call.key ≡ object.key) × (put.call.act ≡ Act.Put object.value object.expires)
        × (put.end < got.call.start) × (got.call.act ≡ act_of moment told)) }
{
    let PutObject {
        key,
        value,
        word,
        expires,
    } = object;
    let Ok(_) = cache.put(rt, pass, key, value, word, expires) else {
        return None;
    };
    match cache.get(rt, pass, other, moment) {
        Ok(told) => Some(told),
        Err(_) => None,
    }
}

/// A call of any kind finds the clock full only if its pass has seen the last stamp. So no other refusal is told as a full
/// clock.
pub fn a_clock_is_full_at_its_last_stamp<
    D: PageDevice<PAGE>,
    P: EvictionPolicy + Drop,
    const PAGE: usize,
    R: Wait,
>(rt: &R, cache: &SharedCache<D, P, PAGE>, pass: &mut Pass, asked: Request<'_>) -> Option<CallFault>
    requires { pass.old.sight.clock ≡ cache.now.clock }
    ensures { result ≡ Some CallFault.ClockFull → pass.new.sight.seen + 1 ≡ 2 ^ 63 }
{
    match asked {
        Request::Get(key, moment) => cache.get(rt, pass, key, moment).err(),
        Request::Put(key, value, word, expires) => {
            cache.put(rt, pass, key, value, word, expires).err()
        }
        Request::Remove(key) => cache.remove(rt, pass, key).err(),
    }
}

/// The history of a cache that is over has the calls that its passes list, each once and with its end: however calls are
/// weighed, both weigh the same. So no lane is dropped, and no call.
pub fn a_finish_has_each_listed_call_once<
    D: PageDevice<PAGE>,
    P: EvictionPolicy + Drop,
    const PAGE: usize,
    R: Threads + Sync,
>(rt: &R, cache: SharedCache<D, P, PAGE>, passes: Vec<Pass>) -> Result<Finished<D>, FinishFault>
    ensures { IfOk result (λ finished. (h : Call → ℕ) → sum_by h finished.history
        ≡ sum_by (λ p. sum_by (λ l. h (done_of l).call) p.calls) passes.items) }
{
    match cache.finish(rt, passes) {
        Ok(finished) => Ok(finished),
        Err(fault) => Err(fault),
    }
}
