// A caller of a load.
ghost use Rattle.std.specs.Prelude.{◌≡◌, ◌≢◌, ◌<◌, ◌≤◌, ◌+◌, ◌%◌, [], false, true, IfOk, IfSome, IsNone, IsSome, length, slice_index};
ghost use mathlib.Core.List.{IsPrefix};
ghost use Rattle.load.specs.Operations.{past};
ghost use Rattle.load.specs.Served.{key_number_of, ranks_of, served_next_of};
ghost use Rattle.serve_load.specs.Calls.{Does, HasEnded, IsEnded, IsOfCache, IsOneOf, IsTally, Looks, Puts, Removes, is_wrong, standing};
ghost use Rattle.serve_load.specs.declared.caller_tally.CallerTally.{CallerTally};
ghost use Rattle.serve_load.specs.Limits.{GoesOn, IsFresh, IsTimed, Stops};
ghost use Rattle.serve_load.specs.Looking.{Finds, FindsAll};
ghost use Rattle.serve_load.specs.Times.{IsSampled, is_timed};
ghost use Rattle.serve_load.specs.Objects.{key_of, value_of};

use crate::call_times::{CallTimes, TIMED};
use crate::caller_stop::CallerStop;
use crate::caller_tally::CallerTally;
use crate::objects::{expires_of, key, key_bytes, moment_of};
use crate::right::judged;
use crate::room::Room;
use crate::shared_load::SharedLoad;
use crate::tally::{Tally, Tallying};
use crate::time_limit::TimeLimit;
use crate::told_hit::ToldHit;
use crate::words::{CallEnd, step_of_fill, word_after_fill};
use deed_book::{BookName, KeyLanes, Seat};
use load::{Ranks, ServeLoad, ServeOperation};
use mover::AnswerKind;
use page_device::PageDevice;
use policy_laws::EvictionPolicy;
use rand_pcg::Lcg64Xsh32;
use record_pages::{Key, Value, ValueBuffer};
use service_cache::{LookedUp, ServiceCache};
use service_lane::Lease;
use std::alloc::{AllocError, Global};
use std::marker::PhantomData;
use std::sync::Wait;
use std::sync::atomic::{AtomicU64, Ordering};
use std::time::{Clock, Instant};

/// A caller: its number, its seat, the generator of its random words, what it knows of its keys, a word for each, and room for
/// its values.
#[derive(Drop)]
pub(crate) struct Caller<L: KeyLanes, J: BookName> {
    pub(crate) number: u16,
    pub(crate) seat: Seat<L, J>,
    pub(crate) generator: Lcg64Xsh32,
    pub(crate) words: Vec<u32>,
    pub(crate) room: Room,
}

impl<L: KeyLanes, J: BookName> Caller<L, J> {
    /// The caller with this number and this seat, whose keys have no values.
    pub(crate) fn new(
        alloc: Global,
        load: &ServeLoad,
        number: u16,
        seat: Seat<L, J>,
    ) -> Result<Caller<L, J>, AllocError>
        requires one_of { number < load.now.callers }
        requires seat { seat ≡ [] }
        ensures number { IfOk result (λ caller. caller.number ≡ number) }
        ensures begun { IfOk result (λ caller. IsOneOf load.now
            caller.number caller.generator caller.words.items caller.seat) }
    {
        Ok(Caller {
            number,
            seat,
            generator: Lcg64Xsh32::new(u64::from(load.seed), u64::from(number)),
            words: vec![in alloc; 0u32; load.keys as usize]?,
            room: Room::empty(alloc),
        })
    }

    /// Makes its operations as one of the callers of a load that began at this moment, and answers how it ended. It halts the load if
    /// memory for its times is refused.
    pub(crate) fn make_all<
        D: PageDevice<PAGE>,
        P: EvictionPolicy + Drop,
        const PAGE: usize,
        M: Tallying,
        R: Wait + Clock,
    >(
        self,
        rt: &R,
        cache: &ServiceCache<D, P, PAGE, L, J>,
        shared: &SharedLoad<'_>,
        start: Instant,
    ) -> Tally<M>
        requires begun { IsOneOf shared.now.load.now self.number self.generator self.words.items self.seat }
        requires ranks { shared.now.ranks.now ≡ ranks_of shared.now.load.now }
        requires most { M.most ≡ shared.now.load.now.operations }
        requires seconds { M.seconds ≡ shared.now.load.now.seconds }
        requires tallies { (counted : CallerTally) → IsTally shared.now.load.now counted → ∥ M.is_tally counted ∥₁ }
        ensures ended { HasEnded shared.now.load.now self.number result.counted }
        ensures found { IsOfCache L.is_honest L.lane_of shared.now.load.now self.number result.counted.stop }
    {
        let Ok(mut times) = CallTimes::new(shared.alloc) else {
            shared.halted.store(1, Ordering::SeqCst);
            return Tally {
                counted: CallerTally {
                    operations: 0,
                    refused: 0,
                    stop: CallerStop::Halted,
                },
                times: None,
                of: PhantomData,
            };
        };
        let mut limit = TimeLimit::new(start, shared.load.seconds);
        let counted = self.make_each(rt, cache, shared, &mut limit, &mut times);
        Tally {
            counted,
            times: Some(times),
            of: PhantomData,
        }
    }

    /// Makes its operations, until all are made, the time is over before the next one, a hit is not right, or the load is halted; and
    /// halts the load at such a hit. They are counted by the thousand.
    fn make_each<D: PageDevice<PAGE>, P: EvictionPolicy + Drop, const PAGE: usize, R: Wait + Clock>(
        mut self,
        rt: &R,
        cache: &ServiceCache<D, P, PAGE, L, J>,
        shared: &SharedLoad<'_>,
        limit: &mut TimeLimit,
        times: &mut CallTimes,
    ) -> CallerTally
        requires keys { length self.words.items ≡ shared.now.load.now.keys }
        requires ranks { shared.now.ranks.now ≡ ranks_of shared.now.load.now }
        requires limit { IsFresh shared.now.load.now.seconds limit.old }
        ensures ended { IsEnded shared.now.load.now self.number self.generator
            (standing self.words.items self.seat) result }
        ensures found { IsOfCache L.is_honest L.lane_of shared.now.load.now self.number result.stop }
        ensures timed { IsTimed result.operations result.stop limit.new }
    {
        let mut found = ValueBuffer::empty();
        let mut refused = 0;
        for number in 0..shared.load.operations {
            if let Some(stop) = stop_of(rt, shared.halted, limit) {
                return CallerTally {
                    operations: number,
                    refused,
                    stop,
                };
            }
            let step = self.make_next(rt, cache, shared, number, times, &mut found);
            if let Some(known) = step.wrong() {
                shared.halted.store(1, Ordering::SeqCst);
                return CallerTally {
                    operations: number + 1,
                    refused,
                    stop: CallerStop::Wrong(ToldHit {
                        caller: self.number,
                        operation: number,
                        known,
                        found,
                    }),
                };
            }
            refused += step.refusals();
            count(shared.made, number);
        }
        CallerTally {
            operations: shared.load.operations,
            refused,
            stop: CallerStop::AllMade,
        }
    }

    /// Makes its operation with this number, and times one of sixteen. After a look-up its buffer has what was hit, or nothing.
    fn make_next<D: PageDevice<PAGE>, P: EvictionPolicy + Drop, const PAGE: usize, R: Wait + Clock>(
        &mut self,
        rt: &R,
        cache: &ServiceCache<D, P, PAGE, L, J>,
        shared: &SharedLoad<'_>,
        number: u32,
        times: &mut CallTimes,
        found: &mut ValueBuffer,
    ) -> CallEnd
        requires keys { length self.old.words.items ≡ shared.now.load.now.keys }
        requires ranks { shared.now.ranks.now ≡ ranks_of shared.now.load.now }
        requires number { number < 4294967295 }
        ensures does { Does shared.now.load.now self.old.number (served_next_of shared.now.load.now self.old.generator) number
            result (standing self.old.words.items self.old.seat)
            (standing self.new.words.items self.new.seat) }
        ensures finds { FindsAll L.is_honest L.lane_of shared.now.load.now self.old.number
            (served_next_of shared.now.load.now self.old.generator) self.old.words.items number self.new.seat
            found.new result }
        ensures number { self.new.number ≡ self.old.number }
        ensures generator { self.new.generator ≡ past (past self.old.generator) }
        ensures keys { length self.new.words.items ≡ shared.now.load.now.keys }
        ensures times { IsSampled number (served_next_of shared.now.load.now self.old.generator)
            times.old.gets times.new.gets times.old.puts times.new.puts }
    {
        let operation = ServeOperation::next(&mut self.generator, shared.load, shared.ranks);
        let begin = begin_of(rt, operation, number);
        let step = self.make(rt, cache, shared, operation, number, found);
        times.note(rt, operation, &begin);
        step
    }

    /// Makes an operation, which has this number.
    fn make<D: PageDevice<PAGE>, P: EvictionPolicy + Drop, const PAGE: usize, R: Wait>(
        &mut self,
        rt: &R,
        cache: &ServiceCache<D, P, PAGE, L, J>,
        shared: &SharedLoad<'_>,
        operation: ServeOperation,
        number: u32,
        found: &mut ValueBuffer,
    ) -> CallEnd
        requires key { key_number_of operation < length self.old.words.items }
        requires number { number < 4294967295 }
        ensures does { Does shared.now.load.now self.old.number operation number result
            (standing self.old.words.items self.old.seat)
            (standing self.new.words.items self.new.seat) }
        ensures finds { FindsAll L.is_honest L.lane_of shared.now.load.now self.old.number operation self.old.words.items number
            self.new.seat found.new result }
        ensures number { self.new.number ≡ self.old.number }
        ensures generator { self.new.generator ≡ self.old.generator }
        ensures keys { length self.new.words.items ≡ length self.old.words.items }
    {
        match operation {
            ServeOperation::Get(key) => {
                found.set(&[]);
                if shared.load.leases == 0 {
                    self.get(rt, cache, shared.load, key, number, found)
                } else {
                    self.get_or_fill(rt, cache, shared, key, number, found)
                }
            }
            ServeOperation::Remove(key) => self.remove(rt, cache, key),
            ServeOperation::Put(key) => self.put(rt, cache, shared, key, number),
        }
    }

    /// Looks a key up, and says whether a hit was right.
    fn get<D: PageDevice<PAGE>, P: EvictionPolicy + Drop, const PAGE: usize, R: Wait>(
        &mut self,
        rt: &R,
        cache: &ServiceCache<D, P, PAGE, L, J>,
        load: &ServeLoad,
        key: u32,
        number: u32,
        found: &mut ValueBuffer,
    ) -> CallEnd
        requires key { key < length self.old.words.items }
        requires empty { found.old ≡ [] }
        ensures finds { Finds L.is_honest L.lane_of load.now self.old.number key
            (slice_index self.old.words.items key) number self.new.seat found.new result }
        ensures seen { IsPrefix self.old.seat self.new.seat }
        ensures words { self.new.words ≡ self.old.words }
        ensures number { self.new.number ≡ self.old.number }
        ensures generator { self.new.generator ≡ self.old.generator }
    {
        let moment = moment_of(load, number);
        let name = key_bytes(self.number, key);
        let seen = cache.get(rt, &mut self.seat, &name, moment, found);
        judged(
            load,
            key,
            self.words[key as usize],
            moment,
            seen,
            found.bytes(),
        )
    }

    /// Looks a key up, and says whether a hit was right; at a miss it fills the key by the lease.
    fn get_or_fill<D: PageDevice<PAGE>, P: EvictionPolicy + Drop, const PAGE: usize, R: Wait>(
        &mut self,
        rt: &R,
        cache: &ServiceCache<D, P, PAGE, L, J>,
        shared: &SharedLoad<'_>,
        key: u32,
        number: u32,
        found: &mut ValueBuffer,
    ) -> CallEnd
        requires key { key < length self.old.words.items }
        requires number { number < 4294967295 }
        requires empty { found.old ≡ [] }
        requires leases { shared.now.load.now.leases ≢ 0 }
        ensures finds { Finds L.is_honest L.lane_of shared.now.load.now self.old.number key
            (slice_index self.old.words.items key) number self.new.seat found.new result }
        ensures looks { Looks shared.now.load.now self.old.number key number result
            (standing self.old.words.items self.old.seat)
            (standing self.new.words.items self.new.seat) }
        ensures number { self.new.number ≡ self.old.number }
        ensures generator { self.new.generator ≡ self.old.generator }
        ensures keys { length self.new.words.items ≡ length self.old.words.items }
    {
        let moment = moment_of(shared.load, number);
        let name = key_bytes(self.number, key);
        let known = self.words[key as usize];
        match cache.get_or_lease(rt, &mut self.seat, &name, moment, found) {
            Ok(LookedUp::Miss(_, lease)) => self.fill(rt, cache, shared, lease, key, number),
            Ok(LookedUp::Hit { tier, expires }) => {
                judged(
                    shared.load,
                    key,
                    known,
                    moment,
                    Ok(AnswerKind::Hit { tier, expires }),
                    found.bytes(),
                )
            }
            Err(fault) => judged(shared.load, key, known, moment, Err(fault), found.bytes()),
        }
    }

    /// Fills a key by a lease, with the value of the operation of this number.
    fn fill<D: PageDevice<PAGE>, P: EvictionPolicy + Drop, const PAGE: usize, R: Wait>(
        &mut self,
        rt: &R,
        cache: &ServiceCache<D, P, PAGE, L, J>,
        shared: &SharedLoad<'_>,
        lease: Lease,
        key: u32,
        number: u32,
    ) -> CallEnd
        requires key { key < length self.old.words.items }
        requires number { number < 4294967295 }
        requires leases { shared.now.load.now.leases ≢ 0 }
        ensures right { is_wrong result ≡ false }
        ensures looks { Looks shared.now.load.now self.old.number key number result
            (standing self.old.words.items self.old.seat)
            (standing self.new.words.items self.new.seat) }
        ensures number { self.new.number ≡ self.old.number }
        ensures generator { self.new.generator ≡ self.old.generator }
        ensures keys { length self.new.words.items ≡ length self.old.words.items }
    {
        let Ok((name, value)) = self.object(shared.alloc, shared.load, key, number) else {
            return CallEnd::Refused;
        };
        let filled = cache.fill(
            rt,
            &mut self.seat,
            lease,
            name,
            value,
            expires_of(shared.load, number),
        );
        let known = &mut self.words[key as usize];
        *known = word_after_fill(filled, *known, number);
        step_of_fill(filled)
    }

    /// Puts the value of the operation with this number. A put that is refused removes the key.
    fn put<D: PageDevice<PAGE>, P: EvictionPolicy + Drop, const PAGE: usize, R: Wait>(
        &mut self,
        rt: &R,
        cache: &ServiceCache<D, P, PAGE, L, J>,
        shared: &SharedLoad<'_>,
        key: u32,
        number: u32,
    ) -> CallEnd
        requires key { key < length self.old.words.items }
        requires number { number < 4294967295 }
        ensures puts { Puts shared.now.load.now self.old.number key number result
            (standing self.old.words.items self.old.seat)
            (standing self.new.words.items self.new.seat) }
        ensures number { self.new.number ≡ self.old.number }
        ensures generator { self.new.generator ≡ self.old.generator }
        ensures keys { length self.new.words.items ≡ length self.old.words.items }
    {
        let Ok((name, value)) = self.object(shared.alloc, shared.load, key, number) else {
            let _removed = self.remove(rt, cache, key);
            return CallEnd::Refused;
        };
        match cache.put(
            rt,
            &mut self.seat,
            name,
            value,
            expires_of(shared.load, number),
        ) {
            Ok(_) => {
                self.words[key as usize] = number + 1;
                CallEnd::Done
            }
            Err(_) => {
                self.words[key as usize] = 0;
                CallEnd::Refused
            }
        }
    }

    /// Removes a key.
    fn remove<D: PageDevice<PAGE>, P: EvictionPolicy + Drop, const PAGE: usize, R: Wait>(
        &mut self,
        rt: &R,
        cache: &ServiceCache<D, P, PAGE, L, J>,
        key: u32,
    ) -> CallEnd
        requires { key < length self.old.words.items }
        ensures removes { Removes self.old.number key result
            (standing self.old.words.items self.old.seat)
            (standing self.new.words.items self.new.seat) }
        ensures number { self.new.number ≡ self.old.number }
        ensures generator { self.new.generator ≡ self.old.generator }
        ensures keys { length self.new.words.items ≡ length self.old.words.items }
    {
        let name = key_bytes(self.number, key);
        let removed = cache.remove(rt, &mut self.seat, &name);
        self.words[key as usize] = 0;
        match removed {
            Ok(()) => CallEnd::Done,
            Err(_) => CallEnd::Refused,
        }
    }

    /// Its key with this number, and the value that its operation with this number puts for it.
    fn object(
        &mut self,
        alloc: Global,
        load: &ServeLoad,
        number_of_key: u32,
        number: u32,
    ) -> Result<(Key, Value), AllocError>
        ensures made { IfOk result (λ made. (made.0 ≡ key_of self.old.number number_of_key)
            × (made.1 ≡ value_of load.now.value_bytes number_of_key number)) }
        ensures words { self.new.words ≡ self.old.words }
        ensures seat { self.new.seat ≡ self.old.seat }
        ensures number { self.new.number ≡ self.old.number }
        ensures generator { self.new.generator ≡ self.old.generator }
    {
        let name = key(alloc, self.number, number_of_key)?;
        let value = self.room.value(alloc, load, number_of_key, number)?;
        Ok((name, value))
    }
}

/// Why a caller makes no more operations, if the load was halted or its time is over.
fn stop_of<R: Clock>(rt: &R, halted: &AtomicU64, limit: &mut TimeLimit) -> Option<CallerStop>
    requires few { limit.old.left < 4294967295 }
    requires unended { limit.old.is_over ≡ false }
    ensures stopped { IfSome result (λ stop. Stops limit.old stop limit.new) }
    ensures goes_on { IsNone result → GoesOn limit.old limit.new }
{
    if halted.load(Ordering::SeqCst) != 0 {
        return Some(CallerStop::Halted);
    }
    if limit.tell(rt) {
        return Some(CallerStop::TimeOver);
    }
    None
}

/// Counts a thousand operations more if the one with this number is the last of a thousand.
fn count(made: &AtomicU64, number: u32) {
    if number % 1000 == 999 {
        made.fetch_add(1000, Ordering::SeqCst);
    }
}

/// What the clock tells at the begin of an operation with this number, if that is timed and the clock tells it.
fn begin_of<R: Clock>(rt: &R, operation: ServeOperation, number: u32) -> Option<Instant>
    ensures { IsSome result → is_timed operation number ≡ true }
{
    if !is_timed(operation, number) {
        return None;
    }
    match Instant::now(rt) {
        Ok(begin) => Some(begin),
        Err(_) => None,
    }
}

/// Whether the operation with this number is timed.
fn is_timed(operation: ServeOperation, number: u32) -> bool
    ensures { result ≡ is_timed operation number }
{
    match operation {
        ServeOperation::Get(_) | ServeOperation::Put(_) => number % TIMED == 0,
        ServeOperation::Remove(_) => false,
    }
}
