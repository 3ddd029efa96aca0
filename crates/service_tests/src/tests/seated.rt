//! Two threads call a lane under a lock, each with a seat; whoever has seen what both have seen gets the latest value.
ghost use Rattle.std.specs.Prelude.{◌≡◌, [], ◌∷◌, IfOk, IfSome, IsTrue, true};
ghost use Rattle.certificate_checker.specs.Deeds.{Deed};
ghost use Rattle.mover.specs.Get.{answer_of};
ghost use Rattle.service_lane.specs.Asked.{IsLiveHit};
ghost use Rattle.service_cache.specs.Seated.{put_of};
ghost use Rattle.service_tests.specs.Standing.{Stands};

use deed_book::{BookName, OneLane, Register, Seat, UnnamedBook};
use key_hash::RandomSeed;
use mover::AnswerKind;
use page_device::MemoryDevice;
use record_pages::{Config, Key, NEVER, Tier, Value, ValueBuffer};
use service_cache::SeatedLane;
use service_lane::{ServiceLane, words_of};
use std::alloc::{AllocError, Global};
use std::marker::Brand;
use std::sync::{Mutex, Wait};
use std::test::*;
use std::thread::{Threads, join};

// One lane of one set, with four objects in memory and two segments of one page.
const SMALL: Config = Config {
    lanes: 1,
    sets: 1,
    memory: 4,
    segments: 2,
    segment_pages: 1,
    entries: 8,
    threshold: 1,
    admit: 65536,
};

type Served = ServiceLane<MemoryDevice<256>, 256>;

type Lane<J> = SeatedLane<MemoryDevice<256>, 256, OneLane, J>;

// An object that a thread puts.
#[derive(Drop)]
struct Object {
    key: Key,
    value: Value,
}

// What the last look-up gave, and the seat that it was made with.
#[derive(Drop)]
struct Last<J: BookName> {
    seat: Seat<OneLane, J>,
    seen: AnswerKind,
    found: ValueBuffer,
}

// An object of this key.
fn object_of(alloc: Global, name: &[u8], bytes: &[u8]) -> Result<Object, Fail>
    ensures { IfOk result (λ object. (object.key ≡ name.now) × (object.value ≡ bytes.now)) }
{
    Ok(Object {
        key: Key::new(alloc, name)?,
        value: Value::new(alloc, bytes)?,
    })
}

// An empty lane, in memory of its own.
fn service_lane(alloc: Global) -> Result<Box<Served>, Fail>
    ensures { IfOk result (λ lane. lane.value.deeds ≡ []) }
{
    let device = MemoryDevice::new(alloc, 3)?;
    let lane = ServiceLane::open(alloc, &SMALL, 8, device, RandomSeed::fixed())?;
    Ok(Box::new(alloc, lane)?)
}

// The lane with its register, under a lock.
fn locked<J: BookName>(
    alloc: Global,
    lane: Box<Served>,
    register: Register<OneLane, J>,
) -> Result<Box<Mutex<Lane<J>>>, AllocError>
    requires opened { lane.value.deeds ≡ [] }
{
    let words = words_of(RandomSeed::fixed(), 0);
    let seated = SeatedLane::new(Box::into_inner(lane), register, words);
    Ok(Box::new(alloc, Mutex::new(seated))?)
}

#[test]
fn two_callers_of_one_lane(rt: HostRuntime) -> Result<(), Fail> {
    let book = UnnamedBook::<OneLane>::open(1);
    let found = found_by_both::<Brand, _>(&rt, rt.alloc(), book)?;
    assert!(rt; found);
    Ok(())
}

// Whether who has seen what both threads have seen finds the value of the first in memory.
fn found_by_both<J: BookName + Send + Sync, R: Threads + Wait + Sync>(
    rt: &R,
    alloc: Global,
    book: UnnamedBook<OneLane>,
) -> Result<bool, Fail>
    requires book { book ≡ J.book }
{
    let opened = service_lane(alloc)?;
    let mut book = book.with_name::<J>();
    let seat = book.seat();
    let lane = locked(alloc, opened, book.register())?;
    finds_first(rt, alloc, &lane, seat)
}

// The same of a lane.
fn finds_first<J: BookName + Send + Sync, R: Threads + Wait + Sync>(
    rt: &R,
    alloc: Global,
    lane: &Mutex<Lane<J>>,
    seat: Seat<OneLane, J>,
) -> Result<bool, Fail> {
    let first = object_of(alloc, b"ax", b"one")?;
    let second = object_of(alloc, b"by", b"two")?;
    Ok(is_first(&last_of_both(rt, lane, seat, first, second)))
}

fn is_first<J: BookName>(last: &Option<Last<J>>) -> bool {
    match last {
        Some(last) => last.seen
            == AnswerKind::Hit {
                tier: Tier::Memory,
                expires: NEVER,
            }
            && last.found.bytes() == b"one".as_slice(),
        None => false,
    }
}

// Each thread puts its object. Whoever has seen what both have seen has seen both puts; and what they hit is their
// key's latest value in what they have seen.
fn last_of_both<J: BookName + Send + Sync, R: Threads + Wait + Sync>(
    rt: &R,
    lane: &Mutex<Lane<J>>,
    seat: Seat<OneLane, J>,
    first: Object,
    second: Object,
) -> Option<Last<J>>
    ensures first { IfSome result (λ last. Stands (put_of first.key first.value 18446744073709551615) last.seat) }
    ensures second { IfSome result (λ last. Stands (put_of second.key second.value 18446744073709551615) last.seat) }
    ensures live { IfSome result (λ last. IsLiveHit (IsTrue true) last.seat (97 ∷ 120 ∷ []) 0 (answer_of last.seen last.found)) }
{
    let seat = seen_by_both(rt, lane, seat, first, second)?;
    get_in(rt, lane, seat, b"ax")
}

// Each thread puts its object. Who has seen what both have seen has seen both puts.
fn seen_by_both<J: BookName + Send + Sync, R: Threads + Wait + Sync>(
    rt: &R,
    lane: &Mutex<Lane<J>>,
    seat: Seat<OneLane, J>,
    first: Object,
    second: Object,
) -> Option<Seat<OneLane, J>>
    ensures first { IfSome result (λ seat. Stands (put_of first.key first.value 18446744073709551615) seat) }
    ensures second { IfSome result (λ seat. Stands (put_of second.key second.value 18446744073709551615) seat) }
{
    let other = seat.again();
    let (one, two) = join(
        rt,
        || -> Option<Seat<OneLane, J>>
            ensures { IfSome result (λ seat. Stands (put_of first.key first.value 18446744073709551615) seat) }
        { put_in(rt, lane, seat, first) },
        || -> Option<Seat<OneLane, J>>
            ensures { IfSome result (λ seat. Stands (put_of second.key second.value 18446744073709551615) seat) }
        { put_in(rt, lane, other, second) },
    );
    let mut seat = one?;
    seat.learn(&two?);
    Some(seat)
}

// Puts an object.
fn put_in<J: BookName>(
    rt: &impl Wait,
    lane: &Mutex<Lane<J>>,
    mut seat: Seat<OneLane, J>,
    object: Object,
) -> Option<Seat<OneLane, J>>
    ensures { IfSome result (λ seat. Stands (put_of object.key object.value 18446744073709551615) seat) }
{
    let mut held = lane.lock(rt);
    let _number = held.number();
    match held.put(&mut seat, object.key, object.value, 0, NEVER) {
        Ok(_) => Some(seat),
        Err(_) => None,
    }
}

// Looks a key up.
fn get_in<J: BookName>(
    rt: &impl Wait,
    lane: &Mutex<Lane<J>>,
    mut seat: Seat<OneLane, J>,
    key: &[u8],
) -> Option<Last<J>>
    ensures live { IfSome result (λ last. IsLiveHit (IsTrue true) last.seat key.now 0 (answer_of last.seen last.found)) }
    ensures seen { (deed : Deed) → Stands deed seat → IfSome result (λ last. Stands deed last.seat) }
{
    let mut held = lane.lock(rt);
    let _number = held.number();
    let mut found = ValueBuffer::empty();
    match held.get(&mut seat, key, 0, &mut found) {
        Ok(seen) => Some(Last { seat, seen, found }),
        Err(_) => None,
    }
}
