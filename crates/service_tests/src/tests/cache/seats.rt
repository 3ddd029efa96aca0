//! Callers with seats: two threads call a cache, and whoever has seen what both have seen gets the latest value.
ghost use Rattle.std.specs.Prelude.{◌≡◌, [], ◌∷◌, IfSome};
ghost use Rattle.certificate_checker.specs.Deeds.{Deed};
ghost use Rattle.mover.specs.Get.{answer_of};
ghost use Rattle.service_cache.specs.Calls.{IsHit};
ghost use Rattle.service_cache.specs.Seated.{put_of};
ghost use Rattle.service_cache.specs.Sorted.{SortsBy};
ghost use Rattle.service_tests.specs.Standing.{Stands};

use super::trials::hold;
use super::*;
use mover::AnswerKind;
use record_pages::{Key, Tier, Value};
use std::marker::Brand;
use std::test::*;
use std::thread::{Threads, join};

// How often each thread puts a key, looks it up, and now and then removes it.
const CALLS: u32 = 2_000;

// How many lanes two shards have.
const LANES: u32 = 4;

type Over<L, J> = Cache<MemoryDevice<256>, L, J>;

// An object that a thread puts.
#[derive(Drop)]
struct Object {
    key: Key,
    value: Value,
}

// What the last look-up gave, and the seat that it was made with.
#[derive(Drop)]
struct Last<L: KeyLanes, J: BookName> {
    seat: Seat<L, J>,
    seen: AnswerKind,
    found: ValueBuffer,
}

// An object of this key.
fn object_of(alloc: Global, name: &[u8], bytes: &[u8]) -> Result<Object, Fail> {
    Ok(Object {
        key: Key::new(alloc, name)?,
        value: Value::new(alloc, bytes)?,
    })
}

#[test]
fn two_callers_of_a_cache(rt: HostRuntime) -> Result<(), Fail> {
    let seed = RandomSeed::draw(&rt)?;
    let found = sorted::<Brand, _>(&rt, rt.alloc(), seed)?;
    assert!(rt; found);
    Ok(())
}

// Puts, looks up and removes keys of one to four bytes that the other thread writes too: how many of these calls the book refused.
fn refused_calls<D: PageDevice<256>, L: KeyLanes, J: BookName, R: Wait>(
    rt: &R,
    alloc: Global,
    cache: &Cache<D, L, J>,
) -> u32 {
    let mut seat = cache.seat();
    let mut refused: u32 = 0;
    for number in 0..CALLS {
        let letters = [b'k', (number % 8) as u8, b'l', b'm'];
        let name = &letters[..1 + (number % 4) as usize];
        refused = refused.wrapping_add(put_refused(rt, alloc, cache, &mut seat, name));
        refused = refused.wrapping_add(get_refused(rt, cache, &mut seat, name));
        if number % 5 == 0 {
            refused = refused.wrapping_add(remove_refused(rt, cache, &mut seat, name));
        }
    }
    refused
}

// Looks a key up: 1 if the book refuses that.
fn get_refused<D: PageDevice<256>, L: KeyLanes, J: BookName, R: Wait>(
    rt: &R,
    cache: &Cache<D, L, J>,
    seat: &mut Seat<L, J>,
    name: &[u8],
) -> u32 {
    let mut found = ValueBuffer::empty();
    match cache.get(rt, seat, name, 0, &mut found) {
        Err(SeatFault::Book(_)) => 1,
        _ => 0,
    }
}

// Removes a key: 1 if the book refuses that.
fn remove_refused<D: PageDevice<256>, L: KeyLanes, J: BookName, R: Wait>(
    rt: &R,
    cache: &Cache<D, L, J>,
    seat: &mut Seat<L, J>,
    name: &[u8],
) -> u32 {
    match cache.remove(rt, seat, name) {
        Err(SeatFault::Book(_)) => 1,
        _ => 0,
    }
}

// Puts a value of a key: 1 if the book refuses that.
fn put_refused<D: PageDevice<256>, L: KeyLanes, J: BookName, R: Wait>(
    rt: &R,
    alloc: Global,
    cache: &Cache<D, L, J>,
    seat: &mut Seat<L, J>,
    name: &[u8],
) -> u32 {
    let Ok(key) = Key::new(alloc, name) else {
        return 0;
    };
    let Ok(value) = Value::new(alloc, name) else {
        return 0;
    };
    match cache.put(rt, seat, key, value, NEVER) {
        Err(SeatPutFault::Book(_)) => 1,
        _ => 0,
    }
}

/// Whether the book refuses no call of two threads that write the same keys.
pub fn no_call_is_refused<
    D: PageDevice<256> + Send,
    L: KeyLanes + Send + Sync,
    J: BookName + Send + Sync,
    R: Threads + Wait + Sync,
>(rt: &R, alloc: Global, cache: &Cache<D, L, J>) -> bool {
    let (one, two) = join(
        rt,
        || refused_calls(rt, alloc, cache),
        || refused_calls(rt, alloc, cache),
    );
    one == 0 && two == 0
}

#[test]
fn no_call_is_refused_by_the_book(rt: HostRuntime) -> Result<(), Fail> {
    hold(&rt, rt.alloc(), 2, b"not-refused")
}

// Opens a book for a cache whose keys are sorted by this seed, and has two threads call the cache.
fn sorted<L: KeyLanes + Send + Sync, R: Threads + Wait + Sync>(
    rt: &R,
    alloc: Global,
    seed: RandomSeed,
) -> Result<bool, Fail>
    requires { SortsBy L.lanes L.lane_of seed 4 }
{
    let book = UnnamedBook::<L>::open(LANES as usize);
    found_by_both::<L, Brand, R>(rt, alloc, seed, book)
}

// Whether who has seen what both threads have seen finds the value of the first in memory.
fn found_by_both<L: KeyLanes + Send + Sync, J: BookName + Send + Sync, R: Threads + Wait + Sync>(
    rt: &R,
    alloc: Global,
    seed: RandomSeed,
    book: UnnamedBook<L>,
) -> Result<bool, Fail>
    requires sorted { SortsBy L.lanes L.lane_of seed 4 }
    requires book { book ≡ J.book }
{
    let devices = so_many(alloc, LANES, PAGES)?;
    let book = book.with_name::<J>();
    let options = ServiceOptions {
        shards: 2,
        lease_slots: 8,
        bring_back: 0,
    };
    let cache = Over::<L, J>::open(alloc, &SMALL, &options, devices, Rriparoo, seed, book)?;
    finds_first(rt, alloc, &cache)
}

// The same of a cache.
fn finds_first<L: KeyLanes + Send + Sync, J: BookName + Send + Sync, R: Threads + Wait + Sync>(
    rt: &R,
    alloc: Global,
    cache: &Over<L, J>,
) -> Result<bool, Fail> {
    let first = object_of(alloc, b"ax", b"one")?;
    let second = object_of(alloc, b"by", b"two")?;
    Ok(is_first(&last_of_both(rt, cache, first, second)))
}

fn is_first<L: KeyLanes, J: BookName>(last: &Option<Last<L, J>>) -> bool {
    match last {
        Some(last) => last.seen
            == AnswerKind::Hit {
                tier: Tier::Memory,
                expires: NEVER,
            }
            && last.found.bytes() == b"one".as_slice(),
        None => false,
    }
}

// Each thread puts its object. Who has seen what both have seen has seen both puts; and what they hit is their key's latest value
// in what they have seen.
fn last_of_both<L: KeyLanes + Send + Sync, J: BookName + Send + Sync, R: Threads + Wait + Sync>(
    rt: &R,
    cache: &Over<L, J>,
    first: Object,
    second: Object,
) -> Option<Last<L, J>>
    ensures first { IfSome result (λ last. Stands (put_of first.key first.value 18446744073709551615) last.seat) }
    ensures second { IfSome result (λ last. Stands (put_of second.key second.value 18446744073709551615) last.seat) }
    ensures live { IfSome result (λ last. IsHit L.is_honest L.lane_of last.seat (97 ∷ 120 ∷ []) 0 (answer_of last.seen last.found)) }
{
    let seat = seen_by_both(rt, cache, first, second)?;
    get_in(rt, cache, seat, b"ax")
}

// Each thread puts its object. Who has seen what both have seen has seen both puts.
fn seen_by_both<L: KeyLanes + Send + Sync, J: BookName + Send + Sync, R: Threads + Wait + Sync>(
    rt: &R,
    cache: &Over<L, J>,
    first: Object,
    second: Object,
) -> Option<Seat<L, J>>
    ensures first { IfSome result (λ seat. Stands (put_of first.key first.value 18446744073709551615) seat) }
    ensures second { IfSome result (λ seat. Stands (put_of second.key second.value 18446744073709551615) seat) }
{
    let (one, two) = join(
        rt,
        || -> Option<Seat<L, J>>
            ensures { IfSome result (λ seat. Stands (put_of first.key first.value 18446744073709551615) seat) }
        { put_in(rt, cache, first) },
        || -> Option<Seat<L, J>>
            ensures { IfSome result (λ seat. Stands (put_of second.key second.value 18446744073709551615) seat) }
        { put_in(rt, cache, second) },
    );
    let mut seat = one?;
    seat.learn(&two?);
    Some(seat)
}

// Puts an object.
fn put_in<L: KeyLanes, J: BookName, R: Wait>(
    rt: &R,
    cache: &Over<L, J>,
    object: Object,
) -> Option<Seat<L, J>>
    ensures { IfSome result (λ seat. Stands (put_of object.key object.value 18446744073709551615) seat) }
{
    let mut seat = cache.seat();
    match cache.put(rt, &mut seat, object.key, object.value, NEVER) {
        Ok(_) => Some(seat),
        Err(_) => None,
    }
}

// Looks a key up.
fn get_in<L: KeyLanes, J: BookName, R: Wait>(
    rt: &R,
    cache: &Over<L, J>,
    mut seat: Seat<L, J>,
    key: &[u8],
) -> Option<Last<L, J>>
    ensures live { IfSome result (λ last. IsHit L.is_honest L.lane_of last.seat key.now 0 (answer_of last.seen last.found)) }
    ensures kept { (deed : Deed) → Stands deed seat → IfSome result (λ last. Stands deed last.seat) }
{
    let mut found = ValueBuffer::empty();
    match cache.get(rt, &mut seat, key, 0, &mut found) {
        Ok(seen) => Some(Last { seat, seen, found }),
        Err(_) => None,
    }
}
