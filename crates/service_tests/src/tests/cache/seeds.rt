//! What the seed of a cache decides, and the numbers that show only in what leaves memory.
use super::caller::calls;
use super::calls::put;
use super::trials::{ALONE, keep_one};
use super::*;
use service_lane::Counter;

// Four lanes in which all is small.
static FOUR: Config = Config { lanes: 4, ..SMALL };

// One lane that admits every second object to flash.
static HALF: Config = Config {
    admit: 32_768,
    ..ALONE
};

// One that admits none.
static NONE_ADMITTED: Config = Config { admit: 0, ..ALONE };

// One that moves no fewer than 32 objects to a set.
static STRICT: Config = Config {
    threshold: 32,
    ..ALONE
};

/// Which of 64 puts of new keys push out an object that is not admitted, a bit for each.
pub fn declined<D: PageDevice<256>, L: KeyLanes, J: BookName, R: Wait>(
    rt: &R,
    alloc: Global,
    cache: &Cache<D, L, J>,
    seat: &mut Seat<L, J>,
) -> Result<u64, Fail> {
    let mut bits = 0;
    for number in 0..64u8 {
        let pushed = put(rt, alloc, cache, seat, &[b'k', number], b"1")??;
        bits = bits << 1 | u64::from(pushed == Pushed::Declined);
    }
    Ok(bits)
}

#[test]
fn two_caches_admit_by_words_of_their_own(rt: HostRuntime) -> Result<(), Fail> {
    let (first, second) = (RandomSeed::draw(&rt)?, RandomSeed::draw(&rt)?);
    let one = keep_one(&rt, rt.alloc(), HALF, first, b"keep declined")?;
    let two = keep_one(&rt, rt.alloc(), HALF, second, b"keep declined")?;
    assert!(rt; one != two && one != 0 && two != 0);
    Ok(())
}

// How many values are stored in each lane.
fn stored<D: PageDevice<256>, L: KeyLanes, J: BookName, R: Wait>(
    rt: &R,
    cache: &Cache<D, L, J>,
) -> [u64; 4] {
    let mut stored = [0; 4];
    for lane in 0..cache.lanes().min(4) {
        stored[lane as usize] = cache.counts(rt, lane).of(Counter::PutsStored);
    }
    stored
}

// The first place at which two lists differ; 4 if none.
fn first_other(one: &[u64; 4], two: &[u64; 4]) -> u64 {
    for at in 0..4usize {
        if one[at] != two[at] {
            return at as u64;
        }
    }
    4
}

// A number to the base 5 with one digit more.
fn with_digit(number: u64, digit: u64) -> u64 {
    number.wrapping_mul(5).wrapping_add(digit)
}

// The lane whose count a put of a new key raises, or 4 if none.
fn lane_of<D: PageDevice<256>, L: KeyLanes, J: BookName, R: Wait>(
    rt: &R,
    alloc: Global,
    cache: &Cache<D, L, J>,
    seat: &mut Seat<L, J>,
    name: &[u8],
) -> Result<u64, Fail> {
    let before = stored(rt, cache);
    let _pushed = put(rt, alloc, cache, seat, name, b"1")??;
    Ok(first_other(&before, &stored(rt, cache)))
}

/// The lanes of 27 keys, as digits to the base 5. Two seeds give all of them the same lanes at odds of one in 10^16.
pub fn lanes_of_keys<D: PageDevice<256>, L: KeyLanes, J: BookName, R: Wait>(
    rt: &R,
    alloc: Global,
    cache: &Cache<D, L, J>,
    seat: &mut Seat<L, J>,
) -> Result<u64, Fail> {
    let mut lanes = 0;
    for number in 0..27u8 {
        let lane = lane_of(rt, alloc, cache, seat, &name_of(number))?;
        lanes = with_digit(lanes, lane);
    }
    Ok(lanes)
}

#[test]
fn two_caches_place_keys_differently(rt: HostRuntime) -> Result<(), Fail> {
    let (first, second) = (RandomSeed::draw(&rt)?, RandomSeed::draw(&rt)?);
    let one = keep_one(&rt, rt.alloc(), FOUR, first, b"keep lanes-of-keys")?;
    let two = keep_one(&rt, rt.alloc(), FOUR, second, b"keep lanes-of-keys")?;
    assert!(rt; one != two);
    Ok(())
}

// How many calls bring about that objects leave memory, and the log.
const CALLS: u32 = 2_000;

/// Whether objects entered the log, and whether sets were written, a bit for each.
pub fn entered<D: PageDevice<256>, L: KeyLanes, J: BookName, R: Wait>(
    rt: &R,
    alloc: Global,
    cache: &Cache<D, L, J>,
) -> u64 {
    let _tally = calls(rt, alloc, cache, 7, CALLS);
    if cache.lanes() == 0 {
        return 0;
    }
    let counts = cache.counts(rt, 0);
    let (logged, written) = (
        counts.of(Counter::Logged) > 0,
        counts.of(Counter::SetsWritten) > 0,
    );
    u64::from(logged) << 1 | u64::from(written)
}

#[test]
fn a_lane_admits_and_moves_as_it_was_asked_to(rt: HostRuntime) -> Result<(), Fail> {
    let seed = RandomSeed::draw(&rt)?;
    let _all = keep_one(&rt, rt.alloc(), ALONE, seed, b"tell entered 3")?;
    let _none = keep_one(&rt, rt.alloc(), NONE_ADMITTED, seed, b"tell entered 0")?;
    let _strict = keep_one(&rt, rt.alloc(), STRICT, seed, b"tell entered 2")?;
    Ok(())
}
