//! A caller that knows what each of its keys has to hold.
ghost use Rattle.std.specs.Prelude.{◌≤◌};

use super::*;
use mover::AnswerKind;
use record_pages::{Key, MissCause, Tier, Value};

/// How many keys a caller has, which no other one writes.
pub const KEYS: usize = 64;

/// How its calls went.
#[derive(Clone, Copy, PartialEq, Eq)]
pub struct Tally {
    /// Hits of the latest value, while it was live, by tier.
    pub memory: u64,
    pub log: u64,
    pub set: u64,
    /// Misses that may be, by cause. A value that had expired may be told as absent, if it was lost.
    pub absent: u64,
    pub expired: u64,
    pub failed: u64,
    /// Hits of another value, of one that had expired, or with another expiry; and live values that were told as expired.
    pub wrong: u64,
    /// Refused calls.
    pub refused: u64,
}

pub static NONE: Tally = Tally {
    memory: 0,
    log: 0,
    set: 0,
    absent: 0,
    expired: 0,
    failed: 0,
    wrong: 0,
    refused: 0,
};

/// The sum of two.
pub fn sum(one: Tally, other: Tally) -> Tally {
    Tally {
        memory: one.memory.wrapping_add(other.memory),
        log: one.log.wrapping_add(other.log),
        set: one.set.wrapping_add(other.set),
        absent: one.absent.wrapping_add(other.absent),
        expired: one.expired.wrapping_add(other.expired),
        failed: one.failed.wrapping_add(other.failed),
        wrong: one.wrong.wrapping_add(other.wrong),
        refused: one.refused.wrapping_add(other.refused),
    }
}

// What a caller knows of a key: the number of its latest value, 0 for none, and when that expires.
#[derive(Clone, Copy)]
struct Version {
    number: u32,
    expires: u64,
}

static NO_VERSION: Version = Version {
    number: 0,
    expires: NEVER,
};

// The next of the numbers that a caller draws.
fn next(drawn: u64) -> u64 {
    drawn
        .wrapping_mul(6_364_136_223_846_793_005)
        .wrapping_add(1_442_695_040_888_963_407)
}

// The value of a version: its number, and so many bytes more as that decides.
fn bytes_of(version: u32) -> [u8; 60] {
    let mut bytes = [(version % 251) as u8; 60];
    let number = version.to_be_bytes();
    for at in 0..4usize {
        bytes[at] = number[at];
    }
    bytes
}

// How long it is.
fn len_of(version: u32) -> usize
    ensures { result ≤ 60 }
{
    4 + version as usize % 57
}

// Whether this is the value of a version.
fn is_of(found: &ValueBuffer, version: Version) -> bool {
    let bytes = bytes_of(version.number);
    version.number != 0 && found.bytes() == &bytes[..len_of(version.number)]
}

// A right hit in a tier.
fn hit_in(tier: Tier) -> Tally {
    match tier {
        Tier::Memory => Tally { memory: 1, ..NONE },
        Tier::Log => Tally { log: 1, ..NONE },
        Tier::Set => Tally { set: 1, ..NONE },
    }
}

// One answer of a get.
fn told(seen: AnswerKind, found: &ValueBuffer, version: Version, moment: u64) -> Tally {
    let is_live = version.expires == NEVER || moment < version.expires;
    match seen {
        AnswerKind::Hit { expires, .. }
            if !is_live || expires != version.expires || !is_of(found, version) => {
            Tally { wrong: 1, ..NONE }
        }
        AnswerKind::Hit { tier, .. } => hit_in(tier),
        AnswerKind::Miss(MissCause::Absent) => Tally { absent: 1, ..NONE },
        AnswerKind::Miss(MissCause::Expired) if is_live => Tally { wrong: 1, ..NONE },
        AnswerKind::Miss(MissCause::Expired) => Tally { expired: 1, ..NONE },
        AnswerKind::Miss(_) => Tally { failed: 1, ..NONE },
    }
}

// Looks a key up, at an even moment by the call that leases it at a miss.
fn look_up<D: PageDevice<256>, L: KeyLanes, J: BookName, R: Wait>(
    rt: &R,
    cache: &Cache<D, L, J>,
    seat: &mut Seat<L, J>,
    name: &[u8; 2],
    moment: u64,
    found: &mut ValueBuffer,
) -> Result<AnswerKind, SeatFault> {
    if moment % 2 == 1 {
        return cache.get(rt, seat, name, moment, found);
    }
    match cache.get_or_lease(rt, seat, name, moment, found)? {
        LookedUp::Hit { tier, expires } => Ok(AnswerKind::Hit { tier, expires }),
        LookedUp::Miss(cause, _) => Ok(AnswerKind::Miss(cause)),
    }
}

// Makes a get, and says how it went. A key that has no version must miss.
fn get<D: PageDevice<256>, L: KeyLanes, J: BookName, R: Wait>(
    rt: &R,
    cache: &Cache<D, L, J>,
    seat: &mut Seat<L, J>,
    name: &[u8; 2],
    version: Version,
    moment: u64,
) -> Tally {
    let mut found = ValueBuffer::empty();
    match look_up(rt, cache, seat, name, moment, &mut found) {
        Ok(seen) => told(seen, &found, version, moment),
        Err(_) => Tally { refused: 1, ..NONE },
    }
}

// Removes a key, which has no version then.
fn removed<D: PageDevice<256>, L: KeyLanes, J: BookName, R: Wait>(
    rt: &R,
    cache: &Cache<D, L, J>,
    seat: &mut Seat<L, J>,
    name: &[u8; 2],
) -> Version {
    let _removed = cache.remove(rt, seat, name);
    NO_VERSION
}

// Puts a version; the key has none after a put that is refused.
fn put<D: PageDevice<256>, L: KeyLanes, J: BookName, R: Wait>(
    rt: &R,
    alloc: Global,
    cache: &Cache<D, L, J>,
    seat: &mut Seat<L, J>,
    name: &[u8; 2],
    version: Version,
) -> Version {
    let bytes = bytes_of(version.number);
    let Ok(key) = Key::new(alloc, name) else {
        return removed(rt, cache, seat, name);
    };
    let Ok(value) = Value::new(alloc, &bytes[..len_of(version.number)]) else {
        return removed(rt, cache, seat, name);
    };
    match cache.put(rt, seat, key, value, version.expires) {
        Ok(_) => version,
        Err(_) => NO_VERSION,
    }
}

// The version that a call puts, whose number is the call's moment too: every second one expires, within 256 calls.
fn version_at(number: u32, drawn: u64) -> Version {
    let expires = if drawn >> 63 == 0 {
        NEVER
    } else {
        u64::from(number).wrapping_add((drawn >> 50) % 256)
    };
    Version { number, expires }
}

/// Makes this many calls: of ten five are gets, of which half lease at a miss, four puts and one a removal. The number of a
/// call, from 1, is its moment.
pub fn calls<D: PageDevice<256>, L: KeyLanes, J: BookName, R: Wait>(
    rt: &R,
    alloc: Global,
    cache: &Cache<D, L, J>,
    caller: u8,
    count: u32,
) -> Tally {
    let mut seat = cache.seat();
    let mut versions = [NO_VERSION; KEYS];
    let mut tally = NONE;
    let mut drawn = u64::from(caller);
    for call in 0..count {
        drawn = next(drawn);
        let number = call.wrapping_add(1);
        let at = (drawn >> 33) as usize % KEYS;
        let name = [caller, at as u8];
        match (drawn >> 41) % 10 {
            0..=4 => {
                let one = get(rt, cache, &mut seat, &name, versions[at], u64::from(number));
                tally = sum(tally, one);
            }
            5 => versions[at] = removed(rt, cache, &mut seat, &name),
            _ => {
                let version = version_at(number, drawn);
                versions[at] = put(rt, alloc, cache, &mut seat, &name, version);
            }
        }
    }
    tally
}
