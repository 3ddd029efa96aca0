//! The calls of a lane, by their words.
ghost use Rattle.std.specs.Prelude.{◌<◌, ◌≤◌};

use super::scripted::name_of;
use super::*;

// How many bytes the buffer of a get has, unless the step says fewer.
const ROOM: usize = 16;

/// No lease, which fills nothing.
pub const NO_LEASE: Lease = Lease {
    writes: u64::MAX,
    hash: 0,
    lane: 0,
};

/// Makes the call of a lane that a step spells, and tells what it gives.
pub fn call(
    alloc: Global,
    lane: &mut CLane,
    leases: &mut [Lease; 2],
    word: &[u8],
    step: &mut TextStep<'_>,
) {
    if is(word, b"get") {
        get(lane, ROOM, step);
    } else if is(word, b"get-into") {
        let room = step.small() as usize;
        get(lane, room, step);
    } else if is(word, b"tend") {
        tend(lane, step);
    } else if is(word, b"count") {
        count(lane, step);
    } else if is(word, b"get-or-lease") {
        get_or_lease(lane, leases, step);
    } else {
        let status = status_of(alloc, lane, leases, word, step);
        step.tell(name_of(status));
    }
}

// The status of a call that gives no more.
fn status_of(
    alloc: Global,
    lane: &mut CLane,
    leases: &mut [Lease; 2],
    word: &[u8],
    step: &mut TextStep<'_>,
) -> Status {
    if is(word, b"put") {
        put(alloc, lane, step)
    } else if is(word, b"put-or-remove") {
        put_or_remove(alloc, lane, step)
    } else if is(word, b"fill") {
        fill(alloc, lane, leases, step)
    } else if is(word, b"lease") {
        let place = place_of(step);
        lane.lease(step.bytes().as_slice(), &mut leases[place])
    } else if is(word, b"remove") {
        lane.remove(step.bytes().as_slice())
    } else {
        step.refuse();
        Status::Done
    }
}

// Puts a value that expires at a moment, if the step has one; once more if memory was refused.
fn put(alloc: Global, lane: &mut CLane, step: &mut TextStep<'_>) -> Status {
    let key = step.bytes();
    let value = step.bytes();
    let expires = step.number_if_any().unwrap_or(u64::MAX);
    match lane.put(alloc, &key, &value, expires) {
        Status::NoMemory => lane.put(alloc, &key, &value, expires),
        status => status,
    }
}

// Puts a value that never expires, or removes its key.
fn put_or_remove(alloc: Global, lane: &mut CLane, step: &mut TextStep<'_>) -> Status {
    let key = step.bytes();
    let value = step.bytes();
    match lane.put_or_remove(alloc, &key, &value, u64::MAX) {
        Status::NoMemory => lane.put_or_remove(alloc, &key, &value, u64::MAX),
        status => status,
    }
}

// Takes the place of a lease.
fn place_of(step: &mut TextStep<'_>) -> usize
    ensures { result < 2 }
{
    step.small() as usize % 2
}

// Fills a key by a lease, once more if memory was refused.
fn fill(alloc: Global, lane: &mut CLane, leases: &[Lease; 2], step: &mut TextStep<'_>) -> Status {
    let lease = leases[place_of(step)];
    let key = step.bytes();
    let value = step.bytes();
    match lane.fill(alloc, &lease, &key, &value, u64::MAX) {
        Status::NoMemory => lane.fill(alloc, &lease, &key, &value, u64::MAX),
        status => status,
    }
}

// Looks a key up at a moment, into a buffer of so many bytes, and tells what was got.
fn get(lane: &mut CLane, room: usize, step: &mut TextStep<'_>) {
    let key = step.bytes();
    let moment = step.number();
    let mut into = [0xeeu8; ROOM];
    let mut hit = NO_HIT;
    let status = lane.get(&key, moment, &mut into[..room.min(ROOM)], &mut hit);
    if !is_sound(status, hit, moment) {
        step.refuse();
    }
    tell_got(status, hit, &into, step);
}

// Whether a hit is told exactly if there is one, and is live at the moment.
fn is_sound(status: Status, hit: Hit, moment: u64) -> bool {
    match status {
        Status::Done | Status::ShortBuffer => hit.reserved == 0
            && hit.tier != 0
            && (moment < hit.expires || hit.expires == u64::MAX),
        _ => hit.length == 0 && hit.expires == 0 && hit.tier == 0 && hit.reserved == 0,
    }
}

// How many bytes of the buffer are written.
fn written(status: Status, hit: Hit) -> usize
    ensures { result ≤ 16 }
{
    match status {
        Status::Done => (hit.length as usize).min(ROOM),
        _ => 0,
    }
}

// Tells the tier of a hit and its value; of one that the buffer was too short for how long its value is; or why there is none. No byte
// after the value is written.
fn tell_got(status: Status, hit: Hit, into: &[u8; ROOM], step: &mut TextStep<'_>) {
    let length = written(status, hit);
    if !is_blank(&into[length..]) {
        step.refuse();
    }
    if status == Status::Done {
        step.tell(name_of_tier(hit.tier));
        step.tell(&into[..length]);
        return;
    }
    step.tell(name_of(status));
    if status == Status::ShortBuffer {
        step.tell_number(hit.length);
    }
}

fn name_of_tier(tier: u32) -> &'static [u8] {
    match tier {
        1 => b"memory",
        2 => b"log",
        3 => b"set",
        _ => b"no tier",
    }
}

// Looks a key up that misses, keeps its lease, and tells the status. No byte is written.
fn get_or_lease(lane: &mut CLane, leases: &mut [Lease; 2], step: &mut TextStep<'_>) {
    let place = place_of(step);
    let key = step.bytes();
    let mut into = [0xeeu8; ROOM];
    let mut hit = NO_HIT;
    let mut lease = NO_LEASE;
    let status = lane.get_or_lease(&key, 0, &mut into, &mut hit, &mut lease);
    if lease == NO_LEASE || !is_blank(&into) {
        step.refuse();
    }
    leases[place] = lease;
    step.tell(name_of(status));
}

// Tells what a step of upkeep tells; and whether something is due is then told alike.
fn tend(lane: &mut CLane, step: &mut TextStep<'_>) {
    let upkeep = lane.upkeep_step();
    step.tell_number(u64::from(upkeep.did));
    step.tell_number(u64::from(upkeep.asked_device));
    step.tell_number(u64::from(upkeep.is_due));
    if lane.is_due() != (upkeep.is_due == 1) {
        step.refuse();
    }
}

// The counters of a lane, each at the place of its field in `kangaroo_counters`.
static COUNTERS: &[u8] = b"memory_hits log_hits set_hits absent expired unreadable damaged \
    puts removes leases_given fills_stored fills_stale declined logged log_full index_full \
    log_pages_written set_pages_written pages_read log_pages_lost sets_forgotten readmitted dropped segments_freed \
    upkeep_steps put_steps upkeep_no_memory bytes_put memory_objects_now log_objects_now segments_now \
    copy_hits brought_back pushed_copies";

// Tells the number of the counter that a step names.
fn count(lane: &CLane, step: &mut TextStep<'_>) {
    match place_among(COUNTERS, step.word()) {
        Some(place) => tell_number_at(place, &lane.counters().numbers, step),
        None => step.refuse(),
    }
}

fn tell_number_at(place: usize, numbers: &[u64], step: &mut TextStep<'_>) {
    match numbers.get(place) {
        Some(number) => step.tell_number(*number),
        None => step.refuse(),
    }
}

// A hit that no call tells.
static NO_HIT: Hit = Hit {
    length: 77,
    expires: 77,
    tier: 77,
    reserved: 77,
};

// Whether no byte was written.
fn is_blank(bytes: &[u8]) -> bool {
    bytes.iter().all(|byte| *byte == 0xee)
}
