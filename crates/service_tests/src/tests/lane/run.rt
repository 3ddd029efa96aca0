//! The calls of a lane, by their words.
ghost use Rattle.std.specs.Prelude.{◌<◌};

use super::counters::tell_count;
use super::names::*;
use super::*;
use record_pages::ValueBuffer;
use rriparoo::Rriparoo;
use service_lane::Helped;
use test_devices::{key, value};

/// Makes the call of a lane that a step spells, and tells what it gives.
pub fn call(
    alloc: Global,
    lane: &mut Lane,
    leases: &mut [Lease; 2],
    word: &[u8],
    step: &mut TextStep<'_>,
) -> Result<(), Fail> {
    if is(word, b"put") {
        return put(alloc, lane, step);
    }
    if is(word, b"put-or-remove") {
        return put_or_remove(alloc, lane, step);
    }
    if is(word, b"fill") {
        return fill(alloc, lane, leases, step);
    }
    if is(word, b"move") {
        return move_whole(lane, step);
    }
    simple(lane, leases, word, step);
    Ok(())
}

// The same of the calls that take no memory.
fn simple(lane: &mut Lane, leases: &mut [Lease; 2], word: &[u8], step: &mut TextStep<'_>) {
    if is(word, b"get") {
        get(lane, step);
    } else if is(word, b"remove") {
        remove(lane, step);
    } else if is(word, b"lease") {
        let place = place_of(step);
        leases[place] = lane.lease(step.bytes().as_slice());
    } else if is(word, b"count") {
        tell_count(&lane.counts(), step);
    } else {
        tend(lane, word, step);
    }
}

// The same of the calls of upkeep.
fn tend(lane: &mut Lane, word: &[u8], step: &mut TextStep<'_>) {
    if is(word, b"flush") {
        step.tell(name_of_flush(lane.flush_step()));
    } else if is(word, b"tend") {
        tell_upkeep(&lane.upkeep_step(&Rriparoo), step);
    } else if is(word, b"help") {
        tell_help(&lane.help(&Rriparoo), step);
    } else {
        step.refuse();
    }
}

// Puts a pair, once more if memory was refused, and tells what became of the pair that left memory.
fn put(alloc: Global, lane: &mut Lane, step: &mut TextStep<'_>) -> Result<(), Fail> {
    let name = step.bytes();
    let bytes = step.bytes();
    let expires = step.number_if_any().unwrap_or(NEVER);
    let put = match put_once(alloc, lane, &name, &bytes, expires)? {
        Err(PutFault::OutOfMemory) => put_once(alloc, lane, &name, &bytes, expires)?,
        other => other,
    };
    step.tell(name_of_put(put));
    Ok(())
}

fn put_once(
    alloc: Global,
    lane: &mut Lane,
    name: &[u8],
    bytes: &[u8],
    expires: u64,
) -> Result<Result<Pushed, PutFault>, Fail> {
    Ok(lane.put(key(alloc, name)?, value(alloc, bytes)?, 0, expires))
}

// Puts a pair, or else removes its key.
fn put_or_remove(alloc: Global, lane: &mut Lane, step: &mut TextStep<'_>) -> Result<(), Fail> {
    let put = lane.put_or_remove(step.key(alloc)?, step.value(alloc)?, 0, NEVER);
    step.tell(name_of_put(put));
    Ok(())
}

// Takes the place of a lease.
fn place_of(step: &mut TextStep<'_>) -> usize
    ensures { result < 2 }
{
    step.small() as usize % 2
}

// Fills a key by a lease, once more if memory was refused, and tells what that did.
fn fill(
    alloc: Global,
    lane: &mut Lane,
    leases: &[Lease; 2],
    step: &mut TextStep<'_>,
) -> Result<(), Fail> {
    let lease = leases[place_of(step)];
    let name = step.bytes();
    let bytes = step.bytes();
    let fill = match fill_once(alloc, lane, lease, &name, &bytes)? {
        Err(PutFault::OutOfMemory) => fill_once(alloc, lane, lease, &name, &bytes)?,
        other => other,
    };
    step.tell(name_of_fill(fill));
    Ok(())
}

fn fill_once(
    alloc: Global,
    lane: &mut Lane,
    lease: Lease,
    name: &[u8],
    bytes: &[u8],
) -> Result<Result<Filled, PutFault>, Fail> {
    Ok(lane.fill(lease, key(alloc, name)?, value(alloc, bytes)?, 0, NEVER))
}

// Makes a whole move, once more if memory was refused, and tells what it did.
fn move_whole(lane: &mut Lane, step: &mut TextStep<'_>) -> Result<(), Fail> {
    let moved = match lane.move_whole(&Rriparoo) {
        Ok(moved) => moved,
        Err(_) => lane.move_whole(&Rriparoo)?,
    };
    step.tell(name_of_move(moved));
    Ok(())
}

// Looks a key up at a moment, and tells where its value was and the value, or why there is none. A miss leaves the buffer empty.
fn get(lane: &mut Lane, step: &mut TextStep<'_>) {
    let name = step.bytes();
    let moment = step.number();
    let mut found = ValueBuffer::empty();
    let seen = lane.get(&name, moment, &mut found);
    step.tell(name_of_seen(seen));
    if !found.bytes().is_empty() {
        step.tell(found.bytes());
    }
}

// Removes a key, and tells why it was refused.
fn remove(lane: &mut Lane, step: &mut TextStep<'_>) {
    if let Err(fault) = lane.remove(step.bytes().as_slice()) {
        step.tell(name_of_key_fault(fault));
    }
}

// Tells what a step of upkeep did, and `asked` and `due` if the device may have been asked and something is due after it.
fn tell_upkeep(upkeep: &UpkeepStep, step: &mut TextStep<'_>) {
    tell_did(upkeep.did, step);
    tell_if(upkeep.asked_device, b"asked", step);
    tell_if(upkeep.is_due, b"due", step);
}

fn tell_did(did: Upkept, step: &mut TextStep<'_>) {
    match did {
        Upkept::Idle => step.tell(b"idle"),
        Upkept::Flushed(flushed) => {
            step.tell(b"flushed");
            step.tell(name_of_flush(flushed));
        }
        Upkept::Moved(moved) => {
            step.tell(b"moved");
            step.tell(name_of_move(moved));
        }
        Upkept::OutOfMemory => step.tell(b"out of memory"),
    }
}

// Tells how many steps were done in help, and `asked` if the device may have been asked.
fn tell_help(helped: &Helped, step: &mut TextStep<'_>) {
    step.tell_number(u64::from(helped.steps));
    tell_if(helped.asked_device, b"asked", step);
}

fn tell_if(is_so: bool, name: &[u8], step: &mut TextStep<'_>) {
    if is_so {
        step.tell(name);
    }
}
