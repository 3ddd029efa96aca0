//! Each call reaches the lane of its key.
use super::scripted::Called;
use super::trials::{ALONE, hold, keep_one};
use super::*;
use mover::AnswerKind;
use record_pages::{KeyFault, MissCause, Tier};

impl<'a, D: PageDevice<256>, L: KeyLanes, J: BookName, R: Wait> Called<'a, D, L, J, R> {
    /// Makes the call of a cache that a step spells, and tells what it gives.
    pub fn call(
        &mut self,
        alloc: Global,
        word: &[u8],
        step: &mut TextStep<'_>,
    ) -> Result<(), Fail> {
        if is(word, b"put") {
            let (key, value) = (step.key(alloc)?, step.value(alloc)?);
            let put = self.cache.put(self.rt, &mut self.seat, key, value, NEVER);
            step.tell(name_of_put(put));
            return Ok(());
        }
        if is(word, b"fill") {
            let (key, value) = (step.key(alloc)?, step.value(alloc)?);
            let fill = self
                .cache
                .fill(self.rt, &mut self.seat, self.lease, key, value, NEVER);
            step.tell(name_of_fill(fill));
            return Ok(());
        }
        self.call_by_bytes(word, step);
        Ok(())
    }

    // The same of the calls that take a key's bytes.
    fn call_by_bytes(&mut self, word: &[u8], step: &mut TextStep<'_>) {
        if is(word, b"get") {
            self.get(step);
        } else if is(word, b"get-or-lease") {
            self.get_or_lease(step);
        } else if is(word, b"remove") {
            self.remove(step);
        } else if is(word, b"seat") {
            self.seat = self.cache.seat();
        } else {
            step.refuse();
        }
    }

    // Looks a key up with a new seat, and tells where its value was and the value, which never expires.
    fn get(&mut self, step: &mut TextStep<'_>) {
        let mut found = ValueBuffer::empty();
        let name = step.bytes();
        let seat = &mut self.cache.seat();
        let seen = self.cache.get(self.rt, seat, &name, 0, &mut found);
        step.tell(name_of_seen(seen));
        if !found.bytes().is_empty() {
            step.tell(found.bytes());
        }
    }

    // Looks a key up that is not there, and keeps its lease.
    fn get_or_lease(&mut self, step: &mut TextStep<'_>) {
        let mut found = ValueBuffer::empty();
        let name = step.bytes();
        let seat = &mut self.seat;
        let seen = self.cache.get_or_lease(self.rt, seat, &name, 0, &mut found);
        if let Ok(LookedUp::Miss(_, lease)) = seen {
            self.lease = lease;
        }
        step.tell(name_of_look_up(seen));
    }

    // Removes a key, and tells why that is refused.
    fn remove(&mut self, step: &mut TextStep<'_>) {
        let name = step.bytes();
        if let Err(fault) = self.cache.remove(self.rt, &mut self.seat, &name) {
            step.tell(name_of_fault(fault));
        }
    }
}

fn name_of_put(put: Result<Pushed, SeatPutFault>) -> &'static [u8] {
    match put {
        Ok(Pushed::Nobody) => b"nobody",
        Ok(_) => b"somebody",
        Err(SeatPutFault::Put(PutFault::TooLarge)) => b"too large",
        Err(SeatPutFault::Put(PutFault::OutOfMemory)) => b"out of memory",
        Err(SeatPutFault::Book(_)) => b"refused by the book",
    }
}

fn name_of_fill(fill: Result<Filled, SeatPutFault>) -> &'static [u8] {
    match fill {
        Ok(Filled::Stored(pushed)) => name_of_put(Ok(pushed)),
        Ok(Filled::Stale) => b"stale",
        Err(fault) => name_of_put(Err(fault)),
    }
}

fn name_of_seen(seen: Result<AnswerKind, SeatFault>) -> &'static [u8] {
    match seen {
        Ok(AnswerKind::Hit { tier, expires }) => name_of_hit(tier, expires),
        Ok(AnswerKind::Miss(MissCause::Absent)) => b"absent",
        Ok(AnswerKind::Miss(_)) => b"a miss",
        Err(fault) => name_of_fault(fault),
    }
}

// Each value was put without an expiry, and has not left memory.
fn name_of_hit(tier: Tier, expires: u64) -> &'static [u8] {
    if tier == Tier::Memory && expires == NEVER {
        b"memory"
    } else {
        b"a hit elsewhere"
    }
}

fn name_of_look_up(seen: Result<LookedUp, SeatFault>) -> &'static [u8] {
    match seen {
        Ok(LookedUp::Hit { .. }) => b"a hit",
        Ok(LookedUp::Miss(MissCause::Absent, _)) => b"absent",
        Ok(LookedUp::Miss(_, _)) => b"a miss",
        Err(fault) => name_of_fault(fault),
    }
}

fn name_of_fault(fault: SeatFault) -> &'static [u8] {
    match fault {
        SeatFault::Key(KeyFault::KeyEmpty) => b"empty",
        SeatFault::Key(KeyFault::KeyTooLong) => b"too long",
        SeatFault::Key(KeyFault::OutOfMemory) => b"out of memory",
        SeatFault::Book(_) => b"refused by the book",
    }
}

/// Puts these bytes of a key, which never expire.
pub fn put<D: PageDevice<256>, L: KeyLanes, J: BookName, R: Wait>(
    rt: &R,
    alloc: Global,
    cache: &Cache<D, L, J>,
    seat: &mut Seat<L, J>,
    name: &[u8],
    bytes: &[u8],
) -> Result<Result<Pushed, SeatPutFault>, Fail> {
    let (key, value) = (key(alloc, name)?, value(alloc, bytes)?);
    Ok(cache.put(rt, seat, key, value, NEVER))
}

// What a get gives.
fn name_of_get<D: PageDevice<256>, L: KeyLanes, J: BookName, R: Wait>(
    rt: &R,
    cache: &Cache<D, L, J>,
    name: &[u8],
    found: &mut ValueBuffer,
) -> &'static [u8] {
    name_of_seen(cache.get(rt, &mut cache.seat(), name, 0, found))
}

// Whether a key is found with its name as its value, or nothing.
fn finds<D: PageDevice<256>, L: KeyLanes, J: BookName, R: Wait>(
    rt: &R,
    cache: &Cache<D, L, J>,
    name: &[u8],
    is_there: bool,
) -> bool {
    let mut found = ValueBuffer::empty();
    let given = name_of_get(rt, cache, name, &mut found);
    if is_there {
        is(given, b"memory") && is(found.bytes(), name)
    } else {
        is(given, b"absent")
    }
}

// Whether a key is found after its put, and not after its removal.
fn is_found_until_removed<D: PageDevice<256>, L: KeyLanes, J: BookName, R: Wait>(
    rt: &R,
    alloc: Global,
    cache: &Cache<D, L, J>,
    seat: &mut Seat<L, J>,
    name: &[u8],
) -> Result<bool, Fail> {
    let is_put = put(rt, alloc, cache, seat, name, name)?.is_ok();
    let is_found = finds(rt, cache, name, true);
    let is_removed = cache.remove(rt, seat, name).is_ok();
    Ok(is_put && is_found && is_removed && finds(rt, cache, name, false))
}

/// Whether each of 255 keys is found after its put, and not after its removal. They are so many that each of four shards has some
/// whatever the seed, but for odds of one in 10^16.
pub fn each_is_found<D: PageDevice<256>, L: KeyLanes, J: BookName, R: Wait>(
    rt: &R,
    alloc: Global,
    cache: &Cache<D, L, J>,
) -> Result<bool, Fail> {
    let mut seat = cache.seat();
    for number in 0..255u8 {
        if !is_found_until_removed(rt, alloc, cache, &mut seat, &name_of(number))? {
            return Ok(false);
        }
    }
    Ok(true)
}

#[test]
fn a_key_is_found_after_its_put_in_each_shard(rt: HostRuntime) -> Result<(), Fail> {
    hold(&rt, rt.alloc(), 4, b"right each-is-found")
}

static FILLED_ONCE: &[u8] = b"
    # A lease is good for one fill, whose value is found then.
    get-or-lease ax absent; fill bx 2 stale; fill ax 1 nobody; fill ax 2 stale; get ax memory 1
";

#[test]
fn a_miss_leases_its_key_for_one_fill(rt: HostRuntime) -> Result<(), Fail> {
    hold(&rt, rt.alloc(), 2, FILLED_ONCE)
}

static SLOTS: &[u8] = b"
    # A lease outlives writes of a key of another slot, also if its own slot has seen writes.
    get-or-lease ax absent; put bx 0 nobody; remove bx; fill ax 1 nobody
    seat; put ax 0 nobody; remove ax
    seat; get-or-lease ax absent; put bx 0 nobody; remove bx; fill ax 1 nobody
    # It ends with one of its own key.
    seat; get-or-lease cx absent; put cx 0 nobody; remove cx; fill cx 1 stale; get cx absent
";

#[test]
fn a_lease_is_of_the_slot_of_its_key(rt: HostRuntime) -> Result<(), Fail> {
    // Under one seed of a thousand the two keys share a slot.
    let _kept = keep_one(&rt, rt.alloc(), ALONE, RandomSeed::fixed(), SLOTS)?;
    Ok(())
}

#[test]
fn a_refused_put_leaves_no_older_value(rt: HostRuntime) -> Result<(), Fail> {
    hold(
        &rt,
        rt.alloc(),
        1,
        b"put ax 1 nobody; put ax v*225 too large; get ax absent",
    )
}

static NO_KEYS: &[u8] = b"
    get - empty; get-or-lease - empty; remove - empty
    get k*256 too long; get-or-lease k*256 too long; remove k*256 too long
";

#[test]
fn bytes_that_are_no_keys_are_refused(rt: HostRuntime) -> Result<(), Fail> {
    hold(&rt, rt.alloc(), 1, NO_KEYS)
}
