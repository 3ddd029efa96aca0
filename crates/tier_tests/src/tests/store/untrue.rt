//! Ten thousand pages that are not what was written, handed to a store: what memory tells stays true, and no call ends otherwise
//! than it says.
use super::opening::boxed;
use super::untrue_device::UntrueDevice;
use super::*;
use rand_core::utils::NextWord;
use rand_pcg::Lcg64Xsh32;
use record_pages::{Answer, Key, MissCause, NEVER, Tier, Value};
use std::sync::atomic::{AtomicU32, Ordering};

type Untrue<'a> = Store<UntrueDevice<'a>, 256>;

// Three sets, and two objects in memory.
static SMALL: Config = Config {
    sets: 3,
    memory: 2,
    entries: 16,
    ..ONE_SET
};

// Whether a get finds just this value, in memory.
fn is_in_memory(store: &mut Untrue<'_>, key: &Key, bytes: &[u8]) -> Result<bool, Fail> {
    match store.get(key, 0)? {
        Answer::Hit(value, Tier::Memory) => Ok(value.bytes() == bytes),
        _ => Ok(false),
    }
}

// Puts a pair, and says whether it is found then.
fn puts(
    alloc: Global,
    store: &mut Untrue<'_>,
    name: &[u8],
    number: u32,
    word: u32,
) -> Result<bool, Fail> {
    let bytes = number.to_be_bytes();
    store.put(key(alloc, name)?, value(alloc, &bytes)?, word, NEVER)?;
    is_in_memory(store, &key(alloc, name)?, &bytes)
}

// Removes a key, and says whether it is absent then.
fn removes(alloc: Global, store: &mut Untrue<'_>, name: &[u8]) -> Result<bool, Fail> {
    let key = key(alloc, name)?;
    store.remove(&key);
    Ok(matches!(store.get(&key, 0)?, Answer::Miss(MissCause::Absent)))
}

// How many gets found a value on flash, and how many ended at a page that is not the expected one.
#[derive(Clone, Copy)]
struct Seen {
    hits: u32,
    damaged: u32,
}

// What was seen, with one more get.
fn seen_with(seen: Seen, answer: Answer) -> Seen {
    match answer {
        Answer::Hit(_, Tier::Log | Tier::Set) => Seen {
            hits: seen.hits.wrapping_add(1),
            ..seen
        },
        Answer::Miss(MissCause::Damaged) => Seen {
            damaged: seen.damaged.wrapping_add(1),
            ..seen
        },
        _ => seen,
    }
}

// Makes a call that a word picks. None if it was answered otherwise than memory tells.
fn calls(
    alloc: Global,
    store: &mut Untrue<'_>,
    words: &mut Lcg64Xsh32,
    number: u32,
    seen: Seen,
) -> Result<Option<Seen>, Fail> {
    let name = [b'k', b'a' + (words.next_word() % 24) as u8];
    let word = words.next_word();
    let well = match word % 20 {
        0..=3 => puts(alloc, store, &name, number, word)?,
        4 => removes(alloc, store, &name)?,
        5..=6 => {
            store.flush_step();
            true
        }
        7 => {
            store.move_whole(&Rriparoo)?;
            true
        }
        _ => {
            let answer = store.get(&key(alloc, &name)?, 0)?;
            return Ok(Some(seen_with(seen, answer)));
        }
    };
    if well { Ok(Some(seen)) } else { Ok(None) }
}

// A store over pages that count what is not as it was written.
fn opened<'a>(alloc: Global, untrue: &'a AtomicU32) -> Result<Box<Untrue<'a>>, Fail> {
    let device = UntrueDevice::new(MemoryDevice::new(alloc, 5)?, untrue);
    Ok(boxed(alloc, &SMALL, device)?)
}

// What 400,000 calls of a store see.
fn seen_in_calls(alloc: Global, store: &mut Untrue<'_>) -> Result<Seen, Fail> {
    let mut words = Lcg64Xsh32::new(1, 1);
    let mut seen = Seen {
        hits: 0,
        damaged: 0,
    };
    for number in 0..400_000u32 {
        seen = calls(alloc, store, &mut words, number, seen)?.ok_or("an answer")?;
    }
    Ok(seen)
}

// The same of a store over such pages.
fn seen_over(alloc: Global, untrue: &AtomicU32) -> Result<Seen, Fail> {
    let mut store = opened(alloc, untrue)?;
    seen_in_calls(alloc, &mut *store)
}

#[test]
fn pages_that_were_never_written_end_no_call(rt: HostRuntime) -> Result<(), Fail> {
    let untrue = AtomicU32::new(0);
    let seen = seen_over(rt.alloc(), &untrue)?;
    assert!(rt;
        untrue.load(Ordering::SeqCst) >= 10_000 && seen.hits > 1_000 && seen.damaged > 1_000
    );
    Ok(())
}
