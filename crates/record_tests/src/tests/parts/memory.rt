// The order of small memories, and what is left if memory was refused.
ghost use Rattle.std.specs.Prelude.{◌<◌};

use memory_cache::{MemoryCache, Pair};
use record_pages::{Key, TimedValue, Value};
use std::alloc::Global;
use std::test::Fail;
use test_devices::{Scripted, TextStep, is, run_text};

/// When each value of these tests expires. A memory keeps it, and does not look at it.
const EXPIRES: u64 = 7;

fn is_pair(pair: &Pair, key: &[u8], value: &[u8]) -> bool {
    pair.key.bytes() == key && is_timed(&pair.value, value)
}

fn is_timed(value: &TimedValue, bytes: &[u8]) -> bool {
    value.value.bytes() == bytes && value.expires == EXPIRES
}

fn is_value(value: Option<&TimedValue>, wanted: Option<&[u8]>) -> bool {
    match (value, wanted) {
        (Some(value), Some(bytes)) => is_timed(value, bytes),
        (None, None) => true,
        _ => false,
    }
}

// A key and its value.
fn pair(alloc: Global, key: &[u8], value: &[u8]) -> Result<Pair, Fail> {
    Ok(Pair {
        key: Key::new(alloc, key)?,
        value: TimedValue {
            value: Value::new(alloc, value)?,
            expires: EXPIRES,
        },
    })
}

/// A memory that the steps of a text speak to.
#[derive(Drop)]
struct Owner {
    memory: MemoryCache,
}

impl Scripted for Owner {
    ghost use Rattle.std.specs.Prelude.{⊤};

    ghost can_act = { ⊤ };

    fn act(&mut self, alloc: Global, step: &mut TextStep<'_>) -> Result<(), Fail> {
        let word = step.word();
        if is(word, b"put") {
            return put(alloc, &mut self.memory, step);
        }
        if is(word, b"len") {
            tell_len(&self.memory, step);
            return Ok(());
        }
        let key = step.key(alloc)?;
        ask(&mut self.memory, word, &key, step);
        Ok(())
    }
}

// Puts the value of a key that a step tells, and tells the pair that is pushed out, or `nobody`. A refused put hands the pair back, and
// leaves as many pairs as there were.
fn put(alloc: Global, memory: &mut MemoryCache, step: &mut TextStep<'_>) -> Result<(), Fail> {
    let key = step.word();
    let value = step.bytes();
    let held = memory.len();
    let given = pair(alloc, key, value.as_slice())?;
    match memory.put(given.key, given.value) {
        Ok(out) => {
            tell_out(out, step);
            Ok(())
        }
        Err(back) => {
            let is_whole = is_pair(&back, key, value.as_slice()) && memory.len() == held;
            Err(refusal(is_whole))
        }
    }
}

fn refusal(is_whole: bool) -> Fail {
    Fail::from(if is_whole {
        "memory was refused"
    } else {
        "a refused put changed the pair, or how many there are"
    })
}

fn tell_out(out: Option<Pair>, step: &mut TextStep<'_>) {
    match out {
        Some(pair) => {
            step.tell_pair(pair.key.bytes(), bytes_of(&pair.value));
        }
        None => step.tell(b"nobody"),
    }
}

// How many pairs there are, and `empty` if there is none.
fn tell_len(memory: &MemoryCache, step: &mut TextStep<'_>) {
    step.tell_number(memory.len() as u64);
    if memory.is_empty() {
        step.tell(b"empty");
    }
}

// Makes the call of a key that a word names, and tells the value that it gives. A raise gives none.
fn ask(memory: &mut MemoryCache, word: &[u8], key: &Key, step: &mut TextStep<'_>) {
    if is(word, b"raise") {
        memory.raise(key.bytes());
    } else if is(word, b"remove") {
        tell_value(memory.remove(key).as_ref(), step);
    } else if is(word, b"get") {
        tell_value(memory.get(key), step);
    } else if is(word, b"peek") {
        tell_value(memory.peek(key), step);
    } else {
        step.refuse();
    }
}

fn tell_value(value: Option<&TimedValue>, step: &mut TextStep<'_>) {
    match value {
        Some(value) => step.tell(bytes_of(value)),
        None => step.tell(b"absent"),
    }
}

// The bytes of a value, if it expires when each does.
fn bytes_of(value: &TimedValue) -> &[u8] {
    if value.expires == EXPIRES {
        value.value.bytes()
    } else {
        b"with another expiry"
    }
}

// Makes the calls of a text, of an empty memory for this many pairs.
fn play(alloc: Global, capacity: u32, text: &[u8]) -> Result<(), Fail>
    requires { 0 < capacity }
{
    let memory = MemoryCache::open(alloc, capacity)?;
    let mut owner = Owner { memory };
    run_text(alloc, &mut owner, text)
}

static OF_TWO: &[u8] = b"
    len 0 empty
    put a 1 nobody; len 1
    put b 2 nobody; get a 1
    put c 3 b=2; peek a 1
    put d 4 a=1; len 2
    peek a absent; get a absent; peek c 3; peek d 4
";

#[test]
fn the_pair_that_was_used_longest_ago_leaves(rt: HostRuntime) -> Result<(), Fail> {
    play(rt.alloc(), 2, OF_TWO)
}

// A raise of a key that has no pair raises none.
static RAISED: &[u8] = b"
    put a 1 nobody; put b 2 nobody
    raise z; peek z absent
    raise a; peek a 1; len 2
    put c 3 b=2
    raise a; peek a 1
    put d 4 c=3
    peek a 1
";

#[test]
fn a_pair_that_is_raised_stays(rt: HostRuntime) -> Result<(), Fail> {
    play(rt.alloc(), 2, RAISED)
}

static OF_ONE: &[u8] = b"
    put a 1 nobody; put a - nobody; len 1
    put b 2 a=-
    remove a absent; remove b 2; remove b absent
    len 0 empty
";

#[test]
fn a_key_that_is_put_again_pushes_nothing_out(rt: HostRuntime) -> Result<(), Fail> {
    play(rt.alloc(), 1, OF_ONE)
}

// Puts so many pairs, and says whether none was pushed out and the first one stayed.
fn fills(alloc: Global, memory: &mut MemoryCache, count: u8) -> Result<bool, Fail> {
    let first = Key::new(alloc, &[0])?;
    for number in 0..count {
        let given = pair(alloc, &[number], &[number, number])?;
        let Ok(out) = memory.put(given.key, given.value) else {
            return Err(refusal(true));
        };
        if out.is_some() || !is_value(memory.peek(&first), Some(&[0, 0])) {
            return Ok(false);
        }
    }
    Ok(true)
}

#[test]
fn a_large_memory_holds_all_that_was_put(rt: HostRuntime) -> Result<(), Fail> {
    let alloc = rt.alloc();
    let mut memory = MemoryCache::open(alloc, 4294967295)?;
    let holds = fills(alloc, &mut memory, 100)?;
    assert!(rt; holds && memory.len() == 100 && memory.capacity() == 4294967295);
    Ok(())
}
