//! Which pair leaves memory for another, as it was told before.
use memory_cache::MemoryCache;
use record_pages::{Key, TimedValue, Value};
use std::alloc::Global;
use std::test::Fail;

fn is_key(key: Option<&Key>, byte: Option<u8>) -> bool {
    match (key, byte) {
        (Some(key), Some(byte)) => key.bytes() == [byte].as_slice(),
        (None, None) => true,
        _ => false,
    }
}

// Puts a value under a key of one byte, and says whether the pair that leaves for it, or none, was told before and left.
fn puts(alloc: Global, memory: &mut MemoryCache, byte: u8, left: Option<u8>) -> Result<bool, Fail> {
    let bytes = [byte];
    let is_told = is_key(memory.leaving(&bytes), left);
    let key = Key::new(alloc, &bytes)?;
    let value = TimedValue {
        value: Value::new(alloc, b"v")?,
        expires: 7,
    };
    match memory.put(key, value) {
        Ok(Some(pair)) => Ok(is_told && is_key(Some(&pair.key), left)),
        Ok(None) => Ok(is_told && left.is_none()),
        Err(_) => Ok(false),
    }
}

#[test]
fn the_pair_that_leaves_was_told_before(rt: HostRuntime) -> Result<(), Fail> {
    let alloc = rt.alloc();
    let mut memory = MemoryCache::open(alloc, 2)?;
    let is_empty = is_key(memory.last(), None);
    let fills = puts(alloc, &mut memory, b'a', None)? && puts(alloc, &mut memory, b'b', None)?;
    memory.raise(b"a");
    let pushes = puts(alloc, &mut memory, b'c', Some(b'b'))?
        && puts(alloc, &mut memory, b'c', None)?;
    assert!(rt; is_empty && fills && pushes && is_key(memory.last(), Some(b'a')));
    Ok(())
}
