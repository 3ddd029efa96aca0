// The hashes of keys under a drawn seed, which no clause compares.
use key_hash::RandomSeed;
use std::alloc::{AllocError, Global};
use std::hash::{BuildHasher, Hasher};
use std::test::Fail;

/// Eight bytes after which all keys have one hash under the toolchain's `FoldHasher`, whose seed is known.
static KNOWN: [u8; 8] = [0x15, 0x7c, 0x4a, 0x7f, 0xb9, 0x79, 0x37, 0x9e];

/// The hash of a key.
fn hash(seed: &RandomSeed, key: &[u8]) -> u64 {
    let mut hasher = seed.build_hasher();
    hasher.write(key);
    hasher.finish()
}

/// Adds the hashes of the keys of zeros, by their lengths, and of the longest one with a byte changed.
fn add_lengths_and_bytes(seed: &RandomSeed, hashes: &mut Vec<u64>) -> Result<(), AllocError> {
    let zeros = [0; 255];
    for len in 0..256usize {
        hashes.push(hash(seed, &zeros[..len]))?;
    }
    for at in 0..255usize {
        let mut key = zeros;
        key[at] = 1;
        hashes.push(hash(seed, &key))?;
    }
    Ok(())
}

/// Adds the hashes of keys that collide under the hasher whose seed is known.
fn add_colliding(seed: &RandomSeed, hashes: &mut Vec<u64>) -> Result<(), AllocError> {
    for number in 0..200u8 {
        let mut key = [number; 24];
        key[8..16].copy_from_slice(&KNOWN);
        hashes.push(hash(seed, &key))?;
    }
    Ok(())
}

/// Whether each number is above the one before it.
fn rise(numbers: &[u64]) -> bool {
    for at in 1..numbers.len() {
        if numbers[at - 1] >= numbers[at] {
            return false;
        }
    }
    true
}

/// Whether all these keys have hashes of their own.
fn are_apart(alloc: Global, seed: &RandomSeed) -> Result<bool, AllocError> {
    let mut hashes = Vec::new(alloc);
    add_lengths_and_bytes(seed, &mut hashes)?;
    add_colliding(seed, &mut hashes)?;
    hashes.sort_unstable();
    Ok(rise(&hashes))
}

// While a key's length was added to the state, 254 zeros had the hash of 255 bytes, a 1 and zeros, under half of all
// seeds.
#[test]
fn each_byte_and_the_length_of_a_key_matter(rt: HostRuntime) -> Result<(), Fail> {
    for _ in 0..8u32 {
        let seed = RandomSeed::draw(&rt)?;
        assert!(rt; are_apart(rt.alloc(), &seed)?);
    }
    let seed = RandomSeed::draw(&rt)?;
    let other = RandomSeed::draw(&rt)?;
    let one = hash(&seed, b"a");
    assert!(rt; one != hash(&other, b"a") && one == hash(&seed, b"a"));
    Ok(())
}
