// The operations of a load, by random words.
ghost use Rattle.std.specs.Prelude.{◌≡◌, ◌<◌, ◌≤◌, ◌++◌, codes, take, length, IfOk};
ghost use Rattle.std.specs.Fmt.{decimal};
ghost use Rattle.std.specs.List.{repeat};
ghost use Rattle.load.specs.Operations.{key_of, value_of, moment_of, expires_of, next_of};

use crate::load::Load;
use arrayvec::ArrayVec;
use history_recorder::Operation;
use itoa::Buffer;
use rand_core::utils::NextWord;
use rand_pcg::Lcg64Xsh32;
use record_pages::{Key, KeyFault, NEVER, Value, ValueFault};
use std::alloc::{AllocError, Global};

/// The most bytes of a key: a `k` and a number of 32 bits in decimal.
const KEY_LEN: usize = 11;

/// The key that a word names. Its bytes are put together on the stack, so the key's own copy is all the memory it takes.
fn key(alloc: Global, load: &Load, word: u32) -> Result<Key, AllocError>
    ensures { IfOk result (λ key. key ≡ key_of load.now word) }
{
    let mut digits = Buffer::new();
    let mut name = ArrayVec::<u8, KEY_LEN>::new();
    name.try_extend_from_slice(b"k").unwrap();
    name.try_extend_from_slice(digits.format(word % load.keys).as_bytes())
        .unwrap();
    match Key::new(alloc, name.as_slice()) {
        Ok(key) => Ok(key),
        Err(_) => Err(AllocError),
    }
}

/// The value of a caller's operation with this number.
fn value(alloc: Global, load: &Load, caller: u16, number: u32) -> Result<Value, AllocError>
    ensures { IfOk result (λ value. value ≡ value_of load.now caller number) }
{
    let [a, b] = caller.to_be_bytes();
    let [c, d, e, f] = number.to_be_bytes();
    let len = load.value_bytes as usize;
    let bytes = [a, b, c, d, e, f].repeat(alloc, len / 6 + 1)?;
    match Value::new(alloc, &bytes[..len]) {
        Ok(value) => Ok(value),
        Err(_) => Err(AllocError),
    }
}

/// The moment of a caller's get with this number: the number itself, if puts expire.
fn moment_of(load: &Load, number: u32) -> u64
    ensures { result ≡ moment_of load.now number }
{
    if load.ttl == 0 { 0 } else { u64::from(number) }
}

/// The moment from which a caller's put with this number is expired.
fn expires_of(load: &Load, number: u32) -> u64
    ensures { result ≡ expires_of load.now number }
{
    if load.ttl == 0 {
        NEVER
    } else {
        u64::from(number) + u64::from(load.ttl)
    }
}

/// The operation of this number that a caller does next, by its generator's next words: one for the
/// kind, one for the key, and for a put one more, its word of admission.
///
/// With a `ttl` of 0 each put is for ever, and each get at moment 0. With another the moment of an
/// operation is its number, and a put is expired from the moment `ttl` further on.
///
/// The words are drawn before memory is taken, so the generator is past them also if memory is
/// refused.
pub fn next_operation(
    alloc: Global,
    generator: &mut Lcg64Xsh32,
    load: &Load,
    caller: u16,
    number: u32,
) -> Result<Operation, AllocError>
    ensures operation { IfOk result (λ operation. operation
        ≡ (next_of load.now caller number generator.old).operation) }
    ensures generator { generator.new ≡ (next_of load.now caller number generator.old).generator }
{
    let kind = generator.next_word() % 100;
    let word = generator.next_word();
    if kind < load.gets {
        Ok(Operation::Get(key(alloc, load, word)?, moment_of(load, number)))
    } else if kind < load.gets + load.removes {
        Ok(Operation::Remove(key(alloc, load, word)?))
    } else {
        let admission = generator.next_word();
        let key = key(alloc, load, word)?;
        let value = value(alloc, load, caller, number)?;
        Ok(Operation::Put(key, value, admission, expires_of(load, number)))
    }
}
