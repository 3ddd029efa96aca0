// The keys and values of a load.
ghost use Rattle.std.specs.Prelude.{◌≡◌, ◌+◌, IfOk};
ghost use Rattle.serve_load.specs.Objects.{expires_of, key_of, moment_of, word_of};

use load::ServeLoad;
use record_pages::{Key, NEVER};
use std::alloc::{AllocError, Global};

/// The bytes of each key.
pub const KEY_BYTES: u32 = 10;

/// The bytes of a caller's key with this number. The number does not stand last: the hash by which a lane places keys takes the
/// last byte into its high bits but a little, so that keys which differ there alone would have one tag.
pub(crate) fn key_bytes(caller: u16, key: u32) -> [u8; 10]
    ensures { result ≡ key_of caller key }
{
    let [a, b] = caller.to_be_bytes();
    let [c, d, e, f] = key.to_be_bytes();
    [a, b, c, d, e, f, 0, 0, 0, 0]
}

/// A caller's key with this number.
pub(crate) fn key(alloc: Global, caller: u16, key: u32) -> Result<Key, AllocError>
    ensures { IfOk result (λ made. made ≡ key_of caller key) }
{
    match Key::new(alloc, &key_bytes(caller, key)) {
        Ok(key) => Ok(key),
        Err(_) => Err(AllocError),
    }
}

/// What a value repeats: the number of its key, and the number of the operation that put it.
pub(crate) fn word(key: u32, number: u32) -> [u8; 8]
    ensures { result ≡ word_of key number }
{
    let [a, b, c, d] = key.to_be_bytes();
    let [e, f, g, h] = number.to_be_bytes();
    [a, b, c, d, e, f, g, h]
}

/// The moment of a caller's operation with this number: the number itself, if puts expire.
pub(crate) fn moment_of(load: &ServeLoad, number: u32) -> u64
    ensures { result ≡ moment_of load.now number }
{
    if load.ttl == 0 { 0 } else { u64::from(number) }
}

/// The moment from which what a caller's operation with this number put is expired.
pub(crate) fn expires_of(load: &ServeLoad, number: u32) -> u64
    ensures { result ≡ expires_of load.now number }
{
    if load.ttl == 0 {
        NEVER
    } else {
        u64::from(number) + u64::from(load.ttl)
    }
}
