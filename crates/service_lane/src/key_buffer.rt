// A key in room of its own.
ghost use Rattle.std.specs.Prelude.{◌≡◌, ◌≢◌, ◌<◌, ◌↔◌, [], length, Err};
ghost use Rattle.record_pages.specs.Bounded.{IsKey};
ghost use Rattle.record_pages.specs.declared.key.KeyFault.{KeyFault};

use record_pages::{Key, KeyFault};
use std::marker::Model;

/// A copy of a key's bytes that lies in the buffer itself, so that no memory can be refused for it.
#[derive(Drop)]
pub struct KeyBuffer {
    bytes: [u8; Key::MAX_LEN],
    len: usize,
}

impl Model for KeyBuffer {
    ghost use Rattle.std.specs.Prelude.{◌<◌, ◌≤◌, ℕ, List, take};

    ghost Value = { List ℕ };

    ghost view = { λ k. take k.len k.bytes };

    ghost invariant = { λ k. (0 < k.len) × (k.len ≤ 255) };
}

impl KeyBuffer {
    /// A copy of a key.
    pub fn of(key: &Key) -> KeyBuffer
        ensures { result ≡ key.now }
    {
        let bytes = key.bytes();
        let len = bytes.len();
        let mut room = [0; Key::MAX_LEN];
        room[..len].copy_from_slice(bytes);
        KeyBuffer { bytes: room, len }
    }

    /// The bytes of the key, in order.
    pub fn bytes(&self) -> &[u8]
        ensures bytes { result.now ≡ self.now }
        ensures range { IsKey result.now }
    {
        &self.bytes[..self.len]
    }
}

/// Tests that these bytes are those of a key. `OutOfMemory` never comes.
pub(crate) fn check_key(bytes: &[u8]) -> Result<(), KeyFault>
    ensures empty { (result ≡ Err KeyFault.KeyEmpty) ↔ (bytes.now ≡ []) }
    ensures too_long { (result ≡ Err KeyFault.KeyTooLong) ↔ (255 < length bytes.now) }
    ensures memory { result ≢ Err KeyFault.OutOfMemory }
{
    if bytes.is_empty() {
        return Err(KeyFault::KeyEmpty);
    }
    if bytes.len() > Key::MAX_LEN {
        return Err(KeyFault::KeyTooLong);
    }
    Ok(())
}
