// The key of an object.
ghost use Rattle.std.specs.Prelude.{◌≡◌, ◌<◌, ◌↔◌, ℕ, List, [], length, IfOk, nat_eq};
ghost use Rattle.std.specs.Cmp.Lexicographic.{pointwise, nat_list_eq_equiv};
ghost use Rattle.std.specs.Cmp.{partial_equiv_from_equiv};
ghost use Rattle.std.specs.Cmp.Rules.{hashing};
ghost use Rattle.std.specs.Hash as fed;
ghost use Rattle.std.proofs.Common.{rules};
ghost use Rattle.record_pages.specs.Bounded.{IsKey};

use std::alloc::{AllocError, Global};
use std::hash::{Hash, Hasher};
use std::marker::Model;
use thiserror::Error;

/// The key of an object: 1 to 255 bytes.
#[derive(Drop)]
pub struct Key {
    bytes: Vec<u8>,
}

impl Model for Key {
    ghost Value = { List ℕ };

    ghost view = { λ k. k.bytes.items };

    ghost invariant = { λ k. IsKey k.bytes.items };
}

/// Why no key was made.
#[derive(Clone, Copy, Debug, PartialEq, Eq, Error)]
pub enum KeyFault {
    /// There are no bytes.
    #[error("the key is empty")]
    KeyEmpty,
    /// There are more than `Key::MAX_LEN` bytes.
    #[error("the key is too long")]
    KeyTooLong,
    /// Memory was refused.
    #[error("out of memory")]
    OutOfMemory,
}

impl Key {
    /// The most bytes of a key.
    pub const MAX_LEN: usize = 255;

    /// The key with a copy of these bytes.
    pub fn new(alloc: Global, bytes: &[u8]) -> Result<Key, KeyFault>
        ensures ok { IfOk result (λ key. (key ≡ bytes.now) × IsKey key) }
        ensures empty { (result ≡ Err KeyFault.KeyEmpty) ↔ (bytes.now ≡ []) }
        ensures too_long { (result ≡ Err KeyFault.KeyTooLong) ↔ (255 < length bytes.now) }
    {
        if bytes.is_empty() {
            return Err(KeyFault::KeyEmpty);
        }
        if bytes.len() > Self::MAX_LEN {
            return Err(KeyFault::KeyTooLong);
        }
        match Vec::from_slice(alloc, bytes) {
            Ok(bytes) => Ok(Key { bytes }),
            Err(_) => Err(KeyFault::OutOfMemory),
        }
    }

    /// The bytes of the key, in order.
    pub fn bytes(&self) -> &[u8]
        ensures value { result.now ≡ self.now }
        ensures range { IsKey self.now }
    {
        self.bytes.as_slice()
    }

    /// A copy of the key, or `AllocError` if memory was refused.
    pub fn try_clone(&self) -> Result<Key, AllocError>
        ensures { IfOk result (λ key. key ≡ self.now) }
    {
        let bytes = self.bytes.clone()?;
        Ok(Key { bytes })
    }
}

impl PartialEq for Key {
    ghost eq = { pointwise nat_eq };

    ghost laws = { partial_equiv_from_equiv nat_list_eq_equiv };

    fn eq(&self, other: &Key) -> bool {
        self.bytes.as_slice() == other.bytes.as_slice()
    }
}

impl Eq for Key {
    ghost laws = { nat_list_eq_equiv };
}

impl Hash for Key {
    ghost hash_input = { λ key. fed.slice fed.u8 key };

    ghost respects_eq = { Prim.search (hashing, rules) };

    fn hash<H: Hasher>(&self, state: &mut H) {
        self.bytes.as_slice().hash(state);
    }
}
