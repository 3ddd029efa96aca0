// The hash of a key.
ghost use Rattle.std.specs.Prelude.{◌≡◌};
ghost use Rattle.key_hash.specs.Hashing.{folded, written};

use crate::words::{short_word, word_at};
use std::hash::Hasher;

/// A hasher of keys by a secret seed. It takes 16 bytes by one multiplication to 128 bits, whose halves it
/// joins by xor, as the toolchain's `FoldHasher` does with two numbers that are known.
#[derive(Clone, Copy)]
pub struct KeyHasher {
    pub(crate) state: u64,
    pub(crate) multiplier: u64,
}

/// The two halves of a product, joined by xor.
pub(crate) fn fold(a: u64, b: u64) -> u64
    ensures { result ≡ folded a b }
{
    let product = a as u128 * b as u128;
    (product & 0xffff_ffff_ffff_ffff) as u64 ^ (product >> 64) as u64
}

impl Hasher for KeyHasher {
    ghost write = { written };

    ghost finish = { λ hasher. hasher.state };

    fn finish(&self) -> u64 {
        self.state
    }

    fn write(&mut self, bytes: &[u8]) {
        let len = bytes.len();
        if len <= 8 {
            self.state = fold(
                self.state ^ short_word(bytes),
                self.multiplier ^ (2 * len as u64),
            );
            return;
        }
        let mut state = fold(self.state ^ len as u64, self.multiplier);
        let mut at = 0;
        while len - at > 16 {
            state = fold(
                word_at(bytes, at) ^ state,
                word_at(bytes, at + 8) ^ self.multiplier,
            );
            at += 16;
        }
        self.state = fold(
            word_at(bytes, len.saturating_sub(16)) ^ state,
            word_at(bytes, len - 8) ^ self.multiplier,
        );
    }
}
