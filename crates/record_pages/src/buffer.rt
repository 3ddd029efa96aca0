// Room for a value.
ghost use Rattle.std.specs.Prelude.{◌≡◌, []};
ghost use Rattle.record_pages.specs.Bounded.{IsValue};

use crate::value::Value;
use std::marker::Model;

/// Room for the bytes of a value, at most `Value::MAX_LEN` of them, which lie in the buffer itself. They are zeroed
/// when it is made, so whoever looks up many values keeps one.
#[derive(Drop)]
pub struct ValueBuffer {
    bytes: [u8; Value::MAX_LEN],
    len: usize,
}

impl Model for ValueBuffer {
    ghost use Rattle.std.specs.Prelude.{◌≤◌, ℕ, List, take};

    ghost Value = { List ℕ };

    ghost view = { λ b. take b.len b.bytes };

    ghost invariant = { λ b. b.len ≤ 2048 };
}

impl ValueBuffer {
    /// The buffer of no bytes. It takes no memory.
    pub fn empty() -> ValueBuffer
        ensures { result ≡ [] }
    {
        ValueBuffer {
            bytes: [0; Value::MAX_LEN],
            len: 0,
        }
    }

    /// The bytes that it holds, in order.
    pub fn bytes(&self) -> &[u8]
        ensures value { result.now ≡ self.now }
        ensures range { IsValue self.now }
    {
        &self.bytes[..self.len]
    }

    /// Holds a copy of these bytes, in place of those that it held. It takes no memory.
    pub fn set(&mut self, bytes: &[u8])
        requires { IsValue bytes.now }
        ensures { self.new ≡ bytes.now }
    {
        let len = bytes.len();
        self.bytes[..len].copy_from_slice(bytes);
        self.len = len;
    }
}
