// Bytes that wait to be written.
ghost use Rattle.std.specs.Prelude.{◌≡◌, ◌+◌, ◌≤◌, ◌++◌, [], List, ℕ, length, take};

use std::marker::Model;

/// How many bytes can wait.
pub(crate) const ROOM: usize = 8192;

/// Bytes that wait to be written, in a fixed array.
#[derive(Drop)]
pub(crate) struct TextBuffer {
    bytes: [u8; ROOM],
    len: usize,
}

impl Model for TextBuffer {
    ghost Value = { List ℕ };

    ghost view = { λ b. take b.len b.bytes };

    ghost invariant = { λ b. b.len ≤ 8192 };
}

impl TextBuffer {
    /// No bytes.
    pub(crate) fn new() -> TextBuffer
        ensures { result ≡ [] }
    {
        TextBuffer {
            bytes: [0; ROOM],
            len: 0,
        }
    }

    /// How many bytes wait.
    pub(crate) fn len(&self) -> usize
        ensures count { result ≡ length self.now }
        ensures room { length self.now ≤ 8192 }
    {
        self.len
    }

    /// The bytes that wait.
    pub(crate) fn as_slice(&self) -> &[u8]
        ensures { result.now ≡ self.now }
    {
        let all = &self.bytes[..];
        &all[..self.len]
    }

    /// Forgets all bytes.
    pub(crate) fn clear(&mut self)
        ensures { self.new ≡ [] }
    {
        self.len = 0;
    }

    /// Appends bytes.
    pub(crate) fn push(&mut self, bytes: &[u8])
        requires { length self.old + length bytes.now ≤ 8192 }
        ensures { self.new ≡ self.old ++ bytes.now }
    {
        let end = self.len + bytes.len();
        let all = &mut self.bytes[..];
        all[self.len..end].copy_from_slice(bytes);
        self.len = end;
    }
}
