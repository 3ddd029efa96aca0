// The bytes of a head.
ghost use Rattle.std.specs.Prelude.{◌≡◌, ◌+◌, ◌++◌, ◌≤◌, length};
ghost use Rattle.item_lane.specs.Cells.{head_text, head_len};

use crate::head::Head;
use std::marker::Model;

/// The most bytes of a head.
const MAX_LEN: usize = 17;

/// The bytes that an item's cell begins with, before its data: those of its head. It takes no memory.
#[derive(Drop)]
pub struct HeadText {
    bytes: [u8; MAX_LEN],
    len: usize,
}

impl Model for HeadText {
    ghost use Rattle.std.specs.Prelude.{◌≤◌, ℕ, List, take};

    ghost Value = { List ℕ };

    ghost view = { λ b. take b.len b.bytes };

    ghost invariant = { λ b. b.len ≤ 17 };
}

impl HeadText {
    /// The bytes of a head.
    pub fn of(head: &Head) -> HeadText
        ensures text { result ≡ head_text head.now }
        ensures len { length result ≡ head_len head.now }
    {
        let mut text = HeadText {
            bytes: [0; MAX_LEN],
            len: 0,
        };
        text.push(&[head.marks()]);
        text.push(&head.cas.to_be_bytes());
        if head.flags != 0 {
            text.push(&head.flags.to_be_bytes());
        }
        if let Some(moment) = head.expires {
            text.push(&moment.to_be_bytes());
        }
        text
    }

    /// The bytes, in order.
    pub fn bytes(&self) -> &[u8]
        ensures { result.now ≡ self.now }
    {
        &self.bytes[..self.len]
    }

    // Writes bytes after those that it holds.
    fn push(&mut self, bytes: &[u8])
        requires { length self.old + length bytes.now ≤ 17 }
        ensures text { self.new ≡ self.old ++ bytes.now }
        ensures len { length self.new ≡ length self.old + length bytes.now }
    {
        let end = self.len + bytes.len();
        self.bytes[self.len..end].copy_from_slice(bytes);
        self.len = end;
    }
}
