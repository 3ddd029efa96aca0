// Room for the bytes of values.
ghost use Rattle.std.specs.Prelude.{◌≡◌, IfOk, length};
ghost use Rattle.serve_load.specs.Objects.{repeated, value_of};

use crate::objects::word;
use load::ServeLoad;
use record_pages::Value;
use std::alloc::{AllocError, Global};

/// Room for the bytes of a caller's values, which are written anew in place for each.
#[derive(Drop)]
pub(crate) struct Room {
    bytes: Vec<u8>,
}

impl Room {
    /// Room for no bytes. It takes no memory before the first value.
    pub(crate) fn empty(alloc: Global) -> Room {
        Room {
            bytes: Vec::new(alloc),
        }
    }

    /// The value that the operation with this number puts for a key. After the first value of a load, memory is asked for once:
    /// for the value itself.
    pub(crate) fn value(
        &mut self,
        alloc: Global,
        load: &ServeLoad,
        key: u32,
        number: u32,
    ) -> Result<Value, AllocError>
        ensures { IfOk result (λ value. value ≡ value_of load.now.value_bytes key number) }
    {
        let len = load.value_bytes as usize;
        if self.bytes.len() != len {
            self.bytes.resize(len, 0)?;
        }
        repeat_in(self.bytes.as_mut_slice(), &word(key, number));
        match Value::new(alloc, self.bytes.as_slice()) {
            Ok(value) => Ok(value),
            Err(_) => Err(AllocError),
        }
    }
}

/// Writes a word over and over, cut where the room ends.
fn repeat_in(room: &mut [u8], word: &[u8; 8])
    ensures { room.new ≡ repeated word.now (length room.old) }
{
    let rest = room.len() % 8;
    let mut left = room.len() - rest;
    room[left..].copy_from_slice(&word[..rest]);
    while left > 0 {
        left -= 8;
        room[left..left + 8].copy_from_slice(word.as_slice());
    }
}
