// What a hit has to be.
ghost use Rattle.std.specs.Prelude.{◌≡◌, ◌↔◌, IsTrue, length};
ghost use Rattle.serve_load.specs.Looking.{Judges};
ghost use Rattle.serve_load.specs.Objects.{repeated, value_of};
ghost use Rattle.serve_load.specs.Words.{IsRight};

use crate::objects::{expires_of, word};
use crate::words::{CallEnd, Known};
use load::ServeLoad;
use mover::AnswerKind;
use service_cache::SeatFault;

/// How a look-up of a key went that gave this, and these bytes at a hit, for a caller that knew this word of the key, at this
/// moment.
pub(crate) fn judged(
    load: &ServeLoad,
    key: u32,
    known: u32,
    moment: u64,
    seen: Result<AnswerKind, SeatFault>,
    bytes: &[u8],
) -> CallEnd
    ensures { Judges load.now key known moment seen bytes.now result }
{
    match seen {
        Ok(AnswerKind::Hit { .. }) => {
            if is_right(load, key, known, moment, bytes) {
                CallEnd::Done
            } else {
                CallEnd::WrongHit(Known { key, word: known })
            }
        }
        Ok(AnswerKind::Miss(_)) => CallEnd::Done,
        Err(_) => CallEnd::Refused,
    }
}

/// Whether a caller that knows this word of a key may hit these bytes at this moment: the word is that of an operation, the bytes
/// are its value, and they are not expired.
pub(crate) fn is_right(load: &ServeLoad, key: u32, known: u32, moment: u64, bytes: &[u8]) -> bool
    ensures { IsTrue result ↔ IsRight load.now key known moment bytes.now }
{
    if known == 0 {
        return false;
    }
    let number = known - 1;
    if !is_value(load, key, number, bytes) {
        return false;
    }
    moment < expires_of(load, number)
}

/// Whether bytes are the value that the operation with this number puts for a key.
fn is_value(load: &ServeLoad, key: u32, number: u32, bytes: &[u8]) -> bool
    ensures { IsTrue result ↔ (bytes.now ≡ value_of load.now.value_bytes key number) }
{
    if bytes.len() != load.value_bytes as usize {
        return false;
    }
    repeats(&word(key, number), bytes)
}

/// Whether bytes are a word, over and over, cut where they end.
fn repeats(word: &[u8; 8], bytes: &[u8]) -> bool
    ensures { IsTrue result ↔ (bytes.now ≡ repeated word.now (length bytes.now)) }
{
    let mut rest = bytes;
    while rest.len() >= 8 {
        let (front, back) = rest.split_at(8);
        if front != word.as_slice() {
            return false;
        }
        rest = back;
    }
    rest == &word[..rest.len()]
}
