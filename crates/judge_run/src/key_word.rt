// The kind and the key of a reason.
ghost use Rattle.std.specs.Prelude.{◌≡◌, IfOk, string_bytes};
ghost use Rattle.history_text.specs.Coding.{word_of};
ghost use Rattle.judge_run.specs.Telling.{first_position, key_at, witness_word};

use certificate_finder::Witness;
use history_text::word;
use std::alloc::{AllocError, Global};
use trace_file::History;

/// The kind of a reason.
pub(crate) fn kind_word(witness: &Witness) -> &'static str
    ensures { result.now ≡ witness_word witness.now }
{
    match witness {
        Witness::Interval(_) => "interval",
        Witness::Hit(..) => "hit",
        Witness::Crossed(..) => "crossed",
        Witness::Unread(_) => "unread",
    }
}

/// The call whose key a reason is about.
pub(crate) fn first_position(witness: &Witness) -> u32
    ensures { result ≡ first_position witness.now }
{
    match witness {
        Witness::Interval(call) => *call,
        Witness::Hit(hit, _) => *hit,
        Witness::Crossed(one, _) => one.write,
        Witness::Unread(unread) => unread.hit,
    }
}

/// The key of the call at a position; an empty one if there is no such call.
pub(crate) fn key_at(history: &History, position: u32) -> &[u8]
    ensures { result.now ≡ key_at history.now position }
{
    let place = position as usize;
    if place < history.len() {
        history.at(place).key
    } else {
        &[]
    }
}

/// The key that a reason is about, as a text writes it.
pub(crate) fn key_word(
    alloc: Global,
    history: &History,
    witness: &Witness,
) -> Result<String, AllocError>
    ensures { IfOk result (λ key. string_bytes key
        ≡ word_of (key_at history.now (first_position witness.now))) }
{
    match word(alloc, key_at(history, first_position(witness))) {
        Ok(key) => Ok(key),
        Err(refused) => Err(refused),
    }
}
