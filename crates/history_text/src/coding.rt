// Bytes as words: percent-coded, and `-` for no bytes.
ghost use Rattle.std.specs.Prelude.{◌≡◌, Some, None, IfOk, if◌then◌else◌, string_bytes};
ghost use Rattle.history_text.specs.Coding.{is_coded, bytes_of, starts_pair, word_of};

use percent_encoding::{AsciiSet, percent_decode, percent_encode};
use std::alloc::{AllocError, Global};

/// The ASCII bytes that are coded in a word: those outside 21 to 7e, and `%`. Bytes that are not ASCII are coded too.
pub(crate) const CODED: AsciiSet = AsciiSet {
    mask: 0x1_FFFF_FFFF | 1 << 0x25 | 1 << 0x7F,
};

/// Whether bytes begin with two hexadecimal digits.
fn starts_pair(bytes: &[u8]) -> bool
    ensures { result ≡ starts_pair bytes.now }
{
    match bytes {
        [high, low, ..] => high.is_ascii_hexdigit() && low.is_ascii_hexdigit(),
        _ => false,
    }
}

/// Whether each `%` of a word stands before two hexadecimal digits.
fn is_coded(word: &[u8]) -> bool
    ensures { result ≡ is_coded word.now }
{
    for at in 0..word.len() {
        if word[at] == b'%' && !starts_pair(&word[at + 1..]) {
            return false;
        }
    }
    true
}

/// Puts the bytes that a word writes in place of those of `bytes`, and says whether it writes some: if a `%` stands
/// before no two hexadecimal digits, it does not.
#[tactic(auto, unfolding(crate::specs::Coding::bytes_of))]
pub(crate) fn decode(word: &[u8], bytes: &mut Vec<u8>) -> Result<bool, AllocError>
    ensures { IfOk result (λ writes. bytes_of word.now ≡ (if writes then Some bytes.new.items else None)) }
{
    bytes.clear();
    if word == b"-".as_slice() {
        return Ok(true);
    }
    if !is_coded(word) {
        return Ok(false);
    }
    match percent_decode(word).append_to(bytes) {
        Ok(()) => Ok(true),
        Err(refused) => Err(refused),
    }
}

/// The word that writes bytes.
#[tactic(auto, unfolding(crate::specs::Coding::word_of))]
pub fn word(alloc: Global, bytes: &[u8]) -> Result<String, AllocError>
    ensures { IfOk result (λ word. string_bytes word ≡ word_of bytes.now) }
{
    if bytes.is_empty() {
        return String::from_str(alloc, "-");
    }
    if bytes == b"-".as_slice() {
        return String::from_str(alloc, "%2D");
    }
    let mut word = String::new(alloc);
    percent_encode(bytes, CODED).append_to(&mut word)?;
    Ok(word)
}
