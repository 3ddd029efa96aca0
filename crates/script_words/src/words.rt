// The words and numbers of a script's lines.
ghost use Rattle.std.specs.Prelude.{◌≡◌, ◌^◌, ◌<◌, ◌≤◌, ◌&&◌, ◌==◌, nat_le, ℕ, true, not, length, slice_index, IfNone, IfSome, IsTrue, Some, map};
ghost use Rattle.std.specs.Fmt.{decimal};
ghost use Rattle.std.specs.List.{list_all};
ghost use Rattle.script_words.specs.Words.{is_word, words_of, is_numeral, number_below, number_of, time_of};

use arrayvec::ArrayVec;
use record_pages::{MAX_DIGITS, are_digits, digits_value};

/// The most words of a line that spells something: `config` and eight numbers.
pub const MAX_WORDS: usize = 9;

/// Whether bytes are a word.
pub(crate) fn is_word(bytes: &[u8]) -> bool
    ensures { result ≡ is_word bytes.now }
{
    !bytes.is_empty() && are_within(bytes, 33, 126)
}

/// Whether each byte is in a range.
fn are_within(bytes: &[u8], least: u8, greatest: u8) -> bool
    ensures { result ≡ list_all (λ b. nat_le least b && nat_le b greatest) bytes.now }
{
    bytes.iter().all(|b| least <= *b && *b <= greatest)
}

/// Whether each part is a word.
fn are_words(parts: &[&[u8]]) -> bool
    ensures { result ≡ list_all is_word (map (λ part. part.now) parts.now) }
{
    parts.iter().all(|part| is_word(part))
}

/// The words of a line that has at most `MAX_WORDS` of them. It takes no memory.
pub fn words_in<'a>(line: &'a [u8]) -> Option<ArrayVec<&'a [u8], MAX_WORDS>>
    ensures words { IfSome result (λ words. words_of line.now ≡ Some (map (λ w. w.now) words.items)) }
    ensures none { IfNone result (IfSome (words_of line.now) (λ words. 9 < length words)) }
{
    let mut parts: ArrayVec<&[u8], MAX_WORDS> = ArrayVec::new();
    let Ok(()) = parts.extend(line.split(|b| *b == b' ')) else {
        return None;
    };
    if are_words(&parts) { Some(parts) } else { None }
}

/// Whether a word is decimal digits without a leading zero, or 0 itself.
fn is_numeral(word: &[u8]) -> bool
    ensures { result ≡ is_numeral word.now }
{
    are_digits(word) && !word.is_empty() && (word[0] != b'0' || word.len() == 1)
}

/// The number of at most `MAX_DIGITS` digits that a word writes.
fn numeral(word: &[u8]) -> Option<u128>
    ensures { result ≡ number_below (10 ^ 20) word.now }
{
    if !is_numeral(word) || word.len() > MAX_DIGITS {
        return None;
    }
    Some(digits_value(word))
}

/// The number of 32 bits that a word writes.
pub(crate) fn number(word: &[u8]) -> Option<u32>
    ensures value { result ≡ number_of word.now }
    ensures digits { IfSome result (λ n. word.now ≡ decimal n) }
{
    u32::try_from(numeral(word)?).ok()
}

/// The moment that a word writes, a number of 64 bits.
pub fn time(word: &[u8]) -> Option<u64>
    ensures value { result ≡ time_of word.now }
    ensures digits { IfSome result (λ n. word.now ≡ decimal n) }
{
    u64::try_from(numeral(word)?).ok()
}
