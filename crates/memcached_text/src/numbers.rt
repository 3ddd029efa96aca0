// The numbers of a line: decimal digits, also with leading zeros and with a plus sign before them.
ghost use Rattle.std.specs.Prelude.{◌≡◌, ◌-◌, ◌%◌, ◌^◌, ◌<◌, ◌≤◌, ◌&&◌, nat_lt, nat_le, length, IsTrue};
ghost use Rattle.std.specs.List.{list_all};
ghost use Rattle.memcached_text.specs.Numbers.{are_digits, value_of, capped, digits_below, after_plus, number_below, length_of, low_number, moment_of, exptime_of, past_of, coming_of};

use crate::exptime::Exptime;

/// The first number that has no room in 64 bits.
const TOO_LARGE: u128 = 0x1_0000_0000_0000_0000;

/// The first number that has no room in 32 bits.
const LOW: u64 = 0x1_0000_0000;

/// The length of the longest data block that a line can name.
const LONGEST: u64 = 0x7fff_ffff;

/// The first number of 64 bits that is negative if its first bit is a sign.
const NEGATIVE: u64 = 0x8000_0000_0000_0000;

/// The first one of 32 bits.
const LOW_NEGATIVE: u32 = 0x8000_0000;

/// Whether bytes are digits and nothing else.
fn are_digits(bytes: &[u8]) -> bool
    ensures { result ≡ are_digits bytes.now }
{
    for byte in bytes {
        if *byte < b'0' || b'9' < *byte {
            return false;
        }
    }
    true
}

/// A number, or the first one without room in 64 bits if it is greater.
fn capped(number: u128) -> u128
    ensures { result ≡ capped number }
{
    if number < TOO_LARGE {
        number
    } else {
        TOO_LARGE
    }
}

/// What digits write, however many they are, or `TOO_LARGE` if that is greater.
fn value(digits: &[u8]) -> u128
    requires { IsTrue (are_digits digits.now) }
    ensures { result ≡ capped (value_of digits.now) }
{
    let mut value = 0u128;
    for digit in digits {
        value = capped(10 * value + u128::from(*digit - b'0'));
    }
    value
}

/// The number of 64 bits that digits write, and nothing but digits.
fn unsigned(digits: &[u8]) -> Option<u64>
    ensures { result ≡ digits_below (2 ^ 64) digits.now }
{
    if digits.is_empty() || !are_digits(digits) {
        return None;
    }
    u64::try_from(value(digits)).ok()
}

/// What is left after the plus sign that a word may begin with.
fn after_plus<'a>(word: &'a [u8]) -> &'a [u8]
    ensures { result.now ≡ after_plus word.now }
{
    if !word.is_empty() && word[0] == b'+' {
        &word[1..]
    } else {
        word
    }
}

/// The number of 64 bits that a word writes, with or without a plus sign.
pub(crate) fn number(word: &[u8]) -> Option<u64>
    ensures { result ≡ number_below (2 ^ 64) word.now }
{
    unsigned(after_plus(word))
}

/// The number of 32 bits that a word writes. As with memcached it is the lower half of one of 64 bits.
#[tactic(auto, unfolding(crate::specs::Numbers::low_number))]
pub(crate) fn low_number(word: &[u8]) -> Option<u32>
    ensures { result ≡ low_number word.now }
{
    match number(word) {
        Some(number) => Some(low(number)),
        None => None,
    }
}

// The lower half of a number.
fn low(number: u64) -> u32
    ensures { result ≡ number % 2 ^ 32 }
{
    (number % LOW) as u32
}

/// The length of a data block that a word writes: a number of 31 bits. If it is none, nobody can tell where the block ends.
pub(crate) fn data_len(word: &[u8]) -> Option<u32>
    ensures { result ≡ length_of word.now }
{
    match number(word) {
        Some(len) if len <= LONGEST => Some(len as u32),
        _ => None,
    }
}

/// The moment that a word of 64 bits and a sign writes.
pub(crate) fn expiry(word: &[u8]) -> Option<Exptime>
    ensures { result ≡ exptime_of word.now }
{
    if !word.is_empty() && word[0] == b'-' {
        past(&word[1..])
    } else {
        coming(word)
    }
}

// The moment that the digits after a minus sign write.
#[tactic(auto, unfolding(crate::specs::Numbers::past_of))]
fn past(digits: &[u8]) -> Option<Exptime>
    ensures { result ≡ past_of digits.now }
{
    match unsigned(digits) {
        Some(0) => Some(Exptime::Never),
        Some(seconds) if seconds <= NEGATIVE => Some(Exptime::Past),
        _ => None,
    }
}

// The moment that a word without a minus sign writes: that of its lower 32 bits, as with memcached.
#[tactic(auto, unfolding(crate::specs::Numbers::coming_of))]
fn coming(word: &[u8]) -> Option<Exptime>
    ensures { result ≡ coming_of word.now }
{
    match number(word) {
        Some(number) if number < NEGATIVE => Some(moment(low(number))),
        _ => None,
    }
}

// The moment of 32 bits, of which the first is a sign.
fn moment(seconds: u32) -> Exptime
    ensures { result ≡ moment_of seconds }
{
    if seconds == 0 {
        Exptime::Never
    } else if seconds < LOW_NEGATIVE {
        Exptime::At(seconds)
    } else {
        Exptime::Past
    }
}
