// The numbers that items hold, and what incr and decr make of them.
ghost use Rattle.std.specs.Prelude.{◌≡◌, ◌≤◌, ◌<◌, ◌^◌, ◌==◌, length, position, IsTrue, IfSome};
ghost use Rattle.item_lane.specs.Numbers.{number_of, digits_end, are_spaces, number_in, changed};

use record_pages::{MAX_DIGITS, are_digits, digits_value};

/// A change of a number.
#[derive(Clone, Copy)]
pub enum Change {
    /// This much is added, modulo 2^64.
    Increment(u64),
    /// This much is taken away, and never more than there is.
    Decrement(u64),
}

impl Change {
    /// A number after the change.
    pub(crate) fn of(self, number: u64) -> u64
        ensures { result ≡ changed self number }
    {
        match self {
            Change::Increment(by) => number.wrapping_add(by),
            Change::Decrement(by) => number.saturating_sub(by),
        }
    }
}

/// The number that data hold: one to twenty digits, and after them only spaces.
pub(crate) fn number_in(bytes: &[u8]) -> Option<u64>
    ensures { result ≡ number_in bytes.now }
{
    let (digits, rest) = bytes.split_at(digits_end(bytes));
    if !are_spaces(rest) {
        return None;
    }
    number(digits)
}

// Where the first space stands, or the end.
fn digits_end(bytes: &[u8]) -> usize
    ensures place { result ≡ digits_end bytes.now }
    ensures within { result ≤ length bytes.now }
{
    match first_space(bytes) {
        Some(place) => place,
        None => bytes.len(),
    }
}

// Where the first space stands, if there is one.
fn first_space(bytes: &[u8]) -> Option<usize>
    ensures place { result ≡ position (λ b. b == 32) bytes.now }
    ensures within { IfSome result (λ place. place < length bytes.now) }
{
    bytes.iter().position(|b| *b == b' ')
}

// Whether bytes are spaces and nothing else.
fn are_spaces(bytes: &[u8]) -> bool
    ensures { result ≡ are_spaces bytes.now }
{
    bytes.iter().all(|b| *b == b' ')
}

// The number of 64 bits that one to twenty digits write.
fn number(digits: &[u8]) -> Option<u64>
    ensures { result ≡ number_of digits.now }
{
    if digits.is_empty() || digits.len() > MAX_DIGITS || !are_digits(digits) {
        return None;
    }
    u64::try_from(digits_value(digits)).ok()
}
