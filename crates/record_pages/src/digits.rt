// Numbers in decimal digits.
ghost use Rattle.std.specs.Prelude.{◌≡◌, ◌≤◌, length, IsTrue};
ghost use Rattle.record_pages.specs.Digits.{are_digits, digits_value};

/// The most digits that `digits_value` takes: as many as 2^64 - 1 has.
pub const MAX_DIGITS: usize = 20;

/// Whether each of the bytes is a decimal digit; true if there are none.
pub fn are_digits(bytes: &[u8]) -> bool
    ensures { result ≡ are_digits bytes.now }
{
    bytes.iter().all(|b| b'0' <= *b && *b <= b'9')
}

/// The number that digits write. Zeros may lead; no digits write 0.
pub fn digits_value(digits: &[u8]) -> u128
    requires digits { IsTrue (are_digits digits.now) }
    requires few { length digits.now ≤ 20 }
    ensures { result ≡ digits_value digits.now }
{
    let mut value = 0u128;
    for digit in digits {
        value = 10 * value + u128::from(*digit - b'0');
    }
    value
}
