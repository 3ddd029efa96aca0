// The fields of a page, read from the front of its bytes.
ghost use Rattle.std.specs.Prelude.{◌≡◌};
ghost use Rattle.std.specs.Option.{option_map};
ghost use Rattle.std.specs.Int.{w16, w32, w64};
ghost use Rattle.record_pages.specs.Reading.{number_at, byte_at, all_zero};

pub(crate) fn byte_at(bytes: &[u8]) -> Option<(u8, &[u8])>
    ensures { option_map (λ x. (x.0, x.1.now)) result ≡ byte_at bytes.now }
{
    match bytes {
        [] => None,
        [first, rest @ ..] => Some((*first, rest)),
    }
}

pub(crate) fn u16_at(bytes: &[u8]) -> Option<(u16, &[u8])>
    ensures { option_map (λ x. (x.0, x.1.now)) result ≡ number_at w16 bytes.now }
{
    if bytes.len() < 2 {
        return None;
    }
    let (front, rest) = bytes.split_at(2);
    Some((u16::from_be_bytes([front[0], front[1]]), rest))
}

pub(crate) fn u32_at(bytes: &[u8]) -> Option<(u32, &[u8])>
    ensures { option_map (λ x. (x.0, x.1.now)) result ≡ number_at w32 bytes.now }
{
    if bytes.len() < 4 {
        return None;
    }
    let (front, rest) = bytes.split_at(4);
    let number = u32::from_be_bytes([front[0], front[1], front[2], front[3]]);
    Some((number, rest))
}

pub(crate) fn u64_at(bytes: &[u8]) -> Option<(u64, &[u8])>
    ensures { option_map (λ x. (x.0, x.1.now)) result ≡ number_at w64 bytes.now }
{
    if bytes.len() < 8 {
        return None;
    }
    let (front, rest) = bytes.split_at(8);
    let number = u64::from_be_bytes([
        front[0], front[1], front[2], front[3], front[4], front[5], front[6], front[7],
    ]);
    Some((number, rest))
}

// Whether there are only zeros. One pass with no exit on the way, which wide compares can make.
pub(crate) fn is_zero(bytes: &[u8]) -> bool
    ensures { result ≡ all_zero bytes.now }
{
    let mut bits = 0;
    for byte in bytes {
        bits |= *byte;
    }
    bits == 0
}
