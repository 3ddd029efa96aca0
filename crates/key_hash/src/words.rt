// Numbers that bytes are read as.
ghost use Rattle.std.specs.Prelude.{◌≡◌, ◌+◌, ◌≤◌, length};
ghost use Rattle.key_hash.specs.Words.{half, word, short};

/// Four bytes as a number, the first of them lowest.
fn half_at(bytes: &[u8], at: usize) -> u64
    requires { at + 4 ≤ length bytes.now }
    ensures { result ≡ half bytes.now at }
{
    u32::from_le_bytes([bytes[at], bytes[at + 1], bytes[at + 2], bytes[at + 3]]) as u64
}

/// Eight bytes as a number, the first of them lowest.
pub(crate) fn word_at(bytes: &[u8], at: usize) -> u64
    requires { at + 8 ≤ length bytes.now }
    ensures { result ≡ word bytes.now at }
{
    half_at(bytes, at) | half_at(bytes, at + 4) << 32
}

/// Up to eight bytes as a number, by reads that may overlap. With their count it tells them.
pub(crate) fn short_word(bytes: &[u8]) -> u64
    ensures { result ≡ short bytes.now }
{
    let len = bytes.len();
    if len >= 4 {
        half_at(bytes, 0) | half_at(bytes, len - 4) << 32
    } else if len > 0 {
        bytes[0] as u64 | (bytes[len / 2] as u64) << 8 | (bytes[len - 1] as u64) << 16
    } else {
        0
    }
}
