//! What the words of texts are, in several parts.
use test_devices::is;

/// At which of these names, which blanks part, a word stands.
pub fn place_among(names: &[u8], word: &[u8]) -> Option<usize> {
    names.split(|b| *b == b' ').position(|name| is(name, word))
}
