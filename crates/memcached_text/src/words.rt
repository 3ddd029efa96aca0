// The words of a line.
ghost use Rattle.std.specs.Prelude.{◌≡◌, ◌<◌, ◌≤◌, nat_lt, nat_le, ◌&&◌, not, ◌==◌, length, map, drop, [], slice_index_or};
ghost use Rattle.std.specs.List.{position_or_len};
ghost use Rattle.std.specs.Str.{bytes_eq};
ghost use Rattle.memcached_text.specs.Words.{words_of, after_word, after_spaces, from_space, is_key, is_noreply};

use arrayvec::ArrayVec;

/// The most words of a line that are looked at.
pub(crate) const MAX_WORDS: usize = 24;

/// The most bytes of a key.
pub const MAX_KEY_LEN: usize = 250;

/// The first words of a line, `MAX_WORDS` at most.
pub(crate) fn words_in<'a>(line: &'a [u8]) -> ArrayVec<&'a [u8], MAX_WORDS>
    ensures { map (λ w. w.now) result.items ≡ words_of line.now }
{
    let mut words: ArrayVec<&[u8], MAX_WORDS> = ArrayVec::new();
    let parts = line.split(|b| *b == b' ').filter(|word| !word.is_empty());
    match words.extend(parts.take(MAX_WORDS)) {
        Ok(()) => words,
        Err(_) => words,
    }
}

/// How many spaces a text begins with.
pub(crate) fn spaces(text: &[u8]) -> usize
    ensures count { result ≡ position_or_len (λ b. not (b == 32)) text.now }
    ensures within { result ≤ length text.now }
{
    for at in 0..text.len() {
        if text[at] != b' ' {
            return at;
        }
    }
    text.len()
}

/// How many bytes a text has before its first space.
fn before_space(text: &[u8]) -> usize
    ensures count { result ≡ position_or_len (λ b. b == 32) text.now }
    ensures within { result ≤ length text.now }
{
    for at in 0..text.len() {
        if text[at] == b' ' {
            return at;
        }
    }
    text.len()
}

/// What is left of a text after the spaces that it begins with.
pub(crate) fn after_spaces<'a>(text: &'a [u8]) -> &'a [u8]
    ensures { result.now ≡ after_spaces text.now }
{
    &text[spaces(text)..]
}

/// What is left of a text from its first space on.
fn from_space<'a>(text: &'a [u8]) -> &'a [u8]
    ensures { result.now ≡ from_space text.now }
{
    &text[before_space(text)..]
}

/// What is left of a text after its first word, and the spaces before and after that.
pub(crate) fn after_word<'a>(text: &'a [u8]) -> &'a [u8]
    ensures { result.now ≡ after_word text.now }
{
    after_spaces(from_space(after_spaces(text)))
}

/// Whether a word is a key.
pub(crate) fn is_key(word: &[u8]) -> bool
    ensures { result ≡ is_key word.now }
{
    !word.is_empty() && word.len() <= MAX_KEY_LEN
}

/// Whether a word says that no answer is wanted.
pub(crate) fn is_noreply(word: &[u8]) -> bool
    ensures { result ≡ is_noreply word.now }
{
    is_text(word, b"noreply")
}

/// Whether a word is this text.
pub(crate) fn is_text(word: &[u8], text: &[u8]) -> bool
    ensures { result ≡ bytes_eq word.now text.now }
{
    word == text
}
