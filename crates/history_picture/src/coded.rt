// Bytes as they are shown.
ghost use Rattle.std.specs.Prelude.{◌≡◌, ◌<◌, [], ◌∷◌, ◌++◌, IfOk, OnOk, string_bytes, true};
ghost use Rattle.std.specs.Fmt.{digit_glyph};
ghost use Rattle.std.specs.List.{flat_map};
ghost use Rattle.history_picture.specs.Coding.{code_of, cut_word, shown_word, word_of};
ghost use Rattle.history_picture.specs.Plain.{IsPlain};

use std::alloc::{AllocError, Global};

/// The most characters of a word that is shown whole.
const MOST: usize = 24;

/// How many characters of a longer word are shown.
const CUT: usize = 22;

/// Bytes as they are shown: spelled so that each character is printable and none is a space, and cut to 24 characters.
pub(crate) fn coded(alloc: Global, bytes: &[u8]) -> Result<String, AllocError>
    ensures { IfOk result (λ word. string_bytes word ≡ shown_word bytes.now) }
{
    let word = word(alloc, bytes)?;
    match cut(word) {
        Ok(word) => Ok(word),
        Err(refused) => Err(refused),
    }
}

/// A word, cut to 24 characters.
#[tactic(auto, unfolding(crate::specs::Coding::cut_word))]
fn cut(word: String) -> Result<String, AllocError>
    requires { IsPlain (string_bytes word) }
    ensures { IfOk result (λ shown. string_bytes shown ≡ cut_word (string_bytes word)) }
{
    let mut word = word;
    if word.len() <= MOST {
        return Ok(word);
    }
    word.truncate(CUT);
    word.push_str("..")?;
    Ok(word)
}

/// Bytes spelled as a word.
#[tactic(auto, unfolding(crate::specs::Coding::word_of))]
fn word(alloc: Global, bytes: &[u8]) -> Result<String, AllocError>
    ensures { IfOk result (λ word. string_bytes word ≡ word_of bytes.now) }
{
    if bytes.is_empty() {
        return String::from_str(alloc, "-");
    }
    if bytes == b"-".as_slice() {
        return String::from_str(alloc, "%2D");
    }
    codes(alloc, bytes)
}

/// The bytes spelled, one after the other.
fn codes(alloc: Global, bytes: &[u8]) -> Result<String, AllocError>
    ensures { IfOk result (λ word. string_bytes word ≡ flat_map code_of bytes.now) }
{
    let mut word = String::new(alloc);
    for byte in bytes {
        push_code(&mut word, *byte)?;
    }
    Ok(word)
}

/// Puts a byte after a word, spelled.
fn push_code(word: &mut String, byte: u8) -> Result<(), AllocError>
    ensures { OnOk result (string_bytes word.new ≡ string_bytes word.old ++ code_of byte) }
{
    if 32 < byte && byte < 127 && byte != b'%' {
        push_ascii(word, byte)?;
        return Ok(());
    }
    push_ascii(word, b'%')?;
    push_ascii(word, hex_digit(byte / 16 % 16))?;
    push_ascii(word, hex_digit(byte % 16))?;
    Ok(())
}

/// The hex digit of a number below 16.
fn hex_digit(number: u8) -> u8
    requires { number < 16 }
    ensures digit { result ≡ digit_glyph true number }
    ensures ascii { result < 128 }
{
    if number < 10 {
        b'0' + number
    } else {
        b'A' - 10 + number
    }
}

/// Puts an ASCII character after a text.
pub(crate) fn push_ascii(text: &mut String, byte: u8) -> Result<(), AllocError>
    requires { byte < 128 }
    ensures { OnOk result (string_bytes text.new ≡ string_bytes text.old ++ byte ∷ []) }
{
    text.push(byte as char)?;
    Ok(())
}
