// Text inside of a picture.
ghost use Rattle.std.specs.Prelude.{◌≡◌, ◌++◌, IfOk, OnOk, string_bytes};
ghost use Rattle.std.specs.List.{flat_map};
ghost use Rattle.history_picture.specs.Escaping.{escape_of};
ghost use Rattle.history_picture.specs.Pictures.{sign_text};

use crate::coded::push_ascii;
use std::alloc::{AllocError, Global};

/// A text in which the signs that mean something in XML are escaped, and what is no printable ASCII is a question mark.
pub(crate) fn escaped(alloc: Global, text: &str) -> Result<String, AllocError>
    ensures { IfOk result (λ escaped. string_bytes escaped ≡ flat_map escape_of text.now) }
{
    let mut escaped = String::new(alloc);
    for byte in text.as_bytes() {
        push_escaped(&mut escaped, *byte)?;
    }
    Ok(escaped)
}

/// A text in which the same is escaped, on the lines that its line feeds make of it.
pub(crate) fn on_lines(alloc: Global, text: &[u8]) -> Result<String, AllocError>
    ensures { IfOk result (λ lines. string_bytes lines ≡ flat_map sign_text text.now) }
{
    let mut lines = String::new(alloc);
    for sign in text {
        push_sign(&mut lines, *sign)?;
    }
    Ok(lines)
}

/// Puts a sign after a text on lines: a line feed begins one.
fn push_sign(text: &mut String, sign: u8) -> Result<(), AllocError>
    ensures { OnOk result (string_bytes text.new ≡ string_bytes text.old ++ sign_text sign) }
{
    if sign == b'\n' {
        return text.push_str("</tspan>\n<tspan x=\"16\" dy=\"18\">");
    }
    push_escaped(text, sign)
}

/// Puts a byte after a text, escaped.
fn push_escaped(text: &mut String, byte: u8) -> Result<(), AllocError>
    ensures { OnOk result (string_bytes text.new ≡ string_bytes text.old ++ escape_of byte) }
{
    if byte == b'&' {
        return text.push_str("&amp;");
    }
    if byte == b'<' {
        return text.push_str("&lt;");
    }
    if byte == b'>' {
        return text.push_str("&gt;");
    }
    if byte == b'"' {
        return text.push_str("&quot;");
    }
    if byte == b'\'' {
        return text.push_str("&#39;");
    }
    if 31 < byte && byte < 127 {
        return push_ascii(text, byte);
    }
    text.push_str("?")
}
