// Texts in XML.
ghost use Rattle.std.specs.Prelude.{◌≡◌, ◌++◌, OnOk};
ghost use Rattle.judge_run.specs.Xml.{xml_byte, xml_text};

use std::alloc::AllocError;

/// Appends bytes.
pub(crate) fn push_bytes(text: &mut Vec<u8>, bytes: &str) -> Result<(), AllocError>
    ensures { OnOk result (text.new.items ≡ text.old.items ++ bytes.now) }
{
    text.extend_from_slice(bytes.as_bytes())
}

/// Appends a byte of a text as it stands in XML.
fn push_byte(text: &mut Vec<u8>, byte: u8) -> Result<(), AllocError>
    ensures { OnOk result (text.new.items ≡ text.old.items ++ xml_byte byte) }
{
    if byte == b'&' {
        push_bytes(text, "&amp;")
    } else if byte == b'<' {
        push_bytes(text, "&lt;")
    } else if byte == b'>' {
        push_bytes(text, "&gt;")
    } else if byte == b'"' {
        push_bytes(text, "&quot;")
    } else if byte < 32 && byte != b'\n' {
        push_bytes(text, "?")
    } else {
        match text.push(byte) {
            Ok(()) => Ok(()),
            Err(_) => Err(AllocError),
        }
    }
}

/// Appends a text as it stands in XML.
pub(crate) fn push_xml(text: &mut Vec<u8>, part: &str) -> Result<(), AllocError>
    ensures { OnOk result (text.new.items ≡ text.old.items ++ xml_text part.now) }
{
    for byte in part.as_bytes() {
        match push_byte(text, *byte) {
            Ok(()) => {}
            Err(refused) => return Err(refused),
        }
    }
    Ok(())
}
