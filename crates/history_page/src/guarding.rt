// Text inside of a page that no tag can begin in.
ghost use Rattle.std.specs.Prelude.{◌≡◌, ◌++◌, OnOk};
ghost use Rattle.history_page.specs.Guarding.{guard, guarded};

use std::alloc::AllocError;

/// Appends a text as it is.
pub(crate) fn push_text(page: &mut Vec<u8>, text: &str) -> Result<(), AllocError>
    ensures { OnOk result (page.new.items ≡ page.old.items ++ text.now) }
{
    page.extend_from_slice(text.as_bytes())
}

/// Appends a text, in which the sign that begins a tag is written by its code.
pub(crate) fn push_guarded(page: &mut Vec<u8>, text: &str) -> Result<(), AllocError>
    ensures { OnOk result (page.new.items ≡ page.old.items ++ guard text.now) }
{
    for byte in text.as_bytes() {
        match push_byte(page, *byte) {
            Ok(()) => {}
            Err(refused) => return Err(refused),
        }
    }
    Ok(())
}

/// Appends a byte of such a text.
fn push_byte(page: &mut Vec<u8>, byte: u8) -> Result<(), AllocError>
    ensures { OnOk result (page.new.items ≡ page.old.items ++ guarded byte) }
{
    if byte == b'<' {
        push_text(page, "%3C")
    } else {
        match page.push(byte) {
            Ok(()) => Ok(()),
            Err(_) => Err(AllocError),
        }
    }
}
