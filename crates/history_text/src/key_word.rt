// A key that is named by a word of its own, as on a command line.
ghost use Rattle.std.specs.Prelude.{◌≡◌, Ok, IfOk, IfErr};
ghost use Rattle.record_pages.specs.Bounded.{IsKey};
ghost use Rattle.history_text.specs.Spelling.{key_of};
ghost use Rattle.history_text.specs.Spelled.{IsSaid};

use crate::line_taking::take_key;
use crate::text_fault::TextFault;
use std::alloc::Global;

/// The bytes of the key that a word writes, as the fifth word of a line does.
///
/// It is refused with `LineCause::BadKeyCode` if a `%` stands before no two hexadecimal digits, and with
/// `LineCause::BadKeyLen` if it does not write 1 to 255 bytes.
pub fn key_bytes(alloc: Global, word: &[u8]) -> Result<Vec<u8>, TextFault>
    ensures ok { IfOk result (λ key. key_of word.now ≡ Ok key.items) }
    ensures key { IfOk result (λ key. IsKey key.items) }
    ensures bad { IfErr result (IsSaid (key_of word.now)) }
{
    let mut bytes = Vec::new(alloc);
    match take_key(word, &mut bytes) {
        Ok(()) => Ok(bytes),
        Err(fault) => Err(fault),
    }
}
