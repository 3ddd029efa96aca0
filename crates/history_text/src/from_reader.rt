// Reading a history from a text.
ghost use Rattle.std.specs.Prelude.{◌≡◌, Ok, IfOk, IfErr, IfSome, OnOk, length};
ghost use Rattle.std.specs.Io.KnownBytes.{IsAtEnd};
ghost use Rattle.history_text.specs.Text.{read_by, text_by, text_of};
ghost use Rattle.history_text.specs.Outcome.{IsFaultOf, Left};

use crate::read_text_fault::ReadTextFault;
use crate::reading::Reading;
use crate::text_history::TextHistory;
use crate::text_reader::TextReader;
use crate::whole_text::ReadText;
use std::alloc::Global;
use std::hash::BuildHasher;
use std::io::Read;

/// Reads the history that a text spells, from the reader's next byte to its end.
///
/// It answers the calls of all lines in their order, but for those that `reading` leaves out, or the first bad line with the first
/// cause that it is bad. A failed read
/// is `ReadFault` at once and is not tried again. It reads ahead at most 12,288 bytes, so a line that is too long is bad
/// as soon as 8,193 bytes of it were read. Memory is taken for the history, a line and the callers' names, which are looked up
/// by hashes as `hash_builder` makes them: whoever wrote the text should not know its seed.
pub fn read_text<S: BuildHasher + Drop, R: Read>(
    alloc: Global,
    hash_builder: S,
    reading: Reading,
    reader: &mut R,
) -> Result<ReadText<S>, ReadTextFault>
    ensures text { IfOk result (λ read. IfSome (R.remaining reader.old) (λ bytes.
        text_of reading bytes
        ≡ Ok (read_by (text_by read.text.history read.text.lines.items read.text.callers) read.skipped))) }
    ensures fault { IfErr result (λ fault. IfSome (R.remaining reader.old) (λ bytes.
        IsFaultOf reading bytes fault)) }
    ensures left { IfErr result (Left reading (R.remaining reader.old) (R.remaining reader.new)) }
    ensures as_many { IfOk result (λ read. length read.text.lines.items ≡ length read.text.history) }
    ensures end { OnOk result (IsAtEnd (R.remaining reader.new)) }
{
    let mut text = TextHistory::new(alloc, hash_builder);
    let mut lines = TextReader::new(alloc, reading);
    match lines.take_calls(alloc, &mut text, reader, usize::MAX) {
        Ok(true) => Ok(ReadText {
            text,
            skipped: lines.skipped(),
        }),
        Ok(false) => unreachable!(),
        Err(fault) => Err(fault),
    }
}
