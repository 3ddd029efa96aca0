// The lines of a reader.
ghost use Rattle.std.specs.Prelude.{◌≡◌, ◌≤◌, IfErr, IfOk, OnErr, OnOk, length, true};
ghost use Rattle.std.specs.Io.KnownBytes.{IsAtEnd, Keeps, prepend_known};
ghost use Rattle.script_words.specs.Lines.{feeds, is_ready_within};
ghost use Rattle.history_text.specs.Reading.{GivesLine, IsAhead, TakesNone, TakesOff};

use script_words::{LineRead, ReadAhead, ReadLineFault};
use std::io::Read;

/// The most bytes of a line of a text, without its line feed. The longest right line without its caller has some 7,000.
pub(crate) const MAX_TEXT_LINE_LEN: usize = 8192;

/// Reads until a line can be taken.
fn make_ready<R: Read>(
    reader: &mut R,
    ahead: &mut ReadAhead<MAX_TEXT_LINE_LEN>,
) -> Result<(), ReadLineFault>
    requires { IsAhead ahead.old (R.remaining reader.old) }
    ensures ready { OnOk result (is_ready_within 8192 ahead.new ≡ true) }
    ensures ahead { IsAhead ahead.new (R.remaining reader.new) }
    ensures kept { Keeps (prepend_known ahead.old.bytes (R.remaining reader.old))
        (prepend_known ahead.new.bytes (R.remaining reader.new)) }
    ensures few { length ahead.new.bytes ≤ 12288 }
    ensures unfed { OnErr result (feeds ahead.new.bytes ≡ 0) }
{
    while !ahead.is_ready() {
        ahead.fill(reader)?;
    }
    Ok(())
}

/// Takes the next line of a reader into `line`, without its line feed.
pub(crate) fn next_line<R: Read>(
    reader: &mut R,
    ahead: &mut ReadAhead<MAX_TEXT_LINE_LEN>,
    line: &mut Vec<u8>,
) -> Result<LineRead, ReadLineFault>
    requires { IsAhead ahead.old (R.remaining reader.old) }
    ensures ahead { IsAhead ahead.new (R.remaining reader.new) }
    ensures given { IfOk result (λ read. GivesLine
        (prepend_known ahead.old.bytes (R.remaining reader.old)) read line.new.items
        (prepend_known ahead.new.bytes (R.remaining reader.new))) }
    ensures room { OnOk result (length line.new.items ≤ 8192) }
    ensures end { IfOk result (λ read. read ≡ LineRead.End → IsAtEnd (R.remaining reader.new)) }
    ensures off { OnOk result (TakesOff (prepend_known ahead.old.bytes (R.remaining reader.old))
        ahead.new.bytes (R.remaining reader.new)) }
    ensures stop { IfErr result (TakesNone (prepend_known ahead.old.bytes (R.remaining reader.old))
        ahead.new.bytes (R.remaining reader.new)) }
{
    make_ready(reader, ahead)?;
    match ahead.take_line(line) {
        Ok(read) => Ok(read),
        Err(_) => Err(ReadLineFault::OutOfMemory),
    }
}
