// What is done for a command line, and how the program ends then.
ghost use Rattle.std.specs.Prelude.{◌≡◌, ◌≢◌, IfSome};
ghost use Rattle.std.specs.Io.Buffered.{writer_contents, writer_inner};
ghost use Rattle.std.specs.Io.KnownBytes.{Appends};
ghost use Rattle.record_pages.specs.Sizes.{IsPageSize};
ghost use Rattle.command_line.specs.Outcomes.{IsAnswered};

use crate::ending::Ending;
use scripts::run_script_with_hasher;
use std::alloc::Global;
use std::hash::BuildHasher;
use std::io::{BufWriter, Read, Write};

/// Answers the script of a reader, and says how the program ends. What the writer holds then is written
/// out before this returns, also after a fault of the input or of memory: if that fails, the program
/// ends as after a write that failed. The tables of its verdicts hash keys by `hash_builder`, which whoever
/// wrote the script should not know.
pub fn answer_script<const PAGE: usize, S: BuildHasher + Copy, R: Read, W: Write + Drop>(
    alloc: Global,
    hash_builder: S,
    reader: &mut R,
    writer: &mut BufWriter<W>,
) -> Ending
    requires { IsPageSize PAGE }
    ensures { IfSome (R.remaining reader.old) (λ bytes. IsAnswered PAGE
        bytes (R.remaining reader.new)
        (writer_contents W.contents writer.old) (W.contents (writer_inner writer.new)) result) }
{
    let outcome = run_script_with_hasher::<PAGE, S, R, BufWriter<W>>(
        alloc,
        hash_builder,
        reader,
        writer,
    );
    match writer.flush() {
        Ok(()) => Ending::of_script(outcome),
        Err(_) => Ending::FileFault,
    }
}

/// Writes a help text, has it go out, and says how the program ends.
pub fn tell_help<W: Write>(writer: &mut W, text: &str) -> Ending
    ensures told { result ≡ Ending.Done
        → Appends (W.contents writer.old) (W.contents writer.new) text.now }
    ensures fault { result ≢ Ending.Done → result ≡ Ending.FileFault }
{
    if writer.write_all(text.as_bytes()).is_err() {
        return Ending::FileFault;
    }
    if writer.flush().is_err() {
        return Ending::FileFault;
    }
    Ending::Done
}
