// What is said on standard error of failures.
ghost use Rattle.std.specs.Prelude.{◌≡◌};
ghost use Rattle.judge_run.specs.Ends.{end_of_fault};

use crate::judge_end::JudgeEnd;
use crate::tell_fault::TellFault;
use history_text::LineCause;
use std::io;
use std::io::Write;
use trace_file::FileName;

/// Tells that a file was not opened, with the system's cause. What `err` refuses is dropped, here and below.
pub(crate) fn unopened<E: Write>(err: &mut E, name: &FileName, error: &io::Error) -> JudgeEnd
    ensures { result ≡ JudgeEnd.FileFault }
{
    let _ = write!(
        err,
        "file fault\n{}: {error}\ncheck the name of the file and its permissions\n",
        name.as_str()
    );
    let _ = err.flush();
    JudgeEnd::FileFault
}

/// Tells that a file was not written whole.
pub(crate) fn unwritten<E: Write>(err: &mut E, name: &FileName) -> JudgeEnd
    ensures { result ≡ JudgeEnd.FileFault }
{
    let _ = write!(
        err,
        "file fault\n{}: the file was not written whole: check that its disk has room\n",
        name.as_str()
    );
    let _ = err.flush();
    JudgeEnd::FileFault
}

/// Tells that the system gave no random numbers, with its cause.
pub(crate) fn without_random<E: Write>(err: &mut E, error: &io::Error) -> JudgeEnd
    ensures { result ≡ JudgeEnd.FileFault }
{
    let _ = write!(
        err,
        "file fault\nno random numbers: {error}\nthey are the seed of the tables: try again\n"
    );
    let _ = err.flush();
    JudgeEnd::FileFault
}

/// Tells that memory was refused while a file of this name was read or written.
pub(crate) fn out_of_memory<E: Write>(err: &mut E, name: &str) -> JudgeEnd
    ensures { result ≡ JudgeEnd.OutOfMemory }
{
    let _ = write!(
        err,
        "out of memory\n{name}: memory was refused: free memory, and try again\n"
    );
    let _ = err.flush();
    JudgeEnd::OutOfMemory
}

/// Tells why no verdict on the input of this name was reported, or not all of it.
pub(crate) fn untold<E: Write>(err: &mut E, name: &str, fault: TellFault) -> JudgeEnd
    ensures { result ≡ end_of_fault fault }
{
    match fault {
        TellFault::OutOfMemory => out_of_memory(err, name),
        TellFault::CountFull => uncounted(err, name),
        TellFault::ReadFault => unread(err, name),
        TellFault::WriteFault => unsaid(err),
    }
}

/// Tells that the calls of the input of this name are more than can be counted.
fn uncounted<E: Write>(err: &mut E, name: &str) -> JudgeEnd
    ensures { result ≡ JudgeEnd.CountFull }
{
    let _ = write!(
        err,
        "too many calls\n{name}: 2^64 calls of one kind or more can't be counted: judge what comes from here on as an input of its own\n"
    );
    let _ = err.flush();
    JudgeEnd::CountFull
}

/// Tells that the input of this name was not read whole.
fn unread<E: Write>(err: &mut E, name: &str) -> JudgeEnd
    ensures { result ≡ JudgeEnd.FileFault }
{
    let _ = write!(
        err,
        "file fault\n{name}: the input was not read whole: check that this is a readable file, and try again\n"
    );
    let _ = err.flush();
    JudgeEnd::FileFault
}

/// Tells that the answer was not written whole.
fn unsaid<E: Write>(err: &mut E) -> JudgeEnd
    ensures { result ≡ JudgeEnd.FileFault }
{
    let _ = write!(
        err,
        "file fault\nstandard output: the answer was not written whole: check that the output is open and has room\n"
    );
    let _ = err.flush();
    JudgeEnd::FileFault
}

/// Tells why a word writes no key.
pub(crate) fn no_key<E: Write>(err: &mut E, cause: LineCause) -> JudgeEnd
    ensures { result ≡ JudgeEnd.BadInput }
{
    let _ = write!(err, "--key: {cause}\n");
    let _ = err.flush();
    JudgeEnd::BadInput
}

/// Tells that a call has no text.
pub(crate) fn too_late<E: Write>(err: &mut E, position: usize) -> JudgeEnd
    ensures { result ≡ JudgeEnd.BadInput }
{
    let _ = write!(
        err,
        "the call at position {position} has a stamp or a time of 2^63 or more, which has no text\nthe calls before it were written; use --key to show those of another key\n"
    );
    let _ = err.flush();
    JudgeEnd::BadInput
}
