// Writing a trace as text.
ghost use Rattle.std.specs.Prelude.{◌≡◌, ◌≢◌, ◌++◌, IfOk, IfErr, OnOk, codes};
ghost use Rattle.std.specs.Io.KnownBytes.{Appends};
ghost use Rattle.certificate_checker.specs.VerdictLine.{bad_trace_line};
ghost use Rattle.history_text.specs.Writing.{named};
ghost use Rattle.judge_run.specs.Showing.{HasShown, IsBadTraceUntold, IsUnshown};

use crate::checking::told_bad_trace;
use crate::shown::Shown;
use crate::tell_fault::TellFault;
use figures::Form;
use history_text::{WriteTextFault, write_text};
use std::alloc::{AllocError, Global};
use std::io::{Read, Write};
use trace_file::{TraceFault, Unwritten, read_trace, write_whole};

/// Writes the calls of a reader's trace as text, each on a line, those of one key alone if one is named; or a line that
/// says why the input is no trace. It writes once a call, so give it a writer with a buffer, and it flushes nothing.
pub fn answer_show<R: Read, W: Write>(
    alloc: Global,
    only: Option<&[u8]>,
    reader: &mut R,
    writer: &mut W,
) -> Result<Shown, TellFault>
    ensures ok { IfOk result (λ shown. HasShown (R.remaining reader.old) (named only.entry) shown
        (W.contents writer.old) (W.contents writer.new)) }
    ensures err { IfErr result (λ fault. IsUnshown (R.remaining reader.old) (named only.entry)
        (W.contents writer.old) (W.contents writer.new) fault) }
{
    let trace = match read_trace(alloc, reader) {
        Ok(trace) => trace,
        Err(fault) => match tell_bad_trace(alloc, fault, writer) {
            Ok(()) => return Ok(Shown::BadTrace(fault)),
            Err(untold) => return Err(untold),
        },
    };
    match write_text(alloc, &trace.history, only, writer) {
        Ok(()) => Ok(Shown::Whole),
        Err(WriteTextFault::TooLate { position }) => Ok(Shown::TooLate { position }),
        Err(WriteTextFault::OutOfMemory) => Err(TellFault::OutOfMemory),
        Err(WriteTextFault::WriteFault) => Err(TellFault::WriteFault),
    }
}

/// Writes the line of what is no trace.
fn tell_bad_trace<W: Write>(
    alloc: Global,
    fault: TraceFault,
    writer: &mut W,
) -> Result<(), TellFault>
    ensures other { OnOk result (fault ≢ TraceFault.OutOfMemory) }
    ensures ok { OnOk result (Appends (W.contents writer.old) (W.contents writer.new)
        (bad_trace_line fault ++ codes "\n")) }
    ensures err { IfErr result (IsBadTraceUntold fault (W.contents writer.old) (W.contents writer.new)) }
{
    let told = told_bad_trace(alloc, Form::Lines, fault)?;
    match write_whole(writer, told.text.as_bytes()) {
        Ok(()) => Ok(()),
        Err(Unwritten) => Err(TellFault::WriteFault),
    }
}
