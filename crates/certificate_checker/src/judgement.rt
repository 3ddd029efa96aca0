// Judging the trace that a reader gives.
ghost use Rattle.std.specs.Prelude.{◌≡◌, ◌≢◌, ◌++◌, List, ℕ, IfOk, IfErr, OnOk, OnErr, IsErrOf, Err, codes, string_bytes};
ghost use Rattle.std.specs.Io.KnownBytes.{Appends, IsAtEnd, Keeps};
ghost use Rattle.trace_file.specs.Sending.{Begun};
ghost use Rattle.certificate_checker.specs.Judgements.{IsTold, IsLineOn, WroteLine, BeganLine};
ghost use Rattle.certificate_checker.specs.VerdictLine.{bad_trace_line};

use crate::acceptance::check_with_hasher;
use crate::judge_fault::JudgeFault;
use crate::judged::Judged;
use std::alloc::{AllocError, Global};
use std::hash::{BuildHasher, BuildHasherDefault, FoldHasher};
use std::io::{Read, Write};
use trace_file::{Trace, TraceFault, Unwritten, read_trace, write_whole};

/// What was judged, and the line that says it, with its line feed.
#[derive(Drop)]
struct VerdictLine {
    judged: Judged,
    line: String,
}

/// Reads a trace and writes one line that says what it is: the verdict on it, or why it is no trace.
///
/// The line is `accepted N calls`, or `rejected` with the first fault of the pair, or `bad trace` with
/// the first fault of reading and its offset; the answer is the kind of that line. A reader that fails
/// gives `bad trace ReadFault`. At `OutOfMemory` nothing was written; at `WriteFault` the writer holds a
/// front of the line. Neither a failed read nor a failed write is tried again, and nothing is flushed.
/// As `check`, it is for traces whose keys were not picked to be slow.
pub fn judge<R: Read, W: Write>(
    alloc: Global,
    reader: &mut R,
    writer: &mut W,
) -> Result<Judged, JudgeFault>
    ensures line { IfOk result (λ judged. WroteLine (R.remaining reader.old)
        (R.remaining reader.new) judged (W.contents writer.old) (W.contents writer.new)) }
    ensures end { IfOk result (λ judged. judged ≢ Judged.BadTrace
        → IsAtEnd (R.remaining reader.new)) }
    ensures memory { IfErr result (λ fault. fault ≡ JudgeFault.OutOfMemory
        → Keeps (W.contents writer.old) (W.contents writer.new)) }
    ensures begun { IfErr result (λ fault. fault ≡ JudgeFault.WriteFault
        → BeganLine (R.remaining reader.old) (R.remaining reader.new)
        (W.contents writer.old) (W.contents writer.new)) }
{
    let known: BuildHasherDefault<FoldHasher> = BuildHasherDefault::new();
    match judge_with_hasher(alloc, known, reader, writer) {
        Ok(judged) => Ok(judged),
        Err(fault) => Err(fault),
    }
}

/// The same with keys hashed by `hash_builder`: see `check_with_hasher`.
pub fn judge_with_hasher<S: BuildHasher + Drop, R: Read, W: Write>(
    alloc: Global,
    hash_builder: S,
    reader: &mut R,
    writer: &mut W,
) -> Result<Judged, JudgeFault>
    ensures line { IfOk result (λ judged. WroteLine (R.remaining reader.old)
        (R.remaining reader.new) judged (W.contents writer.old) (W.contents writer.new)) }
    ensures end { IfOk result (λ judged. judged ≢ Judged.BadTrace
        → IsAtEnd (R.remaining reader.new)) }
    ensures memory { IfErr result (λ fault. fault ≡ JudgeFault.OutOfMemory
        → Keeps (W.contents writer.old) (W.contents writer.new)) }
    ensures begun { IfErr result (λ fault. fault ≡ JudgeFault.WriteFault
        → BeganLine (R.remaining reader.old) (R.remaining reader.new)
        (W.contents writer.old) (W.contents writer.new)) }
{
    let judgement = judgement_of(alloc, hash_builder, reader)?;
    match write(writer, judgement.line.as_bytes()) {
        Ok(()) => Ok(judgement.judged),
        Err(fault) => Err(fault),
    }
}

/// The judgement on what a reader gives.
fn judgement_of<S: BuildHasher + Drop, R: Read>(
    alloc: Global,
    hash_builder: S,
    reader: &mut R,
) -> Result<VerdictLine, AllocError>
    ensures end { IfOk result (λ j. j.judged ≢ Judged.BadTrace → IsAtEnd (R.remaining reader.new)) }
    ensures line { IfOk result (λ j. (line : List ℕ)
        × IsLineOn (R.remaining reader.old) (R.remaining reader.new) j.judged line
        × (string_bytes j.line ≡ line ++ codes "\n")) }
{
    match read_trace(alloc, reader) {
        Ok(trace) => match on_trace(alloc, hash_builder, &trace) {
            Ok(judgement) => Ok(judgement),
            Err(refused) => Err(refused),
        },
        Err(fault) => match on_fault(alloc, fault) {
            Ok(judgement) => Ok(judgement),
            Err(refused) => Err(refused),
        },
    }
}

/// The judgement on a trace.
fn on_trace<S: BuildHasher + Drop>(
    alloc: Global,
    hash_builder: S,
    trace: &Trace,
) -> Result<VerdictLine, AllocError>
    ensures { IfOk result (λ j. (line : List ℕ) × IsTold trace.now j.judged line
        × (string_bytes j.line ≡ line ++ codes "\n")) }
{
    let verdict = check_with_hasher(alloc, hash_builder, &trace.history, &trace.certificate)?;
    let line = verdict.line(alloc, trace.history.len())?;
    Ok(VerdictLine {
        judged: Judged::of(verdict),
        line: format!(in alloc; "{line}\n")?,
    })
}

/// The judgement on input that is no trace; `AllocError` if memory was refused while it was read.
fn on_fault(alloc: Global, fault: TraceFault) -> Result<VerdictLine, AllocError>
    ensures fault { OnOk result (fault ≢ TraceFault.OutOfMemory) }
    ensures kind { IfOk result (λ j. j.judged ≡ Judged.BadTrace) }
    ensures line { IfOk result (λ j. string_bytes j.line ≡ bad_trace_line fault ++ codes "\n") }
{
    if let TraceFault::OutOfMemory = fault {
        return Err(AllocError);
    }
    Ok(VerdictLine {
        judged: Judged::BadTrace,
        line: format!(in alloc; "bad trace {fault}\n")?,
    })
}

/// Writes bytes, all of them, or answers that the writer holds a front of them and not all.
fn write<W: Write>(writer: &mut W, bytes: &[u8]) -> Result<(), JudgeFault>
    ensures ok { OnOk result (Appends (W.contents writer.old) (W.contents writer.new) bytes.now) }
    ensures err { OnErr result (result ≡ Err JudgeFault.WriteFault) }
    ensures begun { OnErr result (
        Begun (W.contents writer.old) (W.contents writer.new) bytes.now) }
{
    match write_whole(writer, bytes) {
        Ok(()) => Ok(()),
        Err(Unwritten) => Err(JudgeFault::WriteFault),
    }
}
