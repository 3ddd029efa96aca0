// Judging a trace.
ghost use Rattle.std.specs.Prelude.{◌≡◌};
ghost use Rattle.c_lane.specs.Judging.{JudgesTrace};

use crate::seed::Seed;
use crate::status::Status;
use certificate_checker::{Verdict, check_with_hasher};
use std::alloc::{AllocError, Global};
use trace_file::{Trace, TraceFault, TraceReader};

/// Judges a trace, and writes the line of its verdict, without line feed, to the front of a buffer of 64 bytes or more: `Done`
/// if it is accepted, `Rejected`, or `BadTrace`. `length` becomes the line's. `NoMemory` if memory was refused: then the
/// buffer is as it was and the length is 0.
///
/// The seed is that of the table of its keys: draw it at random if a stranger wrote the trace.
pub fn judge_trace(
    alloc: Global,
    seed: &Seed,
    trace: &[u8],
    line: &mut [u8],
    length: &mut usize,
) -> Status
    ensures { JudgesTrace trace.now line.old result line.new length.new }
{
    match judgement_of(alloc, seed, trace) {
        Ok(judgement) => {
            *length = written(judgement.line.as_bytes(), line);
            judgement.status
        }
        Err(_) => {
            *length = 0;
            Status::NoMemory
        }
    }
}

// What was judged, and the line that says it.
#[derive(Drop)]
struct JudgedLine {
    status: Status,
    line: String,
}

ghost use Rattle.std.specs.Prelude.{IfOk, length, min, string_bytes};
ghost use Rattle.c_lane.specs.Judging.{IsLineFor, IsLineOfTrace, IsLineOfFault, front_written, status_of_verdict};

// The judgement on the bytes of a trace.
fn judgement_of(alloc: Global, seed: &Seed, bytes: &[u8]) -> Result<JudgedLine, AllocError>
    ensures { IfOk result (λ j. IsLineFor bytes.now j.status (string_bytes j.line)) }
{
    match read(alloc, bytes) {
        Ok(trace) => match on_trace(alloc, seed, &trace) {
            Ok(judgement) => Ok(judgement),
            Err(refused) => Err(refused),
        },
        Err(fault) => match on_fault(alloc, fault) {
            Ok(judgement) => Ok(judgement),
            Err(refused) => Err(refused),
        },
    }
}

ghost use Rattle.std.specs.Prelude.{◌≢◌, IfErr, Ok, Err};
ghost use Rattle.trace_file.specs.declared.trace_fault.TraceFault.{TraceFault};
ghost use Rattle.trace_file.specs.Reading.{outcome_of};

// The trace that these bytes are, or their first fault.
fn read(alloc: Global, bytes: &[u8]) -> Result<Trace, TraceFault>
    ensures ok { IfOk result (λ trace. outcome_of bytes.now ≡ Ok trace) }
    ensures err { IfErr result (λ fault. fault ≢ TraceFault.OutOfMemory
        → outcome_of bytes.now ≡ Err fault) }
{
    let mut reader = TraceReader::new(alloc);
    match reader.feed(bytes) {
        Ok(()) => {}
        Err(fault) => return Err(fault),
    }
    match reader.finish() {
        Ok(trace) => Ok(trace),
        Err(fault) => Err(fault),
    }
}

// The judgement on a trace.
fn on_trace(alloc: Global, seed: &Seed, trace: &Trace) -> Result<JudgedLine, AllocError>
    ensures { IfOk result (λ j. IsLineOfTrace trace.now j.status (string_bytes j.line)) }
{
    let calls = trace.history.len();
    let verdict = check_with_hasher(alloc, seed.random(), &trace.history, &trace.certificate)?;
    let line = verdict.line(alloc, calls)?;
    Ok(JudgedLine {
        status: status_of_verdict(verdict),
        line,
    })
}

// The status of a verdict.
fn status_of_verdict(verdict: Verdict) -> Status
    ensures { result ≡ status_of_verdict verdict }
{
    match verdict {
        Verdict::Accepted => Status::Done,
        Verdict::Rejected(_) => Status::Rejected,
    }
}

// The judgement on what is no trace. If memory was refused for it there is none.
fn on_fault(alloc: Global, fault: TraceFault) -> Result<JudgedLine, AllocError>
    ensures { IfOk result (λ j. IsLineOfFault fault j.status (string_bytes j.line)) }
{
    if let TraceFault::OutOfMemory = fault {
        return Err(AllocError);
    }
    Ok(JudgedLine {
        status: Status::BadTrace,
        line: format!(in alloc; "bad trace {fault}")?,
    })
}

// Writes as much of a text as fits to the front of a buffer. How many bytes these are.
fn written(text: &[u8], into: &mut [u8]) -> usize
    ensures text { into.new ≡ front_written text.now into.old result }
    ensures len { result ≡ min (length text.now) (length into.old) }
{
    let len = text.len().min(into.len());
    into[..len].copy_from_slice(&text[..len]);
    len
}
