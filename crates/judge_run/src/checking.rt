// Judging a trace, and telling its verdict.
ghost use Rattle.std.specs.Prelude.{◌≡◌, ◌≢◌, IfOk, IfErr, string_bytes};
ghost use Rattle.judge_run.specs.TraceTold.{IsPairTold, IsRejectionOf, IsTraceTold, IsTraceUntold, ToldTrace, bad_trace_answer};

use crate::acceptance::Acceptance;
use crate::answers::ended;
use crate::judge_report::JudgeReport;
use crate::outcome::Outcome;
use crate::rejection::Rejection;
use crate::tell_fault::TellFault;
use crate::trace_answers::{bad_trace_answer, verdict_begun};
use certificate_checker::{Fault, Verdict, check_with_hasher};
use figures::Form;
use history_picture::Reason;
use std::alloc::{AllocError, Global};
use std::hash::BuildHasher;
use std::io::{Read, Write};
use trace_file::{Trace, TraceFault, Unwritten, read_trace, write_whole};

/// Judges the trace of a reader, and tells its verdict in this form. If the trace is rejected and that is wanted, it tells why
/// after the verdict. It flushes nothing. The checker's table hashes keys by `hash_builder`. Whoever wrote the trace should not
/// know its seed.
///
/// A reader that fails is a bad trace, `ReadFault`. Neither a failed read nor a failed write is tried again.
pub fn answer_check<S: BuildHasher + Drop, R: Read, W: Write>(
    alloc: Global,
    hash_builder: S,
    form: Form,
    explain: bool,
    reader: &mut R,
    writer: &mut W,
) -> Result<Outcome, TellFault>
    ensures ok { IfOk result (λ outcome. ToldTrace form (R.remaining reader.old)
        (R.remaining reader.new) explain outcome (W.contents writer.old) (W.contents writer.new)) }
    ensures err { IfErr result (λ fault. IsTraceUntold form (R.remaining reader.old)
        (R.remaining reader.new) explain (W.contents writer.old) (W.contents writer.new) fault) }
{
    let told = told_trace(alloc, hash_builder, form, explain, reader)?;
    match write_whole(writer, told.text.as_bytes()) {
        Ok(()) => Ok(told.outcome),
        Err(Unwritten) => Err(TellFault::WriteFault),
    }
}

/// The report on a trace that a reader gives.
fn told_trace<S: BuildHasher + Drop, R: Read>(
    alloc: Global,
    hash_builder: S,
    form: Form,
    explain: bool,
    reader: &mut R,
) -> Result<JudgeReport, AllocError>
    ensures { IfOk result (λ told. IsTraceTold form (R.remaining reader.old)
        (R.remaining reader.new) explain told.outcome (string_bytes told.text)) }
{
    match read_trace(alloc, reader) {
        Ok(trace) => match told_pair(alloc, hash_builder, form, trace, explain) {
            Ok(told) => Ok(told),
            Err(refused) => Err(refused),
        },
        Err(fault) => match told_bad_trace(alloc, form, fault) {
            Ok(told) => Ok(told),
            Err(refused) => Err(refused),
        },
    }
}

/// The report on a trace that was read.
fn told_pair<S: BuildHasher + Drop>(
    alloc: Global,
    hash_builder: S,
    form: Form,
    trace: Trace,
    explain: bool,
) -> Result<JudgeReport, AllocError>
    ensures { IfOk result (λ told.
        IsPairTold form trace explain told.outcome (string_bytes told.text)) }
{
    let verdict = check_with_hasher(alloc, hash_builder, &trace.history, &trace.certificate)?;
    let text = verdict_begun(alloc, form, verdict, trace.history.len())?;
    match verdict {
        Verdict::Accepted => {
            let text = ended(form, text)?;
            let recorded = trace.history.len();
            let outcome = Outcome::Accepted(Acceptance { trace, recorded });
            Ok(JudgeReport { text, outcome })
        }
        Verdict::Rejected(fault) => {
            let rejection = rejection_of(alloc, trace, fault);
            let text = rejection.told_behind(alloc, form, text, explain, "")?;
            let outcome = Outcome::Rejected(rejection);
            Ok(JudgeReport { text, outcome })
        }
    }
}

/// A trace that is rejected for a fault. Its calls and callers have no other names than their numbers.
fn rejection_of(alloc: Global, trace: Trace, fault: Fault) -> Rejection
    ensures { IsRejectionOf trace fault result }
{
    let reason = Reason::of_fault(&trace.history, &trace.certificate, fault);
    Rejection {
        history: trace.history,
        lines: Vec::new(alloc),
        callers: Vec::new(alloc),
        from_start: Vec::new(alloc),
        reason,
    }
}

/// The report on input that is no trace; `AllocError` if memory was refused while it was read.
pub(crate) fn told_bad_trace(
    alloc: Global,
    form: Form,
    fault: TraceFault,
) -> Result<JudgeReport, AllocError>
    ensures fault { IfOk result (λ _. fault ≢ TraceFault.OutOfMemory) }
    ensures bad { IfOk result (λ told. told.outcome ≡ Outcome.BadTrace fault) }
    ensures text { IfOk result (λ told. string_bytes told.text ≡ bad_trace_answer form fault) }
{
    if let TraceFault::OutOfMemory = fault {
        return Err(AllocError);
    }
    let text = bad_trace_answer(alloc, form, fault)?;
    let outcome = Outcome::BadTrace(fault);
    Ok(JudgeReport { text, outcome })
}
