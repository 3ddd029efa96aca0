// The answers to traces, and to what is none.
ghost use Rattle.std.specs.Prelude.{◌≡◌, ◌++◌, [], IfOk, OnOk, codes, string_bytes};
ghost use Rattle.certificate_checker.specs.VerdictLine.{verdict_line};
ghost use Rattle.figures.specs.Figures.{with_rows};
ghost use Rattle.judge_run.specs.TraceRows.{at_rows, bad_trace_rows, check_rows, fault_name, offset_of};
ghost use Rattle.judge_run.specs.TraceTold.{bad_trace_answer, verdict_begun};

use certificate_checker::Verdict;
use figures::{Figure, Form, tell_verdict};
use std::alloc::{AllocError, Global};
use trace_file::TraceFault;

/// The answer to a trace of this many calls with this verdict, begun.
pub(crate) fn verdict_begun(
    alloc: Global,
    form: Form,
    verdict: Verdict,
    calls: usize,
) -> Result<String, AllocError>
    ensures { IfOk result (λ text. string_bytes text ≡ verdict_begun form verdict calls) }
{
    match form {
        Form::Lines => line_of(alloc, verdict, calls),
        Form::Json => members_of(alloc, verdict, calls),
    }
}

/// The line of a verdict on this many calls, with its line feed.
fn line_of(alloc: Global, verdict: Verdict, calls: usize) -> Result<String, AllocError>
    ensures { IfOk result (λ line. string_bytes line ≡ verdict_line verdict calls ++ codes "\n") }
{
    let line = verdict.line(alloc, calls)?;
    format!(in alloc; "{line}\n")
}

/// The members of a JSON object that tell a verdict on this many calls.
fn members_of(alloc: Global, verdict: Verdict, calls: usize) -> Result<String, AllocError>
    ensures { IfOk result (λ text. string_bytes text ≡ with_rows Form.Json [] (check_rows calls verdict)) }
{
    let mut text = String::new(alloc);
    match tell_check(alloc, Form::Json, &mut text, verdict, calls) {
        Ok(()) => Ok(text),
        Err(refused) => Err(refused),
    }
}

/// Tells a verdict on this many calls.
fn tell_check(
    alloc: Global,
    form: Form,
    text: &mut String,
    verdict: Verdict,
    calls: usize,
) -> Result<(), AllocError>
    ensures { OnOk result (string_bytes text.new
        ≡ with_rows form (string_bytes text.old) (check_rows calls verdict)) }
{
    form.tell(alloc, text, "calls", Figure::Count(calls as u64))?;
    match tell_verdict(alloc, form, text, verdict) {
        Ok(()) => Ok(()),
        Err(refused) => Err(refused),
    }
}

/// The answer to what is no trace.
pub(crate) fn bad_trace_answer(
    alloc: Global,
    form: Form,
    fault: TraceFault,
) -> Result<String, AllocError>
    ensures { IfOk result (λ text. string_bytes text ≡ bad_trace_answer form fault) }
{
    match form {
        Form::Lines => format!(in alloc; "bad trace {fault}\n"),
        Form::Json => bad_trace_object(alloc, fault),
    }
}

/// The JSON object that tells a fault of reading.
fn bad_trace_object(alloc: Global, fault: TraceFault) -> Result<String, AllocError>
    ensures { IfOk result (λ text. string_bytes text ≡ bad_trace_answer Form.Json fault) }
{
    let mut text = String::new(alloc);
    tell_bad_trace(alloc, Form::Json, &mut text, fault)?;
    match Form::Json.end(&mut text) {
        Ok(()) => Ok(text),
        Err(refused) => Err(refused),
    }
}

/// Tells a fault of reading.
fn tell_bad_trace(
    alloc: Global,
    form: Form,
    text: &mut String,
    fault: TraceFault,
) -> Result<(), AllocError>
    ensures { OnOk result (string_bytes text.new
        ≡ with_rows form (string_bytes text.old) (bad_trace_rows fault)) }
{
    form.tell(alloc, text, "verdict", Figure::Word("bad trace"))?;
    form.tell(alloc, text, "fault", Figure::Word(fault_name(fault)))?;
    match tell_offset(alloc, form, text, offset_of(fault)) {
        Ok(()) => Ok(()),
        Err(refused) => Err(refused),
    }
}

/// Tells an offset, if there is one.
fn tell_offset(
    alloc: Global,
    form: Form,
    text: &mut String,
    offset: Option<u64>,
) -> Result<(), AllocError>
    ensures { OnOk result (string_bytes text.new
        ≡ with_rows form (string_bytes text.old) (at_rows offset)) }
{
    match offset {
        Some(at) => form.tell(alloc, text, "at", Figure::Count(at)),
        None => Ok(()),
    }
}

/// The name of a fault of reading.
fn fault_name(fault: TraceFault) -> &'static str
    ensures { result.now ≡ fault_name fault }
{
    match fault {
        TraceFault::BadMagic { .. } => "BadMagic",
        TraceFault::TooMany { .. } => "TooMany",
        TraceFault::BadKind { .. } => "BadKind",
        TraceFault::BadKey { .. } => "BadKey",
        TraceFault::BadValue { .. } => "BadValue",
        TraceFault::Truncated { .. } => "Truncated",
        TraceFault::TrailingBytes { .. } => "TrailingBytes",
        TraceFault::ReadFault { .. } => "ReadFault",
        TraceFault::OutOfMemory => "OutOfMemory",
    }
}

/// The offset of a fault of reading, if it has one.
pub(crate) fn offset_of(fault: TraceFault) -> Option<u64>
    ensures { result ≡ offset_of fault }
{
    match fault {
        TraceFault::BadMagic { at } => Some(at),
        TraceFault::TooMany { at } => Some(at),
        TraceFault::BadKind { at } => Some(at),
        TraceFault::BadKey { at } => Some(at),
        TraceFault::BadValue { at } => Some(at),
        TraceFault::Truncated { at } => Some(at),
        TraceFault::TrailingBytes { at } => Some(at),
        TraceFault::ReadFault { at } => Some(at),
        TraceFault::OutOfMemory => None,
    }
}
