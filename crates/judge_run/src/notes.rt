// What is said on standard error besides an answer: what it means, and what to do.
use crate::outcome::Outcome;
use crate::scope::Scope;
use crate::trace_answers::offset_of;
use history_text::{BadLine, Share};
use std::io::Write;
use trace_file::TraceFault;

/// Tells what an answer to an input of this name, judged in this scope, means and what to do, if it does not say so itself. What `err`
/// refuses is dropped, here and below.
pub(crate) fn note_answer<E: Write>(err: &mut E, name: &str, scope: &Scope, outcome: &Outcome) {
    match outcome {
        Outcome::Accepted(acceptance) => note_calls(err, name, scope, acceptance.recorded),
        Outcome::Rejected(_) => {}
        Outcome::Undecided(hits) => note_undecided(err, name, *hits),
        Outcome::BadLine(bad) => note_bad_line(err, name, *bad),
        Outcome::BadTrace(fault) => note_bad_trace(err, name, *fault),
    }
}

/// Warns of an input without calls, or without calls of the keys that were asked for.
fn note_calls<E: Write>(err: &mut E, name: &str, scope: &Scope, calls: usize) {
    if calls > 0 {
        return;
    }
    let _ = if scope.reading.share == Share::ALL {
        write!(err, "{name}: warning: the input has no calls\n")
    } else {
        write!(
            err,
            "{name}: warning: no call of the input has a key that --keys takes\n"
        )
    };
    let _ = err.flush();
}

/// Tells that an accepted history has fewer calls than it has to have.
pub(crate) fn note_few<E: Write>(err: &mut E, name: &str, outcome: &Outcome, least: usize) {
    if let Outcome::Accepted(acceptance) = outcome {
        let calls = acceptance.recorded;
        if calls < least {
            let _ = write!(
                err,
                "{name}: {calls} calls, and --at-least asks for {least}: see whether the recorder wrote all of them\n"
            );
            let _ = err.flush();
        }
    }
}

/// Tells how to decide what hits read.
fn note_undecided<E: Write>(err: &mut E, name: &str, hits: usize) {
    let _ = write!(
        err,
        "{name}: {hits} hits may each have read several puts of one value: give each put a value of its own (docs/JUDGING.md)\n"
    );
    let _ = err.flush();
}

/// Tells what to do about a bad line.
fn note_bad_line<E: Write>(err: &mut E, name: &str, bad: BadLine) {
    let _ = write!(
        err,
        "{name}: line {} is not a call, so nothing was judged: correct it and judge again\n",
        bad.number
    );
    if bad.number == 1 {
        let _ = write!(err, "if this is a trace, use kangaroo check\n");
    }
    let _ = err.flush();
}

/// Tells why an input is no trace, and what to do about it.
pub(crate) fn note_bad_trace<E: Write>(err: &mut E, name: &str, fault: TraceFault) {
    let advice = advice_on(fault);
    let _ = match offset_of(fault) {
        Some(at) => write!(err, "{name}: at offset {at}: {advice}\n"),
        None => write!(err, "{name}: {advice}\n"),
    };
    let _ = err.flush();
}

/// What a fault of reading means, and what to do about it.
fn advice_on(fault: TraceFault) -> &'static str {
    match fault {
        TraceFault::BadMagic { .. } =>
            "this is not a trace; if it is a history as text, use kangaroo judge",
        TraceFault::TooMany { .. } =>
            "a trace has at most 268435456 calls; the file is damaged or was written wrongly: write the trace again",
        TraceFault::BadKind { .. } =>
            "the kind of a call must be 1 to 4; the file is damaged or was written wrongly: write the trace again",
        TraceFault::BadKey { .. } =>
            "a key must have 1 to 255 bytes; the file is damaged or was written wrongly: write the trace again",
        TraceFault::BadValue { .. } =>
            "a value must have at most 2048 bytes; the file is damaged or was written wrongly: write the trace again",
        TraceFault::Truncated { .. } =>
            "the input ends before the trace does: write or copy the whole trace again",
        TraceFault::TrailingBytes { .. } =>
            "bytes follow the certificate, which ends a trace: remove them",
        TraceFault::ReadFault { .. } =>
            "a read failed: check that this is a readable file, and try again",
        TraceFault::OutOfMemory => "memory was refused: free memory, and try again",
    }
}
