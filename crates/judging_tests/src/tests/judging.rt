//! Judging, checking and showing what is given.
use certificate_finder::Found;
use figures::Form;
use history_text::{BadLine, LineCause, ReadTextFault};
use judge_run::{
    Detail, JudgeEnd, Outcome, Question, Scope, Shown, TellFault, answer_check, answer_judge,
    answer_show, answer_with_page, judge_stream, judge_text, junit_text, tell_found,
};
use std::alloc::{AllocError, Global};
use std::hash::{BuildHasherDefault, FoldHasher};
use std::io::{Read, Write};
use test_devices::TextStep;
use trace_file::{TraceFault, write_trace};

/// Judges what a reader gives by a table that hashes by a known seed. It ends so if an accepted history has to have so many calls.
pub fn judged<R: Read, W: Write>(
    alloc: Global,
    form: Form,
    scope: Scope,
    detail: Detail,
    least: usize,
    reader: &mut R,
    told: &mut W,
) -> Result<JudgeEnd, TellFault> {
    let known: BuildHasherDefault<FoldHasher> = BuildHasherDefault::new();
    let asked = Question {
        form,
        scope,
        detail,
        file: None,
    };
    match answer_judge(alloc, known, asked, reader, told) {
        Ok(outcome) => Ok(JudgeEnd::at_least(least, &outcome)),
        Err(fault) => Err(fault),
    }
}

/// Checks what a reader gives as a trace.
pub fn checked<R: Read>(
    alloc: Global,
    form: Form,
    explain: bool,
    reader: &mut R,
    told: &mut Vec<u8>,
) -> Result<JudgeEnd, TellFault> {
    let known: BuildHasherDefault<FoldHasher> = BuildHasherDefault::new();
    match answer_check(alloc, known, form, explain, reader, told) {
        Ok(outcome) => Ok(JudgeEnd::of_outcome(&outcome)),
        Err(fault) => Err(fault),
    }
}

/// Shows a trace, or its calls of this key, if it has bytes. Bad input is what has another magic at its eighth byte.
pub fn shown(
    alloc: Global,
    mut trace: &[u8],
    key: &[u8],
    told: &mut Vec<u8>,
) -> Result<JudgeEnd, TellFault> {
    let only = if key.is_empty() { None } else { Some(key) };
    let shown = answer_show(alloc, only, &mut trace, told)?;
    if shown == Shown::Whole {
        Ok(JudgeEnd::Done)
    } else if shown == Shown::BadTrace(TraceFault::BadMagic { at: 7 }) {
        Ok(JudgeEnd::BadInput)
    } else {
        Ok(JudgeEnd::FileFault)
    }
}

/// What stands between the fixed parts of the page of a text.
pub fn page_of(
    alloc: Global,
    mut text: &[u8],
    scope: Scope,
    told: &mut Vec<u8>,
) -> Result<(), AllocError> {
    let known: BuildHasherDefault<FoldHasher> = BuildHasherDefault::new();
    let mut passed: Vec<u8> = Vec::new(alloc);
    let mut detail = Detail::NONE;
    detail.page = true;
    let asked = Question {
        form: Form::Lines,
        scope,
        detail,
        file: None,
    };
    let Ok(answer) = answer_with_page(alloc, known, asked, &mut text, &mut passed) else {
        return Err(AllocError);
    };
    match &answer.page {
        Some(page) => told.extend_from_slice(between(page.as_slice())),
        None => Ok(()),
    }
}

/// What stands in a page after the head of its calls, and before the script that draws them.
fn between(page: &[u8]) -> &[u8] {
    let page = str::from_utf8(page).unwrap_or("");
    let Some((_, rest)) = page.split_once("id=\"call-lines\">") else {
        return &[];
    };
    match rest.split_once("<script>\n") {
        Some((data, _)) => data.as_bytes(),
        None => &[],
    }
}

/// What comes of judging a text by a table that hashes by a known seed. Its report is passed over.
fn outcome_of(alloc: Global, mut text: &[u8]) -> Result<Box<Outcome>, AllocError> {
    let known: BuildHasherDefault<FoldHasher> = BuildHasherDefault::new();
    let mut told: Vec<u8> = Vec::new(alloc);
    let asked = Question {
        form: Form::Lines,
        scope: Scope::WHOLE,
        detail: Detail::NONE,
        file: None,
    };
    match answer_judge(alloc, known, asked, &mut text, &mut told) {
        Ok(outcome) => Ok(Box::new(alloc, outcome)?),
        Err(_) => Err(AllocError),
    }
}

/// The JUnit file of judging a text, if an accepted history has to have so many calls.
pub fn junit_of(
    alloc: Global,
    text: &[u8],
    least: usize,
    told: &mut Vec<u8>,
) -> Result<(), AllocError> {
    let outcome = outcome_of(alloc, text)?;
    *told = junit_text(alloc, "a<b>.txt", least, &outcome)?;
    Ok(())
}

/// The bytes of the trace that a text gives.
pub fn trace_of(alloc: Global, text: &[u8]) -> Result<Vec<u8>, AllocError> {
    let outcome = outcome_of(alloc, text)?;
    let mut bytes: Vec<u8> = Vec::new(alloc);
    if write_accepted(&outcome, &mut bytes) {
        Ok(bytes)
    } else {
        Err(AllocError)
    }
}

/// Writes the trace of what is accepted, and says whether it did.
fn write_accepted(outcome: &Outcome, bytes: &mut Vec<u8>) -> bool {
    match outcome {
        Outcome::Accepted(accepted) => {
            let trace = &accepted.trace;
            write_trace(&trace.history, &trace.certificate, bytes).is_ok()
        }
        _ => false,
    }
}

/// Turns the two places of the certificate of a trace of two calls.
pub fn turn(trace: &mut Vec<u8>, step: &mut TextStep<'_>) {
    let len = trace.len();
    if len < 8 {
        step.refuse();
        return;
    }
    trace[len - 5] = 1;
    trace[len - 1] = 0;
}

/// What comes of judging a text.
#[derive(Clone, Copy, PartialEq, Eq)]
pub enum End {
    Accepted,
    Rejected,
    Undecided,
    /// The call on this line starts too early.
    Late(u64),
    Fault,
}

fn end_of(found: &Found) -> End {
    match found {
        Found::Accepted(_) => End::Accepted,
        Found::Rejected(_) => End::Rejected,
        Found::Undecided(_) => End::Undecided,
    }
}

fn end_of_fault(fault: ReadTextFault) -> End {
    match fault {
        ReadTextFault::Bad(
            BadLine {
                number,
                cause: LineCause::BeforeWindow,
            },
        ) => End::Late(number),
        _ => End::Fault,
    }
}

/// What comes of judging a text as a whole.
pub fn whole(alloc: Global, mut text: &[u8], scope: Scope) -> End {
    let known: BuildHasherDefault<FoldHasher> = BuildHasherDefault::new();
    match judge_text(alloc, known, scope, &mut text) {
        Ok(judged) => end_of(&judged.found),
        Err(fault) => end_of_fault(fault),
    }
}

/// What comes of judging a text by pieces of at least so many calls, with a window so long.
pub fn streamed(alloc: Global, mut text: &[u8], scope: Scope, window: u64, least: u64) -> End {
    let known: BuildHasherDefault<FoldHasher> = BuildHasherDefault::new();
    match judge_stream(alloc, known, scope, window, least as usize, &mut text) {
        Ok(judged) => end_of(&judged.found),
        Err(fault) => end_of_fault(fault),
    }
}

/// How many bytes of a row tell the counts of calls and the verdict.
const COUNTS: usize = 93;

/// What is told of a text that is judged so, up to its verdict.
pub fn counted(
    alloc: Global,
    mut text: &[u8],
    window: u64,
    least: u64,
    told: &mut Vec<u8>,
) -> Result<(), AllocError> {
    let known: BuildHasherDefault<FoldHasher> = BuildHasherDefault::new();
    let mut row = String::new(alloc);
    let Ok(judged) = judge_stream(
        alloc,
        known,
        Scope::WHOLE,
        window,
        least as usize,
        &mut text,
    ) else {
        return Err(AllocError);
    };
    tell_found(alloc, Form::Json, &mut row, &judged)?;
    let bytes = row.as_bytes();
    told.extend_from_slice(&bytes[..bytes.len().min(COUNTS)])
}
