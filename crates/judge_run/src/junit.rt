// What came of judging, as a JUnit file.
ghost use Rattle.std.specs.Prelude.{◌≡◌, ◌++◌, IfOk, OnOk};
ghost use Rattle.judge_run.specs.Junit.{IsFailed, IsJunit, accepted_junit, erred_text, failed_text, head_text, inside_text, passed_text, tail_text, undecided_junit};

use crate::outcome::Outcome;
use crate::rejection::Rejection;
use crate::xml::{push_bytes, push_xml};
use std::alloc::{AllocError, Global};

/// What a file of one test begins with.
const HEAD: &str =
    "<?xml version=\"1.0\" encoding=\"UTF-8\"?>\n<testsuites>\n<testsuite name=\"kangaroo judge\" tests=\"1\" ";

/// What stands before the name of the test.
const NAMED: &str = ">\n<testcase classname=\"kangaroo judge\" name=\"";

/// What stands after the test.
const TAIL: &str = "</testcase>\n</testsuite>\n</testsuites>\n";

/// The head of a file of one test: how many tests failed and erred, and the test's name.
fn head(alloc: Global, counts: &str, name: &str) -> Result<Vec<u8>, AllocError>
    ensures { IfOk result (λ text. text.items ≡ head_text counts.now name.now) }
{
    let mut text = Vec::new(alloc);
    push_bytes(&mut text, HEAD)?;
    push_bytes(&mut text, counts)?;
    push_bytes(&mut text, NAMED)?;
    push_xml(&mut text, name)?;
    push_bytes(&mut text, "\">")?;
    Ok(text)
}

/// Appends this, and what stands after the test.
fn push_tail(text: &mut Vec<u8>, after: &str) -> Result<(), AllocError>
    ensures { OnOk result (text.new.items ≡ text.old.items ++ tail_text after.now) }
{
    push_bytes(text, after)?;
    push_bytes(text, TAIL)
}

/// Appends what came of the test: this before a text, the text, and this after it.
fn push_inside(text: &mut Vec<u8>, before: &str, why: &str, after: &str) -> Result<(), AllocError>
    ensures { OnOk result (text.new.items ≡ text.old.items ++ inside_text before.now why.now after.now) }
{
    push_bytes(text, before)?;
    push_xml(text, why)?;
    push_tail(text, after)
}

/// The file of a test that passed.
fn passed(alloc: Global, name: &str) -> Result<Vec<u8>, AllocError>
    ensures { IfOk result (λ text. text.items ≡ passed_text name.now) }
{
    let mut text = head(alloc, "failures=\"0\" errors=\"0\"", name)?;
    push_inside(&mut text, "", "", "")?;
    Ok(text)
}

/// The file of a test that failed, for this reason.
fn failed(alloc: Global, name: &str, why: &str) -> Result<Vec<u8>, AllocError>
    ensures { IfOk result (λ text. text.items ≡ failed_text name.now why.now) }
{
    let mut text = head(alloc, "failures=\"1\" errors=\"0\"", name)?;
    push_inside(
        &mut text,
        "<failure message=\"rejected\">",
        why,
        "</failure>",
    )?;
    Ok(text)
}

/// The file of a test that did not say whether the history is right, for this reason.
fn erred(alloc: Global, name: &str, why: &str) -> Result<Vec<u8>, AllocError>
    ensures { IfOk result (λ text. text.items ≡ erred_text name.now why.now) }
{
    let mut text = head(alloc, "failures=\"0\" errors=\"1\"", name)?;
    push_inside(&mut text, "<error message=\"", why, "\"/>")?;
    Ok(text)
}

/// The file of a history that is accepted and has this many calls, if it has to have so many.
fn of_accepted(alloc: Global, name: &str, least: usize, calls: usize) -> Result<Vec<u8>, AllocError>
    ensures { IfOk result (λ text. text.items ≡ accepted_junit name.now least calls) }
{
    if calls < least {
        let why = format!(in alloc; "accepted {calls} calls of at least {least}")?;
        erred(alloc, name, why.as_str())
    } else {
        passed(alloc, name)
    }
}

/// The file of a history with this many undecided hits.
fn of_undecided(alloc: Global, name: &str, hits: usize) -> Result<Vec<u8>, AllocError>
    ensures { IfOk result (λ text. text.items ≡ undecided_junit name.now hits) }
{
    let why = format!(in alloc; "undecided {hits} hits")?;
    erred(alloc, name, why.as_str())
}

/// The file of a history that is rejected.
fn of_rejected(alloc: Global, name: &str, rejection: &Rejection) -> Result<Vec<u8>, AllocError>
    ensures { IfOk result (λ text. IsFailed name.now rejection.now text.items) }
{
    let why = rejection.why(alloc)?;
    match failed(alloc, name, why.as_str()) {
        Ok(text) => Ok(text),
        Err(refused) => Err(refused),
    }
}

/// The JUnit file of a judgement of this name, if an accepted history has to have so many calls: one suite of one test. The test
/// passed if the history is accepted. It failed if the history is rejected, and its text is why. Otherwise it has an error, which says
/// what there was: hits that are undecided, a bad line, or too few calls.
pub fn junit_text(
    alloc: Global,
    name: &str,
    least: usize,
    outcome: &Outcome,
) -> Result<Vec<u8>, AllocError>
    ensures { IfOk result (λ text. IsJunit name.now least outcome.now text.items) }
{
    match outcome {
        Outcome::Accepted(acceptance) => of_accepted(alloc, name, least, acceptance.recorded),
        Outcome::Rejected(rejection) => of_rejected(alloc, name, rejection),
        Outcome::Undecided(hits) => of_undecided(alloc, name, *hits),
        Outcome::BadLine(bad) => {
            let why = format!(in alloc; "{bad}")?;
            erred(alloc, name, why.as_str())
        }
        Outcome::BadTrace(fault) => {
            let why = format!(in alloc; "bad trace {fault}")?;
            erred(alloc, name, why.as_str())
        }
    }
}
