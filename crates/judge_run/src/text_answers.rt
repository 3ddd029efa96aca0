// The answers to texts.
ghost use Rattle.std.specs.Prelude.{◌≡◌, ◌++◌, [], IfOk, OnOk, string_bytes};
ghost use Rattle.certificate_finder.specs.Finding.{IfRejected};
ghost use Rattle.figures.specs.Figures.{with_rows};
ghost use Rattle.judge_run.specs.Extents.{extent_text};
ghost use Rattle.judge_run.specs.FoundRows.{found_rows};
ghost use Rattle.judge_run.specs.Listing.{IsListed};
ghost use Rattle.judge_run.specs.TextTold.{bad_answer, bad_line_rows, found_begun, front_of};
ghost use Rattle.judge_run.specs.VerdictText.{verdict_text};

use crate::call_objects::with_calls;
use crate::extents::extent_text;
use crate::judged_text::JudgedText;
use crate::telling_found::verdict_text;
use crate::telling_rows::{own_in, tell_found};
use certificate_finder::Found;
use figures::{Figure, Form};
use history_text::BadLine;
use std::alloc::{AllocError, Global};
use std::hash::BuildHasher;

/// The answer to a text that was judged, begun.
pub(crate) fn found_begun<S: BuildHasher>(
    alloc: Global,
    form: Form,
    judged: &JudgedText<S>,
) -> Result<String, AllocError>
    requires { IfRejected judged.now.found (λ _. IsListed judged.now.text.history judged.now.faults) }
    ensures { IfOk result (λ text. string_bytes text
        ≡ found_begun form judged.now.text.history judged.now.text.lines.items judged.now.extent
        judged.now.found judged.now.faults.faults.items) }
{
    match form {
        Form::Lines => match lines_of(alloc, judged) {
            Ok(lines) => Ok(lines),
            Err(refused) => Err(refused),
        },
        Form::Json => match members_of(alloc, judged) {
            Ok(text) => Ok(text),
            Err(refused) => Err(refused),
        },
    }
}

/// The same with the calls of the reason, if the text is rejected and the answer is an object.
pub(crate) fn front_of<S: BuildHasher>(
    alloc: Global,
    form: Form,
    judged: &JudgedText<S>,
) -> Result<String, AllocError>
    requires { IfRejected judged.now.found (λ _. IsListed judged.now.text.history judged.now.faults) }
    ensures { IfOk result (λ text. string_bytes text
        ≡ front_of form judged.now.text.history judged.now.text.lines.items judged.now.extent
        judged.now.found judged.now.faults.faults.items) }
{
    let Ok(begun) = found_begun(alloc, form, judged) else {
        return Err(AllocError);
    };
    match &judged.found {
        Found::Rejected(witness) => {
            let recorded = own_in(judged);
            let history = &judged.text.history;
            match with_calls(
                alloc,
                form,
                begun,
                history,
                &judged.text.lines,
                recorded,
                witness,
            ) {
                Ok(text) => Ok(text),
                Err(refused) => Err(refused),
            }
        }
        Found::Accepted(_) => Ok(begun),
        Found::Undecided(_) => Ok(begun),
    }
}

/// The lines that tell what was found, and how what was judged differs from what the text spells.
pub(crate) fn lines_of<S: BuildHasher>(
    alloc: Global,
    judged: &JudgedText<S>,
) -> Result<String, AllocError>
    ensures { IfOk result (λ text. string_bytes text
        ≡ verdict_text judged.now.text.history judged.now.text.lines.items judged.now.extent
        judged.now.found ++ extent_text judged.now.extent) }
{
    let mut text = verdict_text(alloc, judged)?;
    let extent = extent_text(alloc, &judged.extent)?;
    text.push_str(extent.as_str())?;
    Ok(text)
}

/// The members of a JSON object that tell what was found.
fn members_of<S: BuildHasher>(alloc: Global, judged: &JudgedText<S>) -> Result<String, AllocError>
    requires { IfRejected judged.now.found (λ _. IsListed judged.now.text.history judged.now.faults) }
    ensures { IfOk result (λ text. string_bytes text ≡ with_rows Form.Json []
        (found_rows judged.now.text.history judged.now.text.lines.items judged.now.extent
        judged.now.found judged.now.faults.faults.items)) }
{
    let mut text = String::new(alloc);
    match tell_found(alloc, Form::Json, &mut text, judged) {
        Ok(()) => Ok(text),
        Err(refused) => Err(refused),
    }
}

/// The answer to a text with a bad line.
pub(crate) fn bad_answer(alloc: Global, form: Form, bad: BadLine) -> Result<String, AllocError>
    ensures { IfOk result (λ text. string_bytes text ≡ bad_answer form bad) }
{
    match form {
        Form::Lines => format!(in alloc; "{bad}\n"),
        Form::Json => bad_line_object(alloc, bad),
    }
}

/// The JSON object that tells a bad line.
fn bad_line_object(alloc: Global, bad: BadLine) -> Result<String, AllocError>
    ensures { IfOk result (λ text. string_bytes text ≡ bad_answer Form.Json bad) }
{
    let mut text = String::new(alloc);
    tell_bad_line(alloc, Form::Json, &mut text, bad)?;
    match Form::Json.end(&mut text) {
        Ok(()) => Ok(text),
        Err(refused) => Err(refused),
    }
}

/// Tells a bad line: its number, and why it is bad.
fn tell_bad_line(
    alloc: Global,
    form: Form,
    text: &mut String,
    bad: BadLine,
) -> Result<(), AllocError>
    ensures { OnOk result (string_bytes text.new
        ≡ with_rows form (string_bytes text.old) (bad_line_rows bad)) }
{
    form.tell(alloc, text, "verdict", Figure::Word("bad line"))?;
    form.tell(alloc, text, "line", Figure::Count(bad.number))?;
    form.tell(alloc, text, "cause", Figure::Word(bad.cause.text()))
}
