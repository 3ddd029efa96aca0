// Writing the outcome of judging to files.
ghost use Rattle.std.specs.Prelude.{IfErr};
ghost use Rattle.judge_run.specs.Ends.{IsFault, IsSaved};

use crate::judge_end::JudgeEnd;
use crate::junit::junit_text;
use crate::outcome::Outcome;
use crate::rejection::Rejection;
use crate::telling::{out_of_memory, unopened, unwritten};
use crate::wanted_files::WantedFiles;
use history_picture::{ExplainFault, draw};
use std::fs;
use std::io::{BufWriter, Write};
use std::rt::Files;
use trace_file::{FileName, Trace, write_trace, write_whole};

/// Writes the trace of an accepted history, or the picture of a rejected one, and what came of judging the input of this name to their
/// files, if that is wanted, and says how the program ends, if an accepted history has to have so many calls. A file to which nothing
/// is to be written is left as it is.
pub(crate) fn save<R: AllocGlobal + Files, E: Write>(
    rt: &R,
    files: &WantedFiles<'_>,
    name: &str,
    outcome: &Outcome,
    least: usize,
    err: &mut E,
) -> JudgeEnd
    ensures { IsSaved least outcome.now result }
{
    match save_each(rt, files, name, outcome, least, err) {
        Ok(()) => JudgeEnd::at_least(least, outcome),
        Err(end) => end,
    }
}

/// Writes each file that is wanted.
fn save_each<R: AllocGlobal + Files, E: Write>(
    rt: &R,
    files: &WantedFiles<'_>,
    name: &str,
    outcome: &Outcome,
    least: usize,
    err: &mut E,
) -> Result<(), JudgeEnd>
    ensures { IfErr result IsFault }
{
    match save_outcome(rt, files, outcome, err) {
        Ok(()) => {}
        Err(end) => return Err(end),
    }
    match save_page(rt, files, err) {
        Ok(()) => {}
        Err(end) => return Err(end),
    }
    match files.junit {
        Some(junit) => save_junit(rt, junit, name, outcome, least, err),
        None => Ok(()),
    }
}

/// Writes the page to its file, if it is wanted and one was made. The file is made if it is absent, otherwise emptied.
fn save_page<R: AllocGlobal + Files, E: Write>(
    rt: &R,
    files: &WantedFiles<'_>,
    err: &mut E,
) -> Result<(), JudgeEnd>
    ensures { IfErr result IsFault }
{
    let Some(page) = files.page else {
        return Ok(());
    };
    let Some(name) = files.html else {
        return Ok(());
    };
    let mut file = match fs::create(rt, name.as_str()) {
        Ok(file) => file,
        Err(error) => return Err(unopened(err, name, &error)),
    };
    if write_whole(&mut file, page).is_err() {
        return Err(unwritten(err, name));
    }
    Ok(())
}

/// Writes the trace of an accepted history, or the picture of a rejected one, to its file, if that is wanted.
fn save_outcome<R: AllocGlobal + Files, E: Write>(
    rt: &R,
    files: &WantedFiles<'_>,
    outcome: &Outcome,
    err: &mut E,
) -> Result<(), JudgeEnd>
    ensures { IfErr result IsFault }
{
    match outcome {
        Outcome::Accepted(acceptance) => match files.trace {
            Some(name) => save_trace(rt, name, &acceptance.trace, err),
            None => Ok(()),
        },
        Outcome::Rejected(rejection) => match files.picture {
            Some(name) => save_picture(rt, name, rejection, err),
            None => Ok(()),
        },
        Outcome::Undecided(_) | Outcome::BadLine(_) | Outcome::BadTrace(_) => Ok(()),
    }
}

/// Writes what came of judging the input of this name to a file, as JUnit has it. The file is made if it is absent, otherwise emptied.
fn save_junit<R: AllocGlobal + Files, E: Write>(
    rt: &R,
    junit: &FileName,
    name: &str,
    outcome: &Outcome,
    least: usize,
    err: &mut E,
) -> Result<(), JudgeEnd>
    ensures { IfErr result IsFault }
{
    let Ok(text) = junit_text(rt.alloc(), name, least, outcome) else {
        return Err(out_of_memory(err, junit.as_str()));
    };
    let mut file = match fs::create(rt, junit.as_str()) {
        Ok(file) => file,
        Err(error) => return Err(unopened(err, junit, &error)),
    };
    if write_whole(&mut file, &text).is_err() {
        return Err(unwritten(err, junit));
    }
    Ok(())
}

/// Writes a trace to a file, which is made if it is absent, otherwise emptied.
fn save_trace<R: AllocGlobal + Files, E: Write>(
    rt: &R,
    name: &FileName,
    trace: &Trace,
    err: &mut E,
) -> Result<(), JudgeEnd>
    ensures { IfErr result IsFault }
{
    let file = match fs::create(rt, name.as_str()) {
        Ok(file) => file,
        Err(error) => return Err(unopened(err, name, &error)),
    };
    let Ok(mut writer) = BufWriter::new(rt.alloc(), file) else {
        return Err(out_of_memory(err, name.as_str()));
    };
    if write_trace(&trace.history, &trace.certificate, &mut writer).is_err() {
        return Err(unwritten(err, name));
    }
    if writer.flush().is_err() {
        return Err(unwritten(err, name));
    }
    Ok(())
}

/// Draws a picture to a file, which is made if it is absent, otherwise emptied.
fn save_picture<R: AllocGlobal + Files, E: Write>(
    rt: &R,
    name: &FileName,
    rejection: &Rejection,
    err: &mut E,
) -> Result<(), JudgeEnd>
    ensures { IfErr result IsFault }
{
    let mut file = match fs::create(rt, name.as_str()) {
        Ok(file) => file,
        Err(error) => return Err(unopened(err, name, &error)),
    };
    match draw(rt.alloc(), &rejection.scene(), &rejection.reason, &mut file) {
        Ok(()) => Ok(()),
        Err(ExplainFault::OutOfMemory) => Err(out_of_memory(err, name.as_str())),
        Err(ExplainFault::WriteFault) => Err(unwritten(err, name)),
    }
}
