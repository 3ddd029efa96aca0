// What `judge`, `check` and `show` do with files.
ghost use Rattle.std.specs.Prelude.{◌≡◌, ◌≢◌, ◌∷◌, true, IfErr, IfOk, OnOk, option_map, string_bytes};
ghost use Rattle.figures.specs.Figures.{form_of};
ghost use Rattle.history_text.specs.Writing.{named};
ghost use Rattle.judge_run.specs.Inputs.{IsStandardInput};
ghost use Rattle.judge_run.specs.Runs.{IsAskedFor, IsCheckRun, IsCheckRunOn, IsHeaded, IsJudgeRun, IsJudgeRunOn, IsNotAskedFor, IsShowRun, IsShowRunOn, JudgedFile, JudgedFiles, JudgedInTurn, ShownAs, are_several, is_headed, name_in, weight_of, worse_of};
ghost use Rattle.judge_run.specs.Ends.{IsEnded, IsSaved, end_of_shown, status_of};

use crate::checking::answer_check;
use crate::inputs::{input_name, is_standard_input};
use crate::judge_end::JudgeEnd;
use crate::judging_texts::answer_with_page;
use crate::notes::{note_answer, note_bad_trace, note_few};
use crate::outcome::Outcome;
use crate::paged_outcome::PagedOutcome;
use crate::question::Question;
use crate::requests::{CheckRequest, JudgeRequest, ShowRequest};
use crate::saving::save;
use crate::scope::Scope;
use crate::showing::answer_show;
use crate::shown::Shown;
use crate::tell_fault::TellFault;
use crate::telling::{no_key, out_of_memory, too_late, unopened, untold, without_random};
use crate::wanted_files::WantedFiles;
use figures::Form;
use history_text::{TextFault, key_bytes};
use key_hash::RandomSeed;
use std::alloc::Global;
use std::fs;
use std::io::{BufWriter, Read, Write};
use std::random::RandomSource;
use std::rt::Files;
use trace_file::{FileName, Unwritten, write_whole};

/// Judges the histories of the texts in files or of standard input, one after the other, and answers the status that the program ends
/// with: of several the one that has to be noticed most. The
/// tables have a seed of their own. Each verdict is written to `out`, followed by all faults and the reason, if
/// that is wanted. If there are several files, the name of its file stands before it, or first in its object. Then an accepted history is written to the file of its trace, the picture of a rejected one to its file, and what came of
/// judging to its JUnit file, if they are wanted. What failed, and what to do about it, is written to `err`.
pub fn run_judge<R: AllocGlobal + Files + Input + RandomSource, O: Write, E: Write>(
    rt: &R,
    request: &JudgeRequest,
    out: &mut O,
    err: &mut E,
) -> u8
    ensures { JudgedFiles (form_of request.now.json) request.now.scope request.now.detail
        request.now.at_least (are_several request.now.others.items)
        (request.now.file ∷ request.now.others.items)
        (O.contents out.old) (O.contents out.new) result }
{
    judge_with(rt, &mut rt.reader(), request, out, err)
}

/// The same, with `stdin` as the standard input. Nothing is read of it unless the request names it.
pub fn judge_with<R: AllocGlobal + Files + RandomSource, I: Read, O: Write, E: Write>(
    rt: &R,
    stdin: &mut I,
    request: &JudgeRequest,
    out: &mut O,
    err: &mut E,
) -> u8
    ensures { JudgedInTurn (form_of request.now.json) request.now.scope request.now.detail
        request.now.at_least (are_several request.now.others.items)
        (request.now.file ∷ request.now.others.items)
        (I.remaining stdin.old) (I.remaining stdin.new)
        (O.contents out.old) (O.contents out.new) result }
{
    let mut worst = judge_file(rt, stdin, request, &request.file, out, err);
    for file in &request.others {
        let status = judge_file(rt, stdin, request, file, out, err);
        worst = worse_of(worst, status);
    }
    worst
}

/// That of two statuses which has to be noticed more.
fn worse_of(one: u8, other: u8) -> u8
    ensures { result ≡ worse_of one other }
{
    if weight_of(one) < weight_of(other) {
        other
    } else {
        one
    }
}

/// How much a status has to be noticed: a fault before a bad input, a rejection, hits that are undecided, and success.
fn weight_of(status: u8) -> u8
    ensures { result ≡ weight_of status }
{
    match status {
        0 => 0,
        4 => 1,
        1 => 2,
        2 => 3,
        _ => 4,
    }
}

/// Judges the history of the text in one file, after the file's name if there are several and the verdicts are lines, and answers the status that the program
/// would end with.
fn judge_file<R: AllocGlobal + Files + RandomSource, I: Read, O: Write, E: Write>(
    rt: &R,
    stdin: &mut I,
    request: &JudgeRequest,
    file: &FileName,
    out: &mut O,
    err: &mut E,
) -> u8
    ensures { JudgedFile (form_of request.now.json) request.now.scope request.now.detail
        request.now.at_least (are_several request.now.others.items) file.now (I.remaining stdin.old) (I.remaining stdin.new)
        (O.contents out.old) (O.contents out.new) result }
{
    if let Err(fault) = write_heading(rt.alloc(), is_headed(request), file, out) {
        return untold(err, input_name(file), fault).status();
    }
    let seed = match RandomSeed::draw(rt) {
        Ok(seed) => seed,
        Err(error) => return without_random(err, &error).status(),
    };
    if is_standard_input(file) {
        return judge_from(rt, seed, request, file, stdin, out, err);
    }
    match fs::open(rt, file.as_str()) {
        Ok(mut reader) => judge_from(rt, seed, request, file, &mut reader, out, err),
        Err(error) => unopened(err, file, &error).status(),
    }
}

/// Writes the name of a file and a colon, on a line of their own, if that is wanted.
fn write_heading<O: Write>(
    alloc: Global,
    wanted: bool,
    file: &FileName,
    out: &mut O,
) -> Result<(), TellFault>
    ensures { OnOk result (IsHeaded wanted file.now (O.contents out.old) (O.contents out.new)) }
{
    if !wanted {
        return Ok(());
    }
    let name = file.as_str();
    let Ok(line) = format!(in alloc; "{name}:\n") else {
        return Err(TellFault::OutOfMemory);
    };
    match write_whole(out, line.as_bytes()) {
        Ok(()) => Ok(()),
        Err(Unwritten) => Err(TellFault::WriteFault),
    }
}

/// Judges the history of a text that a reader gives, and answers the status that the program ends with.
fn judge_from<R: AllocGlobal + Files, I: Read, O: Write, E: Write>(
    rt: &R,
    seed: RandomSeed,
    request: &JudgeRequest,
    file: &FileName,
    reader: &mut I,
    out: &mut O,
    err: &mut E,
) -> u8
    ensures { IsJudgeRunOn (form_of request.now.json) request.now.scope (I.remaining reader.old)
        request.now.detail
        (name_in (form_of request.now.json) (are_several request.now.others.items) file.now)
        request.now.at_least (O.contents out.old) (O.contents out.new) result }
{
    let asked = Question {
        form: Form::of(request.json),
        scope: request.scope,
        detail: request.detail,
        file: name_in(request, file),
    };
    match answer_with_page(rt.alloc(), seed, asked, reader, out) {
        Ok(answer) => judged(rt, request, file, &answer, err).status(),
        Err(fault) => untold(err, input_name(file), fault).status(),
    }
}

/// How the program ends after an answer to a judging of the input of a file: what is to be saved is saved, and what failed is reported.
fn judged<R: AllocGlobal + Files, E: Write>(
    rt: &R,
    request: &JudgeRequest,
    file: &FileName,
    answer: &PagedOutcome,
    err: &mut E,
) -> JudgeEnd
    ensures { IsSaved request.now.at_least answer.now.outcome result }
{
    let files = WantedFiles {
        trace: request.trace.as_ref(),
        picture: request.picture.as_ref(),
        junit: request.junit.as_ref(),
        html: request.html.as_ref(),
        page: page_in(answer),
    };
    let least = request.at_least as usize;
    settle(
        rt,
        file,
        &request.scope,
        &answer.outcome,
        &files,
        least,
        err,
    )
}

/// The page of an answer, if it has one.
fn page_in(answer: &PagedOutcome) -> Option<&[u8]> {
    match &answer.page {
        Some(page) => Some(page.as_slice()),
        None => None,
    }
}

/// Whether several files are judged.
fn are_several(request: &JudgeRequest) -> bool
    ensures { result ≡ are_several request.now.others.items }
{
    request.others.len() > 0
}

/// Whether the name of a file stands on a line before its answer: if several files are judged, and each is told by lines.
fn is_headed(request: &JudgeRequest) -> bool
    ensures { result ≡ is_headed (form_of request.now.json) (are_several request.now.others.items) }
{
    !request.json && are_several(request)
}

/// The name of a file, if it is a member of its object: if several files are judged, and each is told by an object.
fn name_in<'a>(request: &JudgeRequest, file: &'a FileName) -> Option<&'a str>
    ensures { named result
        ≡ name_in (form_of request.now.json) (are_several request.now.others.items) file.now }
{
    if request.json && are_several(request) {
        Some(file.as_str())
    } else {
        None
    }
}

/// Judges the trace in a file or of standard input, and answers the status that the program ends with. The table has a
/// seed of its own. The verdict is written to `out`, followed by the reason, if that is wanted. The picture of a
/// rejected history is written to its file, if that is wanted. What failed, and what to do about it, is written to
/// `err`.
pub fn run_check<R: AllocGlobal + Files + Input + RandomSource, O: Write, E: Write>(
    rt: &R,
    request: &CheckRequest,
    out: &mut O,
    err: &mut E,
) -> u8
    ensures { IsCheckRun (form_of request.now.json) request.now.explain
        (O.contents out.old) (O.contents out.new) result }
{
    check_with(rt, &mut rt.reader(), request, out, err)
}

/// The same, with `stdin` as the standard input. Nothing is read of it unless the request names it.
pub fn check_with<R: AllocGlobal + Files + RandomSource, I: Read, O: Write, E: Write>(
    rt: &R,
    stdin: &mut I,
    request: &CheckRequest,
    out: &mut O,
    err: &mut E,
) -> u8
    ensures checked { IsCheckRun (form_of request.now.json) request.now.explain
        (O.contents out.old) (O.contents out.new) result }
    ensures standard_input { IsStandardInput request.now.file → IsCheckRunOn
        (form_of request.now.json) (I.remaining stdin.old) (I.remaining stdin.new)
        request.now.explain (O.contents out.old) (O.contents out.new) result }
    ensures unread { ¬ IsStandardInput request.now.file → stdin.new ≡ stdin.old }
{
    let seed = match RandomSeed::draw(rt) {
        Ok(seed) => seed,
        Err(error) => return without_random(err, &error).status(),
    };
    if is_standard_input(&request.file) {
        return check_from(rt, seed, request, stdin, out, err);
    }
    match fs::open(rt, request.file.as_str()) {
        Ok(mut reader) => check_from(rt, seed, request, &mut reader, out, err),
        Err(error) => unopened(err, &request.file, &error).status(),
    }
}

/// Judges the trace that a reader gives, and answers the status that the program ends with.
fn check_from<R: AllocGlobal + Files, I: Read, O: Write, E: Write>(
    rt: &R,
    seed: RandomSeed,
    request: &CheckRequest,
    reader: &mut I,
    out: &mut O,
    err: &mut E,
) -> u8
    ensures { IsCheckRunOn (form_of request.now.json)
        (I.remaining reader.old) (I.remaining reader.new) request.now.explain
        (O.contents out.old) (O.contents out.new) result }
{
    let form = Form::of(request.json);
    let answer = answer_check(rt.alloc(), seed, form, request.explain, reader, out);
    let files = WantedFiles {
        trace: None,
        picture: request.picture.as_ref(),
        junit: None,
        html: None,
        page: None,
    };
    let end = settled(rt, &request.file, &Scope::WHOLE, answer, &files, 0, err);
    end.status()
}

/// How the program ends after an answer to the input of a file, which was judged in this scope, if an accepted history has to have so many calls: what is to
/// be saved is saved, and what failed is reported.
fn settled<R: AllocGlobal + Files, E: Write>(
    rt: &R,
    file: &FileName,
    scope: &Scope,
    answer: Result<Outcome, TellFault>,
    files: &WantedFiles<'_>,
    least: usize,
    err: &mut E,
) -> JudgeEnd
    ensures { IsEnded least answer result }
{
    match answer {
        Ok(outcome) => settle(rt, file, scope, &outcome, files, least, err),
        Err(fault) => untold(err, input_name(file), fault),
    }
}

/// The same of an outcome.
fn settle<R: AllocGlobal + Files, E: Write>(
    rt: &R,
    file: &FileName,
    scope: &Scope,
    outcome: &Outcome,
    files: &WantedFiles<'_>,
    least: usize,
    err: &mut E,
) -> JudgeEnd
    ensures { IsSaved least outcome.now result }
{
    note_answer(err, input_name(file), scope, outcome);
    note_few(err, input_name(file), outcome, least);
    save(rt, files, input_name(file), outcome, least, err)
}

/// Writes the trace in a file or of standard input as text to `out`, and answers the status that the program ends with.
/// If a key is asked for, only its calls are written. What failed, and what to do about it, is written to `err`. It has no clause, since
/// it takes `out` and drops it, so that none can speak of it afterwards: those of `show_with` say what is written.
pub fn run_show<R: AllocGlobal + Files + Input, O: Write + Drop, E: Write>(
    rt: &R,
    request: &ShowRequest,
    out: O,
    err: &mut E,
) -> u8 {
    let Ok(mut writer) = BufWriter::new(rt.alloc(), out) else {
        return out_of_memory(err, input_name(&request.file)).status();
    };
    show_with(rt, &mut rt.reader(), request, &mut writer, err)
}

/// The same, with `stdin` as the standard input. Nothing is read of it unless the request names it. It writes once a
/// call, so give it a writer with a buffer. It flushes it after the last call.
pub fn show_with<R: AllocGlobal + Files, I: Read, W: Write, E: Write>(
    rt: &R,
    stdin: &mut I,
    request: &ShowRequest,
    writer: &mut W,
    err: &mut E,
) -> u8
    ensures shown { IsShowRun (option_map string_bytes request.now.key)
        (W.contents writer.old) (W.contents writer.new) result }
    ensures standard_input { IsStandardInput request.now.file → IsShowRunOn
        (I.remaining stdin.old) (option_map string_bytes request.now.key)
        (W.contents writer.old) (W.contents writer.new) result }
    ensures unread { ¬ IsStandardInput request.now.file → stdin.new ≡ stdin.old }
{
    let only = match asked_key(rt.alloc(), request) {
        Ok(only) => only,
        Err(TextFault::Bad(cause)) => return no_key(err, cause).status(),
        Err(TextFault::OutOfMemory) => return out_of_memory(err, "--key").status(),
    };
    let name = input_name(&request.file);
    if is_standard_input(&request.file) {
        return show_from(rt.alloc(), name, &only, stdin, writer, err).status();
    }
    match fs::open(rt, request.file.as_str()) {
        Ok(mut reader) => show_from(rt.alloc(), name, &only, &mut reader, writer, err).status(),
        Err(error) => unopened(err, &request.file, &error).status(),
    }
}

/// The key whose calls alone are asked for, if one is.
fn asked_key(alloc: Global, request: &ShowRequest) -> Result<Option<Vec<u8>>, TextFault>
    ensures ok { IfOk result (λ only. IsAskedFor (option_map string_bytes request.now.key)
        (option_map (λ key. key.items) only)) }
    ensures err { IfErr result (IsNotAskedFor (option_map string_bytes request.now.key)) }
{
    let Some(word) = &request.key else {
        return Ok(None);
    };
    match key_bytes(alloc, word.as_bytes()) {
        Ok(key) => Ok(Some(key)),
        Err(fault) => Err(fault),
    }
}

/// Writes the trace of the input of this name as text, and answers how that ended.
fn show_from<I: Read, W: Write, E: Write>(
    alloc: Global,
    name: &str,
    only: &Option<Vec<u8>>,
    reader: &mut I,
    writer: &mut W,
    err: &mut E,
) -> JudgeEnd
    ensures { status_of result ≢ 3 → ShownAs (I.remaining reader.old)
        (option_map (λ key. key.items) only.now)
        (W.contents writer.old) (W.contents writer.new) (status_of result) }
{
    let shown = answer_show(alloc, lent(only), reader, writer);
    let Ok(()) = writer.flush() else {
        return untold(err, name, TellFault::WriteFault);
    };
    match shown {
        Ok(shown) => told_of(err, name, shown),
        Err(fault) => untold(err, name, fault),
    }
}

/// The bytes of a key, if there is one.
fn lent(key: &Option<Vec<u8>>) -> Option<&[u8]>
    ensures { named result ≡ option_map (λ key. key.items) key.now }
{
    match key {
        Some(key) => Some(key.as_slice()),
        None => None,
    }
}

/// How the program ends, by the outcome of showing the input of this name. What there is to do about it is reported.
fn told_of<E: Write>(err: &mut E, name: &str, shown: Shown) -> JudgeEnd
    ensures { result ≡ end_of_shown shown }
{
    match shown {
        Shown::Whole => JudgeEnd::Done,
        Shown::BadTrace(fault) => {
            note_bad_trace(err, name, fault);
            JudgeEnd::BadInput
        }
        Shown::TooLate { position } => too_late(err, position),
    }
}
