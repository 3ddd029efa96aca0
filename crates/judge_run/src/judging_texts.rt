// Judging the history of a text, and telling its verdict.
ghost use Rattle.std.specs.Prelude.{◌≡◌, None, IfOk, IfErr, OnOk, length, option_map, string_bytes};
ghost use Rattle.std.specs.Io.KnownBytes.{Appends};
ghost use Rattle.certificate_finder.specs.Finding.{IfRejected, IsFound};
ghost use Rattle.figures.specs.Figures.{ended};
ghost use Rattle.history_picture.specs.Names.{names_of};
ghost use Rattle.history_picture.specs.Reasons.{reason_of};
ghost use Rattle.history_text.specs.Text.{text_by};
ghost use Rattle.history_text.specs.Writing.{named};
ghost use Rattle.judge_run.specs.Answers.{with_file};
ghost use Rattle.judge_run.specs.FaultsTold.{listed, more_text};
ghost use Rattle.judge_run.specs.FromStart.{start_lines};
ghost use Rattle.judge_run.specs.Listing.{IsListed};
ghost use Rattle.judge_run.specs.Streams.{was_accepted, was_decided};
ghost use Rattle.judge_run.specs.TextTold.{IsHistoryTold, IsTextUntold, IsUnwritten, ToldText, acceptance_of, bad_answer, told_accepted, told_decided};
ghost use Rattle.judge_run.specs.Paged.{IsPagedIf, page_if};
ghost use Rattle.judge_run.specs.Told.{IsBehind};

use crate::acceptance::Acceptance;
use crate::answers::ended;
use crate::detail::Detail;
use crate::extent::Extent;
use crate::extents::{own_of, recorded_of};
use crate::fault_list::FaultList;
use crate::fault_telling::{listed, more_text};
use crate::from_start::start_lines;
use crate::judge_report::JudgeReport;
use crate::judged_text::JudgedText;
use crate::judging_text::judge_text;
use crate::named_answer::named_object;
use crate::names::copy_names;
use crate::outcome::Outcome;
use crate::paged_outcome::PagedOutcome;
use crate::paged_report::PagedReport;
use crate::paging::page_if;
use crate::question::Question;
use crate::rejection::Rejection;
use crate::tell_fault::TellFault;
use crate::text_answers::{bad_answer, front_of};
use certificate_finder::{Found, Witness};
use figures::Form;
use history_picture::Reason;
use history_text::{BadLine, ReadTextFault, TextHistory};
use std::alloc::{AllocError, Global};
use std::hash::BuildHasher;
use std::io::{Read, Write};
use trace_file::{Certificate, History, Trace, write_whole};

/// Judges the history that a text spells, and tells its verdict, as it is asked. If the history is rejected and that is wanted, it
/// tells all its faults after the verdict, and then why it is rejected. If a file is named, the form is an object, and its first member is that name. It flushes nothing. The tables hash by `hash_builder`. Whoever wrote the text should not know its seed.
///
/// Neither a failed read nor a failed write is tried again. If the writer is not the fault, nothing was written.
pub fn answer_judge<S: BuildHasher + Copy + Drop, R: Read, W: Write>(
    alloc: Global,
    hash_builder: S,
    asked: Question<'_>,
    reader: &mut R,
    writer: &mut W,
) -> Result<Outcome, TellFault>
    ensures ok { IfOk result (λ outcome. ToldText asked.entry.form asked.entry.scope (R.remaining reader.old)
        asked.entry.detail (named asked.entry.file) outcome (W.contents writer.old) (W.contents writer.new)) }
    ensures err { IfErr result (IsTextUntold asked.entry.form asked.entry.scope (R.remaining reader.old)
        asked.entry.detail (named asked.entry.file) (W.contents writer.old) (W.contents writer.new)) }
{
    match answer_with_page(alloc, hash_builder, asked, reader, writer) {
        Ok(answer) => Ok(answer.outcome),
        Err(fault) => Err(fault),
    }
}

/// The same, with the page of the history, if it is wanted and the text has no bad line.
pub fn answer_with_page<S: BuildHasher + Copy + Drop, R: Read, W: Write>(
    alloc: Global,
    hash_builder: S,
    asked: Question<'_>,
    reader: &mut R,
    writer: &mut W,
) -> Result<PagedOutcome, TellFault>
    ensures ok { IfOk result (λ answer. ToldText asked.entry.form asked.entry.scope (R.remaining reader.old)
        asked.entry.detail (named asked.entry.file) answer.outcome (W.contents writer.old) (W.contents writer.new)) }
    ensures page { IfOk result (λ answer. IsPagedIf asked.entry.scope (R.remaining reader.old) asked.entry.detail.page
        answer.outcome (option_map (λ bytes. bytes.items) answer.page)) }
    ensures err { IfErr result (IsTextUntold asked.entry.form asked.entry.scope (R.remaining reader.old)
        asked.entry.detail (named asked.entry.file) (W.contents writer.old) (W.contents writer.new)) }
{
    match judge_text(alloc, hash_builder, asked.scope, reader) {
        Ok(judged) => match told_with_page(alloc, asked.form, judged, asked.detail) {
            Ok(told) => match write_report(alloc, told, asked.file, writer) {
                Ok(answer) => Ok(answer),
                Err(fault) => Err(fault),
            },
            Err(AllocError) => Err(TellFault::OutOfMemory),
        },
        Err(ReadTextFault::Bad(bad)) => match told_bad_line(alloc, asked.form, bad) {
            Ok(told) => match write_report(alloc, told, asked.file, writer) {
                Ok(answer) => Ok(answer),
                Err(fault) => Err(fault),
            },
            Err(AllocError) => Err(TellFault::OutOfMemory),
        },
        Err(ReadTextFault::ReadFault) => Err(TellFault::ReadFault),
        Err(ReadTextFault::OutOfMemory) => Err(TellFault::OutOfMemory),
        Err(ReadTextFault::CountFull) => Err(TellFault::CountFull),
    }
}

/// Writes a report, after the name of the file if one is named, and answers its outcome and its page.
fn write_report<W: Write>(
    alloc: Global,
    told: PagedReport,
    file: Option<&str>,
    writer: &mut W,
) -> Result<PagedOutcome, TellFault>
    ensures outcome { IfOk result (λ answer. answer.outcome ≡ told.outcome) }
    ensures page { IfOk result (λ answer. answer.page ≡ told.page) }
    ensures wrote { OnOk result (Appends (W.contents writer.old) (W.contents writer.new)
        (with_file (named file.entry) (string_bytes told.text))) }
    ensures err { IfErr result (IsUnwritten (with_file (named file.entry) (string_bytes told.text))
        (W.contents writer.old) (W.contents writer.new)) }
{
    let PagedReport {
        text,
        outcome,
        page,
    } = told;
    let Some(name) = file else {
        let Ok(()) = write_whole(writer, text.as_bytes()) else {
            return Err(TellFault::WriteFault);
        };
        return Ok(PagedOutcome { outcome, page });
    };
    let Ok(bytes) = named_object(alloc, name, text.as_bytes()) else {
        return Err(TellFault::OutOfMemory);
    };
    let Ok(()) = write_whole(writer, &bytes) else {
        return Err(TellFault::WriteFault);
    };
    Ok(PagedOutcome { outcome, page })
}

/// The report on a text that was judged, and its page, if it is wanted.
fn told_with_page<S: BuildHasher + Drop>(
    alloc: Global,
    form: Form,
    judged: JudgedText<S>,
    detail: Detail,
) -> Result<PagedReport, AllocError>
    requires found { IsFound judged.text.history judged.found }
    requires faults { IfRejected judged.found (λ _. IsListed judged.text.history judged.faults) }
    ensures told { IfOk result (λ told. IsHistoryTold form
        (text_by judged.text.history judged.text.lines.items judged.text.callers)
        judged.extent detail told.outcome (string_bytes told.text)) }
    ensures accepted { IfOk result (λ told. told_accepted told.outcome ≡ was_accepted judged.found) }
    ensures decided { IfOk result (λ told. told_decided told.outcome ≡ was_decided judged.found) }
    ensures page { IfOk result (λ told. option_map (λ bytes. bytes.items) told.page ≡ page_if detail.page
        (text_by judged.text.history judged.text.lines.items judged.text.callers)
        judged.extent judged.found judged.faults.faults.items) }
{
    let Ok(page) = page_if(alloc, detail.page, &judged) else {
        return Err(AllocError);
    };
    match told_judged(alloc, form, judged, detail) {
        Ok(told) => Ok(PagedReport {
            text: told.text,
            outcome: told.outcome,
            page,
        }),
        Err(refused) => Err(refused),
    }
}

/// The report on a text that was judged.
fn told_judged<S: BuildHasher + Drop>(
    alloc: Global,
    form: Form,
    judged: JudgedText<S>,
    detail: Detail,
) -> Result<JudgeReport, AllocError>
    requires found { IsFound judged.text.history judged.found }
    requires faults { IfRejected judged.found (λ _. IsListed judged.text.history judged.faults) }
    ensures told { IfOk result (λ told. IsHistoryTold form
        (text_by judged.text.history judged.text.lines.items judged.text.callers)
        judged.extent detail told.outcome (string_bytes told.text)) }
    ensures accepted { IfOk result (λ told. told_accepted told.outcome ≡ was_accepted judged.found) }
    ensures decided { IfOk result (λ told. told_decided told.outcome ≡ was_decided judged.found) }
{
    let Ok(begun) = front_of(alloc, form, &judged) else {
        return Err(AllocError);
    };
    let JudgedText {
        text,
        extent,
        found,
        faults,
    } = judged;
    match found {
        Found::Accepted(certificate) => {
            let outcome = accepted_of(&extent, text.history, certificate);
            match reported(form, begun, outcome) {
                Ok(told) => Ok(told),
                Err(refused) => Err(refused),
            }
        }
        Found::Rejected(witness) => {
            let recorded = own_of(&extent, text.history.len());
            let Ok(rejection) = rejection_of(alloc, text, recorded, witness) else {
                return Err(AllocError);
            };
            match told_rejected(alloc, form, begun, rejection, recorded, &faults, detail) {
                Ok(told) => Ok(told),
                Err(refused) => Err(refused),
            }
        }
        Found::Undecided(hits) => {
            let outcome = Outcome::Undecided(hits.len());
            match reported(form, begun, outcome) {
                Ok(told) => Ok(told),
                Err(refused) => Err(refused),
            }
        }
    }
}

/// The report of this outcome, whose answer was begun and ends there.
fn reported(form: Form, begun: String, outcome: Outcome) -> Result<JudgeReport, AllocError>
    ensures outcome { IfOk result (λ told. told.outcome ≡ outcome) }
    ensures text { IfOk result (λ told. string_bytes told.text ≡ ended form (string_bytes begun)) }
{
    let Ok(text) = ended(form, begun) else {
        return Err(AllocError);
    };
    Ok(JudgeReport { text, outcome })
}

/// The outcome of a history that is accepted with this certificate.
fn accepted_of(extent: &Extent, history: History, certificate: Certificate) -> Outcome
    ensures { result ≡ Outcome.Accepted (acceptance_of extent.now history certificate) }
{
    let recorded = recorded_of(extent, history.len());
    let trace = Trace {
        history,
        certificate,
    };
    Outcome::Accepted(Acceptance { trace, recorded })
}

/// What is kept of a history that is rejected, of which so many calls were recorded, and why it is.
fn rejection_of<S: BuildHasher + Drop>(
    alloc: Global,
    text: TextHistory<S>,
    recorded: usize,
    witness: Witness,
) -> Result<Rejection, AllocError>
    ensures text { IfOk result (λ rejection.
        text_by rejection.history rejection.lines.items (names_of rejection.callers.items)
        ≡ text_by text.history text.lines.items text.callers) }
    ensures from_start { IfOk result (λ rejection.
        rejection.from_start.items ≡ start_lines text.lines.items recorded witness) }
    ensures reason { IfOk result (λ rejection. rejection.reason ≡ reason_of witness) }
{
    let Ok(from_start) = start_lines(alloc, &text.lines, recorded, &witness) else {
        return Err(AllocError);
    };
    let Ok(callers) = copy_names(alloc, text.callers.names()) else {
        return Err(AllocError);
    };
    Ok(Rejection {
        history: text.history,
        lines: text.lines,
        callers,
        from_start,
        reason: Reason::of_witness(witness),
    })
}

/// The report on a history that is rejected, after the answer that was begun with its verdict. So many calls were recorded.
fn told_rejected(
    alloc: Global,
    form: Form,
    begun: String,
    rejection: Rejection,
    recorded: usize,
    list: &FaultList,
    detail: Detail,
) -> Result<JudgeReport, AllocError>
    ensures outcome { IfOk result (λ told. told.outcome ≡ Outcome.Rejected rejection) }
    ensures text { IfOk result (λ told. IsBehind form detail.explain
        (more_text (length list.now.faults.items) list.now.keys) rejection
        (listed form detail.all rejection.history rejection.lines.items recorded list.now.faults.items
        (string_bytes begun)) (string_bytes told.text)) }
{
    let Ok(text) = rejection_text(alloc, form, begun, &rejection, recorded, list, detail) else {
        return Err(AllocError);
    };
    let outcome = Outcome::Rejected(rejection);
    Ok(JudgeReport { text, outcome })
}

/// The answer that was begun with a rejection, with what is wanted after it: all faults, and why the history is rejected.
fn rejection_text(
    alloc: Global,
    form: Form,
    begun: String,
    rejection: &Rejection,
    recorded: usize,
    list: &FaultList,
    detail: Detail,
) -> Result<String, AllocError>
    ensures { IfOk result (λ text. IsBehind form detail.explain
        (more_text (length list.now.faults.items) list.now.keys) rejection.now
        (listed form detail.all rejection.now.history rejection.now.lines.items recorded
        list.now.faults.items (string_bytes begun)) (string_bytes text)) }
{
    let Ok(begun) = listed(
        alloc,
        form,
        detail.all,
        begun,
        rejection,
        recorded,
        &list.faults,
    ) else {
        return Err(AllocError);
    };
    let Ok(more) = more_text(alloc, list.faults.len(), list.keys) else {
        return Err(AllocError);
    };
    match rejection.told_behind(alloc, form, begun, detail.explain, more.as_str()) {
        Ok(text) => Ok(text),
        Err(refused) => Err(refused),
    }
}

/// The report on a text with a bad line, which has no page.
fn told_bad_line(alloc: Global, form: Form, bad: BadLine) -> Result<PagedReport, AllocError>
    ensures bad { IfOk result (λ told. told.outcome ≡ Outcome.BadLine bad) }
    ensures text { IfOk result (λ told. string_bytes told.text ≡ bad_answer form bad) }
    ensures page { IfOk result (λ told. told.page ≡ None) }
{
    let text = bad_answer(alloc, form, bad)?;
    let outcome = Outcome::BadLine(bad);
    Ok(PagedReport {
        text,
        outcome,
        page: None,
    })
}
