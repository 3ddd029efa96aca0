// What was found for the arguments of `judge`, if each of its numbers is one.
ghost use Rattle.std.specs.Prelude.{◌≡◌, ◌||◌, IfOk, IfErr, IsSome, Some, codes, count_by, is_some, map};
ghost use Rattle.clap.specs.Words.{first_of, found_of, rows_of};
ghost use Rattle.command_line.specs.CommandLine.{Judged, has_output, is_input, judge_wanted_of, judge_wanted_on, judging_in, scope_of, wanted_of, IsUsage};

use crate::asked_file::{file_found, is_given, is_on};
use crate::line::Line;
use crate::line_fault::LineFault;
use crate::telling::{input_twice, no_file, not_with_files};
use clap::ArgMatches;
use history_text::{Reading, Share};
use judge_run::{Detail, JudgeRequest, Scope};
use std::alloc::{AllocError, Global};
use trace_file::FileName;

/// What `judge` asks for, if an accepted history has to have so many calls, each stamp may differ from the truth by so much, the keys of
/// this share are judged, and calls are judged as they come if there is a window.
pub(crate) fn judging_line<'a>(
    alloc: Global,
    found: &ArgMatches<'a>,
    at_least: u64,
    skew: u64,
    share: Share,
    window: Option<u64>,
) -> Result<Line, LineFault>
    ensures named { IfOk result (λ line.
        judge_wanted_of (rows_of (found_of found.now)) at_least skew share window ≡ Some (wanted_of line)) }
    ensures refused { IfErr result (λ fault. IsUsage fault) }
    ensures taken { IsSome (judge_wanted_of (rows_of (found_of found.now)) at_least skew share window)
        → IfErr result (λ fault. fault ≡ LineFault.OutOfMemory) }
{
    let Some(files) = found.get_strs("FILE") else {
        return Err(no_file(alloc, "judge"));
    };
    match judging_on(alloc, found, at_least, skew, share, window, files) {
        Ok(line) => Ok(line),
        Err(fault) => Err(fault),
    }
}

/// The same of these files.
fn judging_on<'a>(
    alloc: Global,
    found: &ArgMatches<'a>,
    at_least: u64,
    skew: u64,
    share: Share,
    window: Option<u64>,
    files: &[&str],
) -> Result<Line, LineFault>
    ensures named { IfOk result (λ line.
        judge_wanted_on (rows_of (found_of found.now)) at_least skew share window (map (λ f. f.now) files.now)
        ≡ Some (wanted_of line)) }
    ensures refused { IfErr result (λ fault. IsUsage fault) }
    ensures taken { IsSome
        (judge_wanted_on (rows_of (found_of found.now)) at_least skew share window (map (λ f. f.now) files.now))
        → IfErr result (λ fault. fault ≡ LineFault.OutOfMemory) }
{
    let [file, others @ ..] = files else {
        return Err(no_file(alloc, "judge"));
    };
    if inputs_among(files) > 1 {
        return Err(input_twice(alloc));
    }
    if files.len() > 1 && has_output(found) {
        return Err(not_with_files(alloc));
    }
    let file = FileName::new(alloc, file)?;
    let others = file_names(alloc, others)?;
    let scope = scope_of(found, skew, share, window);
    let request = judge_request(alloc, found, at_least, scope, file, others)?;
    Ok(Line::Judge(request))
}

/// Which calls are judged, and how they are read.
fn scope_of<'a>(found: &ArgMatches<'a>, skew: u64, share: Share, window: Option<u64>) -> Scope
    ensures { result ≡ scope_of (rows_of (found_of found.now)) skew share window }
{
    let warm = is_on(found, "warm");
    let skip_bad = is_on(found, "skip-bad");
    Scope {
        skew,
        warm,
        reading: Reading { share, skip_bad },
        window,
    }
}

/// The judging that was found of these files.
fn judge_request<'a>(
    alloc: Global,
    found: &ArgMatches<'a>,
    at_least: u64,
    scope: Scope,
    file: FileName,
    others: Vec<FileName>,
) -> Result<JudgeRequest, AllocError>
    ensures { IfOk result (λ request. wanted_of (Line.Judge request)
        ≡ Judged (judging_in (rows_of (found_of found.now)) at_least scope file others.items)) }
{
    let explain = is_on(found, "explain");
    let all = is_on(found, "all");
    let json = is_on(found, "json");
    let picture = file_found(alloc, found, "picture")?;
    let trace = file_found(alloc, found, "trace")?;
    let junit = file_found(alloc, found, "junit")?;
    let html = file_found(alloc, found, "html")?;
    let page = html.is_some();
    Ok(JudgeRequest {
        file,
        others,
        detail: Detail { explain, all, page },
        json,
        picture,
        trace,
        junit,
        html,
        at_least,
        scope,
    })
}

/// The names of these files.
fn file_names(alloc: Global, files: &[&str]) -> Result<Vec<FileName>, AllocError>
    ensures { IfOk result (λ names. names.items ≡ map (λ f. f.now) files.now) }
{
    let mut names = Vec::new(alloc);
    for file in files {
        let name = FileName::new(alloc, file)?;
        names.push(name)?;
    }
    Ok(names)
}

/// Whether a file name means the standard input.
fn is_input(file: &str) -> bool
    ensures { result ≡ is_input file.now }
{
    file == "-"
}

/// How many of these names mean the standard input.
fn inputs_among(files: &[&str]) -> usize
    ensures { result ≡ count_by is_input (map (λ f. f.now) files.now) }
{
    let mut count = 0;
    for file in files {
        if is_input(file) {
            count += 1;
        }
    }
    count
}

/// Whether a file is to be written beside the verdict.
fn has_output<'a>(found: &ArgMatches<'a>) -> bool
    ensures { result ≡ has_output (rows_of (found_of found.now)) }
{
    is_given(found, "trace")
        || (is_given(found, "picture") || (is_given(found, "junit") || is_given(found, "html")))
}
