// What was found for the arguments of a subcommand that reads a file.
ghost use Rattle.std.specs.Prelude.{◌≡◌, ◌||◌, nat_lt, IfOk, IfErr, IsSome, Some, codes, is_some, option_map, string_bytes};
ghost use Rattle.clap.specs.Words.{first_of, found_of, rows_of};
ghost use Rattle.command_line.specs.CommandLine.{check_wanted, is_on, judge_wanted, judge_wanted_at, judge_wanted_by, judge_wanted_in, judge_wanted_with, number_found_to, number_to, share_found, share_in, show_wanted, wanted_of, window_found, IsUsage};

use crate::asked_judging::judging_line;
use crate::line::Line;
use crate::line_fault::LineFault;
use crate::telling::{no_file, no_number_to, no_share, not_with_trace};
use clap::ArgMatches;
use history_text::Share;
use judge_run::{CheckRequest, ShowRequest};
use std::alloc::{AllocError, Global};
use trace_file::FileName;

/// The most calls of a history.
const MOST_CALLS: u64 = 268435456;

/// The most by which a stamp may differ from the truth, and the longest window: the greatest stamp of a text.
const MOST_SKEW: u64 = 9223372036854775807;

/// The most shares of keys.
const MOST_SHARES: u64 = 4294967295;

/// The text that was found for an option, to be repeated; an empty one if none was.
pub(crate) fn given<'a>(found: &ArgMatches<'a>, option: &str) -> &'a str {
    match found.get_str(option) {
        Some(text) => text,
        None => "",
    }
}

/// The file that was found for an option; none if none is given.
pub(crate) fn file_found<'a>(
    alloc: Global,
    found: &ArgMatches<'a>,
    option: &str,
) -> Result<Option<FileName>, AllocError>
    ensures { IfOk result (λ file. file ≡ first_of option.now (rows_of (found_of found.now))) }
{
    match found.get_str(option) {
        Some(file) => {
            let name = FileName::new(alloc, file)?;
            Ok(Some(name))
        }
        None => Ok(None),
    }
}

/// Whether a flag is on.
pub(crate) fn is_on<'a>(found: &ArgMatches<'a>, flag: &str) -> bool
    ensures { result ≡ is_on flag.now (rows_of (found_of found.now)) }
{
    match found.get_str(flag) {
        Some(word) => word == "true",
        None => false,
    }
}

/// The word that was found for an option; none if none is given.
fn word_found<'a>(
    alloc: Global,
    found: &ArgMatches<'a>,
    option: &str,
) -> Result<Option<String>, AllocError>
    ensures { IfOk result (λ word.
        option_map string_bytes word ≡ first_of option.now (rows_of (found_of found.now))) }
{
    match found.get_str(option) {
        Some(word) => {
            let word = String::from_str(alloc, word)?;
            Ok(Some(word))
        }
        None => Ok(None),
    }
}

/// What `check` asks for.
pub(crate) fn check_line<'a>(alloc: Global, found: &ArgMatches<'a>) -> Result<Line, LineFault>
    ensures named { IfOk result (λ line. check_wanted (rows_of (found_of found.now)) ≡ Some (wanted_of line)) }
    ensures refused { IfErr result (λ fault. IsUsage fault) }
    ensures taken { IsSome (check_wanted (rows_of (found_of found.now)))
        → IfErr result (λ fault. fault ≡ LineFault.OutOfMemory) }
{
    let Some(file) = found.get_str("FILE") else {
        return Err(no_file(alloc, "check"));
    };
    let file = FileName::new(alloc, file)?;
    let explain = is_on(found, "explain");
    let json = is_on(found, "json");
    let picture = file_found(alloc, found, "picture")?;
    Ok(Line::Check(CheckRequest {
        file,
        explain,
        json,
        picture,
    }))
}

/// The number that a text writes; none if it writes none, or a greater one than this.
fn number_to(text: &str, most: u64) -> Option<u64>
    ensures { result ≡ number_to most text.now }
{
    let Ok(number) = text.parse::<u64>() else {
        return None;
    };
    if number <= most { Some(number) } else { None }
}

/// The number that was found for an option, 0 if none was; none if that is no number, or a greater one than this.
fn number_of<'a>(found: &ArgMatches<'a>, option: &str, most: u64) -> Option<u64>
    ensures { result ≡ number_found_to option.now most (rows_of (found_of found.now)) }
{
    match found.get_str(option) {
        Some(text) => number_to(text, most),
        None => Some(0),
    }
}

/// The share of keys that a text writes, as in 2/8; none if it writes none.
fn share_in(text: &str) -> Option<Share>
    ensures { result ≡ share_in text.now }
{
    let Some((part, of)) = text.split_once('/') else {
        return None;
    };
    let Some(part) = number_to(part, MOST_SHARES) else {
        return None;
    };
    let Some(of) = number_to(of, MOST_SHARES) else {
        return None;
    };
    Share::new(part as u32, of as u32)
}

/// The share of keys whose calls are judged, all if none is given; none if what is given is no share.
fn share_of<'a>(found: &ArgMatches<'a>) -> Option<Share>
    ensures { result ≡ share_found (rows_of (found_of found.now)) }
{
    match found.get_str("keys") {
        Some(text) => share_in(text),
        None => Some(Share::ALL),
    }
}

/// The window that is asked for, if one is; none if what is given is no number.
fn window_of<'a>(found: &ArgMatches<'a>) -> Option<Option<u64>>
    ensures { result ≡ window_found (rows_of (found_of found.now)) }
{
    match found.get_str("window") {
        Some(text) => match number_to(text, MOST_SKEW) {
            Some(window) => Some(Some(window)),
            None => None,
        },
        None => Some(None),
    }
}

/// What `judge` asks for.
pub(crate) fn judge_line<'a>(alloc: Global, found: &ArgMatches<'a>) -> Result<Line, LineFault>
    ensures named { IfOk result (λ line. judge_wanted (rows_of (found_of found.now)) ≡ Some (wanted_of line)) }
    ensures refused { IfErr result (λ fault. IsUsage fault) }
    ensures taken { IsSome (judge_wanted (rows_of (found_of found.now)))
        → IfErr result (λ fault. fault ≡ LineFault.OutOfMemory) }
{
    match number_of(found, "at-least", MOST_CALLS) {
        Some(least) => match judge_line_with(alloc, found, least) {
            Ok(line) => Ok(line),
            Err(fault) => Err(fault),
        },
        None => Err(no_number_to(alloc, "at-least", MOST_CALLS, given(found, "at-least"))),
    }
}

/// The same, if an accepted history has to have so many calls.
fn judge_line_with<'a>(
    alloc: Global,
    found: &ArgMatches<'a>,
    at_least: u64,
) -> Result<Line, LineFault>
    ensures named { IfOk result (λ line.
        judge_wanted_with (rows_of (found_of found.now)) at_least ≡ Some (wanted_of line)) }
    ensures refused { IfErr result (λ fault. IsUsage fault) }
    ensures taken { IsSome (judge_wanted_with (rows_of (found_of found.now)) at_least)
        → IfErr result (λ fault. fault ≡ LineFault.OutOfMemory) }
{
    match number_of(found, "skew", MOST_SKEW) {
        Some(skew) => match judge_line_by(alloc, found, at_least, skew) {
            Ok(line) => Ok(line),
            Err(fault) => Err(fault),
        },
        None => Err(no_number_to(alloc, "skew", MOST_SKEW, given(found, "skew"))),
    }
}

/// The same, if each stamp may differ from the truth by so much. Then no trace is written, since its calls would be wider than those
/// that were recorded; nor is one with puts of what was there from the start, or without the calls that were forgotten as others came.
fn judge_line_by<'a>(
    alloc: Global,
    found: &ArgMatches<'a>,
    at_least: u64,
    skew: u64,
) -> Result<Line, LineFault>
    ensures named { IfOk result (λ line.
        judge_wanted_by (rows_of (found_of found.now)) at_least skew ≡ Some (wanted_of line)) }
    ensures refused { IfErr result (λ fault. IsUsage fault) }
    ensures taken { IsSome (judge_wanted_by (rows_of (found_of found.now)) at_least skew)
        → IfErr result (λ fault. fault ≡ LineFault.OutOfMemory) }
{
    if is_given(found, "trace") && is_changed(found, skew) {
        return Err(untraced(alloc, found, skew));
    }
    match judge_line_in(alloc, found, at_least, skew) {
        Ok(line) => Ok(line),
        Err(fault) => Err(fault),
    }
}

/// The same, if no trace is written of other calls than those that were recorded.
fn judge_line_in<'a>(
    alloc: Global,
    found: &ArgMatches<'a>,
    at_least: u64,
    skew: u64,
) -> Result<Line, LineFault>
    ensures named { IfOk result (λ line.
        judge_wanted_in (rows_of (found_of found.now)) at_least skew ≡ Some (wanted_of line)) }
    ensures refused { IfErr result (λ fault. IsUsage fault) }
    ensures taken { IsSome (judge_wanted_in (rows_of (found_of found.now)) at_least skew)
        → IfErr result (λ fault. fault ≡ LineFault.OutOfMemory) }
{
    match share_of(found) {
        Some(share) => match judge_line_at(alloc, found, at_least, skew, share) {
            Ok(line) => Ok(line),
            Err(fault) => Err(fault),
        },
        None => Err(no_share(alloc, given(found, "keys"))),
    }
}

/// The same, if the keys of this share are judged.
fn judge_line_at<'a>(
    alloc: Global,
    found: &ArgMatches<'a>,
    at_least: u64,
    skew: u64,
    share: Share,
) -> Result<Line, LineFault>
    ensures named { IfOk result (λ line.
        judge_wanted_at (rows_of (found_of found.now)) at_least skew share ≡ Some (wanted_of line)) }
    ensures refused { IfErr result (λ fault. IsUsage fault) }
    ensures taken { IsSome (judge_wanted_at (rows_of (found_of found.now)) at_least skew share)
        → IfErr result (λ fault. fault ≡ LineFault.OutOfMemory) }
{
    match window_of(found) {
        Some(window) => match judging_line(alloc, found, at_least, skew, share, window) {
            Ok(line) => Ok(line),
            Err(fault) => Err(fault),
        },
        None => Err(no_number_to(alloc, "window", MOST_SKEW, given(found, "window"))),
    }
}

/// Whether what is judged is not all calls as they were recorded: their stamps may differ from the truth by so much, values may
/// have been there from the start, or calls are forgotten as others come.
fn is_changed<'a>(found: &ArgMatches<'a>, skew: u64) -> bool
    ensures { result ≡ (nat_lt 0 skew || (is_on (codes "warm") (rows_of (found_of found.now))
        || is_some (first_of (codes "window") (rows_of (found_of found.now))))) }
{
    skew > 0 || (is_on(found, "warm") || is_given(found, "window"))
}

/// What is reported if a trace is to be written of what is judged then.
fn untraced<'a>(alloc: Global, found: &ArgMatches<'a>, skew: u64) -> LineFault
    ensures { IsUsage result }
{
    if skew > 0 {
        not_with_trace(alloc, "skew", "calls with other times")
    } else if is_given(found, "window") {
        not_with_trace(alloc, "window", "only some of the calls")
    } else {
        not_with_trace(alloc, "warm", "puts that were not recorded")
    }
}

/// Whether an option is given.
pub(crate) fn is_given<'a>(found: &ArgMatches<'a>, option: &str) -> bool
    ensures { result ≡ is_some (first_of option.now (rows_of (found_of found.now))) }
{
    match found.get_str(option) {
        Some(_) => true,
        None => false,
    }
}

/// What `show` asks for.
pub(crate) fn show_line<'a>(alloc: Global, found: &ArgMatches<'a>) -> Result<Line, LineFault>
    ensures named { IfOk result (λ line. show_wanted (rows_of (found_of found.now)) ≡ Some (wanted_of line)) }
    ensures refused { IfErr result (λ fault. IsUsage fault) }
    ensures taken { IsSome (show_wanted (rows_of (found_of found.now)))
        → IfErr result (λ fault. fault ≡ LineFault.OutOfMemory) }
{
    let Some(file) = found.get_str("FILE") else {
        return Err(no_file(alloc, "show"));
    };
    let file = FileName::new(alloc, file)?;
    let key = word_found(alloc, found, "key")?;
    Ok(Line::Show(ShowRequest { file, key }))
}
