// What is reported of words that ask for nothing to be done.
ghost use Rattle.std.specs.Prelude.{◌≡◌, IfOk};
ghost use Rattle.clap.specs.Words.{kind_of};
ghost use Rattle.command_line.specs.CommandLine.{IsToldOf, IsUsage};

use crate::line_fault::LineFault;
use crate::program::{judge, run, serve};
use clap::error::ErrorKind;
use load::{Setting, SizeSetting};
use std::alloc::{AllocError, Global};

/// What a refused command line tells.
pub fn told(alloc: Global, error: &clap::Error) -> LineFault
    ensures memory { kind_of error.now ≡ ErrorKind.OutOfMemory → result ≡ LineFault.OutOfMemory }
    ensures told { IsToldOf (kind_of error.now) result }
{
    let kind = error.kind();
    if kind == ErrorKind::OutOfMemory {
        return LineFault::OutOfMemory;
    }
    match error.to_string(alloc) {
        Ok(text) => {
            if error.use_stderr() {
                LineFault::Usage(text)
            } else {
                LineFault::Help(text)
            }
        }
        Err(_) => LineFault::OutOfMemory,
    }
}

/// A usage with this text.
pub fn usage(alloc: Global, text: &str) -> LineFault
    ensures { IsUsage result }
{
    match String::from_str(alloc, text) {
        Ok(text) => LineFault::Usage(text),
        Err(_) => LineFault::OutOfMemory,
    }
}

/// A usage of a subcommand of which the file is missing.
pub fn no_file(alloc: Global, subcommand: &str) -> LineFault
    ensures { IsUsage result }
{
    let text = format!(in alloc;
        "error: the name of the file is missing: name it, as in kangaroo {subcommand} FILE\n\nFor more information, try 'kangaroo {subcommand} --help'.\n"
    );
    match text {
        Ok(text) => LineFault::Usage(text),
        Err(_) => LineFault::OutOfMemory,
    }
}

/// A subcommand that takes numbers.
#[derive(Clone, Copy)]
pub enum Loading {
    /// `judge`.
    Judge,
    /// `run`.
    Run,
    /// `serve-load`.
    Serve,
}

/// The numbers that an option takes.
#[derive(Clone, Copy)]
struct Range {
    name: &'static str,
    least: u64,
    greatest: u64,
    /// What else it takes.
    units: &'static str,
}

/// What is reported if the text that was given for a setting is no number, or one out of its range.
pub fn no_number(alloc: Global, loading: Loading, setting: Setting, given: &str) -> LineFault
    ensures { IsUsage result }
{
    let range = Range {
        name: setting.name(),
        least: u64::from(setting.least()),
        greatest: u64::from(setting.greatest()),
        units: "",
    };
    no_range(alloc, loading, &range, given)
}

/// What is reported if the text that was given for a size is no number, or one out of its range.
pub fn no_bytes(alloc: Global, size: SizeSetting, given: &str) -> LineFault
    ensures { IsUsage result }
{
    let range = Range {
        name: size.name(),
        least: 0,
        greatest: SizeSetting::MOST,
        units: ", or as 512K, 100M or 64G",
    };
    no_range(alloc, Loading::Serve, &range, given)
}

/// What is reported if the text that was given for this option of `judge` is no number, or a greater one than this.
pub fn no_number_to(alloc: Global, option: &'static str, most: u64, given: &str) -> LineFault
    ensures { IsUsage result }
{
    let range = Range {
        name: option,
        least: 0,
        greatest: most,
        units: "",
    };
    no_range(alloc, Loading::Judge, &range, given)
}

/// What is reported if the standard input is to be judged twice.
pub fn input_twice(alloc: Global) -> LineFault
    ensures { IsUsage result }
{
    conflict(
        alloc,
        "- can be given once only, since the standard input is read once",
    )
}

/// What is reported if a file is to be written beside the verdicts of several files.
pub fn not_with_files(alloc: Global) -> LineFault
    ensures { IsUsage result }
{
    conflict(
        alloc,
        "--trace, --picture, --junit and --html write one file, so they take one FILE: judge each by a command of its own",
    )
}

/// What is reported of words of `judge` that don't go together.
fn conflict(alloc: Global, message: &str) -> LineFault
    ensures { IsUsage result }
{
    match conflict_error(alloc, message) {
        Ok(error) => usage_of(alloc, &error),
        Err(_) => LineFault::OutOfMemory,
    }
}

/// The same, as `clap` words it.
fn conflict_error(alloc: Global, message: &str) -> Result<clap::Error, AllocError> {
    let mut command = judge(alloc)?.bin_name("kangaroo judge")?;
    command.error(ErrorKind::ArgumentConflict, message)
}

/// What is reported if the text that was given for the keys of `judge` is no share of them.
pub fn no_share(alloc: Global, given: &str) -> LineFault
    ensures { IsUsage result }
{
    match share_error(alloc, given) {
        Ok(error) => usage_of(alloc, &error),
        Err(_) => LineFault::OutOfMemory,
    }
}

/// The same, as `clap` words it.
fn share_error(alloc: Global, given: &str) -> Result<clap::Error, AllocError> {
    let mut command = judge(alloc)?.bin_name("kangaroo judge")?;
    let message = format!(in alloc;
        "--keys takes P/Q, as in 0/8, where P is less than Q and Q at most 4294967295, not `{given}`"
    )?;
    command.error(ErrorKind::ValueValidation, message.as_str())
}

/// What is reported if a trace is to be written with this option of `judge`, with which it would hold this.
pub fn not_with_trace(alloc: Global, option: &str, held: &str) -> LineFault
    ensures { IsUsage result }
{
    match trace_error(alloc, option, held) {
        Ok(error) => usage_of(alloc, &error),
        Err(_) => LineFault::OutOfMemory,
    }
}

/// The same, as `clap` words it.
fn trace_error(alloc: Global, option: &str, held: &str) -> Result<clap::Error, AllocError> {
    let mut command = judge(alloc)?.bin_name("kangaroo judge")?;
    let message = format!(in alloc;
        "--trace can't be given with --{option}, since it would hold {held}: leave --trace or --{option} out"
    )?;
    command.error(ErrorKind::ArgumentConflict, message.as_str())
}

/// What is reported if this setting is given with a size, which determines it.
pub fn not_with_size(alloc: Global, setting: Setting) -> LineFault
    ensures { IsUsage result }
{
    match size_error(alloc, setting) {
        Ok(error) => usage_of(alloc, &error),
        Err(_) => LineFault::OutOfMemory,
    }
}

/// The same, as `clap` words it.
fn size_error(alloc: Global, setting: Setting) -> Result<clap::Error, AllocError> {
    let mut command = serve(alloc)?.bin_name("kangaroo serve-load")?;
    let name = setting.name();
    let message = format!(in alloc;
        "--{name} can't be given with --size, which determines it: leave --{name} or --size out"
    )?;
    command.error(ErrorKind::ArgumentConflict, message.as_str())
}

/// What is reported if the text that was given for an option is no number of its range.
fn no_range(alloc: Global, loading: Loading, range: &Range, given: &str) -> LineFault
    ensures { IsUsage result }
{
    match range_error(alloc, loading, range, given) {
        Ok(error) => usage_of(alloc, &error),
        Err(_) => LineFault::OutOfMemory,
    }
}

/// The usage that an error tells.
fn usage_of(alloc: Global, error: &clap::Error) -> LineFault
    ensures { IsUsage result }
{
    match error.to_string(alloc) {
        Ok(text) => LineFault::Usage(text),
        Err(_) => LineFault::OutOfMemory,
    }
}

/// That an option takes a number of a range and not this text, as `clap` words it.
fn range_error(
    alloc: Global,
    loading: Loading,
    range: &Range,
    given: &str,
) -> Result<clap::Error, AllocError> {
    let mut command = match loading {
        Loading::Judge => judge(alloc)?.bin_name("kangaroo judge")?,
        Loading::Run => run(alloc)?.bin_name("kangaroo run")?,
        Loading::Serve => serve(alloc)?.bin_name("kangaroo serve-load")?,
    };
    let message = range_message(alloc, range, given)?;
    command.error(ErrorKind::ValueValidation, message.as_str())
}

/// The same in words. A text that is a number is repeated as it is, and another one in backquotes.
fn range_message(alloc: Global, range: &Range, given: &str) -> Result<String, AllocError> {
    let name = range.name;
    let least = range.least;
    let greatest = range.greatest;
    let units = range.units;
    if given.parse::<u64>().is_ok() {
        return format!(in alloc;
            "--{name} takes a number from {least} to {greatest}{units}, not {given}"
        );
    }
    format!(in alloc; "--{name} takes a number from {least} to {greatest}{units}, not `{given}`")
}
