// The words of the command line.
ghost use Rattle.std.specs.Prelude.{◌≡◌, [], IfOk, OnOk, IfErr, IsSome, true, map, option_and_then, Some};
ghost use Rattle.clap.specs.Words.{fault_of, found_of, kind_of, rows_of, subcommand_rows_of, takes};
ghost use Rattle.command_line.specs.CommandLine.{wanted_by, wanted_by_words, wanted_of, program, IsRefusal, IsToldOf, IsUsage};

use crate::asked_file::{check_line, judge_line, show_line};
use crate::asked_load::{run_line, serve_line};
use crate::line::Line;
use crate::line_fault::LineFault;
use crate::program::program;
use crate::telling::{told, usage};
use clap::ArgMatches;
use clap::error::ErrorKind;
use std::alloc::{AllocError, Global};
use std::convert::AsStr;

/// What a subcommand asks for, by what was found for its arguments.
fn line_of<'a>(alloc: Global, name: &str, found: &ArgMatches<'a>) -> Result<Line, LineFault>
    ensures named { IfOk result (λ line. wanted_by (name.now, rows_of (found_of found.now)) ≡ Some (wanted_of line)) }
    ensures refused { IfErr result (λ fault. IsUsage fault) }
    ensures taken { IsSome (wanted_by (name.now, rows_of (found_of found.now)))
        → IfErr result (λ fault. fault ≡ LineFault.OutOfMemory) }
{
    if name == "check" {
        match check_line(alloc, found) {
            Ok(line) => Ok(line),
            Err(fault) => Err(fault),
        }
    } else if name == "judge" {
        match judge_line(alloc, found) {
            Ok(line) => Ok(line),
            Err(fault) => Err(fault),
        }
    } else if name == "show" {
        match show_line(alloc, found) {
            Ok(line) => Ok(line),
            Err(fault) => Err(fault),
        }
    } else if name == "run" {
        match run_line(alloc, found) {
            Ok(line) => Ok(line),
            Err(fault) => Err(fault),
        }
    } else if name == "serve-load" {
        match serve_line(alloc, found) {
            Ok(line) => Ok(line),
            Err(fault) => Err(fault),
        }
    } else {
        Ok(Line::Script)
    }
}

/// What the subcommand that a parse met asks for.
fn line_met<'a>(alloc: Global, matches: &ArgMatches<'a>) -> Result<Line, LineFault>
    ensures named { IfOk result (λ line.
        option_and_then wanted_by (subcommand_rows_of matches.now) ≡ Some (wanted_of line)) }
    ensures refused { IfErr result (λ fault. IsUsage fault) }
    ensures taken { IsSome (option_and_then wanted_by (subcommand_rows_of matches.now))
        → IfErr result (λ fault. fault ≡ LineFault.OutOfMemory) }
{
    match matches.subcommand() {
        Some((name, found)) => match line_of(alloc, name, found) {
            Ok(line) => Ok(line),
            Err(fault) => Err(fault),
        },
        None => Err(usage(
            alloc,
            "error: a command is missing: name one, as in kangaroo check FILE\n\nFor more information, try 'kangaroo --help'.\n",
        )),
    }
}

/// What the program's words ask for. The first word is the program's own name.
///
/// `Usage` carries the text that tells the user so, `Help` the help or the version that is asked for; `OutOfMemory` comes if memory was refused.
pub fn parse_line<'a, S: AsStr>(alloc: Global, words: &'a [S]) -> Result<Line, LineFault>
    ensures named { IfOk result (λ line.
        wanted_by_words (map S.text words.now) ≡ Some (wanted_of line)) }
    ensures whole { OnOk result (fault_of program (map S.text words.now) ≡ []) }
    ensures taken { takes program (map S.text words.now) ≡ true
        → IsSome (wanted_by_words (map S.text words.now))
        → IfErr result (λ fault. fault ≡ LineFault.OutOfMemory) }
    ensures refused { IfErr result (λ fault.
        IsRefusal (fault_of program (map S.text words.now)) fault) }
{
    let Ok(command) = program::<'a>(alloc) else {
        return Err(LineFault::OutOfMemory);
    };
    match command.try_get_matches_from(words) {
        Ok(matches) => match line_met(alloc, &matches) {
            Ok(line) => Ok(line),
            Err(fault) => Err(fault),
        },
        Err(error) => Err(told(alloc, &error)),
    }
}

/// What is reported if a word of the command line is not text, whatever the others are.
pub fn no_text(alloc: Global) -> LineFault
    ensures { IsToldOf ErrorKind.InvalidValue result }
{
    match no_text_error(alloc) {
        Ok(error) => told(alloc, &error),
        Err(_) => LineFault::OutOfMemory,
    }
}

/// The same, as `clap` words it.
fn no_text_error(alloc: Global) -> Result<clap::Error, AllocError>
    ensures { IfOk result (λ error. kind_of error ≡ ErrorKind.InvalidValue) }
{
    let mut command = program(alloc)?;
    command.error(
        ErrorKind::InvalidValue,
        "a word of the command line is not text",
    )
}
