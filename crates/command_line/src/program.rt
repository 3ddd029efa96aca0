// The program's command line, as `clap` reads it.
ghost use Rattle.std.specs.Prelude.{◌≡◌, IfOk, false};
ghost use Rattle.clap.specs.Words.{app_of, new_app, rule_of};
ghost use Rattle.command_line.specs.CommandLine.{check_command, device_rule, file_rule, files_rule, flag_rule, json_rule, judge_command, option_rule, program, run_command, script_command, scripts_program, serve_command, show_command, size_rule, trace_rule, value_rule, with_history, with_judging, with_listing, with_loads, with_reading, with_scope, zipf_rule};

use crate::help;
use crate::help::Help;
use clap::{Arg, ArgAction, Command};
use load::{SERVE_SETTINGS, SETTINGS, Setting, SizeSetting};
use std::alloc::{AllocError, Global};

/// What the program calls itself, however it was started.
const NAME: &str = "kangaroo";

/// The version that it tells.
const VERSION: &str = "1.0.1";

/// The program's command line.
pub fn program<'a>(alloc: Global) -> Result<Command<'a>, AllocError>
    ensures { IfOk result (λ c. app_of c ≡ program) }
{
    let kangaroo = with_script(alloc)?;
    let kangaroo = with_judging(alloc, kangaroo)?;
    match with_loads(alloc, kangaroo) {
        Ok(kangaroo) => Ok(kangaroo),
        Err(refused) => Err(refused),
    }
}

/// The program with the subcommand of scripts.
fn with_script<'a>(alloc: Global) -> Result<Command<'a>, AllocError>
    ensures { IfOk result (λ c. app_of c ≡ scripts_program) }
{
    Command::new(alloc, NAME)
        .about(help::PROGRAM.about)
        .after_help(help::PROGRAM.notes)
        .version(VERSION)
        .bin_name(NAME)?
        .subcommand_required(true)
        .subcommand(script(alloc))
}

/// A program with the subcommands that judge and show.
fn with_judging<'a>(alloc: Global, kangaroo: Command<'a>) -> Result<Command<'a>, AllocError>
    ensures { IfOk result (λ c. app_of c ≡ with_judging (app_of kangaroo.entry)) }
{
    let kangaroo = kangaroo.subcommand(check(alloc)?)?;
    let kangaroo = kangaroo.subcommand(judge(alloc)?)?;
    kangaroo.subcommand(show(alloc)?)
}

/// A program with the subcommands that load a cache.
fn with_loads<'a>(alloc: Global, kangaroo: Command<'a>) -> Result<Command<'a>, AllocError>
    ensures { IfOk result (λ c. app_of c ≡ with_loads (app_of kangaroo.entry)) }
{
    let kangaroo = kangaroo.subcommand(run(alloc)?)?;
    kangaroo.subcommand(serve(alloc)?)
}

/// The subcommand `script`.
fn script<'a>(alloc: Global) -> Command<'a>
    ensures { app_of result ≡ script_command }
{
    command(alloc, "script", &help::SCRIPT)
}

/// A command of this name, with what its help says.
fn command<'a>(alloc: Global, name: &'a str, help: &Help) -> Command<'a>
    ensures { app_of result ≡ new_app name.entry.now }
{
    Command::new(alloc, name)
        .about(help.about)
        .after_help(help.notes)
}

/// The subcommand `check`.
fn check<'a>(alloc: Global) -> Result<Command<'a>, AllocError>
    ensures { IfOk result (λ c. app_of c ≡ check_command) }
{
    let check = command(alloc, "check", &help::CHECK);
    let check = check.arg(file(alloc, "File of the trace, or - for standard input"))?;
    match with_history(alloc, check) {
        Ok(check) => Ok(check),
        Err(refused) => Err(refused),
    }
}

/// The subcommand `judge`.
pub fn judge<'a>(alloc: Global) -> Result<Command<'a>, AllocError>
    ensures { IfOk result (λ c. app_of c ≡ judge_command) }
{
    let judge = command(alloc, "judge", &help::JUDGE);
    let judge = judge.arg(files(alloc))?;
    let judge = with_history(alloc, judge)?;
    let listed = with_listing(alloc, judge)?;
    let scoped = with_scope(alloc, listed)?;
    match with_reading(alloc, scoped) {
        Ok(judge) => Ok(judge),
        Err(refused) => Err(refused),
    }
}

/// A command that asks for so many calls, allows for clocks that differ, and takes values as there from the start if that is wanted.
fn with_scope<'a>(alloc: Global, command: Command<'a>) -> Result<Command<'a>, AllocError>
    ensures { IfOk result (λ c. app_of c ≡ with_scope (app_of command.entry)) }
{
    let counted = command.arg(valued(alloc, "at-least", "NUMBER", help::AT_LEAST))?;
    let widened = counted.arg(valued(alloc, "skew", "NUMBER", help::SKEW))?;
    widened.arg(flag(alloc, "warm", help::WARM))
}

/// A command that judges the calls of some keys, passes over bad lines if that is wanted, and judges calls as they come if there is a window.
fn with_reading<'a>(alloc: Global, command: Command<'a>) -> Result<Command<'a>, AllocError>
    ensures { IfOk result (λ c. app_of c ≡ with_reading (app_of command.entry)) }
{
    let shared = command.arg(valued(alloc, "keys", "P/Q", help::KEYS))?;
    let skipping = shared.arg(flag(alloc, "skip-bad", help::SKIP_BAD))?;
    skipping.arg(valued(alloc, "window", "NUMBER", help::WINDOW))
}

/// A command that lists all faults if that is wanted, and writes a trace, a JUnit file and a page.
fn with_listing<'a>(alloc: Global, command: Command<'a>) -> Result<Command<'a>, AllocError>
    ensures { IfOk result (λ c. app_of c ≡ with_listing (app_of command.entry)) }
{
    let listed = command.arg(flag(alloc, "all", help::ALL))?;
    let traced = listed.arg(valued(alloc, "trace", "OUT", help::TRACE))?;
    let tested = traced.arg(valued(alloc, "junit", "OUT", help::JUNIT))?;
    tested.arg(valued(alloc, "html", "OUT", help::HTML))
}

/// A command that judges a history.
fn with_history<'a>(alloc: Global, command: Command<'a>) -> Result<Command<'a>, AllocError>
    ensures { IfOk result (λ c. app_of c ≡ with_history (app_of command.entry)) }
{
    let explained = command.arg(flag(alloc, "explain", help::EXPLAIN))?;
    let told = explained.arg(json(alloc))?;
    told.arg(valued(alloc, "picture", "OUT", help::PICTURE))
}

/// The subcommand `show`.
fn show<'a>(alloc: Global) -> Result<Command<'a>, AllocError>
    ensures { IfOk result (λ c. app_of c ≡ show_command) }
{
    let show = command(alloc, "show", &help::SHOW);
    let show = show.arg(file(alloc, "File of the trace, or - for standard input"))?;
    show.arg(valued(alloc, "key", "KEY", help::KEY))
}

/// The file that is to be read.
fn file<'a>(alloc: Global, meaning: &'a str) -> Arg<'a>
    ensures rule { rule_of result ≡ file_rule }
    ensures local { result.global ≡ false }
{
    Arg::new(alloc, "FILE").required(true).help(meaning)
}

/// The files that are to be judged.
fn files<'a>(alloc: Global) -> Arg<'a>
    ensures rule { rule_of result ≡ files_rule }
    ensures local { result.global ≡ false }
{
    Arg::new(alloc, "FILE")
        .num_args(1usize..)
        .action(ArgAction::Append)
        .required(true)
        .help("Files of the texts, each judged by itself, or - for standard input")
}

/// The flag of this name, with what its help says.
fn flag<'a>(alloc: Global, name: &'a str, meaning: &'a str) -> Arg<'a>
    ensures rule { rule_of result ≡ flag_rule name.entry.now }
    ensures local { result.global ≡ false }
{
    Arg::new(alloc, name)
        .long(name)
        .action(ArgAction::SetTrue)
        .help(meaning)
}

/// The option of this name, with a value and what its help says.
fn valued<'a>(alloc: Global, name: &'a str, value: &'a str, meaning: &'a str) -> Arg<'a>
    ensures rule { rule_of result ≡ value_rule name.entry.now }
    ensures local { result.global ≡ false }
{
    Arg::new(alloc, name)
        .long(name)
        .value_name(value)
        .help(meaning)
}

/// Whether what is reported is a JSON object and not lines.
fn json<'a>(alloc: Global) -> Arg<'a>
    ensures rule { rule_of result ≡ json_rule }
    ensures local { result.global ≡ false }
{
    flag(alloc, "json", "Print one JSON object instead of lines")
}

/// The subcommand `run`.
pub fn run<'a>(alloc: Global) -> Result<Command<'a>, AllocError>
    ensures { IfOk result (λ c. app_of c ≡ run_command) }
{
    let mut run = command(alloc, "run", &help::RUN);
    for setting in &SETTINGS {
        run = run.arg(option(alloc, *setting))?;
    }
    let over_files = run.arg(device(alloc))?;
    let traced = over_files.arg(trace(alloc))?;
    traced.arg(json(alloc))
}

/// The subcommand `serve-load`.
pub fn serve<'a>(alloc: Global) -> Result<Command<'a>, AllocError>
    ensures { IfOk result (λ c. app_of c ≡ serve_command) }
{
    let mut serve = command(alloc, "serve-load", &help::SERVE);
    for setting in &SERVE_SETTINGS {
        serve = serve.arg(option(alloc, *setting))?;
    }
    let sized = serve.arg(size(alloc, SizeSetting::Size))?;
    let sized = sized.arg(size(alloc, SizeSetting::MemoryBytes))?;
    let drawn = sized.arg(zipf(alloc))?;
    let over_files = drawn.arg(device(alloc))?;
    over_files.arg(json(alloc))
}

/// The option of a size.
fn size<'a>(alloc: Global, size: SizeSetting) -> Arg<'a>
    ensures rule { rule_of result ≡ size_rule size }
    ensures local { result.global ≡ false }
{
    let name: &'a str = size.name();
    let meaning: &'a str = size.meaning();
    valued(alloc, name, "BYTES", meaning).help_heading("Cache options")
}

/// Whether keys are drawn by Zipf's law.
fn zipf<'a>(alloc: Global) -> Arg<'a>
    ensures rule { rule_of result ≡ zipf_rule }
    ensures local { result.global ≡ false }
{
    flag(
        alloc,
        "zipf",
        "Draw keys by Zipf's law: the first twice as often as the second and\nthree times as often as the third. It takes at most 8 MiB of memory.",
    )
    .help_heading("Load options")
}

/// The option of a setting.
fn option<'a>(alloc: Global, setting: Setting) -> Arg<'a>
    ensures rule { rule_of result ≡ option_rule setting }
    ensures local { result.global ≡ false }
{
    let name: &'a str = setting.name();
    let meaning: &'a str = setting.meaning();
    let heading: &'a str = setting.heading();
    valued(alloc, name, "NUMBER", meaning).help_heading(heading)
}

/// The folder of the lanes' files.
fn device<'a>(alloc: Global) -> Arg<'a>
    ensures rule { rule_of result ≡ device_rule }
    ensures local { result.global ≡ false }
{
    valued(
        alloc,
        "device",
        "FOLDER",
        "Keep the lanes in files of this folder, lane-0.dev and so on. The folder\nmust exist; older files of these names lose what they hold. Without it\nthe lanes are in memory.",
    )
}

/// The file that the trace of a run is written to.
fn trace<'a>(alloc: Global) -> Arg<'a>
    ensures rule { rule_of result ≡ trace_rule }
    ensures local { result.global ≡ false }
{
    valued(
        alloc,
        "trace",
        "FILE",
        "Write the trace of all calls to this file, which kangaroo check reads",
    )
    .required(true)
}
