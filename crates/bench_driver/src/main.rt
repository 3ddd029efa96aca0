//! The program: scripts of a cache answered and judged, traces and histories judged, and loads run, recorded and judged or of a cache
//! that serves.
#![tactic(auto)]

use command_line::{Ending, Line, LineFault, ProgramEnd, answer_script, asked, tell_help};
use judge_run::{run_check, run_judge, run_show};
use key_hash::RandomSeed;
use load_run::run_load;
use serve_load::serve_load;
use std::io;
use std::io::BufWriter;
use std::process::ExitCode;
use std::random::RandomSource;

/// The page size of the program, in bytes.
const PAGE: usize = 4096;

fn main(rt: HostRuntime) -> ExitCode {
    let mut output = io::writer(&rt);
    let ended = match asked(&rt) {
        Ok(Line::Script) => script(&rt),
        Ok(Line::Check(request)) => {
            return ExitCode::from(run_check(&rt, &request, &mut output, &mut rt.stderr()));
        }
        Ok(Line::Judge(request)) => {
            return ExitCode::from(run_judge(&rt, &request, &mut output, &mut rt.stderr()));
        }
        Ok(Line::Show(request)) => {
            return ExitCode::from(run_show(&rt, &request, output, &mut rt.stderr()));
        }
        Ok(Line::Run(load)) => {
            return ExitCode::from(run_load(&rt, &load, &mut output, &mut rt.stderr()));
        }
        Ok(Line::Serve(load)) => {
            return ExitCode::from(serve_load(&rt, &load, &mut output, &mut rt.stderr()));
        }
        Err(LineFault::Usage(text)) => {
            let _ = eprint!(rt; "{text}");
            ProgramEnd::plain(Ending::BadWords)
        }
        Err(LineFault::Help(text)) => ProgramEnd::plain(tell_help(&mut output, text.as_str())),
        Err(LineFault::OutOfMemory) => ProgramEnd::plain(Ending::OutOfMemory),
    };
    ended.tell(&mut rt.stderr());
    ended.code()
}

/// Answers the script of standard input on standard output, through a buffer. The tables of its verdicts have a seed of
/// their own.
fn script(rt: &(impl Input + Print + RandomSource + AllocGlobal)) -> ProgramEnd {
    let hash_builder = match RandomSeed::draw(rt) {
        Ok(hash_builder) => hash_builder,
        Err(error) => return ProgramEnd::without_random(error),
    };
    let Ok(mut writer) = BufWriter::new(rt.alloc(), io::writer(rt)) else {
        return ProgramEnd::plain(Ending::OutOfMemory);
    };
    ProgramEnd::plain(answer_script::<PAGE, _, _, _>(
        rt.alloc(),
        hash_builder,
        &mut rt.reader(),
        &mut writer,
    ))
}
