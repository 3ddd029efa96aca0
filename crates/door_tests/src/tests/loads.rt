//! Loads that are run by the lines of a text, with what they end with and write.
use super::files::act_on;
use super::screen::Screen;
use super::told::{are_tended, tell_brought};
use super::words::{compare, words_of};
use command_line::{Line, LineFault, parse_line};
use load_run::run_load;
use serve_load::serve_load;
use std::alloc::Global;
use std::random::RandomSource;
use std::rt::Files;
use std::sync::Wait;
use std::test::Fail;
use std::thread::Threads;
use std::time::Clock;
use std::{fs, mem};
use test_devices::{Scripted, TextStep, is, run_line};

/// The words of the load that is run after the line, if there are some, and what the last one ended with and wrote, on a host. Its
/// status has to be asked for.
#[derive(Drop)]
struct Loads<'a, R> {
    rt: &'a R,
    words: Vec<String>,
    status: u8,
    is_asked: bool,
    out: Vec<u8>,
    screen: Screen,
}

impl<'a, R: AllocGlobal + Files<File = fs::File>> Scripted for Loads<'a, R> {
    ghost use Rattle.std.specs.Prelude.{⊤};

    ghost can_act = { ⊤ };

    fn act(&mut self, alloc: Global, step: &mut TextStep<'_>) -> Result<(), Fail> {
        let word = step.word();
        if !self.words.is_empty() {
            // It is run after the line, so it is the line's last step.
            step.refuse();
        } else if is(word, b"k") {
            self.words = words_of(alloc, word, step)?;
            if !self.is_asked {
                step.refuse();
            }
            self.is_asked = false;
        } else if is(word, b"status") {
            self.is_asked = true;
            step.tell_number(u64::from(self.status));
        } else if is(word, b"terminal") {
            self.screen.is_terminal = true;
        } else if is(word, b"out") {
            compare(self.out.as_slice(), step.word(), step);
        } else if is(word, b"err") {
            compare(self.screen.bytes.as_slice(), step.word(), step);
        } else if is(word, b"brought") {
            tell_brought(self.out.as_slice(), step);
        } else if is(word, b"tended") {
            if !are_tended(self.out.as_slice()) {
                step.refuse();
            }
        } else {
            return act_on(self.rt, alloc, word, step);
        }
        Ok(())
    }
}

/// Runs the load that words ask for, and gives its status.
fn run_words<
    R: Threads + Wait + Sync + AllocGlobal + Files<File = fs::File> + Clock + RandomSource,
>(rt: &R, words: &[String], out: &mut Vec<u8>, screen: &mut Screen) -> u8 {
    let line = parse_line(rt.alloc(), words);
    run_line_of(rt, &line, out, screen)
}

/// Runs the load that a command line asks for, and gives its status.
fn run_line_of<
    R: Threads + Wait + Sync + AllocGlobal + Files<File = fs::File> + Clock + RandomSource,
>(rt: &R, line: &Result<Line, LineFault>, out: &mut Vec<u8>, screen: &mut Screen) -> u8 {
    match line {
        Ok(Line::Run(load)) => run_load(rt, load, out, screen),
        Ok(Line::Serve(load)) => serve_load(rt, load, out, screen),
        _ => u8::MAX,
    }
}

/// Runs the load whose words were taken, if there are some.
fn run_taken<
    R: Threads + Wait + Sync + AllocGlobal + Files<File = fs::File> + Clock + RandomSource,
>(rt: &R, loads: &mut Loads<'_, R>) {
    let words = mem::replace(&mut loads.words, Vec::new(rt.alloc()));
    if !words.is_empty() {
        loads.out.clear();
        loads.screen.bytes.clear();
        loads.status = run_words(rt, words.as_slice(), &mut loads.out, &mut loads.screen);
    }
}

/// Makes the steps of a text's lines on a host, and runs the load of each line after it. It fails if there is no step, or the status of a
/// load was not asked for.
pub fn load<R: Threads + Wait + Sync + AllocGlobal + Files<File = fs::File> + Clock + RandomSource>(
    rt: &R,
    text: &[u8],
) -> Result<(), Fail> {
    let mut loads = Loads {
        rt,
        words: Vec::new(rt.alloc()),
        status: 0,
        is_asked: true,
        out: Vec::new(rt.alloc()),
        screen: Screen::new(rt.alloc()),
    };
    let (mut number, mut made) = (0u64, 0u64);
    for line in text.split(|b| *b == b'\n') {
        number = number.wrapping_add(1);
        made = made.wrapping_add(run_line(rt.alloc(), &mut loads, number, line)?);
        run_taken(rt, &mut loads);
    }
    are_all_asked(made, loads.is_asked)
}

/// Fails if no step was made, or the status of the last load was not asked for.
pub fn are_all_asked(made: u64, is_asked: bool) -> Result<(), Fail> {
    if made > 0 && is_asked {
        Ok(())
    } else {
        Err("no step, or a load whose status was not asked for".into())
    }
}
