//! What words ask for and how the program ends, as the steps of a text tell it.
use super::settings::{tell_run, tell_serve};
use super::words::{compare, ending_of, words_of};
use command_line::{Ending, Line, LineFault, ProgramEnd, no_text, parse_line};
use history_text::Share;
use judge_run::{CheckRequest, JudgeRequest, ShowRequest};
use std::alloc::Global;
use std::io::{Error, ErrorKind};
use std::test::Fail;
use test_devices::{Scripted, TextStep, is, run_text};
use trace_file::FileName;

/// What was reported last, the status of the last ending, and the share of keys of the last line that judges.
#[derive(Drop)]
struct Asked {
    said: Vec<u8>,
    status: u8,
    share: Share,
}

impl Scripted for Asked {
    ghost use Rattle.std.specs.Prelude.{⊤};

    ghost can_act = { ⊤ };

    fn act(&mut self, alloc: Global, step: &mut TextStep<'_>) -> Result<(), Fail> {
        let word = step.word();
        if is_program(word) {
            return self.take_words(alloc, word, step);
        }
        if is(word, b"no-text") {
            return self.take_no_text(alloc, step);
        }
        if is(word, b"ending") {
            self.end_by(ending_of(step));
        } else if is(word, b"without-random") {
            self.end_without_random();
        } else {
            self.look(word, step);
        }
        Ok(())
    }
}

/// Whether a word is what the program was started as, or there is none.
fn is_program(word: &[u8]) -> bool {
    is(word, b"k") || is(word, b"kangaroo") || is(word, b"out/bench_driver") || is(word, b"->")
}

impl Asked {
    /// Takes the words of a command line from the first on, and tells what they ask for.
    fn take_words(
        &mut self,
        alloc: Global,
        first: &[u8],
        step: &mut TextStep<'_>,
    ) -> Result<(), Fail> {
        let words = words_of(alloc, first, step)?;
        self.parse(alloc, words.as_slice(), step)
    }

    /// Parses words, and tells what they ask for.
    fn parse(
        &mut self,
        alloc: Global,
        words: &[String],
        step: &mut TextStep<'_>,
    ) -> Result<(), Fail> {
        let line = parse_line(alloc, words);
        self.tell_asked(&line, step)
    }

    /// Tells what is asked for if a word is no text.
    fn take_no_text(&mut self, alloc: Global, step: &mut TextStep<'_>) -> Result<(), Fail> {
        let line = Err(no_text(alloc));
        self.tell_asked(&line, step)
    }

    /// Tells what a command line asks for, and keeps the text of a help or of a refusal.
    fn tell_asked(
        &mut self,
        line: &Result<Line, LineFault>,
        step: &mut TextStep<'_>,
    ) -> Result<(), Fail> {
        self.said.clear();
        let text = match line {
            Ok(line) => {
                self.tell_line(line, step);
                b""
            }
            Err(fault) => told_by(fault, step),
        };
        Ok(self.said.extend_from_slice(text)?)
    }

    /// Compares what was reported, and what was kept, with what a step says of it.
    fn look(&mut self, word: &[u8], step: &mut TextStep<'_>) {
        if is(word, b"status") {
            step.tell_number(u64::from(self.status));
        } else if is(word, b"usage") {
            if !is_usage(self.said.as_slice()) {
                step.refuse();
            }
        } else if is(word, b"share") {
            if Share::new(step.small(), step.small()) != Some(self.share) {
                step.refuse();
            }
        } else {
            compare(self.said.as_slice(), word, step);
        }
    }

    /// Tells what a line asks for.
    fn tell_line(&mut self, line: &Line, step: &mut TextStep<'_>) {
        match line {
            Line::Script => step.tell(b"script"),
            Line::Check(request) => tell_check(request, step),
            Line::Judge(request) => {
                self.share = request.scope.reading.share;
                tell_judge(request, step);
            }
            Line::Show(request) => tell_show(request, step),
            Line::Run(load) => tell_run(load, step),
            Line::Serve(load) => tell_serve(load, step),
        }
    }

    /// Keeps what the program tells at an ending of this kind.
    fn end_by(&mut self, ending: Ending) {
        self.end(&ProgramEnd::plain(ending));
    }

    /// The same if the host has no random numbers.
    fn end_without_random(&mut self) {
        let refused = Error::from(ErrorKind::PermissionDenied);
        self.end(&ProgramEnd::without_random(refused));
    }

    /// Keeps what the program tells at an ending, and its status.
    fn end(&mut self, ended: &ProgramEnd) {
        self.said.clear();
        ended.tell(&mut self.said);
        self.status = ended.ending.status();
    }
}

/// Tells that words ask for nothing, and gives the text of that.
fn told_by<'a>(fault: &'a LineFault, step: &mut TextStep<'_>) -> &'a [u8] {
    match fault {
        LineFault::Usage(text) => {
            step.tell(b"refused");
            text.as_bytes()
        }
        LineFault::Help(text) => {
            step.tell(b"help");
            text.as_bytes()
        }
        _ => {
            step.tell(b"out of memory");
            b""
        }
    }
}

/// Whether what was reported says what is wrong, and how the program's words are spelled.
fn is_usage(said: &[u8]) -> bool {
    let text = str::from_utf8(said).unwrap_or("");
    text.starts_with("error: ") && text.contains("\n\nUsage: kangaroo ")
}

/// Tells a name if there is one.
fn tell_named(name: &[u8], file: &Option<FileName>, step: &mut TextStep<'_>) {
    if let Some(file) = file {
        step.tell_pair(name, file.as_str().as_bytes());
    }
}

/// Tells a word if it is so.
pub fn tell_if(is_so: bool, word: &[u8], step: &mut TextStep<'_>) {
    if is_so {
        step.tell(word);
    }
}

fn tell_check(request: &CheckRequest, step: &mut TextStep<'_>) {
    step.tell(b"check");
    step.tell(request.file.as_str().as_bytes());
    tell_if(request.explain, b"explain", step);
    tell_if(request.json, b"json", step);
    tell_named(b"picture", &request.picture, step);
}

fn tell_judge(request: &JudgeRequest, step: &mut TextStep<'_>) {
    step.tell(b"judge");
    step.tell(request.file.as_str().as_bytes());
    for other in &request.others {
        step.tell(other.as_str().as_bytes());
    }
    tell_if(request.detail.explain, b"explain", step);
    tell_if(request.detail.all, b"all", step);
    tell_if(request.json, b"json", step);
    tell_named(b"picture", &request.picture, step);
    tell_named(b"trace", &request.trace, step);
    tell_named(b"junit", &request.junit, step);
    tell_if(request.detail.page, b"page", step);
    tell_named(b"html", &request.html, step);
    tell_scope(request, step);
}

/// Tells which calls are judged, if not just all, and how many there have to be.
fn tell_scope(request: &JudgeRequest, step: &mut TextStep<'_>) {
    if request.at_least != 0 {
        step.tell(b"at-least");
        step.tell_number(request.at_least);
    }
    if request.scope.skew != 0 {
        step.tell(b"skew");
        step.tell_number(request.scope.skew);
    }
    tell_if(request.scope.reading.skip_bad, b"skip-bad", step);
    if let Some(window) = request.scope.window {
        step.tell(b"window");
        step.tell_number(window);
    }
}

fn tell_show(request: &ShowRequest, step: &mut TextStep<'_>) {
    step.tell(b"show");
    step.tell(request.file.as_str().as_bytes());
    if let Some(key) = &request.key {
        step.tell_pair(b"key", key.as_bytes());
    }
}

/// Reads the command lines of a text, and tells what they ask for, and what the program reports.
pub fn ask(alloc: Global, text: &[u8]) -> Result<(), Fail> {
    let mut asked = Asked {
        said: Vec::new(alloc),
        status: 0,
        share: Share::ALL,
    };
    run_text(alloc, &mut asked, text)
}
