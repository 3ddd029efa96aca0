//! Texts of cases. A case has steps, what they are given, and what they have to report, with a `^` between each two. A `@` ends a case.
use crate::tests::judging::{
    End, checked, counted, judged, junit_of, page_of, shown, streamed, trace_of, turn, whole,
};
use crate::tests::reading::{key_told, named, tell_came, told_of};
use figures::Form;
use judge_run::{Detail, JudgeEnd, Scope, TellFault};
use std::alloc::{AllocError, Global};
use std::test::Fail;
use test_devices::{Scripted, TextStep, find_wrong_line, is};

/// What steps are given, what they have to report, and what is asked of those to come.
#[derive(Drop)]
struct Case<'a> {
    given: Vec<u8>,
    told: &'a [u8],
    scope: Scope,
    form: Form,
    detail: Detail,
    least: usize,
}

impl Scripted for Case<'_> {
    ghost use Rattle.std.specs.Prelude.{⊤};

    ghost can_act = { ⊤ };

    fn act(&mut self, alloc: Global, step: &mut TextStep<'_>) -> Result<(), Fail> {
        let word = step.word();
        if self.asks(word, step) || self.gives(alloc, word, step)? {
            return Ok(());
        }
        let mut told: Vec<u8> = Vec::new(alloc);
        self.call(alloc, word, step, &mut told)?;
        if told.as_slice() != self.told {
            step.tell(b"and otherwise");
        }
        Ok(())
    }
}

impl Case<'_> {
    /// Asks something of the steps to come, and says whether the word is one of that.
    fn asks(&mut self, word: &[u8], step: &mut TextStep<'_>) -> bool {
        if is(word, b"json") {
            self.form = Form::Json;
        } else if is(word, b"explain") {
            self.detail.explain = true;
        } else if is(word, b"all") {
            self.detail.all = true;
        } else if is(word, b"warm") {
            self.scope.warm = true;
        } else if is(word, b"skip") {
            self.scope.reading.skip_bad = true;
        } else if is(word, b"skew") {
            self.scope.skew = step.number();
        } else if is(word, b"window") {
            self.scope.window = Some(step.number());
        } else if is(word, b"least") {
            self.least = step.number() as usize;
        } else {
            return false;
        }
        true
    }

    /// Changes what is given, and says whether the word is one of that.
    fn gives(
        &mut self,
        alloc: Global,
        word: &[u8],
        step: &mut TextStep<'_>,
    ) -> Result<bool, AllocError> {
        if is(word, b"fill") {
            fill(&mut self.given, step.word(), step.number())?;
        } else if is(word, b"line") {
            push_line(&mut self.given, step)?;
        } else if is(word, b"fill-line") {
            fill_line(alloc, &mut self.given, step)?;
        } else if is(word, b"callers") {
            push_callers(alloc, &mut self.given, step.number())?;
        } else if is(word, b"trace") {
            self.given = trace_of(alloc, self.given.as_slice())?;
        } else if is(word, b"turn") {
            turn(&mut self.given, step);
        } else {
            return Ok(false);
        }
        Ok(true)
    }

    /// Judges, reads or shows what is given.
    fn call(
        &self,
        alloc: Global,
        word: &[u8],
        step: &mut TextStep<'_>,
        told: &mut Vec<u8>,
    ) -> Result<(), AllocError> {
        let given = self.given.as_slice();
        if is(word, b"judge") || is(word, b"check") {
            self.judge(alloc, is(word, b"check"), step, told)?;
        } else if is(word, b"show") {
            tell_status(shown(alloc, given, &[], told), step)?;
        } else if is(word, b"show-key") {
            tell_status(shown(alloc, given, step.word(), told), step)?;
        } else if is(word, b"junit") {
            junit_of(alloc, given, self.least, told)?;
        } else if is(word, b"page") {
            page_of(alloc, given, self.scope, told)?;
        } else if is(word, b"stream") {
            tell_end(
                streamed(alloc, given, self.scope, step.number(), step.number()),
                step,
            );
        } else if is(word, b"whole") {
            tell_end(whole(alloc, given, self.scope), step);
        } else if is(word, b"count") {
            counted(alloc, given, step.number(), step.number(), told)?;
        } else if is(word, b"came") {
            tell_came(alloc, self.scope.reading, given, step, told)?;
        } else if is(word, b"read") {
            told_of(alloc, given, step.word(), told)?;
        } else if is(word, b"named") {
            named(alloc, given, step)?;
        } else if is(word, b"key") {
            key_told(alloc, given, step, told)?;
        } else {
            step.refuse();
        }
        Ok(())
    }

    /// Judges what is given as a text, or checks it as a trace, and tells how that ends.
    fn judge(
        &self,
        alloc: Global,
        checks: bool,
        step: &mut TextStep<'_>,
        told: &mut Vec<u8>,
    ) -> Result<(), AllocError> {
        let mut left = self.given.as_slice();
        let (form, detail) = (self.form, self.detail);
        let end = if checks {
            checked(alloc, form, detail.explain, &mut left, told)
        } else {
            judged(alloc, form, self.scope, detail, self.least, &mut left, told)
        };
        tell_status(end, step)
    }
}

/// Tells how a program ends.
fn tell_status(
    end: Result<JudgeEnd, TellFault>,
    step: &mut TextStep<'_>,
) -> Result<(), AllocError> {
    match end {
        Ok(end) => {
            step.tell(name_of(end));
            Ok(())
        }
        Err(_) => Err(AllocError),
    }
}

/// Gives bytes so many times.
fn fill(given: &mut Vec<u8>, piece: &[u8], count: u64) -> Result<(), AllocError> {
    for _ in 0..count {
        given.extend_from_slice(piece)?;
    }
    Ok(())
}

/// Gives a line of the words that are left after a number, so many times.
fn fill_line(
    alloc: Global,
    given: &mut Vec<u8>,
    step: &mut TextStep<'_>,
) -> Result<(), AllocError> {
    let count = step.number();
    let mut line: Vec<u8> = Vec::new(alloc);
    push_line(&mut line, step)?;
    fill(given, line.as_slice(), count)
}

/// Gives a line of the words that are left.
pub fn push_line(given: &mut Vec<u8>, step: &mut TextStep<'_>) -> Result<(), AllocError> {
    for place in 0..8u32 {
        let word = step.word();
        if word.is_empty() {
            break;
        }
        if place > 0 {
            given.push(b' ')?;
        }
        given.extend_from_slice(word)?;
    }
    given.push(b'\n')?;
    Ok(())
}

/// Gives a miss of each of so many callers.
fn push_callers(alloc: Global, given: &mut Vec<u8>, count: u64) -> Result<(), AllocError> {
    for caller in 0..count {
        let line = format!(in alloc; "{caller} 1 2 miss k\n")?;
        given.extend_from_slice(line.as_bytes())?;
    }
    Ok(())
}

/// The word of how a program ends.
fn name_of(end: JudgeEnd) -> &'static [u8] {
    match end {
        JudgeEnd::Done => b"done",
        JudgeEnd::Rejected => b"rejected",
        JudgeEnd::BadInput => b"bad-input",
        JudgeEnd::TooFew => b"too-few",
        JudgeEnd::Undecided => b"undecided",
        JudgeEnd::OutOfMemory => b"out-of-memory",
        JudgeEnd::CountFull => b"count-full",
        JudgeEnd::FileFault => b"file-fault",
    }
}

/// Tells what comes of judging a stream.
fn tell_end(end: End, step: &mut TextStep<'_>) {
    match end {
        End::Accepted => step.tell(b"accepted"),
        End::Rejected => step.tell(b"rejected"),
        End::Undecided => step.tell(b"undecided"),
        End::Late(line) => {
            step.tell(b"late");
            step.tell_number(line);
        }
        End::Fault => step.tell(b"fault"),
    }
}

/// Takes the steps of the cases of a text, and fails at the first that is wrong.
pub fn check_cases(alloc: Global, text: &[u8]) -> Result<(), Fail> {
    let mut number = 0u64;
    for case in text.split(|b| *b == b'@') {
        number = number.wrapping_add(1);
        check_case(alloc, case, number)?;
    }
    Ok(())
}

/// Takes the steps of a case.
fn check_case(alloc: Global, bytes: &[u8], number: u64) -> Result<(), Fail> {
    let (steps, rest) = parted(bytes);
    let (given, told) = parted(rest);
    let mut case = Case {
        given: Vec::from_slice(alloc, given)?,
        told,
        scope: Scope::WHOLE,
        form: Form::Lines,
        detail: Detail::NONE,
        least: 0,
    };
    match find_wrong_line(alloc, &mut case, steps)? {
        None => Ok(()),
        Some(wrong) => Err(Fail::new(format_args!("case {number}: {wrong}"))),
    }
}

/// The bytes before the first `^`, and those after it.
pub fn parted(bytes: &[u8]) -> (&[u8], &[u8]) {
    match bytes.iter().position(|b| *b == b'^') {
        Some(at) => (&bytes[..at], &bytes[at + 1..]),
        None => (bytes, &[]),
    }
}
