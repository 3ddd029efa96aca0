//! Files and standard input that are read, and files that are written.
use crate::tests::cases::{parted, push_line};
use history_text::Share;
use judge_run::{
    CheckRequest, Detail, JudgeRequest, Scope, ShowRequest, check_with, judge_with, run_check,
    run_judge, run_show, show_with,
};
use std::alloc::{AllocError, Global};
use std::fs;
use std::mem::replace;
use std::random::RandomSource;
use std::rt::Files;
use std::test::Fail;
use test_devices::{Scripted, TextStep, is, run_text};
use trace_file::FileName;

/// A trace of two puts, of `k` and of `j`.
const TRACE: &[u8] =
    b"KGTRACE1\0\0\0\x02\x01\0\0\0\0\0\0\0\0\0\x01\0\0\0\0\0\0\0\x04\x01k\0\x01v\x01\0\x01\0\0\0\0\0\0\0\x05\0\0\0\0\0\0\0\x06\x01j\0\x01w\0\0\0\0\0\0\0\x01";

/// A trace whose certificate has the hit of `k` before its put.
const TURNED: &[u8] =
    b"KGTRACE1\0\0\0\x02\x01\0\0\0\0\0\0\0\0\0\x01\0\0\0\0\0\0\0\x04\x01k\0\x01v\x03\0\x01\0\0\0\0\0\0\0\x02\0\0\0\0\0\0\0\x06\x01k\0\x01v\0\0\0\x01\0\0\0\0";

/// A page beside the verdict.
const PAGED: Detail = Detail {
    explain: false,
    all: false,
    page: true,
};

/// What is asked of the next judging: no files that are written, further files that are judged, and what of the calls is judged.
#[derive(Drop)]
pub(super) struct Asked {
    bare: bool,
    json: bool,
    others: Vec<FileName>,
    at_least: u64,
    scope: Scope,
}

/// Nothing is asked.
pub(super) fn unasked(alloc: Global) -> Asked {
    Asked {
        bare: false,
        json: false,
        others: Vec::new(alloc),
        at_least: 0,
        scope: Scope::WHOLE,
    }
}

/// The bytes of the standard input or of the next file, what is asked, and what was written so far.
#[derive(Drop)]
struct Played<'a, R> {
    rt: &'a R,
    input: Vec<u8>,
    asked: Asked,
    out: Vec<u8>,
    err: Vec<u8>,
}

impl<R: AllocGlobal + Files + Input + RandomSource> Scripted for Played<'_, R> {
    ghost use Rattle.std.specs.Prelude.{⊤};

    ghost can_act = { ⊤ };

    fn act(&mut self, alloc: Global, step: &mut TextStep<'_>) -> Result<(), Fail> {
        let word = step.word();
        if asks(alloc, &mut self.asked, word, step)? || gives(&mut self.input, word, step)? {
            return Ok(());
        }
        let name = step.word();
        let file = str::from_utf8(name).unwrap_or("");
        if is(word, b"judge") || is(word, b"check") || is(word, b"show") {
            let status = self.run(alloc, word, file, step)?;
            step.tell_number(u64::from(status));
            self.asked = unasked(alloc);
        } else if !handle(self.rt, word, file, self.input.as_slice())? {
            step.refuse();
        }
        self.input.clear();
        Ok(())
    }
}

impl<R: AllocGlobal + Files + Input + RandomSource> Played<'_, R> {
    /// Judges, checks or shows a file, or the standard input if that is asked or the name is `-`, and gives the status.
    fn run(
        &mut self,
        alloc: Global,
        word: &[u8],
        file: &str,
        step: &mut TextStep<'_>,
    ) -> Result<u8, AllocError> {
        let lent = file == "-" || self.asked.bare;
        let mut input = self.input.as_slice();
        let (rt, out, err) = (self.rt, &mut self.out, &mut self.err);
        if is(word, b"judge") {
            let request = judge_of(alloc, file, &mut self.asked)?;
            return Ok(if lent {
                judge_with(rt, &mut input, &request, out, err)
            } else {
                run_judge(rt, &request, out, err)
            });
        }
        if is(word, b"check") {
            let request = check_of(alloc, file)?;
            return Ok(if lent {
                check_with(rt, &mut input, &request, out, err)
            } else {
                run_check(rt, &request, out, err)
            });
        }
        let request = show_of(alloc, file, step.word())?;
        Ok(if lent {
            show_with(rt, &mut input, &request, out, err)
        } else {
            run_show(rt, &request, out, err)
        })
    }
}

/// Asks something of the next judging, and says whether the word is one of that.
fn asks(
    alloc: Global,
    asked: &mut Asked,
    word: &[u8],
    step: &mut TextStep<'_>,
) -> Result<bool, AllocError> {
    if is(word, b"bare") {
        asked.bare = true;
    } else if is(word, b"json") {
        asked.json = true;
    } else if is(word, b"least") {
        asked.at_least = step.number();
    } else if is(word, b"skew") {
        asked.scope.skew = step.number();
    } else if is(word, b"keys") {
        asked.scope.reading.share = Share::new(step.small(), 2).unwrap_or(Share::ALL);
    } else if is(word, b"other") {
        asked.others.push(name_of(alloc, step.word())?)?;
    } else {
        return Ok(false);
    }
    Ok(true)
}

/// Gives bytes, and says whether the word is one of that.
fn gives(input: &mut Vec<u8>, word: &[u8], step: &mut TextStep<'_>) -> Result<bool, AllocError> {
    if is(word, b"line") {
        push_line(input, step)?;
    } else if is(word, b"trace") {
        input.extend_from_slice(TRACE)?;
    } else if is(word, b"turned") {
        input.extend_from_slice(TURNED)?;
    } else {
        return Ok(false);
    }
    Ok(true)
}

/// Writes a file or removes it, or looks for the picture, and says whether there was what the word says.
fn handle<R: AllocGlobal + Files>(
    rt: &R,
    word: &[u8],
    file: &str,
    bytes: &[u8],
) -> Result<bool, Fail> {
    if is(word, b"write") {
        return Ok(fs::write(rt, file, bytes).is_ok());
    }
    if is(word, b"remove") {
        return Ok(fs::remove_file(rt, file).is_ok());
    }
    if is(word, b"no-picture") {
        return Ok(fs::open(rt, "judged.svg").is_err());
    }
    if is(word, b"no-page") {
        return Ok(fs::open(rt, "judged.html").is_err());
    }
    if is(word, b"page") {
        let page: Vec<u8> = fs::read(rt, "judged.html")?;
        fs::remove_file(rt, "judged.html")?;
        return Ok(page.starts_with(b"<!DOCTYPE html>\n") && page.ends_with(b"</html>\n"));
    }
    Ok(is(word, b"picture") && is_drawn(rt)?)
}

/// Whether the picture is one element. It is removed.
fn is_drawn<R: AllocGlobal + Files>(rt: &R) -> Result<bool, Fail> {
    let picture: Vec<u8> = fs::read(rt, "judged.svg")?;
    fs::remove_file(rt, "judged.svg")?;
    Ok(picture.starts_with(b"<svg ") && picture.ends_with(b"</svg>\n"))
}

/// A file's name.
fn name_of(alloc: Global, word: &[u8]) -> Result<FileName, AllocError> {
    FileName::new(alloc, str::from_utf8(word).unwrap_or(""))
}

/// The name of a file that is written, unless nothing is.
fn written(alloc: Global, bare: bool, name: &str) -> Result<Option<FileName>, AllocError> {
    if bare {
        return Ok(None);
    }
    Ok(Some(FileName::new(alloc, name)?))
}

/// Judging a file.
pub(super) fn judge_of(
    alloc: Global,
    file: &str,
    asked: &mut Asked,
) -> Result<Box<JudgeRequest>, AllocError> {
    let bare = asked.bare;
    let file = FileName::new(alloc, file)?;
    let picture = written(alloc, bare, "judged.svg")?;
    let trace = written(alloc, bare, "judged.trace")?;
    let junit = written(alloc, bare, "judged.xml")?;
    let html = written(alloc, bare, "judged.html")?;
    let request = JudgeRequest {
        others: replace(&mut asked.others, Vec::new(alloc)),
        file,
        detail: PAGED,
        json: asked.json,
        picture,
        trace,
        junit,
        html,
        at_least: asked.at_least,
        scope: asked.scope,
    };
    Ok(Box::new(alloc, request)?)
}

/// A check of a file, with a picture.
pub(super) fn check_of(alloc: Global, file: &str) -> Result<CheckRequest, AllocError> {
    Ok(CheckRequest {
        file: FileName::new(alloc, file)?,
        explain: false,
        json: false,
        picture: written(alloc, false, "judged.svg")?,
    })
}

/// Showing a file, the calls of a key.
fn show_of(alloc: Global, file: &str, key: &[u8]) -> Result<ShowRequest, AllocError> {
    let key = str::from_utf8(key).unwrap_or("");
    Ok(ShowRequest {
        file: FileName::new(alloc, file)?,
        key: Some(String::from_str(alloc, key)?),
    })
}

/// Takes the steps of each case of a text, and looks at what is written to the standard output, and to the standard error, if that
/// is told.
pub(super) fn run_cases<R: AllocGlobal + Files + Input + RandomSource>(
    rt: &R,
    text: &[u8],
) -> Result<(), Fail> {
    for case in text.split(|b| *b == b'@') {
        run_case(rt, case)?;
    }
    Ok(())
}

fn run_case<R: AllocGlobal + Files + Input + RandomSource>(
    rt: &R,
    case: &[u8],
) -> Result<(), Fail> {
    let (steps, told) = parted(case);
    let (out, err) = parted(told);
    let mut played = Played {
        rt,
        input: Vec::new(rt.alloc()),
        asked: unasked(rt.alloc()),
        out: Vec::new(rt.alloc()),
        err: Vec::new(rt.alloc()),
    };
    run_text(rt.alloc(), &mut played, steps)?;
    if played.out.as_slice() != out || (!err.is_empty() && played.err.as_slice() != err) {
        return Err("another output".into());
    }
    Ok(())
}

static STEPS: &[u8] = b"
# what is no file is no trace
check absent 3
check . 2
# an accepted history is written as a trace, and no picture is drawn
line a 1 4 put k v; line b 5 6 hit k v; line a 7 8 put j w; write judged.txt
judge judged.txt 0; check judged.trace 0; no-picture; page
# a rejected one is drawn, and the trace stays
line a 1 4 remove k; line b 5 6 hit k v; write judged.txt
judge judged.txt 1; picture; page
show judged.trace k 0; show judged.trace j 0
# a text with a bad line has no page
line a 1 4 get k; write judged.txt; judge judged.txt 2; no-page
# a word that writes no key
show judged.trace %4 2
# a rejected trace is drawn
turned; write judged.trace; check judged.trace 1; picture
# `-` is the standard input, and no file
line a 1 4 hit k v; write -
line a 1 4 put k v; judge - 0; no-picture
line a 1 4 hit k w; judge - 1; picture
trace; check - 0; no-picture
turned; check - 1; picture
trace; show - k 0
trace; show - j 0
remove -
# also if no file has that name
judge - 0
check - 2
trace; show - j 0
# an accepted history that is too short is bad input, a rejected one is rejected
line a 1 4 put k v; least 1; judge - 0
line a 1 4 put k v; least 2; judge - 2
least 1; judge - 2
line a 1 4 hit k w; least 2; judge - 1; picture
# a hit of v starts 5 after the put of w has ended, which starts 10 after the put of v has ended: it is stale for clocks that are 4
# apart, and right for some that are 6 apart
line a 0 10 put k v; line b 20 30 put k w; line c 35 40 hit k v; skew 0; judge - 1
line a 0 10 put k v; line b 20 30 put k w; line c 35 40 hit k v; skew 2; judge - 1; picture
line a 0 10 put k v; line b 20 30 put k w; line c 35 40 hit k v; skew 3; judge - 0; no-picture
# a key that is not asked for
line a 1 4 put k v; keys 0; judge - 0
line a 1 4 put k v; keys 1; judge - 0
remove judged.txt; remove judged.trace; remove judged.xml; remove judged.html
^bad trace ReadFault at 0
accepted 3 calls
accepted 3 calls
rejected hit key k lines 2
c0 1 4 put k v
c1 5 6 hit k v
c0 7 8 put j w
bad line 1: the fourth word must be put, hit, miss or remove
rejected WrongHit place 0
accepted 1 calls
rejected hit key k lines 1
accepted 2 calls
rejected WrongHit place 0
c0 1 4 put k v
c1 5 6 put j w
accepted 0 calls
bad trace Truncated at 0
c1 5 6 put j w
accepted 1 calls
accepted 1 calls
accepted 0 calls
rejected hit key k lines 1
rejected hit key k lines 1 2 3
rejected hit key k lines 1 2 3
accepted 3 calls
accepted 1 calls
accepted 0 calls
^file fault
absent: No such file or directory (os error 2)
check the name of the file and its permissions
.: at offset 0: a read failed: check that this is a readable file, and try again
judged.txt: line 1 is not a call, so nothing was judged: correct it and judge again
if this is a trace, use kangaroo check
--key: bad percent-encoding in the key: % must be followed by two hexadecimal digits
standard input: warning: the input has no calls
standard input: at offset 0: the input ends before the trace does: write or copy the whole trace again
standard input: 1 calls, and --at-least asks for 2: see whether the recorder wrote all of them
standard input: warning: the input has no calls
standard input: 0 calls, and --at-least asks for 1: see whether the recorder wrote all of them
standard input: warning: no call of the input has a key that --keys takes
";

#[test]
fn files_are_read_and_what_is_wanted_is_written(rt: HostRuntime) -> Result<(), Fail> {
    run_cases(&rt, STEPS)
}
