// The script of a test's text.
use super::streams::{Input, Output, Refuses};
use crate::tests::words::name_of_ending;
use command_line::{Ending, answer_script};
use scripts::{ScriptFault, run_script};
use std::alloc::Global;
use std::hash::{BuildHasherDefault, FoldHasher};
use std::io::BufWriter;
use std::test::Fail;
use test_devices::{Scripted, TextStep, is, run_text};

/// What hashes keys in these tests.
type Known = BuildHasherDefault<FoldHasher>;

/// How a script is read and written.
#[derive(Clone, Copy)]
struct Ways {
    is_large: bool,
    is_slow: bool,
    fails_at: Option<usize>,
    refuses: Refuses,
}

/// The pages have 256 bytes, all is read at once, and nothing is refused.
const PLAIN: Ways = Ways {
    is_large: false,
    is_slow: false,
    fails_at: None,
    refuses: Refuses::Nothing,
};

/// The lines of a script with the replies that they must get, and when the last output was flushed.
#[derive(Drop)]
struct Played {
    lines: Vec<u8>,
    replies: Vec<u8>,
    ways: Ways,
    flushes: u64,
    flushed: u64,
}

impl Scripted for Played {
    ghost use Rattle.std.specs.Prelude.{⊤};

    ghost can_act = { ⊤ };

    fn act(&mut self, alloc: Global, step: &mut TextStep<'_>) -> Result<(), Fail> {
        let word = step.word();
        if is(word, b"end") {
            self.end(alloc, step);
        } else if is(word, b"answer") {
            self.answer(alloc, step)?;
        } else if !self.is_set(word, step) {
            add_line(alloc, &mut self.lines, word, step)?;
            let word = step.word();
            if !word.is_empty() {
                add_line(alloc, &mut self.replies, word, step)?;
            }
        }
        Ok(())
    }
}

impl Played {
    /// Takes what the next script is read and written by, and says whether a word is of that.
    fn is_set(&mut self, word: &[u8], step: &mut TextStep<'_>) -> bool {
        if is(word, b"large") {
            self.ways.is_large = true;
        } else if is(word, b"slow") {
            self.ways.is_slow = true;
        } else if is(word, b"fails") {
            self.ways.fails_at = Some(step.small() as usize);
        } else if is(word, b"refuse-writes") {
            self.ways.refuses = Refuses::Writes;
        } else if is(word, b"refuse-flushes") {
            self.ways.refuses = Refuses::Flushes;
        } else if is(word, b"cut") {
            let _ = self.lines.pop();
        } else if is(word, b"flushed") {
            step.tell_number(self.flushes);
            step.tell_number(self.flushed);
        } else {
            return false;
        }
        true
    }

    /// The lines as they are read.
    fn input(&self) -> Input<'_> {
        Input {
            rest: self.lines.as_slice(),
            is_slow: self.ways.is_slow,
            fails_at: self.ways.fails_at,
            is_over: false,
        }
    }

    /// Runs the script, and tells how it ends.
    fn end(&mut self, alloc: Global, step: &mut TextStep<'_>) {
        let mut input = self.input();
        let mut output = Output::new(alloc, self.ways.refuses);
        let ended = if self.ways.is_large {
            run_script::<4096, Input, Output>(alloc, &mut input, &mut output)
        } else {
            run_script::<256, Input, Output>(alloc, &mut input, &mut output)
        };
        if ended == Err(ScriptFault::WriteFault) {
            step.tell(b"write fault");
        } else {
            tell_ending(Ending::of_script(ended), step);
        }
        self.finish(&output, step);
    }

    /// Answers the script as the program does, and tells how that ends, and how many bytes the output has.
    fn answer(&mut self, alloc: Global, step: &mut TextStep<'_>) -> Result<(), Fail> {
        let mut input = self.input();
        let mut writer = BufWriter::new(alloc, Output::new(alloc, self.ways.refuses))?;
        let ended = answer_script::<256, Known, Input, Output>(
            alloc,
            Known::new(),
            &mut input,
            &mut writer,
        );
        step.tell(name_of_ending(ended));
        step.tell_number(writer.get_ref().bytes.len() as u64);
        self.finish(writer.get_ref(), step);
        Ok(())
    }

    /// Tells what was written, if it is not what the lines must get, and begins another script.
    fn finish(&mut self, output: &Output, step: &mut TextStep<'_>) {
        if output.bytes != self.replies {
            step.tell(b"with");
            step.tell(output.bytes.as_slice());
        }
        self.lines.clear();
        self.replies.clear();
        self.ways = PLAIN;
        self.flushes = output.flushes;
        self.flushed = output.flushed;
    }
}

/// Tells how a script ended.
fn tell_ending(ending: Ending, step: &mut TextStep<'_>) {
    if ending == Ending::Done {
        step.tell(b"ended");
    } else {
        step.tell(name_of_ending(ending));
    }
}

/// Adds a line of the words from the first on, up to `->`.
fn add_line(
    alloc: Global,
    text: &mut Vec<u8>,
    first: &[u8],
    step: &mut TextStep<'_>,
) -> Result<(), Fail> {
    let mut word = first;
    for place in 0..16usize {
        if word.is_empty() || is(word, b"->") {
            break;
        }
        if place > 0 {
            text.push(b' ')?;
        }
        add_word(alloc, text, word)?;
        word = step.word();
    }
    Ok(text.push(b'\n')?)
}

/// Adds a word: `v*200` is 200 of the byte `v`.
fn add_word(alloc: Global, text: &mut Vec<u8>, word: &[u8]) -> Result<(), Fail> {
    if let [byte, b'*', digits @ ..] = word {
        let count = str::from_utf8(digits)?.parse::<usize>()?;
        text.extend_from_slice(vec![in alloc; *byte; count]?.as_slice())?;
    } else {
        text.extend_from_slice(word)?;
    }
    Ok(())
}

/// Runs the scripts of a text, whose lines stand with their replies. At an end, or an answer, they begin anew; so each script has one.
pub fn play(alloc: Global, text: &[u8]) -> Result<(), Fail> {
    let mut played = Played {
        lines: Vec::new(alloc),
        replies: Vec::new(alloc),
        ways: PLAIN,
        flushes: 0,
        flushed: 0,
    };
    run_text(alloc, &mut played, text)?;
    if played.lines.is_empty() {
        Ok(())
    } else {
        Err("a script without an end".into())
    }
}
