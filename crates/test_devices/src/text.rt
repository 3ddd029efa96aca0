// The text of a test, and the loop over its steps.
use crate::text_step::TextStep;
use std::alloc::Global;
use std::fmt;
use std::fmt::{Display, Formatter, Write};
use std::test::Fail;

/// What the steps of a text are calls of.
pub trait Scripted {
    /// What has to be known for a call to be made.
    ghost can_act: { Type 0 };

    /// Takes the words of a call, makes it, and tells its answer. It fails if memory was refused.
    fn act(&mut self, alloc: Global, step: &mut TextStep<'_>) -> Result<(), Fail>
        requires { can_act };
}

/// A line of a text with a step that ends otherwise than it tells.
#[derive(Drop)]
pub struct WrongLine<'a> {
    /// Its number, from 1.
    pub number: u64,
    step: TextStep<'a>,
}

impl Display for WrongLine<'_> {
    fn fmt<W: Write>(&self, f: &mut Formatter<W>) -> fmt::Result {
        write!(f, "line {} tells{}", self.number, self.step.told())
    }
}

/// Makes the calls of a text, and fails at the first line that is wrong.
pub fn run_text<S: Scripted>(alloc: Global, scripted: &mut S, text: &[u8]) -> Result<(), Fail>
    requires { S.can_act }
{
    match find_wrong_line(alloc, scripted, text)? {
        None => Ok(()),
        Some(wrong) => Err(Fail::new(wrong)),
    }
}

/// Makes the calls of a line, the one of this number, and says how many there were. It fails with that number if one is wrong. Who has
/// more to do after each line asks for a text's lines one by one, and sees in the end whether there was a call at all.
pub fn run_line<S: Scripted>(
    alloc: Global,
    scripted: &mut S,
    number: u64,
    line: &[u8],
) -> Result<u64, Fail>
    requires { S.can_act }
{
    let mut made = 0u64;
    match find_wrong_step(alloc, scripted, line, &mut made)? {
        None => Ok(made),
        Some(step) => Err(Fail::new(WrongLine { number, step })),
    }
}

/// Makes the calls of a text, to the first line that is wrong. A step ends at a line feed or a semicolon, and blanks at its ends
/// are skipped. So are empty steps, and lines that begin with `#`. If no step is left the last line is wrong.
pub fn find_wrong_line<'a, S: Scripted>(
    alloc: Global,
    scripted: &mut S,
    text: &'a [u8],
) -> Result<Option<WrongLine<'a>>, Fail>
    requires { S.can_act }
{
    let mut number = 0u64;
    let mut made = 0u64;
    for line in text.split(|b| *b == b'\n') {
        number = number.wrapping_add(1);
        if let Some(step) = find_wrong_step(alloc, scripted, line, &mut made)? {
            return Ok(Some(WrongLine { number, step }));
        }
    }
    if made > 0 {
        return Ok(None);
    }
    Ok(Some(WrongLine {
        number,
        step: TextStep::refused(),
    }))
}

// Makes the calls of a line and counts them, to the first that ends otherwise than it tells.
fn find_wrong_step<'a, S: Scripted>(
    alloc: Global,
    scripted: &mut S,
    line: &'a [u8],
    made: &mut u64,
) -> Result<Option<TextStep<'a>>, Fail>
    requires { S.can_act }
{
    if is_comment(line) {
        return Ok(None);
    }
    for bytes in line.split(|b| *b == b';') {
        let mut step = TextStep::new(bytes);
        if step.has_words() {
            scripted.act(alloc, &mut step)?;
            *made = made.wrapping_add(1);
            if !step.is_right() {
                return Ok(Some(step));
            }
        }
    }
    Ok(None)
}

// Whether the first byte that is no blank is `#`.
fn is_comment(line: &[u8]) -> bool {
    line.iter().find(|b| **b != b' ') == Some(&b'#')
}
