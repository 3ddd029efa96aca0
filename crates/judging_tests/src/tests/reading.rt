//! Reading and writing histories as text.
use history_text::{
    LineCause, ReadTextFault, Reading, TextFault, TextHistory, key_bytes, read_text, write_text,
};
use std::alloc::{AllocError, Global};
use std::hash::{BuildHasherDefault, FoldHasher};
use std::io::Read;
use test_devices::TextStep;
use trace_file::History;

/// What came of reading a text: how many calls and callers it has, how many lines were passed over, and the line of each call.
#[derive(Drop)]
pub struct Came {
    pub calls: usize,
    pub callers: usize,
    pub skipped: u64,
    pub lines: Vec<u64>,
}

/// What comes of reading a text by a table that hashes by a known seed.
pub fn came_of<R: Read>(
    alloc: Global,
    reading: Reading,
    reader: &mut R,
) -> Result<Came, ReadTextFault> {
    let known: BuildHasherDefault<FoldHasher> = BuildHasherDefault::new();
    match read_text(alloc, known, reading, reader) {
        Ok(read) => Ok(Came {
            calls: read.text.history.len(),
            callers: read.text.callers.len(),
            skipped: read.skipped,
            lines: read.text.lines,
        }),
        Err(fault) => Err(fault),
    }
}

/// A history that is read from a text without bad lines, with its lines and its callers.
pub type Text = TextHistory<BuildHasherDefault<FoldHasher>>;

/// The history of a whole text.
pub fn read(alloc: Global, mut text: &[u8]) -> Result<Box<Text>, ReadTextFault> {
    let known: BuildHasherDefault<FoldHasher> = BuildHasherDefault::new();
    match read_text(alloc, known, Reading::WHOLE, &mut text) {
        Ok(read) => match Box::new(alloc, read.text) {
            Ok(text) => Ok(text),
            Err(_) => Err(ReadTextFault::OutOfMemory),
        },
        Err(fault) => Err(fault),
    }
}

/// Tells what comes of reading a text: how many calls and callers it has, how many lines were passed over, and the line of each call.
pub fn tell_came(
    alloc: Global,
    reading: Reading,
    mut text: &[u8],
    step: &mut TextStep<'_>,
    told: &mut Vec<u8>,
) -> Result<(), AllocError> {
    match came_of(alloc, reading, &mut text) {
        Ok(came) => {
            tell_read(&came, step);
            Ok(())
        }
        Err(fault) => {
            step.tell(b"bad");
            tell_bad(alloc, fault, told)
        }
    }
}

/// Tells a text that was read.
fn tell_read(came: &Came, step: &mut TextStep<'_>) {
    step.tell_number(came.calls as u64);
    step.tell_number(came.callers as u64);
    step.tell_number(came.skipped);
    for line in &came.lines {
        step.tell_number(u64::from(*line));
    }
}

/// Tells a bad line.
fn tell_bad(alloc: Global, fault: ReadTextFault, told: &mut Vec<u8>) -> Result<(), AllocError> {
    let ReadTextFault::Bad(bad) = fault else {
        return Err(AllocError);
    };
    let line = format!(in alloc; "{bad}\n")?;
    told.extend_from_slice(line.as_bytes())
}

/// What is reported of a text: the first bad line, or the text that is written of what was read, or of its calls of this key, if that
/// has bytes.
pub fn told_of(
    alloc: Global,
    text: &[u8],
    key: &[u8],
    told: &mut Vec<u8>,
) -> Result<(), AllocError> {
    match read(alloc, text) {
        Ok(text) => written(alloc, &text.history, key, told),
        Err(fault) => tell_bad(alloc, fault, told),
    }
}

/// The text of a history, or of its calls of this key, if that has bytes.
fn written(
    alloc: Global,
    history: &History,
    key: &[u8],
    told: &mut Vec<u8>,
) -> Result<(), AllocError> {
    let only = if key.is_empty() { None } else { Some(key) };
    match write_text(alloc, history, only, told) {
        Ok(()) => Ok(()),
        Err(_) => Err(AllocError),
    }
}

/// Takes the number of a caller of a text, and tells how many there are and the name of this one.
pub fn named(alloc: Global, text: &[u8], step: &mut TextStep<'_>) -> Result<(), AllocError> {
    let Ok(text) = read(alloc, text) else {
        return Err(AllocError);
    };
    let number = u16::try_from(step.number()).unwrap_or(u16::MAX);
    step.tell_number(text.callers.len() as u64);
    match text.callers.name(number) {
        Some(name) => step.tell(name),
        None => step.refuse(),
    }
    Ok(())
}

/// Tells the key that a word writes, or why it writes none.
pub fn key_told(
    alloc: Global,
    word: &[u8],
    step: &mut TextStep<'_>,
    told: &mut Vec<u8>,
) -> Result<(), AllocError> {
    match key_bytes(alloc, word) {
        Ok(key) => told.extend_from_slice(key.as_slice()),
        Err(TextFault::Bad(cause)) => {
            step.tell(if cause == LineCause::BadKeyLen {
                b"bad-length"
            } else if cause == LineCause::BadKeyCode {
                b"bad-code"
            } else {
                b"another cause"
            });
            Ok(())
        }
        Err(TextFault::OutOfMemory) => Err(AllocError),
    }
}
