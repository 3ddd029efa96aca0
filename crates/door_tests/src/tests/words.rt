//! What the texts of all parts have alike.
use command_line::Ending;
use std::alloc::Global;
use std::test::Fail;
use test_devices::{Spelled, TextStep, is};

/// Takes the words of a command line from the first on, up to `->`. In a word `~` is a blank, and alone it is a word of no byte.
pub fn words_of(alloc: Global, first: &[u8], step: &mut TextStep<'_>) -> Result<Vec<String>, Fail> {
    let mut words = Vec::new(alloc);
    let mut word = first;
    for _ in 0..64usize {
        if word.is_empty() || is(word, b"->") {
            break;
        }
        words.push(spelled(alloc, word)?)?;
        word = step.word();
    }
    Ok(words)
}

// What a word of a command line spells.
fn spelled(alloc: Global, word: &[u8]) -> Result<String, Fail> {
    if is(word, b"~") {
        return Ok(String::new(alloc));
    }
    Ok(str::from_utf8(word)?.replace(alloc, "~", " ")?)
}

// Takes the words that are left, as a text: `|` is a line feed, `^` a semicolon and `~` a blank.
fn text_of(step: &mut TextStep<'_>) -> Spelled {
    let mut text = Spelled::new();
    for place in 0..512usize {
        let word = step.word();
        if word.is_empty() {
            break;
        }
        if !add_word(place, word, &mut text) {
            step.refuse();
        }
    }
    text
}

// Adds a word to a text, and says whether there was room.
fn add_word(place: usize, word: &[u8], text: &mut Spelled) -> bool {
    let mut has_room = place == 0 || text.try_push(b' ').is_ok();
    for byte in word {
        has_room &= text.try_push(spelled_byte(*byte)).is_ok();
    }
    has_room
}

// What a byte of a text spells.
fn spelled_byte(byte: u8) -> u8 {
    match byte {
        b'|' => b'\n',
        b'^' => b';',
        b'~' => b' ',
        other => other,
    }
}

/// Compares what was said with the text that is left of a step, by the step's word. It tells what was said if that is not, does not begin,
/// end or lack, or has not the text. No text is only what nothing `is`.
pub fn compare(said: &[u8], word: &[u8], step: &mut TextStep<'_>) {
    let text = text_of(step);
    if !is_so(
        str::from_utf8(said).unwrap_or("no text"),
        word,
        str::from_utf8(text.as_slice()).unwrap_or("another"),
    ) {
        step.tell(said);
    }
}

// Whether what was said is so.
fn is_so(said: &str, word: &[u8], text: &str) -> bool {
    if is(word, b"is") {
        said == text
    } else if text.is_empty() {
        false
    } else if is(word, b"begins") {
        said.starts_with(text)
    } else if is(word, b"ends") {
        said.ends_with(text)
    } else if is(word, b"has") {
        said.contains(text)
    } else {
        is(word, b"lacks") && !said.contains(text)
    }
}

static ENDINGS: [Ending; 7] = [
    Ending::Done,
    Ending::BadWords,
    Ending::BadLine,
    Ending::BadConfig,
    Ending::OutOfMemory,
    Ending::ReadFault,
    Ending::FileFault,
];

/// Takes the words of an ending. If they are none the step is bad.
pub fn ending_of(step: &mut TextStep<'_>) -> Ending {
    let name = text_of(step);
    for ending in &ENDINGS {
        if name_of_ending(*ending) == name.as_slice() {
            return *ending;
        }
    }
    step.refuse();
    Ending::Done
}

/// The words of an ending.
pub fn name_of_ending(ending: Ending) -> &'static [u8] {
    match ending {
        Ending::Done => b"done",
        Ending::BadWords => b"bad words",
        Ending::BadLine => b"bad line",
        Ending::BadConfig => b"bad config",
        Ending::OutOfMemory => b"out of memory",
        Ending::ReadFault => b"read fault",
        Ending::FileFault => b"file fault",
    }
}
