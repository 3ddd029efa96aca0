//! Steps of a stream of bytes: they write it, or tell what it asks for as a line, or what is answered to it.
use super::hearing::{Hearing, hear_pieces};
use super::words::{data_of, rest_of};
use memcached_text::{AnswerBytes, TextAnswer, TextRequest, append_answer, parse};
use std::alloc::{AllocError, Global};
use std::test::Fail;
use test_devices::{TextStep, is};

/// Makes a step of a stream.
pub fn on_stream(
    alloc: Global,
    stream: &mut Vec<u8>,
    word: &[u8],
    step: &mut TextStep<'_>,
) -> Result<(), Fail> {
    if is(word, b"send") {
        stream.clear();
        stream.extend_from_slice(rest_of(step).as_slice())?;
    } else if is(word, b"more") {
        stream.extend_from_slice(rest_of(step).as_slice())?;
    } else if is(word, b"fill") {
        stream.extend_from_slice(data_of(step).as_slice())?;
    } else if is(word, b"bytes") {
        append_numbers(stream, step)?;
    } else {
        return on_line(alloc, stream, word, step);
    }
    Ok(())
}

// Appends bytes by their numbers.
fn append_numbers(stream: &mut Vec<u8>, step: &mut TextStep<'_>) -> Result<(), Fail> {
    for number in step.numbers().as_slice() {
        stream.push(u8::try_from(*number)?)?;
    }
    Ok(())
}

// Tells what the stream asks for as a line, or what is answered to it.
fn on_line(alloc: Global, stream: &[u8], word: &[u8], step: &mut TextStep<'_>) -> Result<(), Fail> {
    if is(word, b"asks") {
        step.tell(asked(alloc, stream)?.as_bytes());
    } else if is(word, b"flags") {
        step.tell(flags_of(alloc, stream)?.as_bytes());
    } else if is(word, b"refused") {
        compare(refusal_of(stream).as_slice(), step);
    } else {
        match Hearing::named(word) {
            Some(hearing) => hear_pieces(alloc, hearing, stream, step)?,
            None => step.refuse(),
        }
    }
    Ok(())
}

// What a line asks for, or its refusal.
fn asked(alloc: Global, line: &[u8]) -> Result<String, AllocError> {
    format!(in alloc; "{:?}", parse(line))
}

// What the flags of a line's meta command are, by letter: T, F, O, q and v.
fn flags_of(alloc: Global, line: &[u8]) -> Result<String, AllocError> {
    let Ok(TextRequest::Meta(set)) = parse(line) else {
        return Ok(String::new(alloc));
    };
    format!(in alloc;
        "{:?} {:?} {:?} {:?} {:?}",
        set.exptime(b'T'),
        set.number(b'F'),
        set.flag(b'O'),
        set.flag(b'q'),
        set.flag(b'v')
    )
}

// What is answered to a line, if it is refused, or that it is taken.
fn refusal_of(line: &[u8]) -> AnswerBytes {
    let mut out = AnswerBytes::new();
    let _has_room = match parse(line) {
        Ok(_) => out.try_extend_from_slice(b"taken\r\n").is_ok(),
        Err(refusal) => append_answer(&mut out, &TextAnswer::Refused(refusal.fault)).is_ok(),
    };
    out
}

/// Tells bytes, unless the words that are left spell them.
pub fn compare(bytes: &[u8], step: &mut TextStep<'_>) {
    if rest_of(step).as_slice() != bytes {
        step.tell(bytes);
    }
}
