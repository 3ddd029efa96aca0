//! What the steps of a text do with files.
use super::words::compare;
use certificate_checker::{Judged, judge};
use std::alloc::Global;
use std::fs;
use std::io::{Read, Write};
use std::rt::Files;
use std::test::Fail;
use test_devices::{TextStep, is};

/// Makes a folder, in place of what was there, or clears one; makes a file, or removes one; and reads, measures and judges one.
pub fn act_on<R: Files<File = fs::File> + AllocGlobal>(
    rt: &R,
    alloc: Global,
    word: &[u8],
    step: &mut TextStep<'_>,
) -> Result<(), Fail> {
    let path = str::from_utf8(step.word())?;
    if is(word, b"folder") {
        let _ = fs::remove_dir_all(rt, path);
        fs::create_dir(rt, path)?;
    } else if is(word, b"clear") {
        fs::remove_dir_all(rt, path)?;
    } else if is(word, b"older") {
        let mut file = fs::create(rt, path)?;
        file.write_all(b"an older trace")?;
    } else if is(word, b"remove") {
        if fs::remove_file(rt, path).is_err() {
            step.tell(b"absent");
        }
    } else if is(word, b"length") {
        step.tell_number(fs::metadata(rt, path)?.len());
    } else if is(word, b"is-file") {
        if !fs::metadata(rt, path)?.is_file() {
            step.refuse();
        }
    } else if is(word, b"read") || is(word, b"judge") {
        return read(rt, alloc, word, path, step);
    } else {
        step.refuse();
    }
    Ok(())
}

/// Reads a file whole, or judges the trace in it, and compares what that gives.
fn read<R: Files<File = fs::File>>(
    rt: &R,
    alloc: Global,
    word: &[u8],
    path: &str,
    step: &mut TextStep<'_>,
) -> Result<(), Fail> {
    let mut told: Vec<u8> = Vec::new(alloc);
    let mut file = fs::open(rt, path)?;
    if is(word, b"read") {
        file.read_to_end(&mut told)?;
    } else if judge(alloc, &mut file, &mut told) != Ok(Judged::Accepted) {
        step.refuse();
    }
    compare(told.as_slice(), b"is", step);
    Ok(())
}
