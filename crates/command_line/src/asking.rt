// The words of the command line, as the system gives them.
use crate::line::Line;
use crate::line_fault::LineFault;
use crate::parse::{no_text, parse_line};
use std::env;
use std::io::ErrorKind;
use std::rt::Env;

/// What the words of the command line ask for. No clause says which words the system gives; those of `parse_line` say what they mean.
pub fn asked(rt: &(impl Env + AllocGlobal)) -> Result<Line, LineFault> {
    let words: Vec<String> = match env::args(rt) {
        Ok(words) => words.collect(rt.alloc())?,
        Err(fault) if fault.kind() == ErrorKind::OutOfMemory => return Err(LineFault::OutOfMemory),
        Err(_) => return Err(no_text(rt.alloc())),
    };
    match parse_line(rt.alloc(), words.as_slice()) {
        Ok(line) => Ok(line),
        Err(fault) => Err(fault),
    }
}
