//! The loads that words ask for.
use command_line::{Line, parse_line};
use load::{Load, ServeLoad};
use std::alloc::Global;
use std::convert::AsStr;
use std::test::Fail;

/// The load of a run that these words ask for.
pub fn run_of<'a, S: AsStr>(alloc: Global, words: &'a [S]) -> Result<Box<Load>, Fail> {
    match parse_line(alloc, words) {
        Ok(Line::Run(load)) => Ok(Box::new(alloc, load)?),
        _ => Err("a load".into()),
    }
}

/// The same of words that stand apart by blanks.
pub fn run_by(alloc: Global, words: &str) -> Result<Box<Load>, Fail> {
    let words: Vec<&str> = words.split(' ').collect(alloc)?;
    run_of(alloc, words.as_slice())
}

/// The load of a cache that serves that these words ask for.
pub fn served_of<'a, S: AsStr>(alloc: Global, words: &'a [S]) -> Result<Box<ServeLoad>, Fail> {
    match parse_line(alloc, words) {
        Ok(Line::Serve(load)) => Ok(Box::new(alloc, load)?),
        _ => Err("a load".into()),
    }
}

/// The same of words that stand apart by blanks.
pub fn served_by(alloc: Global, words: &str) -> Result<Box<ServeLoad>, Fail> {
    let words: Vec<&str> = words.split(' ').collect(alloc)?;
    served_of(alloc, words.as_slice())
}
