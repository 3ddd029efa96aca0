//! Very many calls of one key, with bytes that no terminal should see.
use super::texts::{What, told};
use certificate_finder::Witness;
use history_picture::Reason;
use std::alloc::Global;
use std::test::Fail;
use test_devices::{key, value};
use trace_file::{Act, Call, History};

/// A thousand hits of one key, ten stamps apart.
fn thousand(alloc: Global) -> Result<History, Fail> {
    let mut history = History::new(alloc);
    for number in 0..1000u64 {
        history.push(Call {
            caller: 0,
            start: 10 * number,
            end: 10 * number + 5,
            key: key(alloc, b"k")?,
            act: Act::Hit(value(alloc, b"\x1b[2J\n\xff")?, 0),
        })?;
    }
    Ok(history)
}

/// What is said of the one in the middle, or its picture. The name of the caller clears a terminal.
fn told_of_one(alloc: Global, what: What) -> Result<String, Fail> {
    let history = thousand(alloc)?;
    let reason = Reason::of_witness(Witness::Hit(500, Vec::new(alloc)));
    Ok(told(alloc, &history, &[], b"\x1b[2J\t", &reason, what)?)
}

/// Whether a byte is printable, or ends a line.
fn is_shown(byte: u8) -> bool {
    byte == b'\n' || (31 < byte && byte < 127)
}

#[test]
fn the_nearest_of_a_thousand_are_shown(rt: HostRuntime) -> Result<(), Fail> {
    let text = told_of_one(rt.alloc(), What::Explanation)?;
    let lines = text
        .as_bytes()
        .iter()
        .filter(|byte| **byte == b'\n')
        .count();
    assert!(rt;
        lines == 25
            && text.as_str().contains("\n  489  ")
            && text.as_str().contains("\n* 500  ")
            && text.as_str().contains("\n  511  ")
            && !text.as_str().contains("\n  487  ")
            && !text.as_str().contains("\n  513  ")
            && text.as_bytes().iter().all(|byte| is_shown(*byte))
    );
    Ok(())
}

#[test]
fn a_picture_has_the_same_calls(rt: HostRuntime) -> Result<(), Fail> {
    let text = told_of_one(rt.alloc(), What::Picture)?;
    assert!(rt;
        text.as_str().contains("<title>position 489: ")
            && text.as_str().contains("<title>position 511: ")
            && !text.as_str().contains("<title>position 487: ")
            && !text.as_str().contains("<title>position 513: ")
    );
    Ok(())
}
