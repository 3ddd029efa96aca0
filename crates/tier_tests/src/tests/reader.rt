//! The reader of texts: which steps are right, and which line is the first wrong one.
use std::alloc::Global;
use std::test::Fail;
use test_devices::{Scripted, TextStep, find_wrong_line, is, run_text};

/// Calls that tell what they take.
#[derive(Drop)]
struct Echo;

impl Scripted for Echo {
    ghost use Rattle.std.specs.Prelude.{⊤};

    ghost can_act = { ⊤ };

    fn act(&mut self, _alloc: Global, step: &mut TextStep<'_>) -> Result<(), Fail> {
        let word = step.word();
        if is(word, b"say") {
            say(step);
        } else if is(word, b"add") {
            add(step);
        } else if is(word, b"count") {
            count(step);
        } else if is(word, b"pair") {
            pair(step);
        } else if !is(word, b"quiet") {
            step.refuse();
        }
        Ok(())
    }
}

fn say(step: &mut TextStep<'_>) {
    let bytes = step.bytes();
    step.tell(bytes.as_slice());
}

fn add(step: &mut TextStep<'_>) {
    let sum = step.number().wrapping_add(u64::from(step.small()));
    step.tell_number(sum);
}

fn count(step: &mut TextStep<'_>) {
    let numbers = step.numbers();
    step.tell(b"of");
    step.tell_number(numbers.len() as u64);
}

fn pair(step: &mut TextStep<'_>) {
    match step.pair_if_any() {
        Some((key, value)) => step.tell_pair(key, value.as_slice()),
        None => step.refuse(),
    }
}

static RIGHT: &[u8] = b"
    say a a; say bc bc
    # hum a a; say a b

  say - -  ;  quiet;; quiet
    say v*3 vvv; say vvv v*3; say v*0 -
    add 0 0 0; add 18446744073709551615 0 18446744073709551615; add 7 4294967295 4294967302
    count 1 2 3 of 3; count of 0
    pair k=v k=v; pair k=v*2 k=vv; pair k=- k=; pair k= k=-";

#[test]
fn a_right_text_passes(rt: HostRuntime) -> Result<(), Fail> {
    run_text(rt.alloc(), &mut Echo, RIGHT)
}

// The second line of each text is wrong: it lacks an answer, has another or a word too many, has an answer of a call that tells
// nothing, names no call, lacks a word of the call, or has a number that is none or too large; or only its second step is wrong.
static WRONG: [&[u8]; 16] = [
    b"say a a\nsay a",
    b"say a a\nsay a b\nsay a",
    b"say a a\nsay a a a",
    b"say a a\nsay a -",
    b"say - -\nsay - a",
    b"say v*3 vvv\nsay v*3 v*4",
    b"quiet\nquiet 1",
    b"say a a\nhum a a",
    b"say a a\nhum",
    b"say a a\nsay",
    b"add 1 2 3\nadd 1 x 1",
    b"add 1 2 3\nadd 1 4294967296 4294967297",
    b"add 1 2 3\nadd 18446744073709551616 1 1",
    b"pair k=v k=v\npair k=v k=w",
    b"pair k=v k=v\npair kv kv",
    b"say a a\nsay a a; say a b",
];

// The number of the first line of a text that is wrong, or 0.
fn wrong_line(alloc: Global, text: &[u8]) -> Result<u64, Fail> {
    match find_wrong_line(alloc, &mut Echo, text)? {
        Some(wrong) => Ok(wrong.number),
        None => Ok(0),
    }
}

#[test]
fn a_wrong_line_is_named(rt: HostRuntime) -> Result<(), Fail> {
    for number in 0..WRONG.len() {
        assert!(rt;
            wrong_line(rt.alloc(), WRONG[number])? == 2,
            "text {number}"
        );
    }
    Ok(())
}

// No step is in these texts, and the last line is wrong.
static EMPTY: [&[u8]; 3] = [b"", b";  ;", b"# say a a"];

#[test]
fn a_text_without_a_step_is_wrong(rt: HostRuntime) -> Result<(), Fail> {
    for number in 0..EMPTY.len() {
        assert!(rt;
            wrong_line(rt.alloc(), EMPTY[number])? == 1,
            "text {number}"
        );
    }
    Ok(())
}
