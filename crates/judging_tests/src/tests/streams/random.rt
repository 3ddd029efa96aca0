// Random texts in time order, judged whole and with a window.
use crate::tests::forgetting::draw;
use crate::tests::judging::{End, streamed, whole};
use judge_run::Scope;
use std::alloc::{AllocError, Global};
use std::test::Fail;

/// What a call of a text does, and its value, 0 if it has none.
#[derive(Clone, Copy)]
struct Did {
    word: &'static str,
    value: u64,
}

/// A get that comes to this value, or to none.
fn got(value: u64) -> Did {
    if value == 0 {
        Did {
            word: "miss",
            value,
        }
    } else {
        Did { word: "hit", value }
    }
}

/// What a random call does that a right cache allows whose key has this value, or one that now and then reads a wrong value.
fn random_did(seed: &mut u64, right: &mut u64, wrong: u64) -> Did {
    match draw(seed, 8) {
        0 => got(0),
        1 => {
            *right = 0;
            Did {
                word: "remove",
                value: 0,
            }
        }
        kind => {
            if kind < 5 {
                *right = 1 + draw(seed, 12);
                return Did {
                    word: "put",
                    value: *right,
                };
            }
            if draw(seed, 40) == 0 {
                got(wrong.saturating_add(draw(seed, 12)))
            } else {
                got(*right)
            }
        }
    }
}

/// The line of a call.
fn line_of(alloc: Global, start: u64, end: u64, key: u64, did: Did) -> Result<String, AllocError> {
    let Did { word, value } = did;
    if value == 0 {
        format!(in alloc; "a {start} {end} {word} k{key}\n")
    } else {
        format!(in alloc; "a {start} {end} {word} k{key} v{value}\n")
    }
}

/// The line of a random call that starts then.
fn random_line(
    alloc: Global,
    seed: &mut u64,
    values: &mut [u64; 3],
    wrong: u64,
    start: u64,
) -> Result<String, AllocError> {
    let key = draw(seed, 3);
    let end = start.saturating_add(draw(seed, 9));
    let did = random_did(seed, &mut values[key as usize], wrong);
    line_of(alloc, start, end, key, did)
}

/// A random text of up to 60 calls. If the cache is warm, each key has a value from the start.
fn random_text(alloc: Global, seed: &mut u64, warm: bool) -> Result<String, AllocError> {
    let mut text = String::new(alloc);
    let first = if warm { 20 } else { 0 };
    let wrong = if warm { 30 } else { 1 };
    let mut values = [first; 3];
    let mut start: u64 = 1;
    for _ in 0..draw(seed, 60) {
        start = start.saturating_add(draw(seed, 6));
        let line = random_line(alloc, seed, &mut values, wrong, start)?;
        text.push_str(line.as_str())?;
    }
    Ok(text)
}

/// What comes of judging a text whole, and as it comes.
#[derive(Clone, Copy)]
struct Ends {
    whole: End,
    streamed: End,
}

/// What comes of judging a random text whole, and by pieces of at least one to five calls.
fn random_ends(alloc: Global, seed: &mut u64, round: u64) -> Result<Ends, AllocError> {
    let warm = round % 2 == 1;
    let text = random_text(alloc, seed, warm)?;
    let scope = Scope {
        warm,
        ..Scope::WHOLE
    };
    Ok(Ends {
        whole: whole(alloc, text.as_bytes(), scope),
        streamed: streamed(alloc, text.as_bytes(), scope, 8, 1 + round % 5),
    })
}

/// Whether two ends agree: neither is the other's opposite. A stream may be undecided where the whole is not, and the other way round.
fn agree(ends: Ends) -> bool {
    ends.whole == ends.streamed || ends.whole == End::Undecided || ends.streamed == End::Undecided
}

#[test]
fn streams_are_judged_as_wholes(rt: HostRuntime) -> Result<(), Fail> {
    let mut seed: u64 = 1;
    let mut accepted: u64 = 0;
    let mut rejected: u64 = 0;
    for round in 0..300u64 {
        let ends = random_ends(rt.alloc(), &mut seed, round)?;
        assert!(rt; agree(ends), "round {round}");
        accepted = accepted.saturating_add(u64::from(ends.streamed == End::Accepted));
        rejected = rejected.saturating_add(u64::from(ends.streamed == End::Rejected));
    }
    assert!(rt; accepted > 60 && rejected > 30, "{accepted} {rejected}");
    Ok(())
}
