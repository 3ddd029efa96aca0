//! Keys by their words, names, the calls of one key, and calls that have no text.
use crate::tests::cases::check_cases;
use crate::tests::made::history_of;
use history_text::{WriteTextFault, word, write_text};
use std::test::Fail;

/// Words of a command line, with the keys that they write.
static WORDS: &[u8] = b"
key
^color^color@
key
^a%20%2a%2A^a **@
key
^%2D^-@
key
^--^--@
key bad-length
^-^@
key bad-length
^^@
key bad-code
^a%2^@
key bad-code
^%%20^";

#[test]
fn words_write_keys(rt: HostRuntime) -> Result<(), Fail> {
    check_cases(rt.alloc(), WORDS)
}

#[test]
fn bytes_have_words(rt: HostRuntime) -> Result<(), Fail> {
    assert!(rt;
        word(rt.alloc(), b"")?.as_str() == "-"
            && word(rt.alloc(), b"-")?.as_str() == "%2D"
            && word(rt.alloc(), b"\x00 !~%\x7f\xff")?.as_str() == "%00%20!~%25%7F%FF"
    );
    Ok(())
}

static NAMES: &[u8] = b"
named 0 3 bob; named 1 3 al; named 2 3 -*1
^bob 1 2 miss k
al 1 2 miss k
bob 3 4 miss k
# -
- 1 2 miss k^";

#[test]
fn callers_are_named(rt: HostRuntime) -> Result<(), Fail> {
    check_cases(rt.alloc(), NAMES)
}

static OF_A_KEY: &[u8] = b"
read k
^x 1 2 put k v
y 3 4 put j v
z 5 6 hit k v
y 7 8 miss kk^c0 1 2 put k v
c2 5 6 hit k v
";

#[test]
fn the_calls_of_one_key_are_written(rt: HostRuntime) -> Result<(), Fail> {
    check_cases(rt.alloc(), OF_A_KEY)
}

/// The second call starts as late as a call that has a text may.
static LAST: &[u8] = b"65535 0 9 miss k; 65535 9223372036854775807 9 miss k";

/// The second call starts later.
static LATE: &[u8] = b"65535 0 9 miss k; 65535 9223372036854775808 9 miss k";

#[test]
fn a_late_call_has_no_text(rt: HostRuntime) -> Result<(), Fail> {
    let last = history_of(rt.alloc(), LAST)?;
    let mut written = Vec::new(rt.alloc());
    assert!(rt;
        write_text(rt.alloc(), &last, None, &mut written).is_ok()
            && written.as_slice()
                == b"c65535 0 9 miss k\nc65535 9223372036854775807 9 miss k\n".as_slice()
    );
    let late = history_of(rt.alloc(), LATE)?;
    let mut before = Vec::new(rt.alloc());
    let answer = write_text(rt.alloc(), &late, None, &mut before);
    assert!(rt;
        answer == Err(WriteTextFault::TooLate { position: 1 })
            && before.as_slice() == b"c65535 0 9 miss k\n".as_slice()
    );
    let other = write_text(rt.alloc(), &late, Some(b"j".as_slice()), &mut before);
    assert!(rt; other.is_ok());
    Ok(())
}
