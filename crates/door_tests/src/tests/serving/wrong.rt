//! What a report tells of wrong hits.
use super::reports::report_with;
use crate::tests::asked_loads::{served_by, served_of};
use figures::Form;
use record_pages::ValueBuffer;
use serve_load::{Known, ToldHit};
use service_lane::Counts;
use std::alloc::Global;
use std::test::Fail;

/// A hit of the bytes 1, 2, 3 by a caller's operation 30, of its key 258.
fn hit_of(caller: u16, word: u32) -> ToldHit {
    let mut found = ValueBuffer::empty();
    found.set(&[1, 2, 3]);
    ToldHit {
        caller,
        operation: 30,
        known: Known { key: 258, word },
        found,
    }
}

/// The lifetime of a value, what a caller knew of the key, and what is told.
#[derive(Clone, Copy)]
struct Row {
    ttl: &'static str,
    word: u32,
    lines: &'static str,
    member: &'static str,
}

/// A key with no value, one with the value of operation 17, of which 9 bytes are asked, and one whose value is expired at the hit.
static ROWS: [Row; 4] = [
    Row {
        ttl: "0",
        word: 0,
        lines: "\nwrong-hits 1\nwrong-hit-of-caller-5 key 00050000010200000000 operation 30 expected none found 010203\nno history",
        member: ",\"wrong-hits\":1,\"wrong-hit-of-caller-5\":\"key 00050000010200000000 operation 30 expected none found 010203\"}\n",
    },
    Row {
        ttl: "0",
        word: 18,
        lines: "\nwrong-hits 1\nwrong-hit-of-caller-5 key 00050000010200000000 operation 30 expected 000001020000001100 found 010203\nno history",
        member: ",\"wrong-hits\":1,\"wrong-hit-of-caller-5\":\"key 00050000010200000000 operation 30 expected 000001020000001100 found 010203\"}\n",
    },
    Row {
        ttl: "14",
        word: 18,
        lines: "\nwrong-hits 1\nwrong-hit-of-caller-5 key 00050000010200000000 operation 30 expected 000001020000001100 found 010203\nno history",
        member: ",\"wrong-hits\":1,\"wrong-hit-of-caller-5\":\"key 00050000010200000000 operation 30 expected 000001020000001100 found 010203\"}\n",
    },
    Row {
        ttl: "13",
        word: 18,
        lines: "\nwrong-hits 1\nwrong-hit-of-caller-5 key 00050000010200000000 operation 30 expected none found 010203\nno history",
        member: ",\"wrong-hits\":1,\"wrong-hit-of-caller-5\":\"key 00050000010200000000 operation 30 expected none found 010203\"}\n",
    },
];

/// Whether a wrong hit is told so, in both forms.
fn is_told(alloc: Global, row: &Row) -> Result<bool, Fail> {
    let words = ["k", "serve-load", "--value-bytes", "9", "--ttl", row.ttl];
    let load = served_of(alloc, &words)?;
    let hits = [hit_of(5, row.word)];
    let report = report_with(Counts::none());
    let lines = report.text(alloc, Form::Lines, &*load, &hits)?;
    let object = report.text(alloc, Form::Json, &*load, &hits)?;
    Ok(lines.as_str().contains(row.lines) && object.as_str().ends_with(row.member))
}

#[test]
fn a_wrong_hit_is_told_with_key_operation_expected_and_found(rt: HostRuntime) -> Result<(), Fail> {
    for row in &ROWS {
        assert!(rt; is_told(rt.alloc(), row)?);
    }
    Ok(())
}

#[test]
fn each_caller_tells_its_own_wrong_hit(rt: HostRuntime) -> Result<(), Fail> {
    let load = served_by(rt.alloc(), "k serve-load")?;
    let hits = [hit_of(0, 0), hit_of(63, 0)];
    let text = report_with(Counts::none()).text(rt.alloc(), Form::Lines, &*load, &hits)?;
    assert!(rt;
        text.as_str().contains("\nwrong-hit-of-caller-0 key 0000")
            && text.as_str().contains("\nwrong-hit-of-caller-63 key 003f")
    );
    Ok(())
}
