// Histories made by hand, with the verdicts that they must get.
use certificate_checker::{Fault, Verdict, check};
use record_pages::{Key, NEVER, Value};
use std::alloc::{AllocError, Global};
use std::test::Fail;
use trace_file::{Act, Call, Certificate, History};

/// What a call of a table does, to the key `a`, with values of one byte, and when it expires or is asked for.
#[derive(Clone, Copy)]
enum Did {
    Put(u8, u64),
    Remove,
    Hit(u8, u64),
    Miss,
}

fn call(alloc: Global, start: u64, end: u64, did: Did) -> Result<Call, Fail> {
    let act = match did {
        Did::Put(byte, expires) => Act::Put(Value::new(alloc, &[byte])?, expires),
        Did::Remove => Act::Remove,
        Did::Hit(byte, moment) => Act::Hit(Value::new(alloc, &[byte])?, moment),
        Did::Miss => Act::Miss,
    };
    Ok(Call {
        caller: 0,
        start,
        end,
        key: Key::new(alloc, b"a")?,
        act,
    })
}

/// A call of a table: when it starts, when it ends, and what it does.
type Timed = (u64, u64, Did);

fn history_of(alloc: Global, calls: &[Timed]) -> Result<History, Fail> {
    let mut history = History::new(alloc);
    for (start, end, did) in calls {
        history.push(call(alloc, *start, *end, *did)?)?;
    }
    Ok(history)
}

fn certificate_of(alloc: Global, positions: &[u32]) -> Result<Certificate, AllocError> {
    let mut certificate = Certificate::new(alloc);
    for position in positions {
        certificate.push(*position)?;
    }
    Ok(certificate)
}

/// Calls, the order that their certificate lists them in, and the verdict that they get.
#[derive(Clone, Copy)]
struct Case(&'static [Timed], &'static [u32], Verdict);

fn is_met(alloc: Global, case: &Case) -> Result<bool, Fail> {
    let history = history_of(alloc, case.0)?;
    let certificate = certificate_of(alloc, case.1)?;
    Ok(check(alloc, &history, &certificate) == Ok(case.2))
}

const ROW: [Timed; 2] = [(1, 4, Did::Put(b'1', NEVER)), (2, 3, Did::Hit(b'1', 0))];

const LATE: [Timed; 2] = [(1, 4, Did::Put(b'1', NEVER)), (3, 2, Did::Hit(b'1', 0))];

static CASES: [Case; 11] = [
    Case(&ROW, &[0, 1], Verdict::Accepted),
    Case(
        &ROW,
        &[1, 0],
        Verdict::Rejected(Fault::WrongHit { place: 0 }),
    ),
    Case(&ROW, &[0], Verdict::Rejected(Fault::WrongCount)),
    Case(
        &ROW,
        &[0, 0],
        Verdict::Rejected(Fault::Repeated { place: 1 }),
    ),
    Case(
        &ROW,
        &[0, 2],
        Verdict::Rejected(Fault::NotAPlace { place: 1 }),
    ),
    Case(
        &LATE,
        &[0, 1],
        Verdict::Rejected(Fault::BadInterval { position: 1 }),
    ),
    Case(&[], &[], Verdict::Accepted),
    Case(
        &[(1, 2, Did::Put(b'1', 5)), (3, 4, Did::Hit(b'1', 4))],
        &[0, 1],
        Verdict::Accepted,
    ),
    Case(
        &[(1, 2, Did::Put(b'1', 5)), (3, 4, Did::Hit(b'1', 5))],
        &[0, 1],
        Verdict::Rejected(Fault::WrongHit { place: 1 }),
    ),
    Case(
        &[
            (1, 2, Did::Put(b'1', u64::MAX)),
            (3, 4, Did::Hit(b'1', u64::MAX)),
        ],
        &[0, 1],
        Verdict::Accepted,
    ),
    // An expired put uncovers none before it.
    Case(
        &[
            (1, 2, Did::Put(b'1', NEVER)),
            (3, 4, Did::Put(b'2', 5)),
            (5, 6, Did::Hit(b'1', 9)),
        ],
        &[0, 1, 2],
        Verdict::Rejected(Fault::WrongHit { place: 2 }),
    ),
];

#[test]
fn each_fault_is_found(rt: HostRuntime) -> Result<(), Fail> {
    for number in 0..CASES.len() {
        assert!(rt; is_met(rt.alloc(), &CASES[number])?, "case {number}");
    }
    Ok(())
}

const TWICE: [Timed; 3] = [
    (1, 2, Did::Put(b'1', NEVER)),
    (3, 4, Did::Put(b'2', NEVER)),
    (5, 6, Did::Hit(b'1', 0)),
];

static LATEST: [Case; 4] = [
    Case(
        &TWICE,
        &[0, 1, 2],
        Verdict::Rejected(Fault::WrongHit { place: 2 }),
    ),
    Case(
        &TWICE,
        &[0, 2, 1],
        Verdict::Rejected(Fault::OutOfOrder { place: 2 }),
    ),
    // A removed value is not asked for either.
    Case(
        &[
            (1, 2, Did::Put(b'1', NEVER)),
            (3, 4, Did::Remove),
            (5, 6, Did::Hit(b'1', 0)),
        ],
        &[0, 1, 2],
        Verdict::Rejected(Fault::WrongHit { place: 2 }),
    ),
    // Calls that meet at one stamp may stand in either order.
    Case(
        &[(1, 2, Did::Miss), (2, 3, Did::Put(b'1', NEVER))],
        &[1, 0],
        Verdict::Accepted,
    ),
];

#[test]
fn the_latest_put_is_asked_for(rt: HostRuntime) -> Result<(), Fail> {
    for number in 0..LATEST.len() {
        assert!(rt; is_met(rt.alloc(), &LATEST[number])?, "case {number}");
    }
    Ok(())
}
