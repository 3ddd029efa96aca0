//! The sentence for each reason.
use super::texts::{CALLS, What, told};
use crate::tests::made::history_of;
use certificate_checker::Fault;
use certificate_finder::{CrossedWrites, Excluded, Excuse, Side, UnreadHit, Witness};
use history_picture::Reason;
use std::alloc::{AllocError, Global};
use std::test::Fail;
use trace_file::{Certificate, History};

/// The sentences, by their numbers.
static SENTENCES: [&str; 11] = [
    "put %1B%25 (position 0) ends at 14, before it starts at 0",
    "the hit of %1B%25 (position 2) is of a value that no call puts at its key",
    "the hit of %1B%25 (position 2) came before its put: the hit of %1B%25 (position 2) ended at 18446744073709551615, before put v2 (position 1) started at 16",
    "the hit of %1B%25 (position 2) is of an expired value: put %1B%25 (position 0) expired at 18446744073709551615, and the hit was at moment 0",
    "put %1B%25 (position 0) and put v2 (position 1) have no order: put %1B%25 (position 0) ended at 14, before put v2 (position 1) started at 16, so the first has to stand before the second; and put v2 (position 1) ended at 21, before the hit of %1B%25 (position 2) started at 25, so the second has to stand before the first",
    "the hit of %1B%25 (position 2) is wrong at place 2 of the certificate: the latest write of its key before it is put v2 (position 1)",
    "the hit of %1B%25 (position 2) is wrong at place 0 of the certificate: no write of its key stands before it",
    "place 2 of the certificate is out of order: put %1B%25 (position 0) ended at 14, before put v2 (position 1) started at 16, and stands behind it",
    "place 1 of the certificate repeats put v2 (position 1)",
    "the hit of %1B%25 (position 2) fits 2 puts, and whichever of them it read, two writes would have no order; if it read put %1B%25 (position 0), put %1B%25 (position 0) ended at 14, before put v2 (position 1) started at 16, so that put has to stand before put v2 (position 1); and put v2 (position 1) ended at 21, before the hit of %1B%25 (position 2) started at 25, so put v2 (position 1) has to stand before that put; if it read put v2 (position 1), put v2 (position 1) ended at 21, before put %1B%25 (position 0) started at 0, so that put has to stand before put %1B%25 (position 0); and put %1B%25 (position 0) ended at 14, before the hit of %1B%25 (position 2) started at 25, so put %1B%25 (position 0) has to stand before that put",
    "a call that is not there (position 7) ends at 0, before it starts at 0",
];

/// A side of two crossed writes.
fn side(write: u32, late: u32) -> Side {
    Side {
        write,
        early: write,
        late,
    }
}

/// A hit that would cross two writes whichever of two puts it read.
fn unread(alloc: Global) -> Result<Reason, AllocError> {
    let reads = vec![in alloc;
        CrossedWrites {
            one: side(0, 2),
            other: side(1, 1),
        },
        CrossedWrites {
            one: side(1, 2),
            other: side(0, 0),
        },
    ]?;
    Ok(Reason::of_witness(Witness::Unread(UnreadHit { hit: 2, reads })))
}

/// A hit that can't have read this put.
fn excluded(alloc: Global, put: u32, why: Excuse) -> Result<Reason, AllocError> {
    let puts = vec![in alloc; Excluded { put, why }]?;
    Ok(Reason::of_witness(Witness::Hit(2, puts)))
}

/// The certificate of these positions.
fn certificate(alloc: Global, positions: [u32; 3]) -> Result<Certificate, AllocError> {
    let mut certificate = Certificate::new(alloc);
    for position in positions {
        certificate.push(position)?;
    }
    Ok(certificate)
}

/// The reason that a fault of a history with a certificate is.
fn faulty(
    alloc: Global,
    history: &History,
    positions: [u32; 3],
    fault: Fault,
) -> Result<Reason, AllocError> {
    let certificate = certificate(alloc, positions)?;
    Ok(Reason::of_fault(history, &certificate, fault))
}

/// The reasons, by their numbers.
fn reason(alloc: Global, history: &History, number: usize) -> Result<Reason, AllocError> {
    match number {
        0 => Ok(Reason::of_witness(Witness::Interval(0))),
        1 => Ok(Reason::of_witness(Witness::Hit(2, Vec::new(alloc)))),
        2 => excluded(alloc, 1, Excuse::Later),
        3 => excluded(alloc, 0, Excuse::Expired),
        4 => Ok(Reason::of_witness(Witness::Crossed(side(0, 2), side(1, 1)))),
        5 => faulty(alloc, history, [0, 1, 2], Fault::WrongHit { place: 2 }),
        6 => faulty(alloc, history, [2, 1, 0], Fault::WrongHit { place: 0 }),
        7 => faulty(alloc, history, [1, 2, 0], Fault::OutOfOrder { place: 2 }),
        8 => faulty(alloc, history, [1, 1, 0], Fault::Repeated { place: 1 }),
        9 => unread(alloc),
        _ => Ok(Reason::of_witness(Witness::Interval(7))),
    }
}

#[test]
fn each_reason_has_its_sentence(rt: HostRuntime) -> Result<(), Fail> {
    let history = history_of(rt.alloc(), CALLS)?;
    for number in 0..11usize {
        let reason = reason(rt.alloc(), &history, number)?;
        let text = told(rt.alloc(), &history, &[], &[], &reason, What::Sentence)?;
        assert!(rt; text.as_str() == SENTENCES[number]);
    }
    Ok(())
}
