//! How a run ends, and the line that it tells. Of the ends that have a line a run can be brought to `SharesExceed` and
//! `FileFault` alone, and to none at which a caller stopped: memory is refused by hand, and a lane is full at 16,777,216 calls.
use certificate_checker::{Fault, Verdict};
use figures::Form;
use load_run::{RunEnd, Summary};
use std::alloc::Global;
use std::test::Fail;

/// Seven calls, of callers of which one stopped.
static SEVEN: Summary = Summary {
    calls: 7,
    hits: 2,
    stopped: 1,
    verdict: Verdict::Accepted,
};

#[test]
fn a_caller_that_stopped_is_told(rt: HostRuntime) -> Result<(), Fail> {
    let end = RunEnd::of_verdict(SEVEN.verdict, SEVEN.stopped);
    assert!(rt; end == RunEnd::Stopped && end.status() == 3 && end.message() == None);
    let text = SEVEN.text(rt.alloc(), Form::Lines)?;
    assert!(rt; text.as_str() == "calls 7\nhits 2\nstopped 1\naccepted 7 calls\n");
    Ok(())
}

/// A run with this verdict.
fn judged(verdict: Verdict) -> Summary {
    Summary {
        calls: 400000,
        hits: 83368,
        stopped: 0,
        verdict,
    }
}

/// Whether a summary is told by this JSON object.
fn is_object(alloc: Global, summary: &Summary, object: &str) -> Result<bool, Fail> {
    let text = summary.text(alloc, Form::Json)?;
    Ok(text.as_str() == object)
}

#[test]
fn a_run_is_told_as_an_object(rt: HostRuntime) -> Result<(), Fail> {
    let alloc = rt.alloc();
    assert!(rt;
        is_object(
            alloc,
            &SEVEN,
            "{\"calls\":7,\"hits\":2,\"stopped\":1,\"verdict\":\"accepted\"}\n"
        )? && is_object(
            alloc,
            &judged(Verdict::Rejected(Fault::WrongHit { place: 3 })),
            "{\"calls\":400000,\"hits\":83368,\"stopped\":0,\"verdict\":\"rejected\",\"fault\":\"WrongHit\",\"place\":3}\n"
        )? && is_object(
            alloc,
            &judged(Verdict::Rejected(Fault::BadInterval { position: 0 })),
            "{\"calls\":400000,\"hits\":83368,\"stopped\":0,\"verdict\":\"rejected\",\"fault\":\"BadInterval\",\"position\":0}\n"
        )? && is_object(
            alloc,
            &judged(Verdict::Rejected(Fault::WrongCount)),
            "{\"calls\":400000,\"hits\":83368,\"stopped\":0,\"verdict\":\"rejected\",\"fault\":\"WrongCount\"}\n"
        )?
    );
    Ok(())
}

static ENDS: [RunEnd; 7] = [
    RunEnd::Accepted,
    RunEnd::Rejected,
    RunEnd::Stopped,
    RunEnd::SharesExceed,
    RunEnd::OutOfMemory,
    RunEnd::FileFault,
    RunEnd::FinishFault,
];

/// The line that an end tells, if it tells one.
fn line_of(end: RunEnd) -> &'static [u8] {
    match end {
        RunEnd::Accepted | RunEnd::Rejected | RunEnd::Stopped => b"",
        RunEnd::SharesExceed => b"gets and removes exceed 100\n",
        RunEnd::OutOfMemory => b"out of memory\n",
        RunEnd::FileFault => b"file fault\n",
        RunEnd::FinishFault => b"finish fault\n",
    }
}

/// Whether an end tells its line, and nothing else.
fn is_told(alloc: Global, end: RunEnd) -> bool {
    let mut err: Vec<u8> = Vec::new(alloc);
    end.tell(&mut err).is_ok() && err.as_slice() == line_of(end)
}

#[test]
fn each_end_tells_its_line(rt: HostRuntime) {
    for end in &ENDS {
        assert!(rt; is_told(rt.alloc(), *end));
    }
}
