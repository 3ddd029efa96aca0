//! Runs with fixed seeds, whose schedules differ and whose ends do not.
use crate::tests::loads::load;
use std::test::Fail;

/// Eight callers; lanes as small as they may be, with more workers than lanes; and a run that is told as an object.
static ACCEPTED: &[u8] = b"
k run --callers 8 --operations 2000 --keys 20 --value-bytes 8 --trace many.trace
status 0; err is
out begins calls 16000|; out ends |stopped 0|accepted 16000 calls|
remove many.trace
k run --lanes 2 --sets 1 --memory 1 --segments 2 --segment-pages 1 --entries 1 --threshold 1 --callers 3 --workers 5 --operations 500 --seed 4294967295 --value-bytes 2048 --keys 7 --trace small.trace
status 0; err is
out begins calls 1500|; out ends |stopped 0|accepted 1500 calls|
judge small.trace accepted 1500 calls|; remove small.trace
k run --json --operations 100 --trace object.trace
status 0; err is
out begins {\"calls\":400,\"hits\":; out ends ,\"stopped\":0,\"verdict\":\"accepted\"}|
remove object.trace
";

/// The greatest shares that do not exceed 100, and the least that do. And a trace that can not be made.
static REFUSED: &[u8] = b"
k run --gets 95 --operations 100 --trace whole.trace
status 0; err is
out begins calls 400|; out ends |stopped 0|accepted 400 calls|
remove whole.trace
k run --gets 96 --operations 100 --trace exceeding.trace
status 2; out is
err is gets and removes exceed 100|--gets 96 and --removes 5 are 101 per cent: give shares of at most 100 per cent together|
remove exceeding.trace absent
k run --operations 100 --trace no~such~folder/t.trace
status 3; out is
err is file fault|no such folder/t.trace: No such file or directory (os error 2)|name a file with --trace that can be written|
";

/// This many calls of one lane that they take longer than what lies before the first line.
static LONG: &[u8] = b"
terminal; k run --lanes 1 --operations 75000 --value-bytes 0 --keys 10 --trace long.trace
status 0
out begins calls 300000|; err ends 000 of 300000 calls\r|laying the calls out|judging|writing the trace|
remove long.trace
";

#[test]
fn runs_and_their_traces_are_accepted(rt: HostRuntime) -> Result<(), Fail> {
    load(&rt, ACCEPTED)
}

#[test]
fn shares_over_100_and_a_trace_that_can_not_be_made_are_refused(
    rt: HostRuntime,
) -> Result<(), Fail> {
    load(&rt, REFUSED)
}

#[test]
fn progress_is_told_to_a_terminal(rt: HostRuntime) -> Result<(), Fail> {
    load(&rt, LONG)
}
