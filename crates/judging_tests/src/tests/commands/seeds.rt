//! Seeds, which come from the host.
use super::files::{check_of, judge_of, unasked};
use judge_run::{check_with, judge_with};
use std::alloc::AllocError;
use std::random::RandomSource;
use std::rt::Files;
use test_devices::WithoutRandom;

/// What is reported if the host has no random numbers.
const TOLD: &[u8] =
    b"file fault\nno random numbers: permission denied\nthey are the seed of the tables: try again\n";

/// Judges or checks a standard input, and says whether just that is reported.
fn is_refused<R: AllocGlobal + Files + RandomSource>(
    rt: &R,
    checks: bool,
) -> Result<bool, AllocError> {
    let alloc = rt.alloc();
    let mut out: Vec<u8> = Vec::new(alloc);
    let mut told: Vec<u8> = Vec::new(alloc);
    let mut input = b"a 1 4 put k v\n".as_slice();
    let status = if checks {
        let request = check_of(alloc, "-")?;
        check_with(rt, &mut input, &request, &mut out, &mut told)
    } else {
        let request = judge_of(alloc, "-", &mut unasked(alloc))?;
        judge_with(rt, &mut input, &request, &mut out, &mut told)
    };
    Ok(status == 3 && out.is_empty() && told.as_slice() == TOLD)
}

#[test]
fn nothing_is_judged_without_random_numbers(rt: HostRuntime) -> Result<(), AllocError> {
    let host = WithoutRandom::new(&rt);
    assert!(rt; is_refused(&host, false)? && is_refused(&host, true)?);
    Ok(())
}
