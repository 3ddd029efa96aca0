//! Limits of time, by a clock that tells a second more at each look. A load looks at its start and its end, and before each operation
//! if it has a limit; no removal is timed. So of 5 seconds 4 looks tell that time is left.
use super::over::load_over;
use super::stepping::{SECOND, SteppingClock};
use std::sync::atomic::AtomicU64;
use std::test::Fail;

/// Loads of removals, each with a clock of its own.
static LIMITED: [&[u8]; 4] = [
    b"k serve-load --lanes=1 --gets=0 --removes=100 --callers=1 --seconds=5
status 0; err is; begins operations 4|seconds 6.000|",
    b"k serve-load --lanes=1 --gets=0 --removes=100 --callers=3 --seconds=5
status 0; err is; begins operations 4|seconds~",
    b"k serve-load --lanes=1 --gets=0 --removes=100 --callers=1 --seconds=5 --operations=3
status 0; err is; begins operations 3|seconds 4.000|",
    b"k serve-load --lanes=1 --gets=0 --removes=100 --callers=1 --seconds=0 --operations=9
status 0; err is; begins operations 9|seconds 1.000|",
];

#[test]
fn a_load_ends_at_the_first_operation_after_its_time(rt: HostRuntime) -> Result<(), Fail> {
    for text in LIMITED {
        load_over(&SteppingClock::new(&rt, &AtomicU64::new(0), SECOND), text)?;
    }
    Ok(())
}

/// Without a limit only times are looked for: of 33 gets those of numbers 0, 16 and 32 are timed, by two looks each.
static TIMED: &[u8] = b"
k serve-load --lanes=1 --gets=100 --removes=0 --callers=1 --operations=33
status 0; err is; begins operations 33|seconds 7.000|; has |get-max-ns 1000000000|
";

#[test]
fn one_operation_in_sixteen_is_timed_in_nanoseconds(rt: HostRuntime) -> Result<(), Fail> {
    load_over(&SteppingClock::new(&rt, &AtomicU64::new(0), SECOND), TIMED)
}
