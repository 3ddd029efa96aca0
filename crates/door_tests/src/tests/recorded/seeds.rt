//! The seed of a run's tables, which comes from the host.
use crate::tests::loads::load;
use std::test::Fail;
use test_devices::WithoutRandom;

/// A run that draws no seed. The file of the trace is made before the seed is drawn, and stays.
static UNSEEDED: &[u8] = b"
k run --operations 20 --callers 2 --trace unseeded.trace
status 3; out is
err is file fault|no random numbers: permission denied|they are the seed of the tables: try again|
remove unseeded.trace
";

#[test]
fn nothing_is_run_without_random_numbers(rt: HostRuntime) -> Result<(), Fail> {
    load(&WithoutRandom::new(&rt), UNSEEDED)
}
