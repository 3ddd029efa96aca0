//! The seed of a load's cache, which comes from the host.
use crate::tests::loads::load;
use std::test::Fail;
use test_devices::WithoutRandom;

static UNSEEDED: &[u8] = b"
k serve-load --operations 20 --callers 2
status 3; out is
err is file fault|no random numbers: permission denied|they are the seed of the tables: try again|
";

#[test]
fn nothing_is_served_without_random_numbers(rt: HostRuntime) -> Result<(), Fail> {
    load(&WithoutRandom::new(&rt), UNSEEDED)
}
