//! Loads with fixed seeds, whose schedules differ and whose ends do not.
use super::over::load_over;
use crate::tests::loads::load;
use std::test::Fail;

/// Two shards of small lanes, which hold a small part of the keys; the same with leases and puts that expire; and a cache of a size,
/// in files, which it leaves.
static RIGHT: &[u8] = b"
k serve-load --shards 2 --lanes 2 --sets 3 --memory 4 --segments 3 --segment-pages 1 --callers 3 --operations 4000 --keys 200
status 0; err is
out begins operations 12000|seconds~
out ends |refused 0|wrong-hits 0|no history was recorded, so nothing was judged beyond each caller's check of the hits of its own keys|
k serve-load --lanes 2 --sets 3 --memory 4 --leases 8 --ttl 500 --callers 3 --operations 4000 --keys 200 --value-bytes 9
status 0; err is
out begins operations 12000|seconds~
out ends |refused 0|wrong-hits 0|no history was recorded, so nothing was judged beyond each caller's check of the hits of its own keys|
folder sized.devices
k serve-load --size 4194304 --device sized.devices --callers 2 --operations 2000
status 0; err is
out begins operations 4000|seconds~
out ends |refused 0|wrong-hits 0|no history was recorded, so nothing was judged beyond each caller's check of the hits of its own keys|
is-file sized.devices/lane-0.dev; clear sized.devices
";

/// One lane of one set, which most hits come from; and the same with leases, and with longer values of fewer keys, of which most are
/// filled. The device's first page goes back to what it was before its last write.
static STALE: &[u8] = b"
stale; k serve-load --lanes 1 --sets 1 --memory 1 --segments 2 --segment-pages 1 --threshold 1 --callers 1 --operations 100000 --keys 60 --gets 50
status 1; caught
stale; k serve-load --lanes 1 --sets 1 --memory 1 --segments 2 --segment-pages 1 --threshold 1 --leases 16 --callers 1 --operations 20000 --keys 30 --gets 30 --value-bytes 250
status 1; caught
";

#[test]
fn a_load_meets_no_wrong_hit(rt: HostRuntime) -> Result<(), Fail> {
    load(&rt, RIGHT)
}

#[test]
fn a_page_that_goes_back_is_found_as_a_wrong_hit(rt: HostRuntime) -> Result<(), Fail> {
    load_over(&rt, STALE)
}
