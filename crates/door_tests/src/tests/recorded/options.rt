//! The options of a run: what each may be, and the load that they give.
use crate::tests::asked::ask;
use std::test::Fail;

/// Each setting at the least and the greatest number that it may be, and at the next further out.
static RANGES: &[u8] = b"
k run --trace t --lanes 1 -> run lanes 1; k run --trace t --lanes 16 -> run lanes 16
k run --trace t --lanes 0 -> refused; has --lanes; k run --trace t --lanes 17 -> refused; has --lanes
k run --trace t --sets 1 -> run sets 1; k run --trace t --sets 65536 -> run sets 65536
k run --trace t --sets 0 -> refused; has --sets; k run --trace t --sets 65537 -> refused; has --sets
k run --trace t --memory 1 -> run memory 1; k run --trace t --memory 1048576 -> run memory 1048576
k run --trace t --memory 0 -> refused; has --memory; k run --trace t --memory 1048577 -> refused; has --memory
k run --trace t --segments 2 -> run segments 2; k run --trace t --segments 256 -> run segments 256
k run --trace t --segments 1 -> refused; has --segments; k run --trace t --segments 257 -> refused; has --segments
k run --trace t --segment-pages 1 -> run segment-pages 1; k run --trace t --segment-pages 64 -> run segment-pages 64
k run --trace t --segment-pages 0 -> refused; has --segment-pages; k run --trace t --segment-pages 65 -> refused; has --segment-pages
k run --trace t --entries 1 -> run entries 1; k run --trace t --entries 1048576 -> run entries 1048576
k run --trace t --entries 0 -> refused; has --entries; k run --trace t --entries 1048577 -> refused; has --entries
k run --trace t --threshold 1 -> run threshold 1; k run --trace t --threshold 32 -> run threshold 32
k run --trace t --threshold 0 -> refused; has --threshold; k run --trace t --threshold 33 -> refused; has --threshold
k run --trace t --admit 0 -> run admit 0; k run --trace t --admit 65536 -> run
k run --trace t --admit 65537 -> refused; has --admit
k run --trace t --callers 1 -> run callers 1; k run --trace t --callers 64 -> run callers 64
k run --trace t --callers 0 -> refused; has --callers; k run --trace t --callers 65 -> refused; has --callers
k run --trace t --operations 1 -> run operations 1; k run --trace t --operations 1000000 -> run operations 1000000
k run --trace t --operations 0 -> refused; has --operations; k run --trace t --operations 1000001 -> refused; has --operations
k run --trace t --keys 1 -> run keys 1; k run --trace t --keys 1000000 -> run keys 1000000
k run --trace t --keys 0 -> refused; has --keys; k run --trace t --keys 1000001 -> refused; has --keys
k run --trace t --value-bytes 0 -> run value-bytes 0; k run --trace t --value-bytes 2048 -> run value-bytes 2048
k run --trace t --value-bytes 2049 -> refused; has --value-bytes
k run --trace t --gets 0 -> run gets 0; k run --trace t --gets 100 -> run gets 100
k run --trace t --gets 101 -> refused; has --gets
k run --trace t --removes 0 -> run removes 0; k run --trace t --removes 100 -> run removes 100
k run --trace t --removes 101 -> refused; has --removes
k run --trace t --workers 1 -> run workers 1; k run --trace t --workers 16 -> run workers 16
k run --trace t --workers 0 -> refused; has --workers; k run --trace t --workers 17 -> refused; has --workers
k run --trace t --seed 0 -> run seed 0; k run --trace t --seed 4294967295 -> run seed 4294967295
k run --trace t --seed 4294967296 -> refused; has --seed
k run --trace t --ttl 0 -> run; k run --trace t --ttl 1000000 -> run ttl 1000000
k run --trace t --ttl 1000001 -> refused; has --ttl
";

/// A setting that is not given is its default.
static LOADS: &[u8] = b"
k run --trace t -> run
k run --trace t --device a~folder -> run device=a folder
k run --device=d --lanes 2 --trace t -> run lanes 2 device=d
k run --json --trace t -> run json
";

static NO_RUNS: &[u8] = b"
k run -> refused; has --trace
k run --trace -> refused; has --trace
k run --trace t --lanes x -> refused; has error: --lanes takes a number from 1 to 16, not `x`|
k run --trace t --lanes=17 -> refused; has error: --lanes takes a number from 1 to 16, not 17|
k serve-load --size 1125899906842625 -> refused
has error: --size takes a number from 0 to 1125899906842624, or as 512K, 100M or 64G, not 1125899906842625|
k serve-load --leases -1 -> refused; has error:~
k run --trace t --lanes ~ -> refused; has --lanes
k run --trace t --lanes=4.0 -> refused; has --lanes
k run --trace t --lanes=18446744073709551620 -> refused; has --lanes
k run --trace t --device -> refused; has --device
k run --trace t --devices d -> refused; has --devices
k run --trace t more -> refused; has more
";

#[test]
fn each_setting_takes_the_numbers_of_its_range(rt: HostRuntime) -> Result<(), Fail> {
    ask(rt.alloc(), RANGES)
}

#[test]
fn a_load_has_the_folder_and_the_form_of_its_options(rt: HostRuntime) -> Result<(), Fail> {
    ask(rt.alloc(), LOADS)
}

#[test]
fn what_is_no_run_gets_a_usage(rt: HostRuntime) -> Result<(), Fail> {
    ask(rt.alloc(), NO_RUNS)
}
