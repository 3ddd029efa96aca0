//! How a load is refused.
use crate::tests::loads::load;
use cache_sizes::SizeFault;
use serve_load::ServeEnd;
use std::test::Fail;

static REFUSED: &[u8] = b"
k serve-load --gets 60 --removes 41
status 2; out is
err is gets and removes exceed 100|--gets 60 and --removes 41 add to 101 per cent: lower one of them|
k serve-load --memory-bytes 1000000
status 2; out is
err is --memory-bytes is given without --size|give --size too, or leave --memory-bytes out|
k serve-load --size 12287
status 2; out is
err is --size is too small for a cache|--size 12287: the least is 12288 bytes|
k serve-load --size 1048576 --memory-bytes 1000
status 2; out is
err is --memory-bytes is too small for a cache of this --size|--memory-bytes 1000 for --size 1048576: the least is 61689 bytes^ give that or more, or a smaller --size|
k serve-load --size 262144
status 2; out is
err is --memory-bytes is too small for a cache of this --size|without --memory-bytes it is an eighth of --size 262144, 32768 bytes: give --memory-bytes 41603 or more|
k serve-load --device no~such~folder
status 3; out is
err is file fault|no such folder/lane-0.dev: the file can't be opened: No such file or directory (os error 2)|name a folder with --device that exists and that no other load uses|
";

#[test]
fn each_refusal_tells_its_line(rt: HostRuntime) -> Result<(), Fail> {
    load(&rt, REFUSED)
}

static FAULTS: [SizeFault; 7] = [
    SizeFault::FlashTooSmall,
    SizeFault::FlashTooLarge,
    SizeFault::NoObjectBytes,
    SizeFault::ObjectTooLarge,
    SizeFault::NoThreads,
    SizeFault::TooManyThreads,
    SizeFault::MemoryTooSmall,
];

/// What is reported of a size that no cache has: the option whose number is wrong.
fn line_of(fault: SizeFault) -> &'static str {
    match fault {
        SizeFault::FlashTooSmall => "--size is too small for a cache",
        SizeFault::FlashTooLarge => "--size is too large for a cache",
        SizeFault::NoObjectBytes => "--value-bytes is too small for an object",
        SizeFault::ObjectTooLarge => "--value-bytes is too large for an object",
        SizeFault::NoThreads => "--callers is 0",
        SizeFault::TooManyThreads => "--callers is too large for a cache",
        _ => "--memory-bytes is too small for a cache of this --size",
    }
}

#[test]
fn a_size_that_no_cache_has_names_its_option(rt: HostRuntime) {
    for fault in &FAULTS {
        assert!(rt; ServeEnd::Size(*fault).message() == Some(line_of(*fault)));
    }
}
