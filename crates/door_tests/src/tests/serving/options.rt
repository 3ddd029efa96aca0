//! The options of a load: what each may be, and the load that they give.
use crate::tests::asked::ask;
use load::{SERVE_SETTINGS, SETTINGS, Setting};
use std::alloc::{AllocError, Global};
use std::test::Fail;

/// Each setting at the least and the greatest number that it may be, and at the next further out.
static RANGES: &[u8] = b"
k serve-load --lanes 1 -> serve lanes 1; k serve-load --lanes 16 -> serve lanes 16
k serve-load --lanes 0 -> refused; has --lanes; k serve-load --lanes 17 -> refused; has --lanes
k serve-load --sets 1 -> serve sets 1; k serve-load --sets 65536 -> serve sets 65536
k serve-load --sets 0 -> refused; has --sets; k serve-load --sets 65537 -> refused; has --sets
k serve-load --memory 1 -> serve memory 1; k serve-load --memory 1048576 -> serve memory 1048576
k serve-load --memory 0 -> refused; has --memory; k serve-load --memory 1048577 -> refused; has --memory
k serve-load --segments 2 -> serve segments 2; k serve-load --segments 256 -> serve segments 256
k serve-load --segments 1 -> refused; has --segments; k serve-load --segments 257 -> refused; has --segments
k serve-load --segment-pages 1 -> serve segment-pages 1; k serve-load --segment-pages 64 -> serve segment-pages 64
k serve-load --segment-pages 0 -> refused; has --segment-pages; k serve-load --segment-pages 65 -> refused; has --segment-pages
k serve-load --entries 1 -> serve entries 1; k serve-load --entries 1048576 -> serve entries 1048576
k serve-load --entries 0 -> refused; has --entries; k serve-load --entries 1048577 -> refused; has --entries
k serve-load --threshold 1 -> serve threshold 1; k serve-load --threshold 32 -> serve threshold 32
k serve-load --threshold 0 -> refused; has --threshold; k serve-load --threshold 33 -> refused; has --threshold
k serve-load --admit 0 -> serve admit 0; k serve-load --admit 65536 -> serve
k serve-load --admit 65537 -> refused; has --admit
k serve-load --callers 1 -> serve callers 1; k serve-load --callers 64 -> serve callers 64
k serve-load --callers 0 -> refused; has --callers; k serve-load --callers 65 -> refused; has --callers
k serve-load --operations 1 -> serve operations 1; k serve-load --operations 1000000000 -> serve operations 1000000000
k serve-load --operations 0 -> refused; has --operations; k serve-load --operations 1000000001 -> refused; has --operations
k serve-load --keys 1 -> serve keys 1; k serve-load --keys 100000000 -> serve keys 100000000
k serve-load --keys 0 -> refused; has --keys; k serve-load --keys 100000001 -> refused; has --keys
k serve-load --value-bytes 8 -> serve value-bytes 8; k serve-load --value-bytes 2048 -> serve value-bytes 2048
k serve-load --value-bytes 7 -> refused; has --value-bytes; k serve-load --value-bytes 2049 -> refused; has --value-bytes
k serve-load --gets 0 -> serve gets 0; k serve-load --gets 100 -> serve gets 100
k serve-load --gets 101 -> refused; has --gets
k serve-load --removes 0 -> serve removes 0; k serve-load --removes 100 -> serve removes 100
k serve-load --removes 101 -> refused; has --removes
k serve-load --workers 1 -> serve workers 1; k serve-load --workers 16 -> serve workers 16
k serve-load --workers 0 -> refused; has --workers; k serve-load --workers 17 -> refused; has --workers
k serve-load --seed 0 -> serve seed 0; k serve-load --seed 4294967295 -> serve seed 4294967295
k serve-load --seed 4294967296 -> refused; has --seed
k serve-load --ttl 0 -> serve; k serve-load --ttl 1000000000 -> serve ttl 1000000000
k serve-load --ttl 1000000001 -> refused; has --ttl
k serve-load --shards 1 -> serve; k serve-load --shards 1024 -> serve shards 1024
k serve-load --shards 0 -> refused; has --shards; k serve-load --shards 1025 -> refused; has --shards
k serve-load --leases 0 -> serve; k serve-load --leases 1048576 -> serve leases 1048576
k serve-load --leases 1048577 -> refused; has --leases
k serve-load --bring-back 0 -> serve; k serve-load --bring-back 1000000 -> serve bring-back 1000000
k serve-load --bring-back 1000001 -> refused; has --bring-back
k serve-load --seconds 0 -> serve; k serve-load --seconds 2147483648 -> serve seconds 2147483648
k serve-load --seconds 2147483649 -> refused; has --seconds
";

/// Sizes are the bytes of their units.
static SIZES: &[u8] = b"
k serve-load -> serve
k serve-load --size 1125899906842624 --memory-bytes=0 -> serve size 1125899906842624 memory-bytes 0
k serve-load --size 1125899906842625 -> refused; has --size
k serve-load --memory-bytes 1125899906842625 -> refused; has --memory-bytes
k serve-load --size 512K -> serve size 524288; k serve-load --size=9 --memory-bytes 512K -> serve size 9 memory-bytes 524288
k serve-load --size 100M -> serve size 104857600; k serve-load --size=9 --memory-bytes 100M -> serve size 9 memory-bytes 104857600
k serve-load --size 64G -> serve size 68719476736; k serve-load --size=9 --memory-bytes 64G -> serve size 9 memory-bytes 68719476736
k serve-load --size +1G -> serve size 1073741824; k serve-load --size=9 --memory-bytes +1G -> serve size 9 memory-bytes 1073741824
k serve-load --size 0K -> serve size 0; k serve-load --size=9 --memory-bytes 0K -> serve size 9 memory-bytes 0
k serve-load --size 1048576G -> serve size 1125899906842624; k serve-load --size=9 --memory-bytes 1048576G -> serve size 9 memory-bytes 1125899906842624
# No sizes are another letter, one alone, one that is not the last, and more bytes than a size may be, or than 64 bits hold.
k serve-load --size 64T -> refused; has error: --size takes a number from 0 to 1125899906842624, or as 512K, 100M or 64G, not `64T`|
k serve-load --memory-bytes 64T -> refused; has error: --memory-bytes takes a number from 0 to 1125899906842624, or as 512K, 100M or 64G, not `64T`|
k serve-load --size 64g -> refused; has error: --size takes a number from 0 to 1125899906842624, or as 512K, 100M or 64G, not `64g`|
k serve-load --memory-bytes 64g -> refused; has error: --memory-bytes takes a number from 0 to 1125899906842624, or as 512K, 100M or 64G, not `64g`|
k serve-load --size 64KB -> refused; has error: --size takes a number from 0 to 1125899906842624, or as 512K, 100M or 64G, not `64KB`|
k serve-load --memory-bytes 64KB -> refused; has error: --memory-bytes takes a number from 0 to 1125899906842624, or as 512K, 100M or 64G, not `64KB`|
k serve-load --size 1K5 -> refused; has error: --size takes a number from 0 to 1125899906842624, or as 512K, 100M or 64G, not `1K5`|
k serve-load --memory-bytes 1K5 -> refused; has error: --memory-bytes takes a number from 0 to 1125899906842624, or as 512K, 100M or 64G, not `1K5`|
k serve-load --size K -> refused; has error: --size takes a number from 0 to 1125899906842624, or as 512K, 100M or 64G, not `K`|
k serve-load --memory-bytes K -> refused; has error: --memory-bytes takes a number from 0 to 1125899906842624, or as 512K, 100M or 64G, not `K`|
k serve-load --size ~ -> refused; has error: --size takes a number from 0 to 1125899906842624, or as 512K, 100M or 64G, not ``|
k serve-load --memory-bytes ~ -> refused; has error: --memory-bytes takes a number from 0 to 1125899906842624, or as 512K, 100M or 64G, not ``|
k serve-load --size 1.5G -> refused; has error: --size takes a number from 0 to 1125899906842624, or as 512K, 100M or 64G, not `1.5G`|
k serve-load --memory-bytes 1.5G -> refused; has error: --memory-bytes takes a number from 0 to 1125899906842624, or as 512K, 100M or 64G, not `1.5G`|
k serve-load --size 64~G -> refused; has error: --size takes a number from 0 to 1125899906842624, or as 512K, 100M or 64G, not `64 G`|
k serve-load --memory-bytes 64~G -> refused; has error: --memory-bytes takes a number from 0 to 1125899906842624, or as 512K, 100M or 64G, not `64 G`|
k serve-load --size 1048577G -> refused; has error: --size takes a number from 0 to 1125899906842624, or as 512K, 100M or 64G, not `1048577G`|
k serve-load --memory-bytes 1048577G -> refused; has error: --memory-bytes takes a number from 0 to 1125899906842624, or as 512K, 100M or 64G, not `1048577G`|
k serve-load --size 17179869184G -> refused; has error: --size takes a number from 0 to 1125899906842624, or as 512K, 100M or 64G, not `17179869184G`|
k serve-load --memory-bytes 17179869184G -> refused; has error: --memory-bytes takes a number from 0 to 1125899906842624, or as 512K, 100M or 64G, not `17179869184G`|
";

/// The flags, and limits that are no numbers.
static FLAGS: &[u8] = b"
k serve-load --json -> serve json
k serve-load --zipf -> serve zipf
k serve-load --zipf=1 -> refused; has error: unexpected value '1' for '--zipf' found
k serve-load --zipf 1 -> refused; has error: unexpected argument '1' found
k serve-load --seconds x -> refused; has --seconds
k serve-load --seconds ~ -> refused; has --seconds
k serve-load --seconds 1.5 -> refused; has --seconds
k serve-load --seconds 1K -> refused; has --seconds
k serve-load --seconds 2147483649 -> refused; has --seconds
";

/// What a size determines may not be given with one, also if it is given its default.
static WITH_SIZE: &[u8] = b"
k serve-load --size 1M --lanes 4 -> refused
has error: --lanes can't be given with --size, which determines it: leave --lanes or --size out|
k serve-load --size 1M --sets 64 -> refused
has error: --sets can't be given with --size, which determines it: leave --sets or --size out|
k serve-load --size 1M --memory 64 -> refused
has error: --memory can't be given with --size, which determines it: leave --memory or --size out|
k serve-load --size 1M --segments 8 -> refused
has error: --segments can't be given with --size, which determines it: leave --segments or --size out|
k serve-load --size 1M --segment-pages 4 -> refused
has error: --segment-pages can't be given with --size, which determines it: leave --segment-pages or --size out|
k serve-load --size 1M --entries 4096 -> refused
has error: --entries can't be given with --size, which determines it: leave --entries or --size out|
k serve-load --size 1M --shards 1 -> refused
has error: --shards can't be given with --size, which determines it: leave --shards or --size out|
# Numbers are refused first, then sizes, then what a size determines.
k serve-load --size x --shards=1 --ttl=x -> refused; has error: --ttl takes~
k serve-load --size x --shards=1 -> refused; has error: --size takes~
k serve-load --size=1 --shards=1 --memory=1 -> refused; has error: --memory can't be given~
# The other settings may be given.
k serve-load --size=1M --threshold=3 --admit=7 --leases=5 --bring-back=9 -> serve threshold 3 admit 7 leases 5 bring-back 9 size 1048576
";

#[test]
fn each_setting_takes_the_numbers_of_its_range(rt: HostRuntime) -> Result<(), Fail> {
    ask(rt.alloc(), RANGES)
}

#[test]
fn a_size_is_the_bytes_of_its_units(rt: HostRuntime) -> Result<(), Fail> {
    ask(rt.alloc(), SIZES)
}

#[test]
fn keys_are_drawn_by_zipfs_law_if_the_flag_is_given(rt: HostRuntime) -> Result<(), Fail> {
    ask(rt.alloc(), FLAGS)
}

#[test]
fn a_setting_that_a_size_determines_is_refused_with_one(rt: HostRuntime) -> Result<(), Fail> {
    ask(rt.alloc(), WITH_SIZE)
}

/// Whether the help of each setting ends with its default.
fn tell_defaults(alloc: Global, settings: &[Setting]) -> Result<bool, AllocError> {
    for setting in settings {
        let told = format!(in alloc; " [default: {}]", setting.default_word())?;
        if !setting.meaning().ends_with(told.as_str()) {
            return Ok(false);
        }
    }
    Ok(true)
}

#[test]
fn the_help_of_each_setting_ends_with_its_default(rt: HostRuntime) -> Result<(), Fail> {
    assert!(rt;
        tell_defaults(rt.alloc(), &SERVE_SETTINGS)? && tell_defaults(rt.alloc(), &SETTINGS)?
    );
    Ok(())
}
