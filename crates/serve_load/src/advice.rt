// What to do about a load that ended otherwise than it should.
use crate::serve_end::ServeEnd;
use crate::sized::least_memory;
use cache_sizes::{MIN_FLASH_BYTES, SizeFault};
use load::ServeLoad;
use std::io::Write;

/// Tells what to do about the end of a load, in a line, if there is something to do. What `err` refuses is not told, here and below.
pub(crate) fn advise<E: Write>(err: &mut E, load: &ServeLoad, end: ServeEnd) {
    let _ = match end {
        ServeEnd::Right | ServeEnd::FileFault => Ok(()),
        ServeEnd::WrongHit => write!(
            err,
            "the report counts it: the cache or a device is at fault; please report it with the command line\n"
        ),
        ServeEnd::SharesExceed => {
            let sum = load.gets + load.removes;
            write!(
                err,
                "--gets {} and --removes {} add to {sum} per cent: lower one of them\n",
                load.gets, load.removes
            )
        }
        ServeEnd::NoSize => write!(err, "give --size too, or leave --memory-bytes out\n"),
        ServeEnd::OutOfMemory => write!(
            err,
            "memory was refused, or a thread: use fewer --callers or --keys, or a smaller cache\n"
        ),
        ServeEnd::Size(fault) => return advise_on_size(err, load, fault),
    };
}

/// Tells what to do about a size that no cache has.
fn advise_on_size<E: Write>(err: &mut E, load: &ServeLoad, fault: SizeFault) {
    let size = load.size.unwrap_or(0);
    let value_bytes = u64::from(load.value_bytes);
    let callers = u64::from(load.callers);
    match fault {
        SizeFault::FlashTooSmall => {
            let _ = write!(err, "--size {size}: the least is {MIN_FLASH_BYTES} bytes\n");
        }
        SizeFault::FlashTooLarge => ask_for(err, "--size", size, "fewer bytes"),
        SizeFault::NoObjectBytes => ask_for(err, "--value-bytes", value_bytes, "more bytes"),
        SizeFault::ObjectTooLarge => ask_for(err, "--value-bytes", value_bytes, "fewer bytes"),
        SizeFault::NoThreads => ask_for(err, "--callers", callers, "one or more"),
        SizeFault::TooManyThreads => ask_for(err, "--callers", callers, "fewer"),
        SizeFault::MemoryTooSmall => advise_on_memory(err, load, size),
    }
}

/// Asks for another number than the one that an option has.
fn ask_for<E: Write>(err: &mut E, option: &str, number: u64, wanted: &str) {
    let _ = write!(err, "{option} {number}: give {wanted}\n");
}

/// Tells how much memory a cache of a size takes, and which option to change. Memory that is not given is an eighth of the size.
fn advise_on_memory<E: Write>(err: &mut E, load: &ServeLoad, size: u64) {
    let Some(least) = least_memory(load, size) else {
        return;
    };
    let _ = match load.memory_bytes {
        Some(given) => write!(
            err,
            "--memory-bytes {given} for --size {size}: the least is {least} bytes; give that or more, or a smaller --size\n"
        ),
        None => {
            let eighth = size / 8;
            write!(
                err,
                "without --memory-bytes it is an eighth of --size {size}, {eighth} bytes: give --memory-bytes {least} or more\n"
            )
        }
    };
}
