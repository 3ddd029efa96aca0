// What a user sees of a run that takes a while.
use std::io::{IsTerminal, Write};
use std::sync::Wait;
use std::sync::atomic::{AtomicU64, Ordering};
use std::thread::sleep;
use std::time::{Clock, Duration};

/// Milliseconds between one look at the callers and the next.
const LOOK: u64 = 50;

/// How many looks lie before the first line.
const SOON: u32 = 2;

/// How many looks lie between two lines.
const LATER: u32 = 10;

/// Tells how many of all calls were made, as they are counted in `made`, at most twice a second, if `err` is a terminal,
/// until no caller is running. Each line is written over the one before, and the last one stays. What `err` refuses is not
/// told.
pub(crate) fn watch<R: Wait + Clock, E: Write + IsTerminal>(
    rt: &R,
    all: u64,
    running: &AtomicU64,
    made: &AtomicU64,
    err: &mut E,
) {
    if !err.is_terminal() {
        return;
    }
    let mut told = false;
    let mut looks = SOON;
    for _ in rt.forever() {
        if have_ended(rt, running, looks) {
            break;
        }
        let calls = made.load(Ordering::SeqCst);
        let _ = write!(err, "{calls} of {all} calls\r");
        let _ = err.flush();
        told = true;
        looks = LATER;
    }
    if told {
        let _ = err.write_all(b"\n");
    }
}

/// Whether all callers have ended, within this many looks.
fn have_ended<R: Clock>(rt: &R, running: &AtomicU64, looks: u32) -> bool {
    for _ in 0..looks {
        if running.load(Ordering::SeqCst) == 0 {
            return true;
        }
        sleep(rt, Duration::from_millis(LOOK));
    }
    false
}
